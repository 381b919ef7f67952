//! The order of the entries: each is linked to the one behind it in prefix order.
ghost use Rattle.std.specs.Prelude.{◌≡◌, ◌<◌, length, vec_len, vec_capacity};
ghost use Rattle.work_share.specs.Links.{link_to, next_of, with_link};

use crate::slot::Slot;

// The link to the first of `more` entries, numbered from `number` on, or to what is behind them.
pub(crate) fn link_to(number: usize, more: usize, behind: Option<usize>) -> Option<usize>
    ensures { result ≡ link_to number more behind }
{
    if more == 0 { behind } else { Some(number) }
}

// The number of the entry behind the one of this number.
pub(crate) fn next_of(slots: &[Slot], number: usize) -> Option<usize>
    requires { number < length slots.now }
    ensures { result ≡ next_of slots.now number }
{
    slots[number].behind
}

// Links the entry of a number to another one.
pub(crate) fn put_link(slots: &mut Vec<Slot>, number: usize, link: Option<usize>)
    requires { number < vec_len slots.old }
    ensures items { slots.new.items ≡ with_link slots.old.items number link }
    ensures len { vec_len slots.new ≡ vec_len slots.old }
    ensures capacity { vec_capacity slots.new ≡ vec_capacity slots.old }
{
    slots[number].behind = link;
}
