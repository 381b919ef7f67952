//! The leftmost finished run of a board, as far as it is known.
ghost use Rattle.std.specs.Prelude.{◌≡◌, ◌<◌, length, slice_get};
ghost use Rattle.work_share.specs.Kept.{AreBelow};
ghost use Rattle.work_share.specs.Slots.{entry_at, entries_of};
ghost use Rattle.work_share.specs.Links.{order_of, IsLinked};
ghost use Rattle.work_share.specs.Fronts.{piece_of, HasFrontTo, IsFront};

use crate::link::next_of;
use crate::slot::{Piece, Slot};

// The first `len` entries are finished with no, and `count` is the sum of their counts. Also
// whether the run ends with the next entry, and the number of that one, if there is a next.
#[derive(Clone, Copy)]
pub(crate) struct FinishedPrefix {
    pub len: usize,
    pub count: u64,
    pub is_ended: bool,
    pub behind: Option<usize>,
}

impl FinishedPrefix {
    pub fn new(len: usize, count: u64, is_ended: bool, behind: Option<usize>) -> FinishedPrefix
        ensures { result ≡ record {
          len = len;
          count = count;
          is_ended = is_ended;
          behind = behind;
        } }
    {
        FinishedPrefix {
            len,
            count,
            is_ended,
            behind,
        }
    }
}

// What the entry of a number is for the run.
fn piece_at(slots: &[Slot], number: usize) -> Piece
    requires { number < length slots.now }
    ensures { result ≡ piece_of (entry_at slots.now number) }
{
    slots[number].piece()
}

// The front, taken on as far as it goes.
pub(crate) fn advance(slots: &[Slot], budget: u64, front: FinishedPrefix) -> FinishedPrefix
    requires below { AreBelow (length slots.now) (order_of slots.now) }
    requires size { length slots.now ≡ length (order_of slots.now) }
    requires linked { IsLinked slots.now front.len front.behind }
    requires known { HasFrontTo budget (entries_of slots.now (order_of slots.now)) front.len
        front.count front.is_ended }
    ensures linked { IsLinked slots.now result.len result.behind }
    ensures front { IsFront budget (entries_of slots.now (order_of slots.now)) result.len
        result.count result.is_ended }
{
    if front.is_ended {
        return front;
    }
    let mut count = front.count;
    let mut behind = front.behind;
    for len in front.len..slots.len() {
        let Some(number) = behind else { unreachable!() };
        let more = match piece_at(slots, number) {
            Piece::Open => return FinishedPrefix::new(len, count, false, behind),
            Piece::Refuted(more) => more,
            Piece::Found => return FinishedPrefix::new(len, count, true, behind),
            Piece::Spent => return FinishedPrefix::new(len, count, true, behind),
        };
        if more > budget - count {
            return FinishedPrefix::new(len, count, true, behind);
        }
        count += more;
        behind = next_of(slots, number);
    }
    FinishedPrefix::new(slots.len(), count, false, behind)
}
