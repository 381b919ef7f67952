//! The joining of a finished run.
ghost use Rattle.std.specs.Prelude.{◌≡◌, ◌≤◌, ◌<◌, ◌++◌, ℕ, List, length, IfOk, OnOk, Some, true, false};
ghost use Rattle.packing_terms.specs.Tokens.{PlainToken};
ghost use Rattle.tree_terms.specs.Trees.{No, join, under_budget};
ghost use Rattle.work_share.specs.Kept.{AreBelow, AreDistinct};
ghost use Rattle.work_share.specs.Runs.{Run, run_of, with_entry};
ghost use Rattle.work_share.specs.Outcomes.{plain_outcome};
ghost use Rattle.work_share.specs.Slots.{entry_of, entries_of};
ghost use Rattle.work_share.specs.Links.{order_of, IsChain, IsLinked};
ghost use Rattle.work_share.specs.Fronts.{IsFront, Ends, piece_of};
ghost use Rattle.work_share.specs.Joining.{tokens_told, tokens_in, entry_tokens};

use crate::front::FinishedPrefix;
use crate::link::next_of;
use crate::slot::{Slot, SlotState};
use box_instances::NoMemory;
use proof_tree::{CompactTokens, Outcome};
use std::alloc::Global;
use std::mem;

// What a run comes to that ends with this entry, where this count stands before it.
fn end_run(slot: &mut Slot, budget: u64, before: u64) -> Outcome
    requires within { before ≤ budget }
    requires ends { (number : ℕ) → Ends budget before (piece_of (entry_of number slot.old)) }
    ensures { (number : ℕ) (tokens : List PlainToken) (run : Run)
        → plain_outcome result ≡ under_budget budget (join (No tokens before)
        (with_entry budget (entry_of number slot.old) run).verdict) }
{
    match mem::replace(&mut slot.state, SlotState::Out) {
        SlotState::Done(Outcome::Yes { numbers, count }) if count <= budget - before => {
            Outcome::Yes {
                numbers,
                count: before + count,
            }
        }
        _ => Outcome::Past,
    }
}

// Moves the tokens of an outcome behind others.
fn push_told(tokens: &mut CompactTokens, outcome: Outcome) -> Result<(), NoMemory>
    ensures { OnOk result (tokens.new ≡ tokens.old ++ tokens_told (plain_outcome outcome)) }
{
    match outcome {
        Outcome::No {
            tokens: more,
            count: _,
        } => tokens.append(more),
        Outcome::Yes {
            numbers: _numbers,
            count: _,
        } => Ok(()),
        Outcome::Past => Ok(()),
    }
}

// Moves the tokens of a finished entry behind others.
fn push_tokens(tokens: &mut CompactTokens, slot: &mut Slot) -> Result<(), NoMemory>
    ensures tokens { OnOk result ((number : ℕ) → tokens.new
        ≡ tokens.old ++ tokens_in (entry_of number slot.old)) }
    ensures link { slot.new.behind ≡ slot.old.behind }
{
    match mem::replace(&mut slot.state, SlotState::Out) {
        SlotState::Done(outcome) => push_told(tokens, outcome),
        SlotState::Split {
            token,
            own: _,
            children: _,
        } => tokens.push(token),
        SlotState::Waits => Ok(()),
        SlotState::Out => Ok(()),
    }
}

// The tokens of all entries in their order.
fn join_tokens(alloc: Global, mut slots: Vec<Slot>) -> Result<CompactTokens, NoMemory>
    requires below { AreBelow (length slots.items) (order_of slots.items) }
    requires distinct { AreDistinct (order_of slots.items) }
    requires size { length slots.items ≡ length (order_of slots.items) }
    requires chain { IsChain slots.items (Some 0) (order_of slots.items) }
    ensures { IfOk result (λ tokens. tokens
        ≡ entry_tokens (entries_of slots.items (order_of slots.items))) }
{
    let mut tokens = CompactTokens::new(alloc);
    let mut behind = Some(0);
    let len = slots.len();
    for _position in 0..len {
        let Some(number) = behind else { unreachable!() };
        behind = next_of(&slots, number);
        push_tokens(&mut tokens, &mut slots[number])?;
    }
    Ok(tokens)
}

// What a run that is over comes to.
pub(crate) fn join_run(
    alloc: Global,
    mut slots: Vec<Slot>,
    budget: u64,
    front: FinishedPrefix,
) -> Result<Outcome, NoMemory>
    requires below { AreBelow (length slots.items) (order_of slots.items) }
    requires distinct { AreDistinct (order_of slots.items) }
    requires size { length slots.items ≡ length (order_of slots.items) }
    requires linked { IsLinked slots.items front.len front.behind }
    requires front { IsFront budget (entries_of slots.items (order_of slots.items)) front.len
        front.count front.is_ended }
    requires over { front.is_ended ≡ false → front.len ≡ length slots.items }
    ensures { IfOk result (λ r. plain_outcome r
        ≡ under_budget budget (run_of budget (entries_of slots.items (order_of slots.items))).verdict) }
{
    if front.is_ended {
        let Some(number) = front.behind else {
            unreachable!()
        };
        return Ok(end_run(&mut slots[number], budget, front.count));
    }
    let tokens = join_tokens(alloc, slots)?;
    Ok(Outcome::No {
        tokens,
        count: front.count,
    })
}
