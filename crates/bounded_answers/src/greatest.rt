//! The greatest value, with bounded refutations.
ghost use Rattle.std.specs.Prelude.{false, true, IfOk};
ghost use Rattle.bounded_answers.specs.ValueLevels.{AreLevels, IsOpenOnlyPast};

use crate::asking::GoalSearch;
use crate::first_values::placed_first;
use crate::placed_values::PlacedValue;
use crate::value_base::{plain_base, proposed_base};
use crate::value_levels::ValueLevels;
use box_instances::{Instance, NoMemory};
use std::alloc::Global;
use std::sync::Wait;
use std::thread::Threads;
use work_share::{Gate, Settings};

// Behind the choice trees.
fn behind_trees<R: Threads + Wait + Sync, G: Gate + Sync>(
    rt: &R,
    alloc: Global,
    instance: &Instance,
    settings: &Settings,
    gate: &G,
) -> Result<ValueLevels, NoMemory>
    ensures levels { IfOk result (λ l. AreLevels instance.now l) }
    ensures past { IfOk result (λ l. IsOpenOnlyPast false instance.now settings.now l) }
{
    let base = plain_base(rt, alloc, instance, settings, gate)?;
    if !settings.scales {
        return Ok(base);
    }
    let mut search = GoalSearch::new(alloc, instance, settings.budget)?;
    let near = search.bisect(alloc, instance, base)?;
    search.narrow(alloc, instance, near)
}

// Behind proposals. The value above the proposed boxes is asked first: most often it is refuted,
// and then no choice tree is needed.
fn behind_proposals<R: Threads + Wait + Sync, G: Gate + Sync>(
    rt: &R,
    alloc: Global,
    instance: &Instance,
    settings: &Settings,
    gate: &G,
) -> Result<ValueLevels, NoMemory>
    ensures levels { IfOk result (λ l. AreLevels instance.now l) }
    ensures past { IfOk result (λ l. IsOpenOnlyPast true instance.now settings.now l) }
{
    if !settings.scales {
        return proposed_base(rt, alloc, instance, settings, gate);
    }
    let mut search = GoalSearch::new(alloc, instance, settings.budget)?;
    let first = placed_first(rt, alloc, instance, settings)?;
    let near = search.ask_beside(alloc, instance, first)?;
    if near.are_closed() {
        return Ok(near);
    }
    let base = proposed_base(rt, alloc, instance, settings, gate)?;
    let found = PlacedValue {
        worth: near.placed,
        numbers: near.numbers,
    };
    search.narrow(alloc, instance, base.raised(found))
}

/// The greatest value of a set of boxes that fits, or two values between which it lies, with both
/// certificates.
///
/// It begins with the levels of the run without priced leaves: those of `greatest_value`, or with
/// proposals those of `greatest_value_proposed`. Proposed trees with priced leaves, and sets of
/// boxes, narrow them where they pass their test. So the levels stay open only where that run's do,
/// and lie within them. Which boxes and which refutation isn't promised. With `scales` off no tree
/// with priced leaves is proposed, since these are made of scale functions.
pub fn greatest_value_bounded<R: Threads + Wait + Sync, G: Gate + Sync>(
    rt: &R,
    alloc: Global,
    instance: &Instance,
    settings: &Settings,
    proposals: bool,
    gate: &G,
) -> Result<ValueLevels, NoMemory>
    ensures levels { IfOk result (λ l. AreLevels instance.now l) }
    ensures past { IfOk result (λ l. IsOpenOnlyPast proposals instance.now settings.now l) }
{
    if proposals {
        behind_proposals(rt, alloc, instance, settings, gate)
    } else {
        behind_trees(rt, alloc, instance, settings, gate)
    }
}
