//! The levels before any tree: what proposed boxes are worth, and one more than all boxes.
ghost use Rattle.std.specs.Prelude.{◌≡◌, IfOk};
ghost use Rattle.level_search.specs.Runs.{plain_reached};
ghost use Rattle.bounded_answers.specs.ValueLevels.{plain_levels, reached_levels, AreLevels};

use crate::placed_values::tested_value;
use crate::value_levels::{ValueLevels, ValueProof};
use bin_knapsack::first_values;
use box_instances::{Instance, NoMemory};
use level_search::Reached;
use proposals::propose_choice;
use proposed_answers::value_batches;
use std::alloc::Global;
use std::thread::Threads;
use work_share::Settings;

// The levels of a run that begins.
fn levels_of(first: Reached) -> ValueLevels
    ensures { plain_levels result ≡ reached_levels (plain_reached first) }
{
    ValueLevels {
        placed: first.placed,
        numbers: first.numbers,
        refuted: first.refuted,
        proof: ValueProof::Plain(first.tokens),
    }
}

// The levels that need no search: no box, and one more than all boxes are worth.
fn widest(alloc: Global, instance: &Instance) -> Result<ValueLevels, NoMemory>
    ensures { IfOk result (λ l. AreLevels instance.now l) }
{
    // For the proof alone: states the limits of the instance.
    let _limits = instance.len();
    let first = first_values(alloc, instance)?;
    Ok(levels_of(first))
}

/// The widest levels, with the proposed boxes if these pass their test.
pub(crate) fn placed_first<R: Threads + Sync>(
    rt: &R,
    alloc: Global,
    instance: &Instance,
    settings: &Settings,
) -> Result<ValueLevels, NoMemory>
    ensures { IfOk result (λ l. AreLevels instance.now l) }
{
    let widest = widest(alloc, instance)?;
    let batches = value_batches(instance, settings.budget);
    let Some(proposed) = propose_choice(rt, alloc, instance, batches, settings.workers)? else {
        return Ok(widest);
    };
    match tested_value(alloc, instance, &proposed.taken, &proposed.places)? {
        Some(found) => Ok(widest.raised(found)),
        None => Ok(widest),
    }
}
