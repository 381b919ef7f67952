//! The levels of the run without priced leaves, which the search begins with.
ghost use Rattle.std.specs.Prelude.{◌≡◌, ◌≤◌, false, true, IfOk};
ghost use Rattle.text_terms.specs.Claims.{max_worth};
ghost use Rattle.bounded_answers.specs.ValueLevels.{plain_levels, levels_told, refuted_by, AreLevels, IsOpenOnlyPast};

use crate::value_levels::{ValueLevels, ValueProof};
use bin_knapsack::{Choice, greatest_value};
use box_instances::{Instance, NoMemory};
use proposed_answers::greatest_value_proposed;
use std::alloc::Global;
use std::sync::Wait;
use std::thread::Threads;
use work_share::{Gate, Settings};

// The levels that an answer states.
fn levels_of(choice: Choice) -> ValueLevels
    requires { refuted_by choice ≤ max_worth }
    ensures { plain_levels result ≡ levels_told choice }
{
    match choice {
        Choice::Greatest {
            value,
            numbers,
            tokens,
        } => ValueLevels {
            placed: value,
            numbers,
            refuted: value + 1,
            proof: ValueProof::Plain(tokens),
        },
        Choice::Between {
            placed,
            numbers,
            refuted,
            tokens,
        } => ValueLevels {
            placed,
            numbers,
            refuted,
            proof: ValueProof::Plain(tokens),
        },
    }
}

/// The levels that the choice trees come to under the budget.
pub(crate) fn plain_base<R: Threads + Wait + Sync, G: Gate + Sync>(
    rt: &R,
    alloc: Global,
    instance: &Instance,
    settings: &Settings,
    gate: &G,
) -> Result<ValueLevels, NoMemory>
    ensures levels { IfOk result (λ l. AreLevels instance.now l) }
    ensures past { IfOk result (λ l. IsOpenOnlyPast false instance.now settings.now l) }
{
    // For the proof alone: states the limits of the instance.
    let _limits = instance.len();
    let choice = greatest_value(rt, alloc, instance, settings, gate)?;
    Ok(levels_of(choice))
}

/// The levels that proposals and the choice trees behind them come to.
pub(crate) fn proposed_base<R: Threads + Wait + Sync, G: Gate + Sync>(
    rt: &R,
    alloc: Global,
    instance: &Instance,
    settings: &Settings,
    gate: &G,
) -> Result<ValueLevels, NoMemory>
    ensures levels { IfOk result (λ l. AreLevels instance.now l) }
    ensures past { IfOk result (λ l. IsOpenOnlyPast true instance.now settings.now l) }
{
    // For the proof alone: states the limits of the instance.
    let _limits = instance.len();
    let choice = greatest_value_proposed(rt, alloc, instance, settings, gate)?;
    Ok(levels_of(choice))
}
