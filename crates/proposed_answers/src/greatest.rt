//! The greatest value, by proposals first.
ghost use Rattle.std.specs.Prelude.{◌≡◌, ◌<◌, ◌≤◌, IfOk};
ghost use Rattle.level_search.specs.Bounds.{plain_bounds, HasNoLevelLeft};
ghost use Rattle.bin_knapsack.specs.Choices.{IsTrueChoice};
ghost use Rattle.proposed_answers.specs.Shares.{level_share};
ghost use Rattle.proposed_answers.specs.Values.{top_value, AreValueBounds, AreFirstBounds, TellsValues, IsLimitedChoice, AreNeighboursPastBudget};

use crate::choice_testing::{is_choice, worth_of};
use crate::share::level_share;
use crate::steps::value_batches;
use crate::upper::lowered;
use crate::values::{ask_beside, narrow_values};
use bin_knapsack::{Choice, first_values};
use box_instances::{Instance, NoMemory};
use choice_search::choice_numbers;
use level_search::{Bounds, Level};
use proposals::propose_choice;
use set_search::SetSearch;
use std::alloc::Global;
use std::sync::Wait;
use std::thread::Threads;
use work_share::{Gate, Settings};

// The refuted end is narrowed by trees of such a part of the budget: some ten values are decided in
// vain, so these cost about as much as the value above the placed one.
const PART: u64 = 8;

// The answer by the bounds that were reached.
fn choice_of(instance: &Instance, top: u64, bounds: Bounds) -> Choice
    requires top { top ≡ top_value instance.now }
    requires order { bounds.refuted < bounds.placed }
    ensures { TellsValues instance.now (plain_bounds bounds) result }
{
    let placed = top.saturating_sub(bounds.placed);
    if bounds.placed - bounds.refuted < 2 {
        return Choice::Greatest {
            value: placed,
            numbers: bounds.numbers,
            tokens: bounds.tokens,
        };
    }
    Choice::Between {
        placed,
        numbers: bounds.numbers,
        refuted: top.saturating_sub(bounds.refuted),
        tokens: bounds.tokens,
    }
}

// The bounds with proposed boxes, where these are worth more than the placed value and pass their
// test.
fn improved<R: Threads + Sync>(
    rt: &R,
    alloc: Global,
    instance: &Instance,
    top: u64,
    bounds: Bounds,
    settings: &Settings,
) -> Result<Bounds, NoMemory>
    requires top { top ≡ top_value instance.now }
    requires bounds { AreFirstBounds instance.now (plain_bounds bounds) }
    ensures { IfOk result (λ b. AreFirstBounds instance.now (plain_bounds b)) }
{
    if bounds.next_level().is_none() {
        return Ok(bounds);
    }
    let batches = value_batches(instance, settings.budget);
    let Some(proposed) = propose_choice(rt, alloc, instance, batches, settings.workers)? else {
        return Ok(bounds);
    };
    if !is_choice(alloc, instance, &proposed.taken, &proposed.places)? {
        return Ok(bounds);
    }
    let worth = worth_of(instance, &proposed.taken);
    let level = u128::from(top).saturating_sub(worth) as u64;
    if level <= bounds.refuted || bounds.lowest <= level {
        return Ok(bounds);
    }
    let numbers = choice_numbers(alloc, instance, &proposed.taken, &proposed.places)?;
    Ok(bounds.after(level, Level::Fits(numbers)))
}

// The branchings of the trees that narrow the refuted end.
fn part_of(settings: &Settings) -> u64
    ensures { level_share settings.now.budget ≤ result }
{
    level_share(settings.budget).max(settings.budget / PART)
}

// The bounds from first ones on: the value above the placed one comes first, since the proposed
// boxes are most often the best, and then those from both ends on.
fn closed<R: Threads + Wait + Sync, G: Gate + Sync>(
    rt: &R,
    alloc: Global,
    search: &mut SetSearch<'_>,
    instance: &Instance,
    top: u64,
    first: Bounds,
    settings: &Settings,
    gate: &G,
) -> Result<Bounds, NoMemory>
    requires top { top ≡ top_value instance.now }
    requires bounds { AreFirstBounds instance.now (plain_bounds first) }
    requires search { search.old
        ≡ record { instance = instance.now; scales = settings.now.scales } }
    ensures kept { IfOk result (λ b. AreValueBounds instance.now settings.now (plain_bounds b)) }
    ensures narrow { IfOk result (λ b. HasNoLevelLeft (plain_bounds b)) }
{
    let from = first.without_attempts();
    if from.placed - from.refuted < 2 {
        return Ok(from);
    }
    let beside = ask_beside(rt, alloc, search, instance, top, from, settings, gate)?;
    let branchings = part_of(settings);
    narrow_values(
        rt, alloc, search, instance, top, beside, branchings, settings, gate,
    )
}

/// The greatest value of a set of boxes that fits, with both certificates, by proposals first.
///
/// It begins at 0 and one more than all boxes are worth, and narrows these by choice trees with the
/// share of the budget (`level_share`). Then come proposed boxes and a proposed tree that pass
/// their tests. The value above what the boxes are worth is decided by choice trees of rising
/// branchings, up to the budget, and the values between, from both ends on, by trees of an eighth
/// of it. So the budget bounds the run: trees have about three times as many branchings in all.
/// `Between` comes only where the trees of both values beside the two have more branchings than the
/// share: the one above the placed value and the one below the refuted value. Which boxes, which
/// refutation and how many values are decided isn't promised.
pub fn greatest_value_proposed<R: Threads + Wait + Sync, G: Gate + Sync>(
    rt: &R,
    alloc: Global,
    instance: &Instance,
    settings: &Settings,
    gate: &G,
) -> Result<Choice, NoMemory>
    ensures right { IfOk result (λ c. IsTrueChoice instance.now c) }
    ensures limited { IfOk result (λ c. IsLimitedChoice instance.now c) }
    ensures past { IfOk result
        (λ c. AreNeighboursPastBudget instance.now settings.now.budget settings.now.scales c) }
{
    // For the proof alone: states the limits of the instance.
    let _limits = instance.len();
    let first = first_values(alloc, instance)?;
    let top = first.refuted;
    let share = level_share(settings.budget);
    let mut search = SetSearch::new(alloc, instance, settings.scales)?;
    let start = Bounds::new(0, first.tokens, top, first.numbers);
    let near = narrow_values(
        rt,
        alloc,
        &mut search,
        instance,
        top,
        start,
        share,
        settings,
        gate,
    )?;
    let better = improved(rt, alloc, instance, top, near.without_attempts(), settings)?;
    let nearer = lowered(alloc, instance, top, better, settings)?;
    let bounds = closed(
        rt,
        alloc,
        &mut search,
        instance,
        top,
        nearer,
        settings,
        gate,
    )?;
    Ok(choice_of(instance, top, bounds))
}
