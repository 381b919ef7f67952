//! Heights of a strip, each decided by proposals first.
ghost use Rattle.std.specs.Prelude.{◌≡◌, ◌≤◌, ◌*◌, length, IfOk, []};
ghost use Rattle.packing_terms.specs.Packing.{dims, box_count};
ghost use Rattle.packing_terms.specs.Limits.{max_height};
ghost use Rattle.tree_terms.specs.Trees.{Past as PlainPast};
ghost use Rattle.work_share.specs.Outcomes.{plain_outcome};
ghost use Rattle.class_search.specs.Right.{IsRight};
ghost use Rattle.level_search.specs.Runs.{plain_level};
ghost use Rattle.level_search.specs.Bounds.{plain_bounds, HasNoLevelLeft};
ghost use Rattle.proposed_answers.specs.Shares.{level_share};
ghost use Rattle.proposed_answers.specs.Heights.{IsPastTree, IsHeightAnswer, AreHeightBounds};

use crate::decision::answer_of;
use crate::effort::Effort;
use crate::proposing::propose_with_limit;
use crate::purse::Purse;
use box_instances::{Instance, NoMemory};
use class_search::decide;
use conflict_search::Proposal;
use level_search::{Bounds, Level, level_of, updated_misses};
use proof_tree::Outcome;
use proposals::propose_height;
use std::alloc::Global;
use std::sync::Wait;
use std::thread::Threads;
use work_share::{Gate, Settings};

// More rounds than any budget allows: each has at least twice the branchings of the one before.
const MOST_ROUNDS: u32 = 32;

// The branchings of the tree of a level.
fn branchings_of(effort: Effort, purse: &Purse, settings: &Settings) -> u64
    ensures { effort ≡ Effort.Share → level_share settings.now.budget ≤ result }
{
    match effort {
        Effort::Root => 0,
        Effort::Share => purse.branchings(settings),
    }
}

// Whether an outcome is yes or no.
fn is_decided(outcome: &Outcome) -> bool {
    !matches!(outcome, Outcome::Past)
}

// What a proposal shows of the instance of one height, whose tree has more branchings than it was
// given.
fn propose_tall(
    alloc: Global,
    tall: &Instance,
    effort: Effort,
    purse: &mut Purse,
    settings: &Settings,
) -> Result<Outcome, NoMemory>
    ensures { IfOk result (λ o. IsRight tall.now [] (plain_outcome o)) }
{
    let splits = purse.splits(tall);
    if effort == Effort::Root || splits == 0 {
        return Ok(Outcome::Past);
    }
    let proposal = propose_with_limit(alloc, tall, settings.scales, splits)?;
    let outcome = answer_of(alloc, tall, proposal)?;
    purse.pay_splits(tall, splits, is_decided(&outcome));
    Ok(outcome)
}

// What is found of the instance of one height: by its tree, and behind that by a proposal.
fn decide_tall<R: Threads + Wait + Sync, G: Gate + Sync>(
    rt: &R,
    alloc: Global,
    tall: &Instance,
    effort: Effort,
    purse: &mut Purse,
    settings: &Settings,
    gate: &G,
) -> Result<Outcome, NoMemory>
    ensures right { IfOk result (λ o. IsRight tall.now [] (plain_outcome o)) }
    ensures past { IfOk result
        (λ o. plain_outcome o ≡ PlainPast → IsPastTree tall.now settings.now effort) }
{
    let branchings = branchings_of(effort, purse, settings);
    let within = Settings {
        workers: settings.workers,
        budget: branchings,
        scales: settings.scales,
    };
    match decide(rt, alloc, tall, &within, gate)? {
        Outcome::Yes { numbers, count } => {
            purse.pay_branchings(count);
            Ok(Outcome::Yes { numbers, count })
        }
        Outcome::No { tokens, count } => {
            purse.pay_branchings(count);
            Ok(Outcome::No { tokens, count })
        }
        Outcome::Past => {
            purse.pay_branchings(branchings);
            propose_tall(alloc, tall, effort, purse, settings)
        }
    }
}

// What is found at a height.
fn decide_height<R: Threads + Wait + Sync, G: Gate + Sync>(
    rt: &R,
    alloc: Global,
    instance: &Instance,
    height: u32,
    effort: Effort,
    purse: &mut Purse,
    settings: &Settings,
    gate: &G,
) -> Result<Level, NoMemory>
    requires { height ≤ max_height }
    ensures { IfOk result (λ level. IsHeightAnswer instance.now settings.now effort height
        (plain_level level)) }
{
    let tall = instance.with_last_side(alloc, height)?;
    let outcome = decide_tall(rt, alloc, &tall, effort, purse, settings, gate)?;
    Ok(level_of(outcome))
}

// What a proposed packing shows of a height.
fn test_height(
    alloc: Global,
    instance: &Instance,
    height: u32,
    places: Vec<u32>,
    settings: &Settings,
) -> Result<Level, NoMemory>
    requires limit { height ≤ max_height }
    requires sized { length places.items ≡ box_count instance.now * dims instance.now }
    ensures { IfOk result (λ level. IsHeightAnswer instance.now settings.now Effort.Root height
        (plain_level level)) }
{
    // For the proof alone: names the scales of the settings.
    let _scales = settings.scales;
    let tall = instance.with_last_side(alloc, height)?;
    let outcome = answer_of(alloc, &tall, Proposal::Places(places))?;
    Ok(level_of(outcome))
}

/// The bounds with a proposed packing, where it is lower than the placed height and passes its
/// test.
pub(crate) fn lowered<R: Threads + Sync>(
    rt: &R,
    alloc: Global,
    instance: &Instance,
    bounds: Bounds,
    batches: u64,
    settings: &Settings,
) -> Result<Bounds, NoMemory>
    requires { AreHeightBounds instance.now settings.now Effort.Root (plain_bounds bounds) }
    ensures { IfOk result
        (λ b. AreHeightBounds instance.now settings.now Effort.Root (plain_bounds b)) }
{
    let enough = bounds.refuted.saturating_add(1).min(u64::from(u32::MAX)) as u32;
    let workers = settings.workers;
    let Some(proposed) = propose_height(rt, alloc, instance, batches, enough, workers)? else {
        return Ok(bounds);
    };
    let level = u64::from(proposed.height);
    if level <= bounds.refuted || bounds.lowest <= level || bounds.placed <= level {
        return Ok(bounds);
    }
    let answer = test_height(alloc, instance, proposed.height, proposed.places, settings)?;
    Ok(bounds.after(level, answer))
}

/// Bounds of the least height, narrowed until both heights beside them stay undecided or the two
/// are neighbours.
pub(crate) fn narrow_heights<R: Threads + Wait + Sync, G: Gate + Sync>(
    rt: &R,
    alloc: Global,
    instance: &Instance,
    bounds: Bounds,
    effort: Effort,
    purse: &mut Purse,
    settings: &Settings,
    gate: &G,
) -> Result<Bounds, NoMemory>
    requires { AreHeightBounds instance.now settings.now effort (plain_bounds bounds) }
    ensures kept { IfOk result
        (λ b. AreHeightBounds instance.now settings.now effort (plain_bounds b)) }
    ensures narrow { IfOk result (λ b. HasNoLevelLeft (plain_bounds b)) }
{
    let mut bounds = bounds;
    let mut misses = purse.first_in_vain(effort);
    while let Some(level) = bounds.next_level_after_misses(misses) {
        let gap = bounds.gap();
        let height = level as u32;
        let answer = decide_height(rt, alloc, instance, height, effort, purse, settings, gate)?;
        bounds = bounds.after(level, answer);
        misses = updated_misses(misses, bounds.gap() < gap);
    }
    Ok(bounds)
}

/// Bounds of the least height, narrowed in rounds: in each the trees have more branchings than in
/// the one before, as long as the purse of the run holds them.
pub(crate) fn narrow_in_rounds<R: Threads + Wait + Sync, G: Gate + Sync>(
    rt: &R,
    alloc: Global,
    instance: &Instance,
    first: Bounds,
    settings: &Settings,
    gate: &G,
) -> Result<Bounds, NoMemory>
    requires { AreHeightBounds instance.now settings.now Effort.Root (plain_bounds first) }
    ensures kept { IfOk result
        (λ b. AreHeightBounds instance.now settings.now Effort.Share (plain_bounds b)) }
    ensures narrow { IfOk result (λ b. HasNoLevelLeft (plain_bounds b)) }
{
    let mut purse = Purse::new(instance, settings);
    let start = first.without_attempts();
    let mut bounds = narrow_heights(
        rt,
        alloc,
        instance,
        start,
        Effort::Share,
        &mut purse,
        settings,
        gate,
    )?;
    for _ in 0..MOST_ROUNDS {
        if bounds.gap() < 2 || !purse.next_round(settings) {
            return Ok(bounds);
        }
        let next = bounds.without_attempts();
        bounds = narrow_heights(
            rt,
            alloc,
            instance,
            next,
            Effort::Share,
            &mut purse,
            settings,
            gate,
        )?;
    }
    Ok(bounds)
}
