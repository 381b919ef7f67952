//! The least number of bins, by proposals first.
ghost use Rattle.std.specs.Prelude.{◌≡◌, ◌<◌, ◌≤◌, IfOk};
ghost use Rattle.packing_terms.specs.Goals.{HasTooLargeBox};
ghost use Rattle.packing_terms.specs.Limits.{max_boxes};
ghost use Rattle.level_search.specs.Bounds.{plain_bounds};
ghost use Rattle.bin_knapsack.specs.BinAnswers.{AreTrueBins};
ghost use Rattle.proposed_answers.specs.Counts.{AreFirstBounds, TellsBins, AreNamedBins, AreLimitedBins, AreNeighboursPastBudget};

use crate::bin_testing::are_bin_numbers;
use crate::counts::narrow_bins;
use crate::steps::bin_tree_branchings;
use bin_knapsack::{Bins, least_bins};
use box_instances::{Instance, NoMemory};
use level_search::{Bounds, Level};
use proposals::propose_bins;
use set_search::{MAX_BUDGET, SetSearch};
use std::alloc::Global;
use std::sync::Wait;
use std::thread::Threads;
use work_share::{Gate, Settings};

// With so few branchings a tree takes some milliseconds, and most numbers of bins are decided by
// them: those that the scale functions refute at the root, and those with bins to spare.
const QUICK_BUDGET: u64 = 2_000;

// The settings of a rough decision, by one worker with few branchings.
fn rough(settings: &Settings) -> Settings
    ensures { result.scales ≡ settings.now.scales }
{
    Settings {
        workers: 1,
        budget: settings.budget.min(QUICK_BUDGET),
        scales: settings.scales,
    }
}

// The settings of the last decisions, where the boxes are placed in so many bins.
fn ample(instance: &Instance, placed: u64, settings: &Settings) -> Settings
    ensures budget { settings.now.budget ≤ result.budget }
    ensures scales { result.scales ≡ settings.now.scales }
{
    let branchings = bin_tree_branchings(instance, placed, settings.budget).min(MAX_BUDGET);
    Settings {
        workers: settings.workers,
        budget: branchings.max(settings.budget),
        scales: settings.scales,
    }
}

// The answer by the bounds that were reached.
fn bins_of(bounds: Bounds) -> Bins
    requires order { bounds.refuted < bounds.placed }
    requires limit { bounds.placed ≤ max_boxes }
    ensures { TellsBins (plain_bounds bounds) result }
{
    if bounds.placed - bounds.refuted < 2 {
        return Bins::Least {
            bins: bounds.placed as u32,
            numbers: bounds.numbers,
            tokens: bounds.tokens,
        };
    }
    Bins::Between {
        refuted: bounds.refuted as u32,
        tokens: bounds.tokens,
        bins: bounds.placed as u32,
        numbers: bounds.numbers,
    }
}

// The bounds with proposed bins, where these are fewer than the placed ones and pass their test.
fn improved(
    alloc: Global,
    instance: &Instance,
    bounds: Bounds,
    budget: u64,
) -> Result<Bounds, NoMemory>
    requires { AreFirstBounds instance.now (plain_bounds bounds) }
    ensures { IfOk result (λ b. AreFirstBounds instance.now (plain_bounds b)) }
{
    let enough = bounds.refuted.saturating_add(1).min(u64::from(u32::MAX)) as u32;
    let Some(proposed) = propose_bins(alloc, instance, enough, budget)? else {
        return Ok(bounds);
    };
    let count = u64::from(proposed.count);
    if count <= bounds.refuted || bounds.lowest <= count {
        return Ok(bounds);
    }
    if !are_bin_numbers(alloc, instance, proposed.count, &proposed.numbers)? {
        return Ok(bounds);
    }
    Ok(bounds.after(count, Level::Fits(proposed.numbers)))
}

// The answer from first bounds on: they are narrowed by a part of the tree of each number of bins,
// and then by the whole tree. Sets are decided in one memory for all of them.
fn narrowed<R: Threads + Wait + Sync, G: Gate + Sync>(
    rt: &R,
    alloc: Global,
    instance: &Instance,
    first: Bounds,
    settings: &Settings,
    gate: &G,
) -> Result<Bins, NoMemory>
    requires bounds { AreFirstBounds instance.now (plain_bounds first) }
    requires small { ¬ HasTooLargeBox instance.now }
    ensures right { IfOk result (λ b. AreTrueBins instance.now b) }
    ensures named { IfOk result (λ b. AreNamedBins instance.now b) }
    ensures limited { IfOk result (λ b. AreLimitedBins instance.now b) }
    ensures past { IfOk result
        (λ b. AreNeighboursPastBudget instance.now settings.now.budget settings.now.scales b) }
{
    // For the proof alone: states the limits of the instance.
    let _limits = instance.len();
    let few = rough(settings);
    let mut search = SetSearch::new(alloc, instance, settings.scales)?;
    let start = first.without_attempts();
    let near = narrow_bins(rt, alloc, &mut search, instance, start, &few, gate)?;
    let from = near.without_attempts();
    let ample = ample(instance, from.placed, settings);
    let bounds = narrow_bins(rt, alloc, &mut search, instance, from, &ample, gate)?;
    Ok(bins_of(bounds))
}

/// The least number of bins in which the boxes fit, with both certificates, by proposals first.
///
/// It begins at bounds that the first branchings of the bin trees give, whose roots the scale
/// functions refute, and at proposed bins that pass their test. Each number of bins between is
/// decided by its bin tree, from both ends on, with at least six times the branchings of the budget
/// (at most the greatest budget), and more where bins hold few boxes.
/// `Between` comes only where the trees of both numbers beside the two have more branchings than
/// the budget: the one above the refuted number and the one below the placed number. `NoneFits`
/// comes exactly where a box is longer than the container, and names the first. Which packing,
/// which refutation and how many numbers are decided isn't promised.
pub fn least_bins_proposed<R: Threads + Wait + Sync, G: Gate + Sync>(
    rt: &R,
    alloc: Global,
    instance: &Instance,
    settings: &Settings,
    gate: &G,
) -> Result<Bins, NoMemory>
    ensures right { IfOk result (λ b. AreTrueBins instance.now b) }
    ensures named { IfOk result (λ b. AreNamedBins instance.now b) }
    ensures limited { IfOk result (λ b. AreLimitedBins instance.now b) }
    ensures past { IfOk result
        (λ b. AreNeighboursPastBudget instance.now settings.now.budget settings.now.scales b) }
{
    // For the proof alone: states the limits of the instance.
    let _limits = instance.len();
    let found = least_bins(rt, alloc, instance, &rough(settings), gate)?;
    match found {
        Bins::Between {
            refuted,
            tokens,
            bins,
            numbers,
        } => {
            let first = Bounds::new(u64::from(refuted), tokens, u64::from(bins), numbers);
            let better = improved(alloc, instance, first, settings.budget)?;
            narrowed(rt, alloc, instance, better, settings, gate)
        }
        Bins::Least {
            bins,
            numbers,
            tokens,
        } => Ok(Bins::Least {
            bins,
            numbers,
            tokens,
        }),
        Bins::NoneFits { box_no, dim } => Ok(Bins::NoneFits { box_no, dim }),
    }
}
