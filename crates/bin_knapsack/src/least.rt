//! The least number of bins.
ghost use Rattle.std.specs.Prelude.{◌≡◌, ◌<◌, ◌≤◌, ◌+◌, ◌-◌, ◌*◌, ◌/◌, ◌^◌, suc, false, None, IfOk};
ghost use Rattle.packing_terms.specs.Packing.{dims, box_count};
ghost use Rattle.packing_terms.specs.Goals.{HasTooLargeBox};
ghost use Rattle.packing_terms.specs.Limits.{max_boxes};
ghost use Rattle.packing_terms.specs.Scales.{SidesFit};
ghost use Rattle.packing_terms.specs.Sums.{sum_below};
ghost use Rattle.tree_terms.specs.ClassTree.{first_too_large_box};
ghost use Rattle.tree_terms.specs.Levels.{first_bins, bin_run};
ghost use Rattle.level_search.specs.Runs.{plain_reached};
ghost use Rattle.bin_knapsack.specs.BinAnswers.{Tells, IsAnswer, AreTrueBins, IsSpentExactly, IsFinal};

use crate::Bins;
use crate::counts::decide_bins;
use crate::spread::one_box_per_bin;
use bin_search::BinTree;
use box_instances::{Instance, NoMemory};
use class_search::first_too_large;
use level_search::Reached;
use proof_tree::{CompactTokens, Outcome};
use set_search::SetSearch;
use std::alloc::Global;
use std::sync::Wait;
use std::thread::Threads;
use work_share::{Gate, Settings, Tree};

// The refutation of no bins at all.
fn no_bins(alloc: Global, instance: &Instance, scales: bool) -> Result<CompactTokens, NoMemory>
    requires { SidesFit instance.now }
    ensures { IfOk result (λ tokens. tokens
        ≡ (first_bins instance.now scales).tokens) }
{
    // For the proof alone: states the limits of the instance.
    let _limits = instance.len();
    let tree = BinTree::new(alloc, instance, 0, scales)?;
    match tree.explore(alloc, &[], 0)? {
        Outcome::No { tokens, count: _ } => Ok(tokens),
        Outcome::Yes {
            numbers: _numbers,
            count: _,
        } => unreachable!(),
        Outcome::Past => unreachable!(),
    }
}

// The run of numbers of bins of an instance none of whose boxes is too large. Sets are decided in
// one memory for all numbers.
fn bisect_bins<R: Threads + Wait + Sync, G: Gate + Sync>(
    rt: &R,
    alloc: Global,
    instance: &Instance,
    settings: &Settings,
    gate: &G,
) -> Result<Reached, NoMemory>
    requires { first_too_large_box instance.now ≡ None }
    ensures { IfOk result (λ r. plain_reached r
        ≡ bin_run instance.now settings.now.budget settings.now.scales) }
{
    // For the proof alone: states the limits of the instance.
    let _limits = instance.len();
    let mut search = SetSearch::new(alloc, instance, settings.scales)?;
    let numbers = one_box_per_bin(alloc, instance)?;
    let tokens = no_bins(alloc, instance, settings.scales)?;
    let mut reached = Reached::starting(0, tokens, u64::from(instance.len()), numbers);
    while let Some(level) = reached.next_level() {
        let bins = level as u32;
        let answer = decide_bins(rt, alloc, &mut search, instance, bins, settings, gate)?;
        reached = reached.after(level, answer);
    }
    Ok(reached)
}

// The answer where a run of numbers of bins ended.
fn bins_of(reached: Reached) -> Bins
    requires rising { reached.refuted < reached.placed }
    requires beside { reached.spent ≡ false → suc reached.refuted ≡ reached.placed }
    requires limit { reached.placed ≤ max_boxes }
    ensures { Tells (plain_reached reached) result }
{
    if reached.spent {
        return Bins::Between {
            refuted: reached.refuted as u32,
            tokens: reached.tokens,
            bins: reached.placed as u32,
            numbers: reached.numbers,
        };
    }
    Bins::Least {
        bins: reached.placed as u32,
        numbers: reached.numbers,
        tokens: reached.tokens,
    }
}

/// The least number of bins in which the boxes fit, with both certificates: each box's bin and
/// coordinates, such that the boxes of each bin are a packing, and tokens that refute one bin less.
///
/// It follows the run of numbers from 0 and a bin for each box, each decided by its bin tree under
/// the budget. `NoneFits` comes exactly where a box is longer than the container, and names the
/// first. `Between` comes exactly where a number on the run has a tree with more branchings than
/// the budget; never where, with n boxes and m pairs of boxes in all dimensions, the budget is at
/// least 3 to the m times (n - 1) + (n - 1)^2 + .. + (n - 1)^n.
pub fn least_bins<R: Threads + Wait + Sync, G: Gate + Sync>(
    rt: &R,
    alloc: Global,
    instance: &Instance,
    settings: &Settings,
    gate: &G,
) -> Result<Bins, NoMemory>
    ensures answer { IfOk result
        (λ b. IsAnswer instance.now settings.now.budget settings.now.scales b) }
    ensures right { IfOk result (λ b. AreTrueBins instance.now b) }
    ensures spent { IfOk result
        (λ b. IsSpentExactly instance.now settings.now.budget settings.now.scales b) }
    ensures enough { 3 ^ (dims instance.now * box_count instance.now
        * (box_count instance.now - 1) / 2)
        * sum_below (box_count instance.now) (λ j. (box_count instance.now - 1) ^ (j + 1))
        ≤ settings.now.budget
        → IfOk result (λ b. IsFinal b) }
{
    // For the proof alone: states the limits of the instance.
    let _limits = instance.len();
    match first_too_large(instance) {
        Some((box_no, dim)) => Ok(Bins::NoneFits { box_no, dim }),
        None => {
            let reached = bisect_bins(rt, alloc, instance, settings, gate)?;
            Ok(bins_of(reached))
        }
    }
}
