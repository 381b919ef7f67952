//! The searches for a proposal, one after another.
ghost use Rattle.std.specs.Prelude.{IfOk};
ghost use Rattle.conflict_search.specs.Sizes.{IsSized};

use crate::steps::{packing_batches, paid_splits};
use box_instances::{Instance, NoMemory};
use conflict_search::{Proposal, propose_refutation};
use proposals::{propose_packing, propose_places};
use std::alloc::Global;
use std::thread::Threads;
use work_share::Settings;

// The steps of the search for places in each direction: some milliseconds, and nearly all that ten
// times as many find.
const PLACE_STEPS: u64 = 40_000;

// The most splits of the search for a refutation: some 10 s for 14 boxes. The hardest of 69 public
// instances that it refutes takes 617,000.
const MOST_SPLITS: u64 = 700_000;

// A split is the dearer the more pairs of boxes there are, so for more than 14 boxes they are
// fewer.
const PAIR_VISITS: u64 = 140_000_000;

/// The most splits of the search for a refutation of an instance.
pub(crate) fn split_limit(instance: &Instance) -> u64 {
    let count = u64::from(instance.len());
    let splits = PAIR_VISITS / (count * count).max(1);
    splits.min(MOST_SPLITS)
}

/// A proposal for an instance: places, a refutation by a search with at most `splits` splits, or
/// nothing. One worker makes it, whatever the number of workers of the run.
pub(crate) fn propose_with_limit(
    alloc: Global,
    instance: &Instance,
    scales: bool,
    splits: u64,
) -> Result<Proposal, NoMemory>
    ensures { IfOk result (IsSized instance.now) }
{
    if let Some(places) = propose_places(alloc, instance, PLACE_STEPS)? {
        return Ok(Proposal::Places(places));
    }
    propose_refutation(alloc, instance, scales, splits)
}

/// Places for an instance under the budget of the settings, by rounds of swaps or by filling gaps,
/// or nothing.
pub(crate) fn propose_packed<R: Threads + Sync>(
    rt: &R,
    alloc: Global,
    instance: &Instance,
    settings: &Settings,
) -> Result<Proposal, NoMemory>
    ensures { IfOk result (IsSized instance.now) }
{
    let batches = packing_batches(instance, settings.budget);
    if let Some(places) = propose_packing(rt, alloc, instance, batches, settings.workers)? {
        return Ok(Proposal::Places(places));
    }
    match propose_places(alloc, instance, PLACE_STEPS)? {
        Some(places) => Ok(Proposal::Places(places)),
        None => Ok(Proposal::Nothing),
    }
}

/// A refutation of an instance under a budget, by a search with as many splits as the budget pays
/// for, at most `split_limit`, or nothing. The search may find places too.
pub(crate) fn propose_refuted(
    alloc: Global,
    instance: &Instance,
    scales: bool,
    budget: u64,
) -> Result<Proposal, NoMemory>
    ensures { IfOk result (IsSized instance.now) }
{
    let splits = paid_splits(instance, budget).min(split_limit(instance));
    propose_refutation(alloc, instance, scales, splits)
}
