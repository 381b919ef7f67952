//! Numbers of bins between two others, each decided by its bin tree.
ghost use Rattle.std.specs.Prelude.{◌≡◌, IfOk};
ghost use Rattle.packing_terms.specs.Scales.{SidesFit};
ghost use Rattle.level_search.specs.Bounds.{plain_bounds, HasNoLevelLeft};
ghost use Rattle.proposed_answers.specs.Counts.{AreBinBounds};

use bin_knapsack::decide_bins;
use box_instances::{Instance, NoMemory};
use level_search::Bounds;
use set_search::SetSearch;
use std::alloc::Global;
use std::sync::Wait;
use std::thread::Threads;
use work_share::{Gate, Settings};

/// Bounds of the least number of bins, narrowed until both numbers beside them stay undecided, or
/// the two are neighbours.
pub(crate) fn narrow_bins<R: Threads + Wait + Sync, G: Gate + Sync>(
    rt: &R,
    alloc: Global,
    search: &mut SetSearch<'_>,
    instance: &Instance,
    bounds: Bounds,
    settings: &Settings,
    gate: &G,
) -> Result<Bounds, NoMemory>
    requires fit { SidesFit instance.now }
    requires bounds { AreBinBounds instance.now settings.now (plain_bounds bounds) }
    requires search { search.old
        ≡ record { instance = instance.now; scales = settings.now.scales } }
    ensures same { search.new ≡ search.old }
    ensures kept { IfOk result (λ b. AreBinBounds instance.now settings.now (plain_bounds b)) }
    ensures narrow { IfOk result (λ b. HasNoLevelLeft (plain_bounds b)) }
{
    // For the proof alone: states the limits of the instance.
    let _limits = instance.len();
    let mut bounds = bounds;
    while let Some(level) = bounds.next_level() {
        let bins = level as u32;
        let answer = decide_bins(rt, alloc, search, instance, bins, settings, gate)?;
        bounds = bounds.after(level, answer);
    }
    Ok(bounds)
}
