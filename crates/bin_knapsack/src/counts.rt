//! The numbers of bins, each decided by its bin tree.
ghost use Rattle.std.specs.Prelude.{◌≡◌, ◌≤◌, IfOk};
ghost use Rattle.packing_terms.specs.Packing.{box_count};
ghost use Rattle.packing_terms.specs.Scales.{SidesFit};
ghost use Rattle.tree_terms.specs.RunEnds.{bin_answer};
ghost use Rattle.level_search.specs.Runs.{plain_level};

use bin_search::BinTree;
use box_instances::{Instance, NoMemory};
use level_search::{Level, level_of};
use set_search::SetSearch;
use std::alloc::Global;
use std::sync::Wait;
use std::thread::Threads;
use work_share::{Gate, Settings};

/// The answer for a number of bins of an instance none of whose boxes is longer than the container.
pub fn decide_bins<R: Threads + Wait + Sync, G: Gate + Sync>(
    rt: &R,
    alloc: Global,
    search: &mut SetSearch<'_>,
    instance: &Instance,
    bins: u32,
    settings: &Settings,
    gate: &G,
) -> Result<Level, NoMemory>
    requires fit { SidesFit instance.now }
    requires few { bins ≤ box_count instance.now }
    requires search { search.old
        ≡ record { instance = instance.now; scales = settings.now.scales } }
    ensures same { search.new ≡ search.old }
    ensures level { IfOk result (λ r. plain_level r
        ≡ bin_answer instance.now settings.now.budget settings.now.scales bins) }
{
    // For the proof alone: states the limits of the instance.
    let _limits = instance.len();
    let tree = BinTree::new(alloc, instance, bins, settings.scales)?;
    let outcome = tree.solve_with(rt, alloc, search, settings, gate)?;
    Ok(level_of(outcome))
}
