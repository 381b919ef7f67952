//! The values, each decided by its choice tree.
ghost use Rattle.std.specs.Prelude.{◌≡◌, IfOk};
ghost use Rattle.tree_terms.specs.RunEnds.{value_answer};
ghost use Rattle.level_search.specs.Runs.{plain_level};

use box_instances::{Instance, NoMemory};
use choice_search::ChoiceTree;
use level_search::{Level, level_of};
use set_search::SetSearch;
use std::alloc::Global;
use std::sync::Wait;
use std::thread::Threads;
use work_share::{Gate, Settings};

/// The answer for a value.
pub fn decide_value<R: Threads + Wait + Sync, G: Gate + Sync>(
    rt: &R,
    alloc: Global,
    search: &mut SetSearch<'_>,
    instance: &Instance,
    value: u64,
    settings: &Settings,
    gate: &G,
) -> Result<Level, NoMemory>
    requires { search.old ≡ record { instance = instance.now; scales = settings.now.scales } }
    ensures same { search.new ≡ search.old }
    ensures level { IfOk result (λ r. plain_level r
        ≡ value_answer instance.now settings.now.budget settings.now.scales value) }
{
    let tree = ChoiceTree::new(alloc, instance, value, settings.scales)?;
    let outcome = tree.solve_with(rt, alloc, search, settings, gate)?;
    Ok(level_of(outcome))
}
