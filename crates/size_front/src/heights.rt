//! The least height at a width.
ghost use Rattle.std.specs.Prelude.{◌≡◌, ◌<◌, ◌≤◌, IfOk, IfSome};
ghost use Rattle.packing_terms.specs.Packing.{dims, written_container};
ghost use Rattle.level_search.specs.Runs.{plain_reached};
ghost use Rattle.class_search.specs.Deciders.{decider_of};
ghost use Rattle.answer_terms.specs.Walks.{size_answer, height_run};

use crate::deciding::decide_size;
use box_instances::{Instance, NoMemory};
use class_search::Decider;
use level_search::Reached;
use proof_tree::CompactTokens;
use std::alloc::Global;
use std::sync::Wait;
use std::thread::Threads;
use work_share::{Gate, Settings};

// The run of heights at a width, from 0 and a height in which these are the places.
pub(crate) fn run_heights<R: Threads + Wait + Sync, G: Gate + Sync>(
    rt: &R,
    alloc: Global,
    instance: &Instance,
    width: u32,
    height: u32,
    places: Vec<u32>,
    decider: &mut Option<Decider>,
    settings: &Settings,
    gate: &G,
) -> Result<Reached, NoMemory>
    requires plane { dims instance.now ≡ 2 }
    requires width_from { 1 ≤ width }
    requires width_to { width ≤ written_container instance.now 0 }
    requires height { height ≤ written_container instance.now 1 }
    requires ready { IfSome decider.old (λ d. d ≡ decider_of instance.now) }
    ensures same { decider.new ≡ decider.old }
    ensures placed_to { IfOk result (λ r. r.placed ≤ height) }
    ensures refuted_to { IfOk result (λ r. r.refuted ≤ height) }
    ensures run { IfOk result (λ r. plain_reached r
        ≡ height_run (size_answer instance.now settings.now.budget settings.now.scales)
        (written_container instance.now 0) width height places.items) }
{
    // For the proof alone: states the limits of the instance.
    let _limits = instance.len();
    let tokens = CompactTokens::new(alloc);
    let mut reached = Reached::starting(0, tokens, u64::from(height), places);
    while let Some(level) = reached.next_level() {
        let lower = level as u32;
        let answer = decide_size(rt, alloc, instance, width, lower, decider, settings, gate)?;
        reached = reached.after(level, answer);
    }
    Ok(reached)
}
