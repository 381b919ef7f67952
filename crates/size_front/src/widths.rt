//! The least width at a height.
ghost use Rattle.std.specs.Prelude.{◌≡◌, ◌<◌, ◌≤◌, IfOk, IfSome, []};
ghost use Rattle.packing_terms.specs.Packing.{dims, written_container};
ghost use Rattle.level_search.specs.Runs.{plain_reached};
ghost use Rattle.class_search.specs.Deciders.{decider_of};
ghost use Rattle.answer_terms.specs.Walks.{size_answer, width_run};

use crate::deciding::decide_size;
use box_instances::{Instance, NoMemory};
use class_search::Decider;
use level_search::Reached;
use proof_tree::CompactTokens;
use std::alloc::Global;
use std::sync::Wait;
use std::thread::Threads;
use work_share::{Gate, Settings};

// The run of widths at a height, from a refuted one, whose tokens aren't looked at, and the
// container's own, in which these are the places.
pub(crate) fn run_widths<R: Threads + Wait + Sync, G: Gate + Sync>(
    rt: &R,
    alloc: Global,
    instance: &Instance,
    height: u32,
    refuted: u32,
    places: Vec<u32>,
    decider: &mut Option<Decider>,
    settings: &Settings,
    gate: &G,
) -> Result<Reached, NoMemory>
    requires plane { dims instance.now ≡ 2 }
    requires height { height ≤ written_container instance.now 1 }
    requires refuted { refuted ≤ written_container instance.now 0 }
    requires ready { IfSome decider.old (λ d. d ≡ decider_of instance.now) }
    ensures same { decider.new ≡ decider.old }
    ensures placed_from { IfOk result (λ r. 1 ≤ r.placed) }
    ensures placed_to { IfOk result (λ r. r.placed ≤ written_container instance.now 0) }
    ensures refuted_to { IfOk result (λ r. r.refuted ≤ written_container instance.now 0) }
    ensures run { IfOk result (λ r. plain_reached r
        ≡ width_run (size_answer instance.now settings.now.budget settings.now.scales)
        (written_container instance.now 0) height refuted [] places.items) }
{
    // For the proof alone: states the limits of the instance.
    let _limits = instance.len();
    let most = instance.written_container(0);
    let tokens = CompactTokens::new(alloc);
    let mut reached = Reached::starting(u64::from(refuted), tokens, u64::from(most), places);
    while let Some(level) = reached.next_level() {
        let width = level as u32;
        let answer = decide_size(rt, alloc, instance, width, height, decider, settings, gate)?;
        reached = reached.after(level, answer);
    }
    Ok(reached)
}
