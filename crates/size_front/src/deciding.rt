//! The containers of a walk, each decided by its class tree.
ghost use Rattle.std.specs.Prelude.{◌≡◌, ◌≤◌, IfOk, IfSome, []};
ghost use Rattle.packing_terms.specs.Packing.{dims, written_container};
ghost use Rattle.tree_terms.specs.Trees.{outcome, under_budget};
ghost use Rattle.tree_terms.specs.ClassTree.{class_tree};
ghost use Rattle.work_share.specs.Outcomes.{plain_outcome};
ghost use Rattle.level_search.specs.Runs.{plain_level};
ghost use Rattle.class_search.specs.Deciders.{decider_of};
ghost use Rattle.answer_terms.specs.Walks.{size_answer};

use box_instances::{Instance, NoMemory};
use class_search::{Decider, decide};
use front_check::with_container;
use level_search::{Level, level_of};
use proof_tree::Outcome;
use std::alloc::Global;
use std::sync::Wait;
use std::thread::Threads;
use work_share::{Gate, Settings};

// What one worker decides all containers with, in the same memory, since their boxes are the same.
// Several share the tree of each.
pub(crate) fn decider_for(
    alloc: Global,
    instance: &Instance,
    workers: u32,
) -> Result<Option<Decider>, NoMemory>
    ensures { IfOk result (λ found. IfSome found (λ d. d ≡ decider_of instance.now)) }
{
    if workers > 1 {
        return Ok(None);
    }
    Ok(Some(Decider::new(alloc, instance)?))
}

// Decides one container: alone in the memory that is kept, or by several workers.
fn decide_sized<R: Threads + Wait + Sync, G: Gate + Sync>(
    rt: &R,
    alloc: Global,
    sized: &Instance,
    decider: &mut Option<Decider>,
    settings: &Settings,
    gate: &G,
) -> Result<Outcome, NoMemory>
    requires { IfSome decider.old (λ d. d ≡ decider_of sized.now) }
    ensures same { decider.new ≡ decider.old }
    ensures outcome { IfOk result (λ r. plain_outcome r
        ≡ under_budget settings.now.budget
        (outcome (class_tree sized.now [] settings.now.scales))) }
{
    match decider {
        Some(own) => own.decide(alloc, sized, settings.budget, settings.scales),
        None => decide(rt, alloc, sized, settings, gate),
    }
}

// The answer for a container of these written sides.
pub(crate) fn decide_size<R: Threads + Wait + Sync, G: Gate + Sync>(
    rt: &R,
    alloc: Global,
    instance: &Instance,
    width: u32,
    height: u32,
    decider: &mut Option<Decider>,
    settings: &Settings,
    gate: &G,
) -> Result<Level, NoMemory>
    requires plane { dims instance.now ≡ 2 }
    requires width_from { 1 ≤ width }
    requires width_to { width ≤ written_container instance.now 0 }
    requires height { height ≤ written_container instance.now 1 }
    requires ready { IfSome decider.old (λ d. d ≡ decider_of instance.now) }
    ensures same { decider.new ≡ decider.old }
    ensures answer { IfOk result (λ r. plain_level r
        ≡ size_answer instance.now settings.now.budget settings.now.scales width height) }
{
    // For the proof alone: states the limits of the instance.
    let _limits = instance.len();
    let sized = with_container(alloc, instance, width, height)?;
    let outcome = decide_sized(rt, alloc, &sized, decider, settings, gate)?;
    Ok(level_of(outcome))
}
