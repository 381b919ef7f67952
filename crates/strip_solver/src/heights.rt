//! The heights of a strip, each decided by its class tree.
ghost use Rattle.std.specs.Prelude.{◌≡◌, ◌<◌, ℕ, IfOk, IfSome};
ghost use Rattle.packing_terms.specs.Exclusions.{AreAtEdges};
ghost use Rattle.packing_terms.specs.Goals.{with_last_side};
ghost use Rattle.tree_terms.specs.Trees.{outcome, under_budget};
ghost use Rattle.tree_terms.specs.ClassTree.{class_tree};
ghost use Rattle.tree_terms.specs.Levels.{first_heights};
ghost use Rattle.tree_terms.specs.Heights.{height_answer_from};
ghost use Rattle.work_share.specs.Outcomes.{plain_outcome};
ghost use Rattle.level_search.specs.Runs.{plain_level};
ghost use Rattle.strip_solver.specs.Deciding.{IsReadyFor};

use box_instances::{Instance, NoMemory};
use class_search::{ClassTree, Decider, Exclusion};
use level_search::{Level, level_of};
use proof_tree::Outcome;
use std::alloc::Global;
use std::sync::Wait;
use std::thread::Threads;
use work_share::{Gate, Settings};

// What one worker decides all heights with, in the same memory, since their boxes are the same.
// Several share the tree of each. It begins with no exclusion, so trees that begin with some have
// memory of their own.
pub(crate) fn decider_for(
    alloc: Global,
    instance: &Instance,
    start: &[Exclusion],
    workers: u32,
) -> Result<Option<Decider>, NoMemory>
    ensures { IfOk result (λ found. IfSome found (IsReadyFor instance.now start.now)) }
{
    if workers > 1 {
        return Ok(None);
    }
    if !start.is_empty() {
        return Ok(None);
    }
    Ok(Some(Decider::new(alloc, instance)?))
}

// Decides the instance of one height: alone in the memory that is kept, or by its tree alone.
fn decide_tall<R: Threads + Wait + Sync, G: Gate + Sync>(
    rt: &R,
    alloc: Global,
    tall: &Instance,
    start: &[Exclusion],
    decider: &mut Option<Decider>,
    settings: &Settings,
    gate: &G,
) -> Result<Outcome, NoMemory>
    requires edges { AreAtEdges tall.now start.now }
    requires ready { IfSome decider.old (IsReadyFor tall.now start.now) }
    ensures same { decider.new ≡ decider.old }
    ensures outcome { IfOk result (λ r. plain_outcome r
        ≡ under_budget settings.now.budget
        (outcome (class_tree tall.now start.now settings.now.scales))) }
{
    match decider {
        Some(own) => own.decide(alloc, tall, settings.budget, settings.scales),
        None => {
            let tree = ClassTree::starting(alloc, tall, start, settings.scales)?;
            tree.solve(rt, alloc, settings, gate)
        }
    }
}

/// The answer at a height below the stack of all boxes, whose tree begins with these exclusions.
pub(crate) fn decide_height<R: Threads + Wait + Sync, G: Gate + Sync>(
    rt: &R,
    alloc: Global,
    instance: &Instance,
    start: &[Exclusion],
    height: u32,
    decider: &mut Option<Decider>,
    settings: &Settings,
    gate: &G,
) -> Result<Level, NoMemory>
    requires below { height < (first_heights instance.now).placed }
    requires edges { (h : ℕ) → AreAtEdges (with_last_side instance.now h) start.now }
    requires ready { IfSome decider.old (IsReadyFor instance.now start.now) }
    ensures same { decider.new ≡ decider.old }
    ensures answer { IfOk result (λ r. plain_level r
        ≡ height_answer_from start.now instance.now
        settings.now.budget settings.now.scales height) }
{
    // For the proof alone: states the limits of the instance.
    let _limits = instance.len();
    let tall = instance.with_last_side(alloc, height)?;
    let outcome = decide_tall(rt, alloc, &tall, start, decider, settings, gate)?;
    Ok(level_of(outcome))
}
