//! The decision of one instance from its symmetry facts on.
ghost use Rattle.std.specs.Prelude.{◌≡◌, ◌≤◌, ◌+◌, ◌-◌, ◌*◌, ◌/◌, ◌^◌, IfOk};
ghost use Rattle.packing_terms.specs.Packing.{dims, box_count};
ghost use Rattle.tree_terms.specs.Trees.{outcome, under_budget};
ghost use Rattle.tree_terms.specs.ClassTree.{class_tree};
ghost use Rattle.work_share.specs.Outcomes.{plain_outcome};
ghost use Rattle.class_search.specs.Right.{IsRight, Decides, IsYesOrNo};
ghost use Rattle.packing_terms.specs.Facts.{symmetry_facts};

use box_instances::{Instance, NoMemory};
use class_search::ClassTree;
use proof_tree::Outcome;
use std::alloc::Global;
use std::sync::Wait;
use std::thread::Threads;
use symmetry_list::facts;
use work_share::{Gate, Settings};

/// Whether an instance fits, decided by the class tree that begins with its symmetry facts, under
/// the budget of the settings, by as many workers as these say.
///
/// A yes comes only where the instance fits, and has places that are a packing. A no comes only
/// where it doesn't, and refutes the instance under its facts. `Past` comes exactly where that tree
/// has more branchings than the budget, and never where the budget is at least 3 to the number of
/// pairs in all dimensions, less 1.
pub fn decide_reduced<R: Threads + Wait + Sync, G: Gate + Sync>(
    rt: &R,
    alloc: Global,
    instance: &Instance,
    settings: &Settings,
    gate: &G,
) -> Result<Outcome, NoMemory>
    ensures outcome { IfOk result
        (λ r. plain_outcome r ≡ under_budget settings.now.budget
        (outcome (class_tree instance.now (symmetry_facts instance.now) settings.now.scales))) }
    ensures right { IfOk result
        (λ r. IsRight instance.now (symmetry_facts instance.now) (plain_outcome r)) }
    ensures decides { IfOk result (λ r. Decides instance.now (plain_outcome r)) }
    ensures enough { 3 ^ (dims instance.now * box_count instance.now
        * (box_count instance.now - 1) / 2) ≤ settings.now.budget + 1
        → IfOk result (λ r. IsYesOrNo (plain_outcome r)) }
{
    // For the proof alone: states the limits of the instance.
    let _limits = instance.len();
    let start = facts(alloc, instance)?;
    let tree = ClassTree::starting(alloc, instance, start.as_slice(), settings.scales)?;
    tree.solve(rt, alloc, settings, gate)
}
