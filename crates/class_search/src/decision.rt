//! The decision of one instance.
ghost use Rattle.std.specs.Prelude.{◌≡◌, ◌≤◌, ◌+◌, ◌-◌, ◌*◌, ◌/◌, ◌^◌, IfOk, []};
ghost use Rattle.packing_terms.specs.Packing.{dims, box_count};
ghost use Rattle.tree_terms.specs.Trees.{outcome, under_budget};
ghost use Rattle.tree_terms.specs.ClassTree.{class_tree};
ghost use Rattle.work_share.specs.Outcomes.{plain_outcome};
ghost use Rattle.class_search.specs.Right.{IsRight, Decides, IsYesOrNo};

use crate::exploring::searched_alone;
use crate::{ClassTree, Decider};
use box_instances::{Instance, NoMemory};
use edge_state::EdgeState;
use proof_tree::Outcome;
use rule_closure::Closer;
use std::alloc::Global;
use std::sync::Wait;
use std::thread::Threads;
use work_share::{Gate, Settings};

/// Whether an instance fits, decided by its class tree under a budget of branchings.
///
/// A yes has places that are a packing, and a no has a refutation. `Past` comes exactly where the
/// tree has more branchings than the budget, and never where the budget is at least 3 to the number
/// of pairs in all dimensions, less 1.
pub fn decide_alone(
    alloc: Global,
    instance: &Instance,
    budget: u64,
    scales: bool,
) -> Result<Outcome, NoMemory>
    ensures outcome { IfOk result
        (λ r. plain_outcome r ≡ under_budget budget (outcome (class_tree instance.now [] scales))) }
    ensures right { IfOk result (λ r. IsRight instance.now [] (plain_outcome r)) }
    ensures decides { IfOk result (λ r. Decides instance.now (plain_outcome r)) }
    ensures enough { 3 ^ (dims instance.now * box_count instance.now
        * (box_count instance.now - 1) / 2) ≤ budget + 1
        → IfOk result (λ r. IsYesOrNo (plain_outcome r)) }
{
    let mut decider = Decider::new(alloc, instance)?;
    decider.decide(alloc, instance, budget, scales)
}

/// Whether an instance fits, as `decide_alone` answers it. The caller passes the state and the room
/// of a closing, so that many decisions use the same. Both have the numbers of dimensions and boxes
/// of the instance. All masks of the state are full; afterwards it holds any exclusions.
pub fn decide_in(
    alloc: Global,
    instance: &Instance,
    state: &mut EdgeState,
    closer: &mut Closer,
    budget: u64,
    scales: bool,
) -> Result<Outcome, NoMemory>
    requires dims { state.old.dims ≡ dims instance.now }
    requires boxes { state.old.boxes ≡ box_count instance.now }
    requires full { state.old.trail ≡ [] }
    requires room { closer.old ≡ record { dims = state.old.dims; boxes = state.old.boxes } }
    ensures sizes { state.new ≡ record state.old { trail = state.new.trail } }
    ensures closer { closer.new ≡ closer.old }
    ensures outcome { IfOk result
        (λ r. plain_outcome r ≡ under_budget budget (outcome (class_tree instance.now [] scales))) }
    ensures right { IfOk result (λ r. IsRight instance.now [] (plain_outcome r)) }
{
    // For the proof alone: states the limits of the instance.
    let _limits = instance.len();
    searched_alone(alloc, instance, state, closer, budget, scales)
}

/// Whether an instance fits, decided by its class tree under the budget of the settings, by as many
/// workers as these say.
///
/// It answers what `decide_alone` answers, for every number of workers and every gate.
pub fn decide<R: Threads + Wait + Sync, G: Gate + Sync>(
    rt: &R,
    alloc: Global,
    instance: &Instance,
    settings: &Settings,
    gate: &G,
) -> Result<Outcome, NoMemory>
    ensures outcome { IfOk result
        (λ r. plain_outcome r ≡ under_budget settings.now.budget
        (outcome (class_tree instance.now [] settings.now.scales))) }
    ensures right { IfOk result (λ r. IsRight instance.now [] (plain_outcome r)) }
    ensures decides { IfOk result (λ r. Decides instance.now (plain_outcome r)) }
    ensures enough { 3 ^ (dims instance.now * box_count instance.now
        * (box_count instance.now - 1) / 2) ≤ settings.now.budget + 1
        → IfOk result (λ r. IsYesOrNo (plain_outcome r)) }
{
    // For the proof alone: states the limits of the instance.
    let _limits = instance.len();
    let tree = ClassTree::new(alloc, instance, settings.scales)?;
    tree.solve(rt, alloc, settings, gate)
}
