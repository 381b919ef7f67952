//! Decisions of instances with the same boxes, one after another in the same memory.
ghost use Rattle.std.specs.Prelude.{◌≡◌, ◌≤◌, ◌+◌, ◌-◌, ◌*◌, ◌/◌, ◌^◌, IfOk, []};
ghost use Rattle.packing_terms.specs.Packing.{dims, box_count};
ghost use Rattle.tree_terms.specs.Trees.{outcome, under_budget};
ghost use Rattle.tree_terms.specs.ClassTree.{class_tree};
ghost use Rattle.work_share.specs.Outcomes.{plain_outcome};
ghost use Rattle.class_search.specs.Deciders.{decider_of};
ghost use Rattle.class_search.specs.Right.{IsRight, Decides, IsYesOrNo};

use crate::exploring::searched;
use crate::rank::ranked_pairs;
use crate::search::Search;
use box_instances::{Instance, NoMemory};
use edge_state::EdgeState;
use proof_tree::Outcome;
use rule_closure::Closer;
use std::alloc::Global;
use std::marker::Model;

/// Decides instances with the same boxes, one after another: as those that differ in a container
/// side. The rank of the boxes, the state and the room of its closure are made once.
#[derive(Drop)]
pub struct Decider {
    pairs: Vec<(u32, u32)>,
    state: EdgeState,
    closer: Closer,
}

impl Model for Decider {
    ghost use Rattle.std.specs.Prelude.{◌≡◌};
    ghost use Rattle.class_search.specs.Deciders.{PlainDecider};

    ghost Value = { PlainDecider };

    ghost view = { λ d. record {
      dims = d.state.dims;
      boxes = d.state.boxes;
      pairs = d.pairs.items;
    } };

    ghost invariant = { λ d. d.closer ≡ record { dims = d.state.dims; boxes = d.state.boxes } };
}

impl Decider {
    /// A decider for the boxes of the instance.
    pub fn new(alloc: Global, instance: &Instance) -> Result<Decider, NoMemory>
        ensures { IfOk result (λ d. d ≡ decider_of instance.now) }
    {
        let pairs = ranked_pairs(alloc, instance)?;
        let state = EdgeState::new(alloc, instance.dims(), instance.len())?;
        let closer = Closer::new(alloc, instance.dims(), instance.len())?;
        Ok(Decider {
            pairs,
            state,
            closer,
        })
    }

    /// Whether an instance fits, decided by its class tree under a budget of branchings. It has the
    /// boxes of the decider.
    ///
    /// A yes has places that are a packing, and a no has a refutation. `Past` comes exactly where
    /// the tree has more branchings than the budget, and never where the budget is at least 3 to
    /// the number of pairs in all dimensions, less 1.
    pub fn decide(
        &mut self,
        alloc: Global,
        instance: &Instance,
        budget: u64,
        scales: bool,
    ) -> Result<Outcome, NoMemory>
        requires { self.old ≡ decider_of instance.now }
        ensures same { self.new ≡ self.old }
        ensures outcome { IfOk result
            (λ r. plain_outcome r
            ≡ under_budget budget (outcome (class_tree instance.now [] scales))) }
        ensures right { IfOk result (λ r. IsRight instance.now [] (plain_outcome r)) }
        ensures decides { IfOk result (λ r. Decides instance.now (plain_outcome r)) }
        ensures enough { 3 ^ (dims instance.now * box_count instance.now
            * (box_count instance.now - 1) / 2) ≤ budget + 1
            → IfOk result (λ r. IsYesOrNo (plain_outcome r)) }
    {
        // For the proof alone: states the limits of the instance.
        let _limits = instance.len();
        let search = Search {
            alloc,
            instance,
            pairs: self.pairs.as_slice(),
        };
        let (state, closer) = (&mut self.state, &mut self.closer);
        state.reset();
        searched(&search, state, closer, budget, scales)
    }
}
