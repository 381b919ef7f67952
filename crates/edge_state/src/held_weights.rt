//! A closing borrows the chain weights of its state, and gives them back at its end.
ghost use Rattle.std.specs.Prelude.{◌≡◌, ◌≤◌, true, length};
ghost use Rattle.packing_terms.specs.Packing.{dims, box_count};
ghost use Rattle.packing_terms.specs.Exclusions.{excludes};
ghost use Rattle.edge_state.specs.Edges.{oldest};
ghost use Rattle.edge_state.specs.ChainWeights.{AreForInstance, AreGoodFor, AreOf};

use crate::chain_weights::ChainWeights;
use crate::state::{EdgeState, Mark};
use box_instances::Instance;
use std::mem::swap;

impl EdgeState {
    /// Exchanges the chain weights of the state with `weights` for a closing. Returns whether they
    /// are good for the state at `closed`, the mark at which it was last closed without a conflict:
    /// settled weights of walks, by which each two boxes fit. Otherwise they are arbitrary numbers.
    /// It takes no memory.
    ///
    /// The state keeps `weights` until `end_closing`, without a log or an end of a closing.
    pub fn begin_closing(
        &mut self,
        instance: &Instance,
        weights: &mut ChainWeights,
        closed: Mark,
    ) -> bool
        requires dims { self.old.dims ≡ dims instance.now }
        requires boxes { self.old.boxes ≡ box_count instance.now }
        requires mark { closed ≤ length self.old.trail }
        ensures state { self.new ≡ self.old }
        ensures instance { AreForInstance instance.now weights.new }
        ensures held { AreOf (dims instance.now) (box_count instance.now) self.old.trail
            weights.new }
        ensures good { result ≡ true → AreGoodFor instance.now
            (excludes (oldest closed self.old.trail)) weights.new.numbers }
    {
        weights.forget();
        swap(&mut self.weights, weights);
        weights.begin(instance, closed)
    }

    /// Exchanges the weights back at the end of a closing that `begin_closing` began. `is_settled`
    /// says that it ended without a conflict and that the weights are good for the state: a later
    /// closing from this mark begins with them. It takes no memory.
    pub fn end_closing(&mut self, instance: &Instance, weights: &mut ChainWeights, is_settled: bool)
        requires dims { self.old.dims ≡ dims instance.now }
        requires boxes { self.old.boxes ≡ box_count instance.now }
        requires instance { AreForInstance instance.now weights.old }
        requires held { AreOf (dims instance.now) (box_count instance.now) self.old.trail
            weights.old }
        requires good { is_settled ≡ true → AreGoodFor instance.now (excludes self.old.trail)
            weights.old.numbers }
        ensures { self.new ≡ self.old }
    {
        if is_settled {
            weights.end(self.mark());
        }
        swap(&mut self.weights, weights);
    }
}
