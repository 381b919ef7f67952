//! The worklist: the newer part of the list of exclusions of a state.
ghost use Rattle.std.specs.Prelude.{◌≡◌, ◌<◌, ◌≤◌, ◌+◌, ◌-◌, ◌⊎◌, ℕ, true, false, not, nat_lt, length, drop, MatchOption};
ghost use Rattle.packing_terms.specs.Packing.{dims, box_count};
ghost use Rattle.packing_terms.specs.declared.Rel.{Rel as PlainRel};
ghost use Rattle.packing_terms.specs.Exclusions.{excludes};
ghost use Rattle.relation_table.specs.Masks.{mask_has};
ghost use Rattle.packing_terms.specs.Applied.{Extends};
ghost use Rattle.edge_state.specs.BitRows.{HoldsBoxes, row_has};
ghost use Rattle.edge_state.specs.Answers.{IsChangeAfter};
ghost use Rattle.edge_state.specs.Edges.{oldest};
ghost use Rattle.edge_state.specs.States.{IsSized, HasEmptyMask};
ghost use Rattle.edge_state.specs.Work.{IsUnordered, IsNextMark};
ghost use Rattle.edge_state.specs.Work.{IsWorklistDone};
ghost use Rattle.orientation_rules.specs.Pending.{AreFollowed, AreHeld};

use crate::dispatch::propagate_edge;
use crate::empties::is_empty_left;
use crate::long_chains::shut_long_chain;
use box_instances::Instance;
use edge_state::{BitRow, ChainWeights, EdgeState, Exclusion, Mark, Mask};
use orientation_rules::PendingChains;

// The mark after `change`, and the relations whose exclusion is stale: all but the one that
// `change` excludes.
#[inline(always)]
fn mark_after_change(state: &EdgeState, mark: Mark, change: Exclusion) -> (Mark, Mask)
    requires { IsChangeAfter state.now.trail mark change (mark + 1) }
    ensures { IsNextMark mark change (λ r. not (mask_has result.1 r)) result.0 }
{
    (state.mark_after(mark), Mask::all().without(change.rel))
}

/// Drains the worklist: propagates every exclusion after the mark `closed`, oldest first, including
/// those added meanwhile. On return only CHAIN can still add anything, and only in the dirty
/// dimensions of `pending`: those of before, and each one in which a pair became ordered. Returns
/// whether a mask is empty, at which it stops.
pub(crate) fn drain_worklist<const K: usize>(
    instance: &Instance,
    state: &mut EdgeState,
    all: BitRow<K>,
    closed: Mark,
    weights: &mut ChainWeights,
    pending: &mut PendingChains<K>,
) -> bool
    requires words { HoldsBoxes K (box_count instance.now) }
    requires dims { state.old.dims ≡ dims instance.now }
    requires boxes { state.old.boxes ≡ box_count instance.now }
    requires all { (x : ℕ) → row_has all x ≡ nat_lt x (box_count instance.now) }
    requires mark { closed ≤ length state.old.trail }
    requires looked { IsWorklistDone instance.now
        (oldest closed state.old.trail) state.old.trail pending.old.dirty }
    requires followed { AreFollowed instance.now state.old closed weights.old pending.old }
    ensures sizes { state.new ≡ record state.old { trail = state.new.trail } }
    ensures extends { Extends instance.now state.old.trail state.new.trail }
    ensures held { AreHeld instance.now state.new weights.new }
    ensures empty { result ≡ true → HasEmptyMask instance.now (excludes state.new.trail) }
    ensures looked { result ≡ false → IsWorklistDone instance.now state.new.trail state.new.trail
        pending.new.dirty }
    ensures followed { result ≡ false → AreFollowed instance.now state.new (length state.new.trail)
        weights.new pending.new }
    ensures still { result ≡ false → closed ≡ length state.new.trail
        → pending.new.dirty ≡ pending.old.dirty }
{
    let mut next = closed;
    while let Some(change) = state.change_after(next) {
        // For the proof alone: states the limits of the state.
        let _sizes = state.dims();
        let left = state.mask_in::<K>(change.dim, change.u, change.v);
        if is_empty_left(instance, state, change.dim, change.u, change.v, left) {
            return true;
        }
        if shut_long_chain(instance, state, weights, pending, all, next, change, left) {
            return true;
        }
        let (after, stale) = mark_after_change(state, next, change);
        let most = instance.longest_side(change.dim);
        if propagate_edge(
            instance, state, all, change.dim, change.u, change.v, left, stale, most,
        ) {
            return true;
        }
        next = after;
    }
    false
}
