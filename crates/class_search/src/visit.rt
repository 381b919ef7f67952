//! Visits of nodes: a state is closed, and the kind of its node is returned.
ghost use Rattle.std.specs.Prelude.{◌≡◌, ◌<◌, ℕ, false};
ghost use Rattle.packing_terms.specs.Packing.{dims, box_count};
ghost use Rattle.packing_terms.specs.Limits.{IsInternalInstance};
ghost use Rattle.packing_terms.specs.Exclusions.{excludes};
ghost use Rattle.packing_terms.specs.Rank.{ranked_pairs};
ghost use Rattle.tree_terms.specs.InnerTree.{is_settled};
ghost use Rattle.class_search.specs.Settling.{AreSettledBefore};
ghost use Rattle.class_search.specs.Splits.{MaySplit, added, with_all};
ghost use Rattle.class_search.specs.Visits.{IsNextPair, IsMet, IsDivided};

use crate::pairs::first_unsettled;
use crate::search::Search;
use crate::splits::{Child, Split};
use edge_state::EdgeState;
use rule_closure::{Closed, Closer};

// What a node is: one with a conflict, one whose pairs are all settled, or one that is split at the
// first unsettled pair, whose position by rank is `rank`.
#[derive(Clone, Copy, Debug, PartialEq, Eq)]
pub(crate) enum NodeKind {
    Conflict,
    Settled,
    Divided { split: Split, rank: usize },
}

// The kind of a closed state, where the pairs before `from` are settled.
pub(crate) fn next_kind(search: &Search<'_>, state: &EdgeState, from: usize) -> NodeKind
    requires dims { state.now.dims ≡ dims search.now.instance.now }
    requires boxes { state.now.boxes ≡ box_count search.now.instance.now }
    requires pairs { search.now.pairs.now ≡ ranked_pairs search.now.instance.now }
    requires settled { AreSettledBefore (excludes state.now.trail) (dims search.now.instance.now)
        (ranked_pairs search.now.instance.now) from }
    requires divided { (p : ℕ × ℕ) → p.0 < p.1 → p.1 < box_count search.now.instance.now
        → is_settled (excludes state.now.trail) (dims search.now.instance.now) p ≡ false
        → MaySplit (excludes state.now.trail) (dims search.now.instance.now) p }
    ensures { IsNextPair search.now.instance.now state.now.trail result }
{
    let Some(rank) = first_unsettled(state, search.pairs, from) else {
        return NodeKind::Settled;
    };
    let (u, v) = search.pairs[rank];
    let split = Split::of_pair(state, u, v);
    NodeKind::Divided { split, rank }
}

// Closes the state of the root of an inner tree, and returns its kind.
pub(crate) fn visit_root(
    search: &Search<'_>,
    state: &mut EdgeState,
    closer: &mut Closer,
) -> NodeKind
    requires limits { IsInternalInstance search.now.instance.now }
    requires dims { state.old.dims ≡ dims search.now.instance.now }
    requires boxes { state.old.boxes ≡ box_count search.now.instance.now }
    requires room { closer.old ≡ record { dims = state.old.dims; boxes = state.old.boxes } }
    requires pairs { search.now.pairs.now ≡ ranked_pairs search.now.instance.now }
    ensures sizes { state.new ≡ record state.old { trail = state.new.trail } }
    ensures closer { closer.new ≡ closer.old }
    ensures met { IsMet search.now.instance.now state.old.trail state.new.trail result }
{
    match closer.close(search.instance, state) {
        Closed::Conflict => NodeKind::Conflict,
        Closed::Stable => next_kind(search, state, 0),
    }
}

// Goes from a node that is split, whose closed state this is, to a child. It closes what follows
// from the child's own exclusions, and returns the child's kind.
pub(crate) fn visit_child(
    search: &Search<'_>,
    state: &mut EdgeState,
    closer: &mut Closer,
    split: Split,
    rank: usize,
    child: Child,
) -> NodeKind
    requires limits { IsInternalInstance search.now.instance.now }
    requires dims { state.old.dims ≡ dims search.now.instance.now }
    requires boxes { state.old.boxes ≡ box_count search.now.instance.now }
    requires room { closer.old ≡ record { dims = state.old.dims; boxes = state.old.boxes } }
    requires pairs { search.now.pairs.now ≡ ranked_pairs search.now.instance.now }
    requires divided { IsDivided search.now.instance.now state.old.trail split rank }
    ensures sizes { state.new ≡ record state.old { trail = state.new.trail } }
    ensures closer { closer.new ≡ closer.old }
    ensures met { IsMet search.now.instance.now
        (with_all (added split child) state.old.trail) state.new.trail result }
{
    let closed = state.mark();
    split.enter(state, child);
    match closer.close_since(search.instance, state, closed) {
        Closed::Conflict => NodeKind::Conflict,
        Closed::Stable => next_kind(search, state, rank),
    }
}
