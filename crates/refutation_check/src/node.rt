//! An open node, and its closing.
ghost use Rattle.std.specs.Prelude.{◌≡◌, List, [], None};
ghost use Rattle.std.specs.List.{All};
ghost use Rattle.packing_terms.specs.declared.Exclusion.{Exclusion as PlainExclusion};
ghost use Rattle.packing_terms.specs.Packing.{dims, box_count};
ghost use Rattle.packing_terms.specs.Exclusions.{excludes, IsEdgeAmong};
ghost use Rattle.packing_terms.specs.Applied.{Extends};
ghost use Rattle.edge_state.specs.Edges.{oldest};
ghost use Rattle.refutation_check.specs.Ended.{IsEnded};
ghost use Rattle.refutation_check.specs.Nodes.{with_each, with_some, IsAtAmong, entered, node_exclusions, Stands, IsOver};

use crate::closing::{close_all, close_since};
use box_instances::Instance;
use edge_state::{EdgeState, Exclusion, Mark};
use rule_passes::Propagator;

/// An open node: how long the lists of the state and of the splits were at its parent, and what its
/// split excludes; nothing at the root.
#[derive(Clone, Copy)]
pub struct OpenNode {
    pub mark: Mark,
    pub splits: u32,
    pub first: Option<Exclusion>,
    pub second: Option<Exclusion>,
}

impl OpenNode {
    /// The root of a tree, where the list of the state is so long.
    pub fn root(mark: Mark) -> OpenNode
        ensures { result ≡ record { mark = mark; splits = 0; first = None; second = None } }
    {
        OpenNode {
            mark,
            splits: 0,
            first: None,
            second: None,
        }
    }
}

// Excludes what may be there to exclude.
fn exclude_some(state: &mut EdgeState, excluded: Option<Exclusion>)
    requires { IsAtAmong state.old.dims state.old.boxes excluded }
    ensures { state.new ≡ record state.old { trail = with_some state.old.trail excluded } }
{
    if let Some(e) = excluded {
        state.exclude(e.dim, e.u, e.v, e.rel);
    }
}

/// Excludes these exclusions in a state with full masks, the last one first.
pub(crate) fn exclude_each(state: &mut EdgeState, start: &[Exclusion])
    requires places { All (λ e. IsEdgeAmong state.old.dims state.old.boxes e.dim e.u e.v)
        start.now }
    requires full { state.old.trail ≡ [] }
    ensures { state.new ≡ record state.old { trail = with_each start.now } }
{
    for i in 0..start.len() {
        let e = start[start.len() - 1 - i];
        state.exclude(e.dim, e.u, e.v, e.rel);
    }
}

/// Brings the state back to the parent of a node and on to the closure of the node. True is a
/// conflict.
pub(crate) fn enter(
    instance: &Instance,
    state: &mut EdgeState,
    room: &mut Propagator,
    node: OpenNode,
) -> bool
    requires over { IsOver instance.now state.old node }
    requires room_dims { room.old.dims ≡ dims instance.now }
    requires room_boxes { room.old.boxes ≡ box_count instance.now }
    ensures sizes { state.new ≡ record state.old { trail = state.new.trail } }
    ensures room { room.new ≡ room.old }
    ensures extends { Extends instance.now (entered node state.old.trail) state.new.trail }
    ensures ended { (above : List PlainExclusion)
        → Stands instance.now above node.first (oldest node.mark state.old.trail)
        → IsEnded instance.now (excludes (node_exclusions node above)) state.new.trail result }
{
    state.undo(node.mark);
    exclude_some(state, node.second);
    exclude_some(state, node.first);
    if node.first.is_none() {
        return close_all(instance, state, room);
    }
    close_since(instance, state, room, node.mark)
}
