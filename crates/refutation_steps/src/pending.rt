//! Open nodes of a refutation that wait.
ghost use Rattle.std.specs.Prelude.{◌≡◌, ◌≤◌, ◌∷◌, length, reverse, OnOk};
ghost use Rattle.edge_state.specs.Edges.{oldest};
ghost use Rattle.refutation_steps.specs.Nodes.{with_some, IsAtAmong};

use box_instances::NoMemory;
use edge_state::{EdgeState, Exclusion, Mark};

/// An open node that waits: how long the lists of its parent were, of what is given and of what is
/// held; up to which position the first of them is closed; and what the node excludes, the second
/// before the first.
#[derive(Clone, Copy)]
pub struct Pending {
    pub given: Mark,
    pub held: Mark,
    pub closed: Option<Mark>,
    pub first: Option<Exclusion>,
    pub second: Option<Exclusion>,
}

// Excludes what may be there to exclude.
fn exclude_some(state: &mut EdgeState, excluded: Option<Exclusion>)
    requires { IsAtAmong state.old.dims state.old.boxes excluded }
    ensures { state.new ≡ record state.old { trail = with_some state.old.trail excluded } }
{
    if let Some(e) = excluded {
        state.exclude(e.dim, e.u, e.v, e.rel);
    }
}

/// Brings a state to a node, from a position of its list.
pub(crate) fn enter(
    state: &mut EdgeState,
    mark: Mark,
    first: Option<Exclusion>,
    second: Option<Exclusion>,
)
    requires mark { mark ≤ length state.old.trail }
    requires first { IsAtAmong state.old.dims state.old.boxes first }
    requires second { IsAtAmong state.old.dims state.old.boxes second }
    ensures { state.new ≡ record state.old {
      trail = with_some (with_some (oldest mark state.old.trail) second) first;
    } }
{
    state.undo(mark);
    exclude_some(state, second);
    exclude_some(state, first);
}

/// A node more, which is the next one.
pub(crate) fn push_pending(pending: &mut Vec<Pending>, node: Pending) -> Result<(), NoMemory>
    ensures { OnOk result (reverse pending.new.items ≡ node ∷ reverse pending.old.items) }
{
    let _closed = node.closed;
    let Ok(()) = pending.push(node) else {
        return Err(NoMemory);
    };
    Ok(())
}
