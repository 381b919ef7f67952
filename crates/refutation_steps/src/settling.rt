//! Steps to what a closing adds at a node.
ghost use Rattle.std.specs.Prelude.{◌≡◌, IfOk, OnOk};
ghost use Rattle.packing_terms.specs.Packing.{dims, box_count};
ghost use Rattle.packing_terms.specs.Exclusions.{excludes};
ghost use Rattle.packing_terms.specs.Closure.{IsSubset};
ghost use Rattle.packing_terms.specs.Applied.{Extends};
ghost use Rattle.rule_closure.specs.Closes.{IsClosed};
ghost use Rattle.refutation_steps.specs.Nodes.{IsKnown, IsSettled};
ghost use Rattle.refutation_steps.specs.Walks.{IsFor};

use crate::replay::replay_on;
use crate::walk_state::Walk;
use box_instances::{Instance, NoMemory};
use edge_state::{EdgeState, Mark};
use rule_closure::{Closed, Closer};

/// Closes a state, from the position up to which it is closed where one is named.
pub(crate) fn close_known(
    instance: &Instance,
    closer: &mut Closer,
    state: &mut EdgeState,
    closed: Option<Mark>,
) -> Closed
    requires dims { state.old.dims ≡ dims instance.now }
    requires boxes { state.old.boxes ≡ box_count instance.now }
    requires room { closer.old ≡ record { dims = state.old.dims; boxes = state.old.boxes } }
    requires known { IsKnown instance.now state.old.trail closed }
    ensures closer { closer.new ≡ closer.old }
    ensures sizes { state.new ≡ record state.old { trail = state.new.trail } }
    ensures extends { Extends instance.now state.old.trail state.new.trail }
    ensures closed { IsClosed instance.now state.old.trail state.new.trail result }
{
    match closed {
        Some(mark) => closer.close_since(instance, state, mark),
        None => closer.close(instance, state),
    }
}

/// Closes what is given, and takes the steps to it. Answers the position up to which it is closed
/// then, and `None` where a mask is empty.
pub(crate) fn settle(
    instance: &Instance,
    walk: &mut Walk,
    closed: Option<Mark>,
) -> Result<Option<Mark>, NoMemory>
    requires sizes { IsFor instance.now walk.old }
    requires known { IsKnown instance.now walk.old.given.trail closed }
    requires held { IsSubset (excludes walk.old.given.trail) (excludes walk.old.state.trail) }
    ensures sizes { OnOk result (IsFor instance.now walk.new) }
    ensures pending { walk.new.pending ≡ walk.old.pending }
    ensures extends { Extends instance.now walk.old.given.trail walk.new.given.trail }
    ensures settled { IfOk result (λ ended. IsSettled instance.now walk.old.state walk.new.state
        walk.old.lines walk.new.lines
        walk.new.given.trail ended) }
{
    let from = walk.given.mark();
    let end = close_known(instance, &mut walk.closer, &mut walk.given, closed);
    let stopped = replay_on(
        instance,
        &mut walk.state,
        &mut walk.lines,
        &mut walk.room,
        &walk.given,
        from,
    )?;
    if stopped {
        return Ok(None);
    }
    match end {
        Closed::Stable => Ok(Some(walk.given.mark())),
        Closed::Conflict => Ok(None),
    }
}
