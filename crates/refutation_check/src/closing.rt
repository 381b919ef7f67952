//! The closing of a node: from nothing, or from where its parent was closed.
ghost use Rattle.std.specs.Prelude.{◌≡◌, ◌≤◌, ◌-◌, length, drop};
ghost use Rattle.packing_terms.specs.Packing.{dims, box_count};
ghost use Rattle.packing_terms.specs.Exclusions.{Exclusions, excludes};
ghost use Rattle.packing_terms.specs.Closure.{Derives, IsStable};
ghost use Rattle.packing_terms.specs.Applied.{Extends};
ghost use Rattle.packing_terms.specs.Places.{HasNoEmptyMask};
ghost use Rattle.edge_state.specs.Edges.{oldest};
ghost use Rattle.refutation_check.specs.Ended.{IsEnded};

use box_instances::Instance;
use edge_state::{EdgeState, Mark};
use rule_passes::Propagator;

/// Excludes what follows from the exclusions of the state, from PAIR at all pairs on. True is a
/// conflict.
pub(crate) fn close_all(instance: &Instance, state: &mut EdgeState, room: &mut Propagator) -> bool
    requires dims { state.old.dims ≡ dims instance.now }
    requires boxes { state.old.boxes ≡ box_count instance.now }
    requires room_dims { room.old.dims ≡ dims instance.now }
    requires room_boxes { room.old.boxes ≡ box_count instance.now }
    ensures room { room.new ≡ room.old }
    ensures sizes { state.new ≡ record state.old { trail = state.new.trail } }
    ensures extends { Extends instance.now state.old.trail state.new.trail }
    ensures ended { (E : Exclusions) → Derives instance.now (excludes state.old.trail) E
        → Derives instance.now E (excludes state.old.trail)
        → IsEnded instance.now E state.new.trail result }
{
    room.close_all(instance, state)
}

/// The same for a state that was closed, without an empty mask, at a position of its list.
pub(crate) fn close_since(
    instance: &Instance,
    state: &mut EdgeState,
    room: &mut Propagator,
    closed: Mark,
) -> bool
    requires dims { state.old.dims ≡ dims instance.now }
    requires boxes { state.old.boxes ≡ box_count instance.now }
    requires room_dims { room.old.dims ≡ dims instance.now }
    requires room_boxes { room.old.boxes ≡ box_count instance.now }
    requires mark { closed ≤ length state.old.trail }
    requires stable { IsStable instance.now
        (excludes (oldest closed state.old.trail)) }
    requires full { HasNoEmptyMask instance.now
        (excludes (oldest closed state.old.trail)) }
    ensures room { room.new ≡ room.old }
    ensures sizes { state.new ≡ record state.old { trail = state.new.trail } }
    ensures extends { Extends instance.now state.old.trail state.new.trail }
    ensures ended { (E : Exclusions) → Derives instance.now (excludes state.old.trail) E
        → Derives instance.now E (excludes state.old.trail)
        → IsEnded instance.now E state.new.trail result }
{
    room.close_since(instance, state, closed)
}
