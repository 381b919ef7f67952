//! Room in which the states of an instance are closed, and what is looked at in them.
ghost use Rattle.std.specs.Prelude.{◌≡◌, IfOk, IsTrue, []};
ghost use Rattle.packing_terms.specs.Packing.{dims, box_count};
ghost use Rattle.packing_terms.specs.Exclusions.{IsEdgeAmong};

use box_instances::{Instance, NoMemory};
use edge_state::{EdgeState, Rel};
use rule_closure::Closer;
use std::alloc::Global;

/// A state and a closer of the sizes of an instance.
#[derive(Drop)]
pub struct Room {
    pub state: EdgeState,
    pub closer: Closer,
}

/// Room for an instance, with nothing excluded.
pub(crate) fn room_for(alloc: Global, instance: &Instance) -> Result<Room, NoMemory>
    ensures { IfOk result (λ room. room ≡ record {
      state = record {
        dims = dims instance.now;
        boxes = box_count instance.now;
        room = box_count instance.now;
        trail = [];
      };
      closer = record { dims = dims instance.now; boxes = box_count instance.now };
    }) }
{
    let (dims, boxes) = (instance.dims(), instance.len());
    let state = EdgeState::new(alloc, dims, boxes)?;
    let closer = Closer::new(alloc, dims, boxes)?;
    Ok(Room { state, closer })
}

/// Whether there are two such boxes, and such a dimension.
pub(crate) fn is_edge(state: &EdgeState, dim: u32, u: u32, v: u32) -> bool
    ensures { IsTrue result → IsEdgeAmong state.now.dims state.now.boxes dim u v }
{
    if dim >= state.dims() || u >= state.boxes() || v >= state.boxes() {
        return false;
    }
    u != v
}

/// Excludes a relation of two boxes, if there are two such.
pub(crate) fn exclude_at(state: &mut EdgeState, dim: u32, u: u32, v: u32, rel: Rel)
    ensures { state.new ≡ record state.old { trail = state.new.trail } }
{
    if is_edge(state, dim, u, v) {
        let _ = state.exclude(dim, u, v, rel);
    }
}
