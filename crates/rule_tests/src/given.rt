//! Instances and states that the tests of rules begin with.
ghost use Rattle.std.specs.Prelude.{◌≡◌, length, IfOk};
ghost use Rattle.packing_terms.specs.Limits.{IsDimCount, IsBoxCount};
ghost use Rattle.packing_terms.specs.Packing.{dims, box_count};

use box_instances::{BoxItem, Instance, Sides};
use edge_state::{EdgeState, Rel};
use std::alloc::Global;
use std::process::Abort;
use std::test::Fail;

/// An instance of these boxes, in a container of sides 10.
pub(crate) fn instance_of(
    rt: &impl Abort,
    alloc: Global,
    boxes: &[[u32; 2]],
) -> Result<Instance, Fail>
    ensures { IfOk result (λ instance. (dims instance ≡ 2)
        × (box_count instance ≡ length boxes.now)) }
{
    let mut items = Vec::new(alloc);
    for sides in boxes {
        items.push(BoxItem {
            sides: Sides::from_slice(alloc, sides)?,
            value: 0,
        })?;
    }
    let container = Sides::from_slice(alloc, &[10, 10])?;
    let instance = Instance::new(container, items)?;
    assert!(rt; instance.dims() == 2 && instance.len() as usize == boxes.len());
    Ok(instance)
}

/// A state with these exclusions but the one at `skipped`.
pub(crate) fn state_without(
    rt: &impl Abort,
    alloc: Global,
    dims: u32,
    boxes: u32,
    gone: &[(u32, u32, u32, Rel)],
    skipped: usize,
) -> Result<EdgeState, Fail>
    requires dims { IsDimCount dims }
    requires boxes { IsBoxCount boxes }
    ensures { IfOk result (λ state. (state.dims ≡ dims) × (state.boxes ≡ boxes)) }
{
    let mut state = EdgeState::new(alloc, dims, boxes)?;
    for i in 0..gone.len() {
        let (dim, u, v, rel) = gone[i];
        assert!(rt; dim < state.dims() && u < state.boxes() && v < state.boxes() && u != v);
        if i != skipped {
            state.exclude(dim, u, v, rel);
        }
    }
    assert!(rt; state.dims() == dims && state.boxes() == boxes);
    Ok(state)
}
