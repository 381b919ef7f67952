//! The stack of all boxes.
ghost use Rattle.std.specs.Prelude.{◌≡◌, ◌<◌, ◌≤◌, ◌++◌, ◌+◌, ◌==◌, if◌then◌else◌, OnOk, IfOk};
ghost use Rattle.packing_terms.specs.Packing.{box_count};
ghost use Rattle.packing_terms.specs.Limits.{max_side, max_height};
ghost use Rattle.tree_terms.specs.Levels.{last_side, first_heights};
ghost use Rattle.strip_solver.specs.Stacked.{stacked};

use box_instances::{Instance, NoMemory};
use std::alloc::Global;

// The places of the boxes in one stack, and its height.
#[derive(Drop)]
pub struct Stack {
    pub places: Vec<u32>,
    pub height: u32,
}

// The last side of a box.
fn last_side(instance: &Instance, v: u32) -> u32
    requires { v < box_count instance.now }
    ensures value { result ≡ last_side instance.now v }
    ensures to { result ≤ max_side }
{
    instance.side(v, instance.dims() - 1)
}

// The coordinate of a box in a stack: 0, and in the last dimension what is below it.
fn coordinate(dim: u32, dims: u32, height: u32) -> u32
    requires { dim < dims }
    ensures { result ≡ (if dim + 1 == dims then height else 0) }
{
    if dim + 1 == dims { height } else { 0 }
}

// Adds the coordinates of a box that has so much below it.
fn push_stacked(places: &mut Vec<u32>, dims: u32, height: u32) -> Result<(), NoMemory>
    ensures { OnOk result (places.new.items ≡ places.old.items ++ stacked dims height) }
{
    for dim in 0..dims {
        let Ok(()) = places.push(coordinate(dim, dims, height)) else {
            return Err(NoMemory);
        };
    }
    Ok(())
}

// The stack of all boxes, each on the boxes of lower numbers.
pub(crate) fn stack_all(alloc: Global, instance: &Instance) -> Result<Stack, NoMemory>
    ensures places { IfOk result (λ s. s.places.items ≡ (first_heights instance.now).numbers) }
    ensures height { IfOk result (λ s. s.height ≡ (first_heights instance.now).placed) }
    ensures to { IfOk result (λ s. s.height ≤ max_height) }
{
    let mut places = Vec::new(alloc);
    let mut height = 0;
    for v in 0..instance.len() {
        push_stacked(&mut places, instance.dims(), height)?;
        height += last_side(instance, v);
    }
    Ok(Stack { places, height })
}
