//! The coordinates of one box in the answer of its set.
ghost use Rattle.std.specs.Prelude.{◌≡◌, ◌≤◌, ◌*◌, ◌+◌, ◌++◌, length, OnOk, OnErr};
ghost use Rattle.packing_terms.specs.Packing.{dims};
ghost use Rattle.tree_terms.specs.OuterTrees.{coordinates_at};

use box_instances::{Instance, NoMemory};

/// Appends the coordinates of the box at an index of a set, from the answer of the set's tree.
/// Where memory is refused, the list is as before.
pub fn push_coordinates(
    instance: &Instance,
    k: usize,
    numbers: &[u32],
    into: &mut Vec<u32>,
) -> Result<(), NoMemory>
    requires { (k + 1) * dims instance.now ≤ length numbers.now }
    ensures appends { OnOk result (into.new.items
        ≡ into.old.items ++ coordinates_at (dims instance.now) numbers.now k) }
    ensures back { OnErr result (into.new.items ≡ into.old.items) }
{
    let dims = instance.dims() as usize;
    if into.reserve(dims).is_err() {
        return Err(NoMemory);
    }
    for i in 0..dims {
        into.push_reserved(numbers[k * dims + i]);
    }
    Ok(())
}
