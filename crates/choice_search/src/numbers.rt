//! The numbers of an answer.
ghost use Rattle.std.specs.Prelude.{◌≡◌, ◌≤◌, ◌*◌, length, IfOk};
ghost use Rattle.packing_terms.specs.Packing.{dims};
ghost use Rattle.tree_terms.specs.OuterTrees.{choice_numbers};

use box_instances::{Instance, NoMemory};
use set_search::push_coordinates;
use std::alloc::Global;

/// The answer of the choice tree: of each box that is in its number and its coordinates.
pub fn choice_numbers(
    alloc: Global,
    instance: &Instance,
    taken: &[u32],
    numbers: &[u32],
) -> Result<Vec<u32>, NoMemory>
    requires { length taken.now * dims instance.now ≤ length numbers.now }
    ensures { IfOk result (λ all. all.items ≡ choice_numbers instance.now taken.now numbers.now) }
{
    let mut all = Vec::new(alloc);
    for k in 0..taken.len() {
        let Ok(()) = all.push(taken[k]) else {
            return Err(NoMemory);
        };
        push_coordinates(instance, k, numbers, &mut all)?;
    }
    Ok(all)
}
