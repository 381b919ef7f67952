//! Each box alone in a bin.
ghost use Rattle.std.specs.Prelude.{◌≡◌, ◌++◌, OnOk, IfOk};
ghost use Rattle.tree_terms.specs.Levels.{one_bin_each};
ghost use Rattle.bin_knapsack.specs.Alone.{alone};

use box_instances::{Instance, NoMemory};
use std::alloc::Global;

// Adds a box's bin, and the box at the origin.
fn push_alone(numbers: &mut Vec<u32>, dims: u32, bin: u32) -> Result<(), NoMemory>
    ensures { OnOk result (numbers.new.items ≡ numbers.old.items ++ alone dims bin) }
{
    let Ok(()) = numbers.push(bin) else {
        return Err(NoMemory);
    };
    for _ in 0..dims {
        let Ok(()) = numbers.push(0) else {
            return Err(NoMemory);
        };
    }
    Ok(())
}

// A bin for each box, with the box at the origin.
pub(crate) fn one_box_per_bin(alloc: Global, instance: &Instance) -> Result<Vec<u32>, NoMemory>
    ensures { IfOk result (λ numbers. numbers.items ≡ one_bin_each instance.now) }
{
    let mut numbers = Vec::new(alloc);
    for v in 0..instance.len() {
        push_alone(&mut numbers, instance.dims(), v)?;
    }
    Ok(numbers)
}
