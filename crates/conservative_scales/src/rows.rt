//! The functions of dimension 0 and what they make of the boxes.
//!
//! They are the same whichever functions the other dimensions have, so they are listed once, and
//! only where some tuple needs them. The images stand in a row for each function, one for each box.
ghost use Rattle.std.specs.Prelude.{◌≡◌, ◌<◌, ◌≤◌, ◌+◌, ◌*◌, ℕ, length, slice_index, slice_set};
ghost use Rattle.packing_terms.specs.Packing.{dims, box_count, container_side, side};
ghost use Rattle.packing_terms.specs.Limits.{IsInternalInstance};
ghost use Rattle.packing_terms.specs.Scales.{IsLegalScale, SidesFit, scale_image};
ghost use Rattle.conservative_scales.specs.Rows.{AreAllRows, HasRoomForAll};

use crate::functions::image;
use crate::listed::next_function;
use box_instances::Instance;
use packing_terms::ScaleFn;

// Puts the function of a row.
fn put(instance: &Instance, f: ScaleFn, row: usize, functions: &mut [ScaleFn], made: &mut [u32])
    requires limits { IsInternalInstance instance.now }
    requires there { 1 ≤ dims instance.now }
    requires fit { SidesFit instance.now }
    requires legal { IsLegalScale f (container_side instance.now 0) }
    requires few { row < length functions.old }
    requires room { HasRoomForAll instance.now (length functions.old) (length made.old) }
    ensures functions { functions.new ≡ slice_set functions.old row f }
    ensures length { length made.new ≡ length made.old }
    ensures kept { (k : ℕ) → k < row * box_count instance.now
        → slice_index made.new k ≡ slice_index made.old k }
    ensures images { (v : ℕ) → v < box_count instance.now
        → slice_index made.new (row * box_count instance.now + v)
        ≡ scale_image f (container_side instance.now 0) (side instance.now v 0) }
{
    let whole_side = instance.container_side(0);
    let at = row * instance.len() as usize;
    for box_no in 0..instance.len() {
        let scaled = image(f, whole_side, instance.side(box_no, 0));
        made[at + box_no as usize] = scaled as u32;
    }
    functions[row] = f;
}

// Puts all functions, and returns how many there are.
fn put_all(instance: &Instance, functions: &mut [ScaleFn], made: &mut [u32]) -> usize
    requires limits { IsInternalInstance instance.now }
    requires there { 1 ≤ dims instance.now }
    requires fit { SidesFit instance.now }
    requires room { HasRoomForAll instance.now (length functions.old) (length made.old) }
    ensures length { length functions.new ≡ length functions.old }
    ensures places { length made.new ≡ length made.old }
    ensures all { AreAllRows instance.now result functions.new made.new }
{
    let mut row = 0;
    let mut next = Some(ScaleFn::Id);
    while let Some(f) = next {
        put(instance, f, row, functions, made);
        row += 1;
        next = next_function(instance, 0, f);
    }
    row
}

/// Makes sure that all functions are listed. `listed_count` is how many are: all or none.
pub(crate) fn need_rows(
    instance: &Instance,
    functions: &mut [ScaleFn],
    made: &mut [u32],
    listed_count: &mut usize,
)
    requires limits { IsInternalInstance instance.now }
    requires there { 1 ≤ dims instance.now }
    requires fit { SidesFit instance.now }
    requires room { HasRoomForAll instance.now (length functions.old) (length made.old) }
    requires all { 0 < listed_count.old → AreAllRows instance.now listed_count.old functions.old made.old }
    ensures length { length functions.new ≡ length functions.old }
    ensures places { length made.new ≡ length made.old }
    ensures all { AreAllRows instance.now listed_count.new functions.new made.new }
{
    if *listed_count == 0 {
        *listed_count = put_all(instance, functions, made);
    }
}
