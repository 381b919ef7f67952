//! Products of images and of wholes.
ghost use Rattle.std.specs.Prelude.{◌≡◌, ◌≤◌, ◌<◌, ◌^◌, ℕ};
ghost use Rattle.packing_terms.specs.Packing.{dims, box_count, container_side, side};
ghost use Rattle.packing_terms.specs.Limits.{IsInternalInstance};
ghost use Rattle.packing_terms.specs.Scales.{IsTuple, image_product, whole_product};

use box_instances::Instance;
use conservative_scales::{ScaleFn, image, whole};

/// The product of the images of the sides of box `box_no`, which is counted from 0: at most 2^103.
///
/// The tuple has one legal function for each dimension, and no side of the box is above the
/// container's.
pub(crate) fn image_product(instance: &Instance, tuple: &[ScaleFn], box_no: u32) -> u128
    requires tuple { IsTuple instance.now tuple.now }
    requires there { box_no < box_count instance.now }
    requires fits { (i : ℕ) → i < dims instance.now
        → side instance.now box_no i ≤ container_side instance.now i }
    ensures value { result ≡ image_product instance.now tuple.now box_no }
    ensures limit { result ≤ 2 ^ 103 }
    ensures limits { IsInternalInstance instance.now }
{
    let mut product: u128 = 1;
    for dim in 0..instance.dims() {
        let x = instance.side(box_no, dim);
        product *= image(tuple[dim as usize], instance.container_side(dim), x) as u128;
    }
    product
}

/// The product of the wholes: at most 2^103, and 0 where a container side is 0.
///
/// The tuple has one legal function for each dimension.
pub(crate) fn whole_product(instance: &Instance, tuple: &[ScaleFn]) -> u128
    requires { IsTuple instance.now tuple.now }
    ensures value { result ≡ whole_product instance.now tuple.now }
    ensures limit { result ≤ 2 ^ 103 }
{
    let mut product: u128 = 1;
    for dim in 0..instance.dims() {
        product *= whole(tuple[dim as usize], instance.container_side(dim)) as u128;
    }
    product
}
