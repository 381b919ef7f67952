//! Guarded access to sides.

use box_instances::Instance;

/// The side of a box in a dimension, and 0 if one of them isn't in range.
pub(crate) fn side(instance: &Instance, v: u32, dim: u32) -> u64 {
    if instance.len() <= v || instance.dims() <= dim {
        return 0;
    }
    u64::from(instance.side(v, dim))
}

/// The side of the container in a dimension, and the most if it isn't in range.
pub(crate) fn container(instance: &Instance, dim: u32) -> u64 {
    if instance.dims() <= dim {
        return u64::MAX;
    }
    u64::from(instance.container_side(dim))
}
