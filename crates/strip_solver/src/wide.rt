//! Boxes that are longer than the container in a dimension other than the last.
ghost use Rattle.std.specs.Prelude.{◌<◌, ◌-◌, ℕ, MatchOption};
ghost use Rattle.packing_terms.specs.Packing.{dims, box_count};
ghost use Rattle.packing_terms.specs.Goals.{HasTooWideBox};
ghost use Rattle.packing_terms.specs.TooLarge.{IsNotLongerBelow, IsFirstTooWide};
ghost use Rattle.strip_solver.specs.Wide.{IsFirstWideDim};

use box_instances::Instance;

// The first dimension other than the last in which a box is longer than the container.
fn wide_dim(instance: &Instance, v: u32) -> Option<u32>
    requires { v < box_count instance.now }
    ensures { MatchOption result (IsNotLongerBelow instance.now (dims instance.now - 1) v)
        (λ i. IsFirstWideDim instance.now v i) }
{
    for dim in 0..instance.dims() - 1 {
        if instance.container_side(dim) < instance.side(v, dim) {
            return Some(dim);
        }
    }
    None
}

// The first box that is too wide, and its first such dimension.
pub(crate) fn first_too_wide(instance: &Instance) -> Option<(u32, u32)>
    ensures { MatchOption result (¬ HasTooWideBox instance.now)
        (λ p. IsFirstTooWide instance.now p.0 p.1) }
{
    for v in 0..instance.len() {
        if let Some(dim) = wide_dim(instance, v) {
            return Some((v, dim));
        }
    }
    None
}
