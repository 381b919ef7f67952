//! Whether a mask is empty.
ghost use Rattle.std.specs.Prelude.{◌≡◌, ◌<◌, not, MatchBool};
ghost use Rattle.packing_terms.specs.declared.Rel.{Rel as PlainRel};
ghost use Rattle.packing_terms.specs.Packing.{box_count};
ghost use Rattle.packing_terms.specs.Exclusions.{excludes};
ghost use Rattle.relation_table.specs.Masks.{mask_has};
ghost use Rattle.edge_state.specs.States.{IsSized, HasRelationLeft, HasEmptyMask};

use box_instances::Instance;
use edge_state::{EdgeState, Mask};

/// Whether the mask of two boxes, which is given, is empty. `u` isn't `v`.
#[inline]
pub(crate) fn is_empty_left(
    instance: &Instance,
    state: &EdgeState,
    dim: u32,
    u: u32,
    v: u32,
    left: Mask,
) -> bool
    requires sizes { IsSized instance.now state.now dim }
    requires u { u < box_count instance.now }
    requires v { v < box_count instance.now }
    requires distinct { u ≡ v → ⊥ }
    requires left { (r : PlainRel) → mask_has left r ≡ not (excludes state.now.trail dim u v r) }
    ensures { MatchBool result (HasEmptyMask instance.now (excludes state.now.trail))
        (HasRelationLeft instance.now (excludes state.now.trail) dim u v) }
{
    left.bits() == 0
}

/// Like `is_empty_left`, but it reads the mask, and `u` may be `v`.
#[inline(always)]
pub(crate) fn is_empty_at(instance: &Instance, state: &EdgeState, dim: u32, u: u32, v: u32) -> bool
    requires sizes { IsSized instance.now state.now dim }
    requires u { u < box_count instance.now }
    requires v { v < box_count instance.now }
    ensures { MatchBool result (HasEmptyMask instance.now (excludes state.now.trail))
        (HasRelationLeft instance.now (excludes state.now.trail) dim u v) }
{
    u != v && state.mask(dim, u, v).bits() == 0
}
