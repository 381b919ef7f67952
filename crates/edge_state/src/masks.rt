//! Masks: the relations that are left of two boxes, read from the rows.
ghost use Rattle.std.specs.Prelude.{◌≡◌, ◌&&◌, ◌||◌, not};
ghost use Rattle.packing_terms.specs.declared.Rel.{Rel as PlainRel};
ghost use Rattle.packing_terms.specs.declared.Rel.TheVariants.{Overlap, Before, After};
ghost use Rattle.packing_terms.specs.Exclusions.{is_same_rel, excludes, IsEdgeAmong};
ghost use Rattle.packing_terms.specs.Rounds.{is_joined, is_surely_before};
ghost use Rattle.relation_table.specs.Masks.{mask_has};
ghost use Rattle.edge_state.specs.BitRows.{HoldsBoxes};

use crate::EdgeState;
use relation_table::{Mask, Rel};

// The mask, without the relation unless it is kept.
#[inline]
fn keep_if(mask: Mask, rel: Rel, kept: bool) -> Mask
    ensures { (r : PlainRel) → mask_has result r
        ≡ mask_has mask r && (not (is_same_rel rel r) || kept) }
{
    if kept { mask } else { mask.without(rel) }
}

// The mask of these relations.
#[inline]
fn mask_of(overlap: bool, before: bool, after: bool) -> Mask
    ensures overlap { mask_has result Overlap ≡ overlap }
    ensures before { mask_has result Before ≡ before }
    ensures after { mask_has result After ≡ after }
{
    let first = keep_if(Mask::all(), Rel::Overlap, overlap);
    let second = keep_if(first, Rel::Before, before);
    keep_if(second, Rel::After, after)
}

impl EdgeState {
    /// The relations of two boxes that aren't excluded. The numbers count from 0 and are in range,
    /// and `u` isn't `v`.
    #[inline(always)]
    pub fn mask(&self, dim: u32, u: u32, v: u32) -> Mask
        requires { IsEdgeAmong self.now.dims self.now.boxes dim u v }
        ensures { (r : PlainRel) → mask_has result r ≡ not (excludes self.now.trail dim u v r) }
    {
        if self.boxes() <= 64 {
            return self.mask_in::<1>(dim, u, v);
        }
        self.mask_in::<2>(dim, u, v)
    }

    /// The same mask, read in rows of `K` words, which hold all boxes.
    #[inline(always)]
    pub fn mask_in<const K: usize>(&self, dim: u32, u: u32, v: u32) -> Mask
        requires words { HoldsBoxes K self.now.boxes }
        requires edge { IsEdgeAmong self.now.dims self.now.boxes dim u v }
        ensures { (r : PlainRel) → mask_has result r ≡ not (excludes self.now.trail dim u v r) }
    {
        let overlap = self.allows::<K>(dim, u, v, Rel::Overlap);
        let before = self.allows::<K>(dim, u, v, Rel::Before);
        let after = self.allows::<K>(dim, u, v, Rel::After);
        mask_of(overlap, before, after)
    }

    /// Whether `u` is surely before `v`: overlap and after are excluded.
    #[inline]
    pub fn sure_before(&self, dim: u32, u: u32, v: u32) -> bool
        requires { IsEdgeAmong self.now.dims self.now.boxes dim u v }
        ensures { result ≡ is_surely_before (excludes self.now.trail) dim u v }
    {
        if self.boxes() <= 64 {
            return self.sure_before_in::<1>(dim, u, v);
        }
        self.sure_before_in::<2>(dim, u, v)
    }

    /// The same, read in rows of `K` words, which hold all boxes.
    #[inline]
    pub fn sure_before_in<const K: usize>(&self, dim: u32, u: u32, v: u32) -> bool
        requires words { HoldsBoxes K self.now.boxes }
        requires edge { IsEdgeAmong self.now.dims self.now.boxes dim u v }
        ensures { result ≡ is_surely_before (excludes self.now.trail) dim u v }
    {
        let mask = self.mask_in::<K>(dim, u, v);
        !mask.has(Rel::Overlap) & !mask.has(Rel::After)
    }

    /// Whether `u` and `v` are joined: before and after are excluded.
    #[inline]
    pub fn joined(&self, dim: u32, u: u32, v: u32) -> bool
        requires { IsEdgeAmong self.now.dims self.now.boxes dim u v }
        ensures { result ≡ is_joined (excludes self.now.trail) dim u v }
    {
        if self.boxes() <= 64 {
            return self.joined_in::<1>(dim, u, v);
        }
        self.joined_in::<2>(dim, u, v)
    }

    /// The same, read in rows of `K` words, which hold all boxes.
    #[inline]
    pub fn joined_in<const K: usize>(&self, dim: u32, u: u32, v: u32) -> bool
        requires words { HoldsBoxes K self.now.boxes }
        requires edge { IsEdgeAmong self.now.dims self.now.boxes dim u v }
        ensures { result ≡ is_joined (excludes self.now.trail) dim u v }
    {
        let mask = self.mask_in::<K>(dim, u, v);
        !mask.has(Rel::Before) & !mask.has(Rel::After)
    }
}
