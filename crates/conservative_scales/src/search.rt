//! The first tuple of the list that exceeds.
ghost use Rattle.std.specs.Prelude.{◌≡◌, ◌≤◌, ◌<◌, ◌+◌, ◌*◌, ◌^◌, ℕ, [], length, drop, slice_index, MatchOption, MatchBool, IfSome, None, Some};
ghost use Rattle.std.specs.List.{find};
ghost use Rattle.packing_terms.specs.Packing.{dims, box_count, container_side};
ghost use Rattle.packing_terms.specs.Limits.{IsInternalInstance};
ghost use Rattle.packing_terms.specs.Scales.{IsTuple, IsLegalScale, SidesFit, Exceeds, scale_whole};
ghost use Rattle.packing_terms.specs.Goals.{FitsInBins};
ghost use Rattle.packing_terms.specs.Tuples.{first_excess, has_excess};
ghost use Rattle.conservative_scales.specs.Within.{within, AreLegalFrom};
ghost use Rattle.conservative_scales.specs.Partials.{AreShares, IsPartial};
ghost use Rattle.conservative_scales.specs.Rows.{AreAllRows, HasRoomForAll};

use crate::fastest::{put_shares, search_fastest};
use crate::functions::whole;
use crate::listed::next_function;
use crate::partial::scale;
use box_instances::Instance;
use packing_terms::ScaleFn;
use smallvec::SmallVec;
use std::alloc::Global;

/// One scale function for each dimension.
pub type ScaleTuple = SmallVec<ScaleFn, 4>;

// What stands in place of the container's side in a dimension.
fn whole_of(instance: &Instance, dim: u32, f: ScaleFn) -> u128
    requires limits { IsInternalInstance instance.now }
    requires there { dim < dims instance.now }
    requires legal { IsLegalScale f (container_side instance.now dim) }
    ensures value { result ≡ scale_whole f (container_side instance.now dim) }
    ensures limit { result ≤ 2 ^ 31 }
{
    whole(f, instance.container_side(dim)) as u128
}

// Whether a tuple exceeds that ends in the functions from `dim` on, whose products begin at a place
// of the table, and that has at most `left` functions other than id before them. The first one is
// left in `tuple`. The list of the functions of dimension 0 holds `listed_count` of them, all or
// none. What they made of the boxes stands beside it.
fn search(
    instance: &Instance,
    copies: u32,
    shares: &[u32],
    functions: &mut [ScaleFn],
    made: &mut [u32],
    listed_count: &mut usize,
    dim: u32,
    left: u32,
    tuple: &mut [ScaleFn],
    images: &mut [u128],
    at: usize,
    whole_product: u128,
) -> bool
    requires limits { IsInternalInstance instance.now }
    requires fit { SidesFit instance.now }
    requires few { copies ≤ 128 }
    requires rows_room { HasRoomForAll instance.now (length functions.old) (length made.old) }
    requires rows { 0 < listed_count.old → AreAllRows instance.now listed_count.old functions.old made.old }
    requires count { length tuple.old ≡ dims instance.now }
    requires some { 1 ≤ dim }
    requires there { dim ≤ dims instance.now }
    requires shares_room { box_count instance.now ≤ length shares.now }
    requires shares { AreShares instance.now shares.now }
    requires room { at + box_count instance.now + dim * box_count instance.now
        ≤ length images.old }
    requires legal { AreLegalFrom instance.now dim (drop dim tuple.old) }
    requires partial { IsPartial instance.now dim (drop dim tuple.old)
        (λ v. slice_index images.old (at + v)) whole_product }
    ensures found { MatchBool result
        (find (has_excess instance.now copies) (within instance.now dim left (drop dim tuple.old))
        ≡ Some tuple.new)
        (find (has_excess instance.now copies) (within instance.now dim left (drop dim tuple.old))
        ≡ None) }
    ensures kept { drop dim tuple.new ≡ drop dim tuple.old }
    ensures rows { 0 < listed_count.new → AreAllRows instance.now listed_count.new functions.new made.new }
    ensures functions { length functions.new ≡ length functions.old }
    ensures made { length made.new ≡ length made.old }
    ensures length { length images.new ≡ length images.old }
    ensures products { (k : ℕ) → k < at + box_count instance.now
        → slice_index images.new k ≡ slice_index images.old k }
{
    if dim == 1 {
        return search_fastest(
            instance,
            copies,
            shares,
            functions,
            made,
            listed_count,
            left,
            tuple,
            images,
            at,
            whole_product,
        );
    }
    let below = dim - 1;
    let next_at = at + instance.len() as usize;
    tuple[below as usize] = ScaleFn::Id;
    scale(instance, below, ScaleFn::Id, images, at);
    let same = whole_product * whole_of(instance, below, ScaleFn::Id);
    if search(
        instance,
        copies,
        shares,
        functions,
        made,
        listed_count,
        below,
        left,
        tuple,
        images,
        next_at,
        same,
    ) {
        return true;
    }
    if left == 0 {
        return false;
    }
    let mut next = next_function(instance, below, ScaleFn::Id);
    while let Some(f) = next {
        tuple[below as usize] = f;
        scale(instance, below, f, images, at);
        let scaled = whole_product * whole_of(instance, below, f);
        if search(
            instance,
            copies,
            shares,
            functions,
            made,
            listed_count,
            below,
            left - 1,
            tuple,
            images,
            next_at,
            scaled,
        ) {
            return true;
        }
        next = next_function(instance, below, f);
    }
    false
}

// The functions as a tuple, which needs no memory.
fn copied(alloc: Global, functions: &[ScaleFn]) -> ScaleTuple
    requires { length functions.now ≤ 4 }
    ensures { result.items ≡ functions.now }
{
    let mut tuple = ScaleTuple::new(alloc);
    for f in functions {
        tuple.push_reserved(*f);
    }
    tuple
}

// The first tuple of the list that exceeds, found in a table of `T` places, with room for `F`
// functions of dimension 0 and `R` of their images.
fn first_within<const T: usize, const F: usize, const R: usize>(
    alloc: Global,
    instance: &Instance,
    copies: u32,
) -> Option<ScaleTuple>
    requires size { T ≤ 640 }
    requires sizes { F ≤ 263 }
    requires places { R ≤ 33664 }
    requires room { (dims instance.now + 1) * box_count instance.now ≤ T }
    requires rows_room { HasRoomForAll instance.now F R }
    requires fit { SidesFit instance.now }
    requires few { copies ≤ 128 }
    ensures { MatchOption result (first_excess instance.now copies ≡ None)
        (λ t. first_excess instance.now copies ≡ Some t.items) }
{
    let mut tuple = [ScaleFn::Id; 4];
    let mut images = [1; T];
    let mut shares = [0; T];
    let mut functions = [ScaleFn::Id; F];
    let mut made = [0; R];
    let mut listed_count = 0;
    let dims = instance.dims();
    put_shares(instance, &mut shares);
    let chosen = &mut tuple[..dims as usize];
    if search(
        instance,
        copies,
        &shares,
        &mut functions,
        &mut made,
        &mut listed_count,
        dims,
        2,
        chosen,
        &mut images,
        0,
        1,
    ) {
        Some(copied(alloc, chosen))
    } else {
        None
    }
}

// The same, in a table of as many places as the boxes need, up to a factor: one that is larger
// costs its size each time.
fn first_of(alloc: Global, instance: &Instance, copies: u32) -> Option<ScaleTuple>
    requires fit { SidesFit instance.now }
    requires few { copies ≤ 128 }
    ensures { MatchOption result (first_excess instance.now copies ≡ None)
        (λ t. first_excess instance.now copies ≡ Some t.items) }
{
    let places = (instance.dims() + 1) * instance.len();
    if places <= 32 {
        return first_within::<32, 27, 270>(alloc, instance, copies);
    }
    if places <= 128 {
        return first_within::<128, 91, 3822>(alloc, instance, copies);
    }
    first_within::<640, 263, 33664>(alloc, instance, copies)
}

/// The first tuple of the list that exceeds, and none exactly where none of the list does. Where
/// there is one, the boxes don't fit in `copies` bins.
pub fn first_exceeding(alloc: Global, instance: &Instance, copies: u32) -> Option<ScaleTuple>
    requires fit { SidesFit instance.now }
    requires few { copies ≤ 128 }
    ensures first { MatchOption result (first_excess instance.now copies ≡ None)
        (λ t. first_excess instance.now copies ≡ Some t.items) }
    ensures exceeds { IfSome result (λ t. Exceeds instance.now t.items copies) }
    ensures refutes { IfSome result (λ t. ¬ FitsInBins instance.now copies) }
{
    // For the proof alone: states the limits of the instance.
    let _limits = instance.len();
    first_of(alloc, instance, copies)
}
