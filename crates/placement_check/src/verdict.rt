//! The first place that leaves the container, and the first two boxes that are not apart.
ghost use Rattle.std.specs.Prelude.{◌≡◌, ◌<◌, ◌≤◌, ◌+◌, ◌*◌, ℕ, length, MatchBool, MatchOption};
ghost use Rattle.packing_terms.specs.Packing.{dims, box_count, kerf, written_container, written_side, place, AreApart};
ghost use Rattle.verdict_terms.specs.Placing.{place_verdict};
ghost use Rattle.verdict_terms.specs.Tested.{LiesWithin, IsFirstOutside, IsFirstOverlap, TellsOfPlaces};
ghost use Rattle.placement_check.specs.Finding.{LeavesFirst, AreCrossing, CrossesFirst, NoneCrosses};

use box_instances::Instance;
use verdict_terms::PlaceVerdict;

// A coordinate of a box.
fn coordinate(instance: &Instance, places: &[u32], box_no: u32, dim: u32) -> u32
    requires count { length places.now ≡ box_count instance.now * dims instance.now }
    requires box_there { box_no < box_count instance.now }
    requires dim_there { dim < dims instance.now }
    ensures { result ≡ place instance.now places.now box_no dim }
{
    let dims = instance.dims() as usize;
    let index = box_no as usize * dims + dim as usize;
    places[index]
}

// Where a box ends, by its written side.
fn end_of(instance: &Instance, places: &[u32], box_no: u32, dim: u32) -> u64
    requires count { length places.now ≡ box_count instance.now * dims instance.now }
    requires box_there { box_no < box_count instance.now }
    requires dim_there { dim < dims instance.now }
    ensures value { result ≡ place instance.now places.now box_no dim
        + written_side instance.now box_no dim }
    ensures limit { result ≤ 8589934590 }
{
    coordinate(instance, places, box_no, dim) as u64 + instance.written_side(box_no, dim) as u64
}

// The first dimension in which a box leaves the container.
fn leaving_dim(instance: &Instance, places: &[u32], box_no: u32) -> Option<u32>
    requires count { length places.now ≡ box_count instance.now * dims instance.now }
    requires box_there { box_no < box_count instance.now }
    ensures { MatchOption result
        ((i : ℕ) → i < dims instance.now → LiesWithin instance.now places.now box_no i)
        (λ i. LeavesFirst instance.now places.now box_no i) }
{
    for dim in 0..instance.dims() {
        if end_of(instance, places, box_no, dim) > instance.written_container(dim) as u64 {
            return Some(dim);
        }
    }
    None
}

// The first box that leaves the container, and its first such dimension.
fn find_outside(instance: &Instance, places: &[u32]) -> Option<(u32, u32)>
    requires { length places.now ≡ box_count instance.now * dims instance.now }
    ensures { MatchOption result
        ((v i : ℕ) → v < box_count instance.now → i < dims instance.now
        → LiesWithin instance.now places.now v i)
        (λ p. IsFirstOutside instance.now places.now p.0 p.1) }
{
    for box_no in 0..instance.len() {
        if let Some(dim) = leaving_dim(instance, places, box_no) {
            return Some((box_no, dim));
        }
    }
    None
}

// Whether two boxes are apart by the kerf in some dimension.
fn are_apart(instance: &Instance, places: &[u32], u: u32, v: u32) -> bool
    requires count { length places.now ≡ box_count instance.now * dims instance.now }
    requires first { u < box_count instance.now }
    requires second { v < box_count instance.now }
    ensures { MatchBool result (AreApart instance.now places.now u v)
        (AreCrossing instance.now places.now u v) }
{
    for dim in 0..instance.dims() {
        let gap = instance.kerf(dim) as u64;
        if end_of(instance, places, u, dim) + gap <= coordinate(instance, places, v, dim) as u64 {
            return true;
        }
        if end_of(instance, places, v, dim) + gap <= coordinate(instance, places, u, dim) as u64 {
            return true;
        }
    }
    false
}

// The first later box that overlaps the box.
fn overlap_after(instance: &Instance, places: &[u32], u: u32) -> Option<u32>
    requires count { length places.now ≡ box_count instance.now * dims instance.now }
    requires there { u < box_count instance.now }
    ensures { MatchOption result (NoneCrosses instance.now places.now u)
        (λ v. CrossesFirst instance.now places.now u v) }
{
    let count = instance.len();
    for v in u + 1..count {
        if !are_apart(instance, places, u, v) {
            return Some(v);
        }
    }
    None
}

// The first two boxes that overlap, by the first and then by the second.
fn find_overlap(instance: &Instance, places: &[u32]) -> Option<(u32, u32)>
    requires count { length places.now ≡ box_count instance.now * dims instance.now }
    requires inside { (v i : ℕ) → v < box_count instance.now → i < dims instance.now
        → LiesWithin instance.now places.now v i }
    ensures { MatchOption result
        ((u : ℕ) → u < box_count instance.now → NoneCrosses instance.now places.now u)
        (λ p. IsFirstOverlap instance.now places.now p.0 p.1) }
{
    for u in 0..instance.len() {
        if let Some(v) = overlap_after(instance, places, u) {
            return Some((u, v));
        }
    }
    None
}

// What the places are: each verdict has its own meaning, and the public call says that it is the
// verdict of the definition too.
fn tested(instance: &Instance, places: &[u32]) -> PlaceVerdict
    requires { length places.now ≡ box_count instance.now * dims instance.now }
    ensures { TellsOfPlaces instance.now places.now result }
{
    match find_outside(instance, places) {
        Some((box_no, dim)) => PlaceVerdict::Outside { box_no, dim },
        None => match find_overlap(instance, places) {
            Some((first, second)) => PlaceVerdict::Overlap { first, second },
            None => PlaceVerdict::Good,
        },
    }
}

/// Tests places, of which there is one coordinate for each box and dimension, those of box 0 in all
/// dimensions first.
///
/// `Good` exactly where they are a packing. Else `Outside` with the first box, and its first
/// dimension, that leaves the container; else `Overlap` with the first pair that is apart by the
/// kerf in no dimension, by the first box and then by the second. Boxes and dimensions count from
/// 0. It takes no memory.
pub fn check_places(instance: &Instance, places: &[u32]) -> PlaceVerdict
    requires { length places.now ≡ box_count instance.now * dims instance.now }
    ensures exact { result ≡ place_verdict instance.now places.now }
    ensures tells { TellsOfPlaces instance.now places.now result }
{
    tested(instance, places)
}
