//! The functions of dimension 0, which vary fastest.
ghost use Rattle.std.specs.Prelude.{◌≡◌, ◌<◌, ◌≤◌, ◌+◌, ◌*◌, ◌/◌, ◌^◌, ℕ, length, drop, take, slice_index, nat_lt, MatchBool, ⊤, None, Some};
ghost use Rattle.std.specs.List.{find};
ghost use Rattle.packing_terms.specs.Packing.{dims, box_count, container_side, side};
ghost use Rattle.packing_terms.specs.Limits.{max_boxes, IsInternalInstance};
ghost use Rattle.packing_terms.specs.Scales.{IsLegalScale, SidesFit, scale_image, scale_whole};
ghost use Rattle.packing_terms.specs.Sums.{sum_below};
ghost use Rattle.packing_terms.specs.Tuples.{has_excess};
ghost use Rattle.conservative_scales.specs.Within.{within, before_each};
ghost use Rattle.conservative_scales.specs.Partials.{AreShares, HoldEach, IsPartial};
ghost use Rattle.conservative_scales.specs.Rows.{AreRows, AreAllRows, HasRoomForAll};

use crate::functions::whole;
use crate::rows::need_rows;
use box_instances::Instance;
use packing_terms::ScaleFn;

// The number of parts of a whole: a multiple of each number up to 16, so that up to 16 equal shares
// of a whole are exact.
const PARTS: u32 = 720_720;

// Sums of products with a container's product up to this one are numbers of 64 bits: a whole in
// dimension 0 is below 2 ^ 24, and there are at most 128 boxes.
const NARROW: u128 = 4_294_967_296;

// The most that a function makes of a width, in parts of a whole, rounded up: as many of them as
// stand beside one another have images that fit in the whole, whichever the function is.
fn share(whole_side: u32, x: u32) -> u32
    requires some { 1 ≤ x }
    requires within { x ≤ whole_side }
    ensures most { 720720 ≤ result * (whole_side / x) }
    ensures limit { result ≤ 720720 }
{
    let beside = whole_side / x;
    (PARTS - 1) / beside + 1
}

// Puts the share of each box in dimension 0, once for all tuples: a share takes two divisions.
pub(crate) fn put_shares(instance: &Instance, shares: &mut [u32])
    requires limits { IsInternalInstance instance.now }
    requires there { 1 ≤ dims instance.now }
    requires fit { SidesFit instance.now }
    requires room { box_count instance.now ≤ length shares.old }
    ensures length { length shares.new ≡ length shares.old }
    ensures shares { AreShares instance.now shares.new }
{
    let whole_side = instance.container_side(0);
    for box_no in 0..instance.len() {
        shares[box_no as usize] = share(whole_side, instance.side(box_no, 0));
    }
}

// Whether a function in dimension 0 could make products that are together greater than those of so
// many containers, where those so far are small.
fn may_exceed_narrow(
    instance: &Instance,
    copies: u32,
    shares: &[u32],
    images: &[u128],
    at: usize,
    whole: u128,
) -> bool
    requires limits { IsInternalInstance instance.now }
    requires there { 1 ≤ dims instance.now }
    requires fit { SidesFit instance.now }
    requires few { copies ≤ max_boxes }
    requires shares_room { box_count instance.now ≤ length shares.now }
    requires shares { AreShares instance.now shares.now }
    requires room { at + box_count instance.now ≤ length images.now }
    requires small { (v : ℕ) → v < box_count instance.now
        → slice_index images.now (at + v) ≤ 2 ^ 32 }
    requires whole_small { whole ≤ 2 ^ 32 }
    ensures { MatchBool result ⊤
        (HoldEach instance.now copies (λ v. slice_index images.now (at + v)) whole) }
{
    let mut total: u64 = 0;
    for box_no in 0..instance.len() {
        total += images[at + box_no as usize] as u64 * shares[box_no as usize] as u64;
    }
    total > copies as u64 * whole as u64 * PARTS as u64
}

// Whether a function in dimension 0 could make products that are together greater than those of so
// many containers, by the most that any could make of each box. Where none could, none is tried.
fn may_exceed(
    instance: &Instance,
    copies: u32,
    shares: &[u32],
    images: &[u128],
    at: usize,
    whole: u128,
) -> bool
    requires limits { IsInternalInstance instance.now }
    requires there { 1 ≤ dims instance.now }
    requires fit { SidesFit instance.now }
    requires few { copies ≤ max_boxes }
    requires shares_room { box_count instance.now ≤ length shares.now }
    requires shares { AreShares instance.now shares.now }
    requires room { at + box_count instance.now ≤ length images.now }
    requires small { (v : ℕ) → v < box_count instance.now
        → slice_index images.now (at + v) ≤ 2 ^ 79 }
    requires whole_small { whole ≤ 2 ^ 79 }
    requires within { (v : ℕ) → v < box_count instance.now
        → slice_index images.now (at + v) ≤ whole }
    ensures { MatchBool result ⊤
        (HoldEach instance.now copies (λ v. slice_index images.now (at + v)) whole) }
{
    if whole <= NARROW {
        return may_exceed_narrow(instance, copies, shares, images, at, whole);
    }
    let mut total: u128 = 0;
    for box_no in 0..instance.len() {
        total += images[at + box_no as usize] * shares[box_no as usize] as u128;
    }
    total > copies as u128 * whole * PARTS as u128
}

// Whether a function in dimension 0 makes products that are together greater than those of `copies`
// containers, where the products so far are small: numbers of 64 bits take half of the steps.
fn exceeds_narrow(
    instance: &Instance,
    copies: u32,
    f: ScaleFn,
    made: &[u32],
    made_at: usize,
    images: &[u128],
    at: usize,
    whole_product: u128,
) -> bool
    requires limits { IsInternalInstance instance.now }
    requires there { 1 ≤ dims instance.now }
    requires fit { SidesFit instance.now }
    requires few { copies ≤ max_boxes }
    requires legal { IsLegalScale f (container_side instance.now 0) }
    requires made_room { made_at + box_count instance.now ≤ length made.now }
    requires made { (v : ℕ) → v < box_count instance.now → slice_index made.now (made_at + v)
        ≡ scale_image f (container_side instance.now 0) (side instance.now v 0) }
    requires room { at + box_count instance.now ≤ length images.now }
    requires small { (v : ℕ) → v < box_count instance.now
        → slice_index images.now (at + v) ≤ 2 ^ 32 }
    requires whole_small { whole_product ≤ 2 ^ 32 }
    ensures { result ≡ nat_lt
        (copies * (whole_product * scale_whole f (container_side instance.now 0)))
        (sum_below (box_count instance.now) (λ v. slice_index images.now (at + v)
        * scale_image f (container_side instance.now 0) (side instance.now v 0))) }
{
    let mut total: u64 = 0;
    for box_no in 0..instance.len() {
        let scaled = made[made_at + box_no as usize];
        total += images[at + box_no as usize] as u64 * scaled as u64;
    }
    let held = whole_product as u64 * whole(f, instance.container_side(0));
    total > copies as u64 * held
}

// Whether a function in dimension 0 makes products that are together greater than those of `copies`
// containers. Its images begin at a place of their table.
fn exceeds_with(
    instance: &Instance,
    copies: u32,
    f: ScaleFn,
    made: &[u32],
    made_at: usize,
    images: &[u128],
    at: usize,
    whole_product: u128,
) -> bool
    requires limits { IsInternalInstance instance.now }
    requires there { 1 ≤ dims instance.now }
    requires fit { SidesFit instance.now }
    requires few { copies ≤ max_boxes }
    requires legal { IsLegalScale f (container_side instance.now 0) }
    requires made_room { made_at + box_count instance.now ≤ length made.now }
    requires made { (v : ℕ) → v < box_count instance.now → slice_index made.now (made_at + v)
        ≡ scale_image f (container_side instance.now 0) (side instance.now v 0) }
    requires room { at + box_count instance.now ≤ length images.now }
    requires small { (v : ℕ) → v < box_count instance.now
        → slice_index images.now (at + v) ≤ 2 ^ 79 }
    requires whole_small { whole_product ≤ 2 ^ 79 }
    requires within { (v : ℕ) → v < box_count instance.now
        → slice_index images.now (at + v) ≤ whole_product }
    ensures { result ≡ nat_lt
        (copies * (whole_product * scale_whole f (container_side instance.now 0)))
        (sum_below (box_count instance.now) (λ v. slice_index images.now (at + v)
        * scale_image f (container_side instance.now 0) (side instance.now v 0))) }
{
    if whole_product <= NARROW {
        return exceeds_narrow(
            instance,
            copies,
            f,
            made,
            made_at,
            images,
            at,
            whole_product,
        );
    }
    let mut total: u128 = 0;
    for box_no in 0..instance.len() {
        let scaled = made[made_at + box_no as usize];
        total += images[at + box_no as usize] * scaled as u128;
    }
    let held = whole_product * whole(f, instance.container_side(0)) as u128;
    total > copies as u128 * held
}

// How many functions of dimension 0 are tried: id alone, which is the first one, where no other
// function is left.
fn most_tried(left: u32, count: usize) -> usize
    ensures none { left ≡ 0 → result ≡ 1 }
    ensures some { 1 ≤ left → result ≡ count }
{
    if left == 0 { 1 } else { count }
}

// Whether a tuple exceeds that ends in the functions from dimension 1 on and has one of the first
// functions of dimension 0.
fn try_rows(
    instance: &Instance,
    copies: u32,
    functions: &[ScaleFn],
    made: &[u32],
    most: usize,
    tuple: &mut [ScaleFn],
    images: &[u128],
    at: usize,
    whole_product: u128,
) -> bool
    requires limits { IsInternalInstance instance.now }
    requires fit { SidesFit instance.now }
    requires few { copies ≤ 128 }
    requires rows_room { HasRoomForAll instance.now (length functions.now) (length made.now) }
    requires most { most ≤ length functions.now }
    requires rows { AreRows instance.now most functions.now made.now }
    requires count { length tuple.old ≡ dims instance.now }
    requires there { 1 ≤ dims instance.now }
    requires room { at + box_count instance.now ≤ length images.now }
    requires partial { IsPartial instance.now 1 (drop 1 tuple.old)
        (λ v. slice_index images.now (at + v)) whole_product }
    ensures found { MatchBool result
        (find (has_excess instance.now copies)
        (before_each (take most functions.now) (drop 1 tuple.old)) ≡ Some tuple.new)
        (find (has_excess instance.now copies)
        (before_each (take most functions.now) (drop 1 tuple.old)) ≡ None) }
    ensures kept { drop 1 tuple.new ≡ drop 1 tuple.old }
{
    let boxes = instance.len() as usize;
    for row in 0..most {
        let f = functions[row];
        if exceeds_with(
            instance,
            copies,
            f,
            made,
            row * boxes,
            images,
            at,
            whole_product,
        ) {
            tuple[0] = f;
            return true;
        }
    }
    false
}

// Whether a tuple exceeds that ends in the functions from dimension 1 on, whose products begin at a
// place of the table, and whose function of dimension 0 is id where `left` is 0. The first one is
// left in `tuple`. The functions of dimension 0 are listed only once one of them may exceed.
pub(crate) fn search_fastest(
    instance: &Instance,
    copies: u32,
    shares: &[u32],
    functions: &mut [ScaleFn],
    made: &mut [u32],
    listed_count: &mut usize,
    left: u32,
    tuple: &mut [ScaleFn],
    images: &[u128],
    at: usize,
    whole_product: u128,
) -> bool
    requires limits { IsInternalInstance instance.now }
    requires fit { SidesFit instance.now }
    requires few { copies ≤ 128 }
    requires rows_room { HasRoomForAll instance.now (length functions.old) (length made.old) }
    requires rows { 0 < listed_count.old → AreAllRows instance.now listed_count.old functions.old made.old }
    requires count { length tuple.old ≡ dims instance.now }
    requires there { 1 ≤ dims instance.now }
    requires shares_room { box_count instance.now ≤ length shares.now }
    requires shares { AreShares instance.now shares.now }
    requires room { at + box_count instance.now ≤ length images.now }
    requires partial { IsPartial instance.now 1 (drop 1 tuple.old)
        (λ v. slice_index images.now (at + v)) whole_product }
    ensures found { MatchBool result
        (find (has_excess instance.now copies) (within instance.now 1 left (drop 1 tuple.old))
        ≡ Some tuple.new)
        (find (has_excess instance.now copies) (within instance.now 1 left (drop 1 tuple.old))
        ≡ None) }
    ensures kept { drop 1 tuple.new ≡ drop 1 tuple.old }
    ensures rows { 0 < listed_count.new → AreAllRows instance.now listed_count.new functions.new made.new }
    ensures functions { length functions.new ≡ length functions.old }
    ensures made { length made.new ≡ length made.old }
{
    if !may_exceed(instance, copies, shares, images, at, whole_product) {
        return false;
    }
    need_rows(instance, functions, made, listed_count);
    let most = most_tried(left, *listed_count);
    try_rows(
        instance,
        copies,
        functions,
        made,
        most,
        tuple,
        images,
        at,
        whole_product,
    )
}
