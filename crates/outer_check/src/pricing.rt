//! Whether the node for a value that the path leads to is priced out: the surrogate bound of a
//! leaf, by the weights and the scale functions of its token.
ghost use Rattle.std.specs.Prelude.{◌≡◌, ◌≤◌, ◌<◌, if◌then◌else◌, true, sum_by, IsTrue};
ghost use Rattle.std.specs.List.{list_all};
ghost use Rattle.packing_terms.specs.Packing.{box_count};
ghost use Rattle.packing_terms.specs.OuterRefutation.{no_choice};
ghost use Rattle.packing_terms.specs.OuterPaths.{choices_with};
ghost use Rattle.packing_terms.specs.Scales.{IsTuple};
ghost use Rattle.verdict_terms.specs.Shares.{fits_alone, share, shares, gain, supply, demand};
ghost use Rattle.verdict_terms.specs.BoundedJudging.{price_refusal};
ghost use Rattle.outer_check.specs.declared.goal.Goal.TheVariants.{Value as PlainValue};
ghost use Rattle.outer_check.specs.Frames.{boxes_put, open_boxes};
ghost use Rattle.outer_check.specs.Nodes.{node_below};
ghost use Rattle.outer_check.specs.Outers.{AreOf};

use crate::path::Path;
use crate::products::{image_product, whole_product};
use crate::step::taken_worth;
use box_instances::Instance;
use conservative_scales::ScaleFn;
use refutation_check::are_legal;
use verdict_terms::RefuseCode;

// Whether no side of the box is longer than the container's.
fn fits_alone(instance: &Instance, v: u32) -> bool
    requires { v < box_count instance.now }
    ensures { result ≡ fits_alone instance.now v }
{
    for dim in 0..instance.dims() {
        if instance.side(v, dim) > instance.container_side(dim) {
            return false;
        }
    }
    true
}

// The part of the container that the box is, in billionths. A billion is 32000 times 31250: the
// product of images has up to 103 bits, so one product with a billion might not fit in 128 bits,
// and two shorter divisions give the same quotient.
fn share(instance: &Instance, tuple: &[ScaleFn], v: u32) -> u64
    requires tuple { IsTuple instance.now tuple.now }
    requires there { v < box_count instance.now }
    requires fits { IsTrue (fits_alone instance.now v) }
    ensures value { result ≡ share instance.now tuple.now v }
    ensures limit { result ≤ 1000000000 }
{
    let whole = whole_product(instance, tuple);
    if whole == 0 {
        return 0;
    }
    let scaled = 32000 * image_product(instance, tuple, v);
    let rest = scaled % whole;
    (31250 * (scaled / whole) + 31250 * rest / whole) as u64
}

// What an undecided box gains at most.
fn gain(instance: &Instance, v: u32, value_weight: u32, share_weight: u32, tuple: &[ScaleFn]) -> u64
    requires tuple { IsTuple instance.now tuple.now }
    requires there { v < box_count instance.now }
    ensures value { result ≡ gain instance.now tuple.now value_weight share_weight v }
    ensures limit { result ≤ 4294967295000000000 }
{
    if !fits_alone(instance, v) {
        return 0;
    }
    // For the proof alone: states the limits of the instance.
    let _count = instance.len();
    let weighed = value_weight as u64 * instance.value(v);
    let cost = share_weight as u64 * share(instance, tuple, v);
    weighed.saturating_sub(cost)
}

// Whether the box fits alone, where the test holds.
fn fits_where(instance: &Instance, v: u32, test: bool) -> bool
    requires { v < box_count instance.now }
    ensures { result ≡ (if test then fits_alone instance.now v else true) }
{
    if test { fits_alone(instance, v) } else { true }
}

// The share of the box where the test holds, else 0.
fn share_where(instance: &Instance, tuple: &[ScaleFn], v: u32, test: bool) -> u64
    requires tuple { IsTuple instance.now tuple.now }
    requires there { v < box_count instance.now }
    requires fits { IsTrue test → IsTrue (fits_alone instance.now v) }
    ensures value { result ≡ (if test then share instance.now tuple.now v else 0) }
    ensures limit { result ≤ 1000000000 }
{
    if test { share(instance, tuple, v) } else { 0 }
}

// What the box gains at most where the test holds, else 0.
fn gain_where(
    instance: &Instance,
    v: u32,
    value_weight: u32,
    share_weight: u32,
    tuple: &[ScaleFn],
    test: bool,
) -> u64
    requires tuple { IsTuple instance.now tuple.now }
    requires there { v < box_count instance.now }
    ensures value { result
        ≡ (if test then gain instance.now tuple.now value_weight share_weight v else 0) }
    ensures limit { result ≤ 4294967295000000000 }
{
    if test {
        gain(instance, v, value_weight, share_weight, tuple)
    } else {
        0
    }
}

// Whether each box that is in fits alone.
fn taken_fit(instance: &Instance, path: &Path) -> bool
    ensures { result ≡ list_all (fits_alone instance.now)
        (boxes_put (box_count instance.now) path.now.frames 0) }
{
    let mut fit = true;
    for v in 0..instance.len() {
        let here = fits_where(instance, v, path.is_put(0, v));
        fit = fit & here;
    }
    fit
}

// The shares of the boxes that are in, which fit alone.
fn taken_shares(instance: &Instance, path: &Path, tuple: &[ScaleFn]) -> u64
    requires tuple { IsTuple instance.now tuple.now }
    requires fit { IsTrue (list_all (fits_alone instance.now)
        (boxes_put (box_count instance.now) path.now.frames 0)) }
    ensures value { result ≡ shares instance.now tuple.now
        (boxes_put (box_count instance.now) path.now.frames 0) }
    ensures limit { result ≤ 128000000000 }
{
    let mut total: u64 = 0;
    for v in 0..instance.len() {
        total += share_where(instance, tuple, v, path.is_put(0, v));
    }
    total
}

// What the boxes that are neither in nor out gain at most.
fn open_gains(
    instance: &Instance,
    path: &Path,
    value_weight: u32,
    share_weight: u32,
    tuple: &[ScaleFn],
) -> u128
    requires tuple { IsTuple instance.now tuple.now }
    ensures value { result
        ≡ sum_by (λ v. gain instance.now tuple.now value_weight share_weight v)
        (open_boxes (box_count instance.now) path.now.frames) }
    ensures limit { result ≤ 549755813760000000000 }
{
    let mut total: u128 = 0;
    for v in 0..instance.len() {
        let undecided = !path.is_decided(v + 1);
        total += gain_where(instance, v, value_weight, share_weight, tuple, undecided) as u128;
    }
    total
}

// What is in is worth at most this, weighed, with any undecided boxes that fit beside it.
fn supply(
    instance: &Instance,
    path: &Path,
    value_weight: u32,
    share_weight: u32,
    tuple: &[ScaleFn],
) -> u128
    requires tuple { IsTuple instance.now tuple.now }
    ensures { result ≡ supply instance.now tuple.now value_weight share_weight
        (boxes_put (box_count instance.now) path.now.frames 0)
        (open_boxes (box_count instance.now) path.now.frames) }
{
    let taken = value_weight as u128 * taken_worth(instance, path) as u128;
    let whole = share_weight as u128 * 1000000000;
    taken + whole + open_gains(instance, path, value_weight, share_weight, tuple)
}

// What the goal asks for, weighed, beside the shares of what is in.
fn demand(
    instance: &Instance,
    path: &Path,
    value: u64,
    value_weight: u32,
    share_weight: u32,
    tuple: &[ScaleFn],
) -> u128
    requires tuple { IsTuple instance.now tuple.now }
    requires fit { IsTrue (list_all (fits_alone instance.now)
        (boxes_put (box_count instance.now) path.now.frames 0)) }
    ensures { result ≡ demand instance.now tuple.now value_weight share_weight
        (boxes_put (box_count instance.now) path.now.frames 0) value }
{
    let goal = value_weight as u128 * value as u128;
    goal + share_weight as u128 * taken_shares(instance, path, tuple) as u128
}

/// The first test that a leaf that is priced out fails at the node for a value that the path leads
/// to: `Kind` where the tuple hasn't a function for each dimension, `Range` where one isn't legal
/// for its container side, else `Excess` where a box that is in doesn't fit alone, or where what is
/// in and the undecided boxes may reach the value.
pub(crate) fn price_refusal(
    instance: &Instance,
    path: &Path,
    value: u64,
    value_weight: u32,
    share_weight: u32,
    tuple: &[ScaleFn],
) -> Option<RefuseCode>
    requires boxes { path.now.boxes ≡ box_count instance.now }
    requires are { AreOf (PlainValue value) path.now.frames }
    ensures { result ≡ price_refusal instance.now value
        (node_below choices_with no_choice path.now.frames) value_weight share_weight tuple.now }
{
    // For the proof alone: states the limits of the path.
    let _boxes = path.boxes();
    if tuple.len() != instance.dims() as usize {
        return Some(RefuseCode::Kind);
    }
    if !are_legal(instance, tuple) {
        return Some(RefuseCode::Range);
    }
    if !taken_fit(instance, path) {
        return Some(RefuseCode::Excess);
    }
    let most = supply(instance, path, value_weight, share_weight, tuple);
    if most < demand(instance, path, value, value_weight, share_weight, tuple) {
        return None;
    }
    Some(RefuseCode::Excess)
}
