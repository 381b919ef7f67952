//! Whether an exchange is open at the node for a value that the path leads to: a box that is out
//! could take the place of one that is in.
ghost use Rattle.std.specs.Prelude.{◌≡◌, ◌<◌};
ghost use Rattle.packing_terms.specs.Packing.{box_count};
ghost use Rattle.packing_terms.specs.OuterRefutation.{no_choice};
ghost use Rattle.packing_terms.specs.OuterPaths.{choices_with};
ghost use Rattle.verdict_terms.specs.Exchanges.{is_no_longer, replaces, comes_before};
ghost use Rattle.verdict_terms.specs.BoundedJudging.{exchange_refusal};
ghost use Rattle.outer_check.specs.declared.goal.Goal.TheVariants.{Value as PlainValue};
ghost use Rattle.outer_check.specs.Nodes.{node_below};
ghost use Rattle.outer_check.specs.Outers.{AreOf};

use crate::path::Path;
use crate::step::names_box;
use box_instances::Instance;
use verdict_terms::RefuseCode;

// Whether no side of box `u` is longer than that of box `v`.
fn is_no_longer(instance: &Instance, u: u32, v: u32) -> bool
    requires first { u < box_count instance.now }
    requires second { v < box_count instance.now }
    ensures { result ≡ is_no_longer instance.now u v }
{
    for dim in 0..instance.dims() {
        if instance.side(u, dim) > instance.side(v, dim) {
            return false;
        }
    }
    true
}

// Whether box `u` can take the place of box `v`, and is worth no less.
fn replaces(instance: &Instance, u: u32, v: u32) -> bool
    requires first { u < box_count instance.now }
    requires second { v < box_count instance.now }
    ensures { result ≡ replaces instance.now u v }
{
    is_no_longer(instance, u, v) & (instance.value(v) <= instance.value(u))
}

// Whether box `u` comes before box `v`: of two boxes that replace each other the lower number does.
fn comes_before(instance: &Instance, u: u32, v: u32) -> bool
    requires first { u < box_count instance.now }
    requires second { v < box_count instance.now }
    ensures { result ≡ comes_before instance.now u v }
{
    replaces(instance, u, v) & (!replaces(instance, v, u) | (u < v))
}

/// The first test that an exchange fails at the node for a value that the path leads to: `Range`
/// where a number names no box, else `Choice` where box `left_no` of the text isn't out, where box
/// `taken_no` isn't in, or where the first doesn't come before the second.
pub(crate) fn exchange_refusal(
    instance: &Instance,
    path: &Path,
    value: u64,
    left_no: u32,
    taken_no: u32,
) -> Option<RefuseCode>
    requires boxes { path.now.boxes ≡ box_count instance.now }
    requires are { AreOf (PlainValue value) path.now.frames }
    ensures { result ≡ exchange_refusal instance.now
        (node_below choices_with no_choice path.now.frames) left_no taken_no }
{
    // For the proof alone: states the limits of the path.
    let _boxes = path.boxes();
    if !(names_box(instance, left_no) & names_box(instance, taken_no)) {
        return Some(RefuseCode::Range);
    }
    let (u, v) = (left_no - 1, taken_no - 1);
    if path.is_put(1, u) & path.is_put(0, v) & comes_before(instance, u, v) {
        return None;
    }
    Some(RefuseCode::Choice)
}
