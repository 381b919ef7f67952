//! Whether two trees were made from equal parts.
ghost use Rattle.std.specs.Prelude.{◌≡◌, ◌<◌, MatchBool};
ghost use Rattle.packing_terms.specs.Packing.{dims, box_count};
ghost use Rattle.class_search.specs.Same.{AreSameContainers, AreSameBoxes};

use box_instances::Instance;
use edge_state::Exclusion;

// Whether both instances have the same container and kerfs.
fn are_same_containers(first: &Instance, second: &Instance) -> bool
    ensures { MatchBool result (AreSameContainers first.now second.now)
        (¬ (first.now ≡ second.now)) }
{
    if first.dims() != second.dims() {
        return false;
    }
    for dim in 0..first.dims() {
        if first.written_container(dim) != second.written_container(dim) {
            return false;
        }
        if first.kerf(dim) != second.kerf(dim) {
            return false;
        }
    }
    true
}

// Whether both instances, which have as many dimensions, have the same box of this number.
fn are_same_boxes(first: &Instance, second: &Instance, v: u32) -> bool
    requires dims { dims first.now ≡ dims second.now }
    requires first { v < box_count first.now }
    requires second { v < box_count second.now }
    ensures { MatchBool result (AreSameBoxes first.now second.now v) (¬ (first.now ≡ second.now)) }
{
    if first.value(v) != second.value(v) {
        return false;
    }
    for dim in 0..first.dims() {
        if first.written_side(v, dim) != second.written_side(v, dim) {
            return false;
        }
    }
    true
}

/// Whether the instances are the same.
pub fn are_same_instances(first: &Instance, second: &Instance) -> bool
    ensures { MatchBool result (first.now ≡ second.now) (¬ (first.now ≡ second.now)) }
{
    if first.len() != second.len() {
        return false;
    }
    if !are_same_containers(first, second) {
        return false;
    }
    for v in 0..first.len() {
        if !are_same_boxes(first, second, v) {
            return false;
        }
    }
    true
}

// Whether the lists of exclusions are the same.
pub(crate) fn are_same_exclusions(first: &[Exclusion], second: &[Exclusion]) -> bool
    ensures { MatchBool result (first.now ≡ second.now) (¬ (first.now ≡ second.now)) }
{
    first == second
}
