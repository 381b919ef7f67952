//! The tests that boxes must pass that join a family at a node, in their order.
ghost use Rattle.std.specs.Prelude.{◌≡◌, ◌≤◌, ◌<◌, length, slice_index, take, drop, MatchOption};
ghost use Rattle.std.specs.List.{list_all, All};
ghost use Rattle.packing_terms.specs.Packing.{dims, box_count};
ghost use Rattle.packing_terms.specs.Exclusions.{excludes};
ghost use Rattle.verdict_terms.specs.Judging.{names_box};
ghost use Rattle.verdict_terms.specs.Families.{family_length, is_too_long};
ghost use Rattle.verdict_terms.specs.FamilyJudging.{is_beside, are_aside};
ghost use Rattle.refutation_check.specs.Nodes.{IsOver};
ghost use Rattle.refutation_check.specs.Joining.{AreBoxNos, AreJoinable, AreTested};

use crate::judging::{names_box, names_dim};
use crate::node::{OpenNode, enter};
use box_instances::Instance;
use edge_state::{EdgeState, Rel};
use rule_passes::Propagator;
use verdict_terms::RefuseCode;

// Whether two boxes of the text are distinct, and apart in a dimension.
fn is_beside(state: &EdgeState, dim: u32, u: u32, v: u32) -> bool
    requires dim_from { 1 ≤ dim }
    requires dim_to { dim ≤ state.now.dims }
    requires first_from { 1 ≤ u }
    requires first_to { u ≤ state.now.boxes }
    requires second_from { 1 ≤ v }
    requires second_to { v ≤ state.now.boxes }
    ensures { result ≡ is_beside (excludes state.now.trail) dim u v }
{
    if u == v {
        return false;
    }
    !state.mask(dim - 1, u - 1, v - 1).has(Rel::Overlap)
}

// Whether box `k` of the list is beside all before it.
fn is_beside_all(state: &EdgeState, dim: u32, family: &[u32], k: usize) -> bool
    requires dim_from { 1 ≤ dim }
    requires dim_to { dim ≤ state.now.dims }
    requires names { All (λ v. (1 ≤ v) × (v ≤ state.now.boxes)) family.now }
    requires there { k < length family.now }
    ensures { result ≡ list_all
        (λ u. is_beside (excludes state.now.trail) dim u (slice_index family.now k))
        (take k family.now) }
{
    for j in 0..k {
        if !is_beside(state, dim, family[j], family[k]) {
            return false;
        }
    }
    true
}

// Whether each box from position `begun` on is beside all before it.
fn are_aside(state: &EdgeState, dim: u32, family: &[u32], begun: usize) -> bool
    requires dim_from { 1 ≤ dim }
    requires dim_to { dim ≤ state.now.dims }
    requires names { All (λ v. (1 ≤ v) × (v ≤ state.now.boxes)) family.now }
    requires within { begun ≤ length family.now }
    ensures { result ≡ are_aside (excludes state.now.trail) dim (take begun family.now)
        (drop begun family.now) }
{
    for k in begun..family.len() {
        if !is_beside_all(state, dim, family, k) {
            return false;
        }
    }
    true
}

// Whether the numbers from position `begun` on name boxes.
fn are_named(instance: &Instance, family: &[u32], begun: usize) -> bool
    requires within { begun ≤ length family.now }
    ensures { result ≡ list_all (names_box instance.now) (drop begun family.now) }
{
    for k in begun..family.len() {
        if !names_box(instance, family[k]) {
            return false;
        }
    }
    true
}

/// The first test that the boxes from position `begun` on fail, which join those before at a node.
/// Those before name boxes of the instance.
pub(crate) fn test_boxes(
    instance: &Instance,
    state: &mut EdgeState,
    room: &mut Propagator,
    node: OpenNode,
    dim: u32,
    family: &[u32],
    begun: usize,
) -> Option<RefuseCode>
    requires over { IsOver instance.now state.old node }
    requires room_dims { room.old.dims ≡ dims instance.now }
    requires room_boxes { room.old.boxes ≡ box_count instance.now }
    requires within { begun ≤ length family.now }
    requires named { AreBoxNos instance.now (take begun family.now) }
    ensures sizes { state.new ≡ record state.old { trail = state.new.trail } }
    ensures room { room.new ≡ room.old }
    ensures tested { AreTested instance.now node state.old.trail state.new.trail result dim
        (take begun family.now) (drop begun family.now) }
    ensures named { MatchOption result (AreJoinable instance.now dim family.now)
        (λ code. Unit) }
{
    if !names_dim(instance, dim) {
        return Some(RefuseCode::Range);
    }
    if !are_named(instance, family, begun) {
        return Some(RefuseCode::Range);
    }
    if enter(instance, state, room, node) {
        return Some(RefuseCode::Choice);
    }
    if are_aside(state, dim, family, begun) {
        None
    } else {
        Some(RefuseCode::Choice)
    }
}

// The working sides of the boxes in a dimension, together.
fn family_length(instance: &Instance, dim: u32, family: &[u32]) -> u64
    requires dim_from { 1 ≤ dim }
    requires dim_to { dim ≤ dims instance.now }
    requires names { AreBoxNos instance.now family.now }
    requires few { length family.now ≤ 1000 }
    ensures { result ≡ family_length instance.now dim family.now }
{
    let mut sum = 0u64;
    for k in 0..family.len() {
        sum += instance.side(family[k] - 1, dim - 1) as u64;
    }
    sum
}

/// Whether the boxes are together longer than the container in the dimension.
pub(crate) fn is_too_long(instance: &Instance, dim: u32, family: &[u32]) -> bool
    requires dim_from { 1 ≤ dim }
    requires dim_to { dim ≤ dims instance.now }
    requires names { AreBoxNos instance.now family.now }
    requires few { length family.now ≤ 1000 }
    ensures { result ≡ is_too_long instance.now dim family.now }
{
    (instance.container_side(dim - 1) as u64) < family_length(instance, dim, family)
}
