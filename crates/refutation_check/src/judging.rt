//! The tests that a token must pass at a node, in their order.
ghost use Rattle.std.specs.Prelude.{◌≡◌, ◌≤◌, ◌&&◌, ◌||◌, not, List, length};
ghost use Rattle.packing_terms.specs.declared.Exclusion.{Exclusion as PlainExclusion};
ghost use Rattle.packing_terms.specs.declared.Rel.TheVariants.{Overlap, Before, After};
ghost use Rattle.packing_terms.specs.Packing.{dims, box_count};
ghost use Rattle.packing_terms.specs.Limits.{max_boxes};
ghost use Rattle.packing_terms.specs.Tokens.PlainToken.{Apart as PlainApart, Order as PlainOrder, Rules as PlainRules, TooLarge as PlainTooLarge};
ghost use Rattle.relation_table.specs.Masks.{mask_has};
ghost use Rattle.proof_tree.specs.Plain.{plain_token};
ghost use Rattle.verdict_terms.specs.Judging.{names_dim, names_box, names_pair, are_legal, tuple_refusal, refusal};
ghost use Rattle.refutation_check.specs.Nodes.{IsOver, IsJudged};

use crate::node::{OpenNode, enter};
use box_instances::Instance;
use conservative_scales::{ScaleFn, exceeds, legal};
use edge_state::{EdgeState, Rel};
use proof_tree::Token;
use relation_table::Mask;
use rule_passes::Propagator;
use verdict_terms::RefuseCode;

/// Whether the number of a text names a dimension.
pub(crate) fn names_dim(instance: &Instance, dim: u32) -> bool
    ensures { result ≡ names_dim instance.now dim }
{
    (1 <= dim) & (dim <= instance.dims())
}

/// Whether it names a box.
pub(crate) fn names_box(instance: &Instance, box_no: u32) -> bool
    ensures { result ≡ names_box instance.now box_no }
{
    (1 <= box_no) & (box_no <= instance.len())
}

// Whether the numbers name a dimension and two boxes, the lower one first.
fn names_pair(instance: &Instance, dim: u32, u: u32, v: u32) -> bool
    ensures { result ≡ names_pair instance.now dim u v }
{
    let there = names_dim(instance, dim);
    there & (1 <= u) & (u < v) & (v <= instance.len())
}

// Whether the mask has overlap and another relation.
fn may_part(mask: Mask) -> bool
    ensures { result ≡ mask_has mask Overlap && (mask_has mask Before || mask_has mask After) }
{
    mask.has(Rel::Overlap) & (mask.has(Rel::Before) | mask.has(Rel::After))
}

// Whether the mask is exactly before and after.
fn may_order(mask: Mask) -> bool
    ensures { result ≡ not (mask_has mask Overlap) && mask_has mask Before && mask_has mask After }
{
    !mask.has(Rel::Overlap) & mask.has(Rel::Before) & mask.has(Rel::After)
}

// A split of a pair into apart or joined.
fn apart_refusal(
    instance: &Instance,
    state: &mut EdgeState,
    room: &mut Propagator,
    node: OpenNode,
    dim: u32,
    u: u32,
    v: u32,
) -> Option<RefuseCode>
    requires over { IsOver instance.now state.old node }
    requires room_dims { room.old.dims ≡ dims instance.now }
    requires room_boxes { room.old.boxes ≡ box_count instance.now }
    ensures sizes { state.new ≡ record state.old { trail = state.new.trail } }
    ensures room { room.new ≡ room.old }
    ensures judged { IsJudged instance.now node state.old.trail state.new.trail result
        (PlainApart dim u v) }
{
    if !names_pair(instance, dim, u, v) {
        return Some(RefuseCode::Range);
    }
    if enter(instance, state, room, node) {
        return Some(RefuseCode::Choice);
    }
    let mask = state.mask(dim - 1, u - 1, v - 1);
    if may_part(mask) {
        None
    } else {
        Some(RefuseCode::Choice)
    }
}

// A split of a pair that is apart into its two orders.
fn order_refusal(
    instance: &Instance,
    state: &mut EdgeState,
    room: &mut Propagator,
    node: OpenNode,
    dim: u32,
    u: u32,
    v: u32,
) -> Option<RefuseCode>
    requires over { IsOver instance.now state.old node }
    requires room_dims { room.old.dims ≡ dims instance.now }
    requires room_boxes { room.old.boxes ≡ box_count instance.now }
    ensures sizes { state.new ≡ record state.old { trail = state.new.trail } }
    ensures room { room.new ≡ room.old }
    ensures judged { IsJudged instance.now node state.old.trail state.new.trail result
        (PlainOrder dim u v) }
{
    if !names_pair(instance, dim, u, v) {
        return Some(RefuseCode::Range);
    }
    if enter(instance, state, room, node) {
        return Some(RefuseCode::Choice);
    }
    let mask = state.mask(dim - 1, u - 1, v - 1);
    if may_order(mask) {
        None
    } else {
        Some(RefuseCode::Choice)
    }
}

// A node whose closure has a conflict.
fn rules_refusal(
    instance: &Instance,
    state: &mut EdgeState,
    room: &mut Propagator,
    node: OpenNode,
) -> Option<RefuseCode>
    requires over { IsOver instance.now state.old node }
    requires room_dims { room.old.dims ≡ dims instance.now }
    requires room_boxes { room.old.boxes ≡ box_count instance.now }
    ensures sizes { state.new ≡ record state.old { trail = state.new.trail } }
    ensures room { room.new ≡ room.old }
    ensures judged { IsJudged instance.now node state.old.trail state.new.trail result PlainRules }
{
    if enter(instance, state, room, node) {
        return None;
    }
    Some(RefuseCode::Conflict)
}

// A box that is longer than the container.
fn side_refusal(instance: &Instance, box_no: u32, dim: u32) -> Option<RefuseCode>
    ensures { (es : List PlainExclusion)
        → result ≡ refusal instance.now es (PlainTooLarge box_no dim) }
{
    if !names_box(instance, box_no) {
        return Some(RefuseCode::Range);
    }
    if !names_dim(instance, dim) {
        return Some(RefuseCode::Range);
    }
    if instance.container_side(dim - 1) < instance.side(box_no - 1, dim - 1) {
        return None;
    }
    Some(RefuseCode::Side)
}

/// Whether each function of a tuple is legal for the container side of its dimension. The tuple has
/// one function for each dimension.
pub fn are_legal(instance: &Instance, tuple: &[ScaleFn]) -> bool
    requires { length tuple.now ≡ dims instance.now }
    ensures { result ≡ are_legal instance.now tuple.now }
{
    for dim in 0..instance.dims() {
        if !legal(tuple[dim as usize], instance.container_side(dim)) {
            return false;
        }
    }
    true
}

/// The first test that a tuple of scale functions fails for `copies` copies of the container, which
/// are at most 128: `Kind` where it hasn't a function for each dimension, `Range` where one isn't
/// legal for its container side, else `Excess` where a side of a box exceeds the container's or the
/// tuple doesn't exceed.
pub fn judge_tuple(instance: &Instance, tuple: &[ScaleFn], copies: u32) -> Option<RefuseCode>
    requires { copies ≤ max_boxes }
    ensures { result ≡ tuple_refusal instance.now copies tuple.now }
{
    if tuple.len() != instance.dims() as usize {
        return Some(RefuseCode::Kind);
    }
    if !are_legal(instance, tuple) {
        return Some(RefuseCode::Range);
    }
    if !instance.sides_fit() {
        return Some(RefuseCode::Excess);
    }
    if exceeds(instance, tuple, copies) {
        return None;
    }
    Some(RefuseCode::Excess)
}

/// The first test that a token fails at a node. Where a split passes, the state is left at the
/// closure of the node.
pub(crate) fn judge(
    instance: &Instance,
    state: &mut EdgeState,
    room: &mut Propagator,
    node: OpenNode,
    token: &Token,
) -> Option<RefuseCode>
    requires over { IsOver instance.now state.old node }
    requires room_dims { room.old.dims ≡ dims instance.now }
    requires room_boxes { room.old.boxes ≡ box_count instance.now }
    ensures sizes { state.new ≡ record state.old { trail = state.new.trail } }
    ensures room { room.new ≡ room.old }
    ensures judged { IsJudged instance.now node state.old.trail state.new.trail result
        (plain_token token.now) }
{
    match token {
        Token::Apart { dim, u, v } => apart_refusal(instance, state, room, node, *dim, *u, *v),
        Token::Order { dim, u, v } => order_refusal(instance, state, room, node, *dim, *u, *v),
        Token::Rules => rules_refusal(instance, state, room, node),
        Token::TooLarge { box_no, dim } => side_refusal(instance, *box_no, *dim),
        Token::Scales(tuple) => judge_tuple(instance, tuple.as_slice(), 1),
        _ => Some(RefuseCode::Kind),
    }
}
