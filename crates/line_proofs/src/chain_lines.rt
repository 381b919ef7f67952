//! The lines of a chain step.
ghost use Rattle.std.specs.Prelude.{◌≡◌, ◌==◌, ◌<◌, ◌≤◌, ◌+◌, ℕ, length, vec_capacity, Some, None, false, true, if◌then◌else◌};
ghost use Rattle.std.specs.List.{list_any, All};
ghost use Rattle.packing_terms.specs.Packing.{dims, box_count};
ghost use Rattle.packing_terms.specs.Exclusions.{excludes};
ghost use Rattle.packing_terms.specs.Limits.{max_boxes};
ghost use Rattle.verdict_terms.specs.ExplainedJudging.{goes_on, part_of, chain_changes, is_first, has_all, last_of, front_of};
ghost use Rattle.verdict_terms.specs.Kept.{IsGrown};
ghost use Rattle.line_proofs.specs.Chains.{chain_at};
ghost use Rattle.line_proofs.specs.Boxed.{IsEnded, IsBoxJudged};

use crate::boxes::{front_of, is_among, last_of, leads_to, weight_of};
use crate::chain::{Begun, Chain, drop_box, has_all, is_first, push_box};
use crate::judging::from_text;
use crate::naming::names_box;
use box_instances::Instance;
use edge_state::{EdgeState, Rel};
use verdict_terms::AuditCode;

// Whether a box goes on with these: it isn't among them, and the last one is surely before it.
pub(crate) fn follows(state: &EdgeState, dim: u32, part: &[u32], v: u32) -> bool
    requires dim { dim < state.now.dims }
    requires there { All (λ u. u < state.now.boxes) part.now }
    requires box_there { v < state.now.boxes }
    ensures { result ≡ goes_on (excludes state.now.trail) dim part.now v }
{
    if is_among(part, v) {
        return false;
    }
    leads_to(state, dim, part, v)
}

// Whether a box goes on with its chain.
pub(crate) fn box_follows(
    state: &EdgeState,
    chain: &Chain,
    begun: Begun,
    first: bool,
    v: u32,
) -> bool
    requires dim { begun.dim < state.now.dims }
    requires before { All (λ u. u < state.now.boxes) chain.now.before.items }
    requires after { All (λ u. u < state.now.boxes) chain.now.after.items }
    requires box_there { v < state.now.boxes }
    requires first { first
        ≡ is_first (chain_at begun chain.now.before.items chain.now.after.items) }
    ensures { result ≡ goes_on (excludes state.now.trail) begun.dim
        (part_of (chain_at begun chain.now.before.items chain.now.after.items)) v }
{
    if first {
        follows(state, begun.dim, chain.before.as_slice(), v)
    } else {
        follows(state, begun.dim, chain.after.as_slice(), v)
    }
}

// Whether the chains are together too long, end in one box and begin with another, and it isn't
// known yet that the first isn't before the second.
pub(crate) fn changes(
    instance: &Instance,
    state: &EdgeState,
    begun: Begun,
    before: &[u32],
    after: &[u32],
) -> bool
    requires dims { state.now.dims ≡ dims instance.now }
    requires count { state.now.boxes ≡ box_count instance.now }
    requires dim { begun.dim < dims instance.now }
    requires before { All (λ u. u < box_count instance.now) before.now }
    requires after { All (λ u. u < box_count instance.now) after.now }
    requires some_before { 1 ≤ length before.now }
    requires some_after { 1 ≤ length after.now }
    requires few_before { length before.now ≤ max_boxes }
    requires few_after { length after.now ≤ max_boxes }
    ensures { result
        ≡ chain_changes instance.now state.now.trail (chain_at begun before.now after.now) }
{
    let last = last_of(before);
    let front = front_of(after);
    if last == front {
        return false;
    }
    let together = weight_of(instance, begun.dim, before) + weight_of(instance, begun.dim, after);
    let long = u64::from(instance.container_side(begun.dim)) < together;
    let open = state.mask(begun.dim, last, front).has(Rel::Before);
    long & open
}

// Ends a chain whose boxes all came, where it changes a mask; else nothing changes.
pub(crate) fn end_chain(
    instance: &Instance,
    state: &mut EdgeState,
    chain: &mut Chain,
    begun: Begun,
) -> bool
    requires dims { state.old.dims ≡ dims instance.now }
    requires count { state.old.boxes ≡ box_count instance.now }
    requires grown { IsGrown instance.now state.old.trail
        (chain_at begun chain.old.before.items chain.old.after.items) }
    requires all { has_all (chain_at begun chain.old.before.items chain.old.after.items) ≡ true }
    requires begun { chain.old.begun ≡ Some begun }
    ensures { IsEnded instance.now state.old state.new begun chain.old chain.new result }
{
    // For the proof alone: states the limits of the instance.
    let _count = instance.len();
    if !changes(
        instance,
        state,
        begun,
        chain.before.as_slice(),
        chain.after.as_slice(),
    ) {
        return false;
    }
    let last = last_of(chain.before.as_slice());
    let front = front_of(chain.after.as_slice());
    state.exclude(begun.dim, last, front, Rel::Before);
    chain.begun = None;
    true
}

/// The next box of a chain begun.
pub(crate) fn box_line(
    instance: &Instance,
    state: &mut EdgeState,
    chain: &mut Chain,
    begun: Begun,
    box_no: u32,
) -> Option<AuditCode>
    requires dims { state.old.dims ≡ dims instance.now }
    requires count { state.old.boxes ≡ box_count instance.now }
    requires grown { IsGrown instance.now state.old.trail
        (chain_at begun chain.old.before.items chain.old.after.items) }
    requires begun { chain.old.begun ≡ Some begun }
    requires before_room { box_count instance.now ≤ vec_capacity chain.old.before }
    requires after_room { box_count instance.now ≤ vec_capacity chain.old.after }
    ensures { IsBoxJudged instance.now state.old state.new begun chain.old chain.new box_no result }
{
    if !names_box(instance, box_no) {
        return Some(AuditCode::Range);
    }
    let v = from_text(box_no);
    let first = is_first(chain, begun);
    if !box_follows(state, chain, begun, first, v) {
        return Some(AuditCode::Step);
    }
    let before = chain.before.len();
    let after = chain.after.len();
    push_box(chain, begun, first, v);
    if !has_all(chain, begun) {
        return None;
    }
    if end_chain(instance, state, chain, begun) {
        return None;
    }
    drop_box(chain, first, before, after);
    Some(AuditCode::Step)
}
