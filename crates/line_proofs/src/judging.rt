//! One line at the next open node: the tests that it must pass, in their order, and what it leaves.
ghost use Rattle.std.specs.Prelude.{◌≡◌, ◌≤◌, ◌<◌, ◌+◌, ℕ, pred, [], ◌∷◌, List, length, vec_capacity, Some, None, Option, if◌then◌else◌};
ghost use Rattle.packing_terms.specs.declared.Exclusion.{Exclusion as PlainExclusion};
ghost use Rattle.packing_terms.specs.Packing.{dims, box_count};
ghost use Rattle.packing_terms.specs.Exclusions.{excludes};
ghost use Rattle.packing_terms.specs.Rules.Rule.{Pair as PairRule, Apart as ApartRule, Triple as TripleRule, Compose as ComposeRule, Cycle as CycleRule, Order as OrderRule};
ghost use Rattle.packing_terms.specs.Tokens.PlainToken.{Apart as PlainApart, Order as PlainOrder, TooLarge as PlainTooLarge, Scales as PlainScales};
ghost use Rattle.packing_terms.specs.Refutation.{exclusion_in_text as exclusion_of};
ghost use Rattle.verdict_terms.specs.Judging.{refusal};
ghost use Rattle.edge_state.specs.Edges.{oldest};
ghost use Rattle.verdict_terms.specs.Steps.PlainStep.{On as PlainOn, Clash as PlainClash, Plain as PlainPlain, Chain as PlainChain};
ghost use Rattle.verdict_terms.specs.ExplainedJudging.{audit_code, as_audit, token_refusal, rest_refusal};
ghost use Rattle.proof_tree.specs.Plain.{plain_token};
ghost use Rattle.line_proofs.specs.Plain.{plain_step};
ghost use Rattle.line_proofs.specs.Chains.{chain_at, chain_seen};
ghost use Rattle.line_proofs.specs.Taken.{IsStepJudged};
ghost use Rattle.verdict_terms.specs.declared.explained_answers.AuditCode.TheVariants.{Step as StepCode};

use crate::Step;
use crate::boxes::{front_of, is_among, last_of, leads_to, weight_of};
use crate::chain::{Begun, Chain, drop_box, has_all, is_first, push_box};
use crate::naming::{names_box, names_dim, names_four, names_pair, names_three, names_two};
use crate::rules::{take_apart, take_compose, take_cycle, take_order, take_pair, take_triple};
use crate::waiting::Waiting;
use box_instances::Instance;
use edge_state::{EdgeState, Exclusion, Rel};
use proof_tree::Token;
use verdict_terms::AuditCode;

/// The number from 0 of a number of a text.
pub(crate) fn from_text(number: u32) -> u32
    requires { 1 ≤ number }
    ensures { result ≡ pred number }
{
    number - 1
}

// What a step came to.
fn code_unless(changed: bool) -> Option<AuditCode>
    ensures { result ≡ (if changed then None else Some StepCode) }
{
    if changed { None } else { Some(AuditCode::Step) }
}

/// A step by PAIR: two distinct boxes.
pub(crate) fn pair_line(
    instance: &Instance,
    state: &mut EdgeState,
    dim: u32,
    u: u32,
    v: u32,
) -> Option<AuditCode>
    requires dims { state.old.dims ≡ dims instance.now }
    requires count { state.old.boxes ≡ box_count instance.now }
    ensures { IsStepJudged instance.now state.old state.new dim (u ∷ v ∷ [])
        (PairRule (pred dim) (pred u) (pred v)) result }
{
    let named = names_dim(instance, dim) & names_two(instance, u, v);
    if !named {
        return Some(AuditCode::Range);
    }
    let changed = take_pair(instance, state, from_text(dim), from_text(u), from_text(v));
    code_unless(changed)
}

/// A step by APART: two distinct boxes.
pub(crate) fn apart_line(
    instance: &Instance,
    state: &mut EdgeState,
    dim: u32,
    u: u32,
    v: u32,
) -> Option<AuditCode>
    requires dims { state.old.dims ≡ dims instance.now }
    requires count { state.old.boxes ≡ box_count instance.now }
    ensures { IsStepJudged instance.now state.old state.new dim (u ∷ v ∷ [])
        (ApartRule (pred dim) (pred u) (pred v)) result }
{
    let named = names_dim(instance, dim) & names_two(instance, u, v);
    if !named {
        return Some(AuditCode::Range);
    }
    let changed = take_apart(instance, state, from_text(dim), from_text(u), from_text(v));
    code_unless(changed)
}

/// A step by TRIPLE: three distinct boxes.
pub(crate) fn triple_line(
    instance: &Instance,
    state: &mut EdgeState,
    dim: u32,
    u: u32,
    v: u32,
    x: u32,
) -> Option<AuditCode>
    requires dims { state.old.dims ≡ dims instance.now }
    requires count { state.old.boxes ≡ box_count instance.now }
    ensures { IsStepJudged instance.now state.old state.new dim (u ∷ v ∷ x ∷ [])
        (TripleRule (pred dim) (pred u) (pred v) (pred x)) result }
{
    let named = names_dim(instance, dim) & names_three(instance, u, v, x);
    if !named {
        return Some(AuditCode::Range);
    }
    let changed = take_triple(
        instance,
        state,
        from_text(dim),
        from_text(u),
        from_text(v),
        from_text(x),
    );
    code_unless(changed)
}

/// A step by COMPOSE: three distinct boxes.
pub(crate) fn compose_line(
    instance: &Instance,
    state: &mut EdgeState,
    dim: u32,
    u: u32,
    v: u32,
    x: u32,
) -> Option<AuditCode>
    requires dims { state.old.dims ≡ dims instance.now }
    requires count { state.old.boxes ≡ box_count instance.now }
    ensures { IsStepJudged instance.now state.old state.new dim (u ∷ v ∷ x ∷ [])
        (ComposeRule (pred dim) (pred u) (pred v) (pred x)) result }
{
    let named = names_dim(instance, dim) & names_three(instance, u, v, x);
    if !named {
        return Some(AuditCode::Range);
    }
    let changed = take_compose(
        state,
        from_text(dim),
        from_text(u),
        from_text(v),
        from_text(x),
    );
    code_unless(changed)
}

/// A step by CYCLE: four distinct boxes.
pub(crate) fn cycle_line(
    instance: &Instance,
    state: &mut EdgeState,
    dim: u32,
    a: u32,
    b: u32,
    c: u32,
    d: u32,
) -> Option<AuditCode>
    requires dims { state.old.dims ≡ dims instance.now }
    requires count { state.old.boxes ≡ box_count instance.now }
    ensures { IsStepJudged instance.now state.old state.new dim (a ∷ b ∷ c ∷ d ∷ [])
        (CycleRule (pred dim) (pred a) (pred b) (pred c) (pred d)) result }
{
    let named = names_dim(instance, dim) & names_four(instance, a, b, c, d);
    if !named {
        return Some(AuditCode::Range);
    }
    let changed = take_cycle(
        state,
        from_text(dim),
        from_text(a),
        from_text(b),
        from_text(c),
        from_text(d),
    );
    code_unless(changed)
}

/// A step by ORDER: four distinct boxes.
pub(crate) fn order_line(
    instance: &Instance,
    state: &mut EdgeState,
    dim: u32,
    a: u32,
    b: u32,
    c: u32,
    d: u32,
) -> Option<AuditCode>
    requires dims { state.old.dims ≡ dims instance.now }
    requires count { state.old.boxes ≡ box_count instance.now }
    ensures { IsStepJudged instance.now state.old state.new dim (a ∷ b ∷ c ∷ d ∷ [])
        (OrderRule (pred dim) (pred a) (pred b) (pred c) (pred d)) result }
{
    let named = names_dim(instance, dim) & names_four(instance, a, b, c, d);
    if !named {
        return Some(AuditCode::Range);
    }
    let changed = take_order(
        state,
        from_text(dim),
        from_text(a),
        from_text(b),
        from_text(c),
        from_text(d),
    );
    code_unless(changed)
}

/// The exclusion at the numbers of a text.
pub(crate) fn exclusion_at(dim: u32, u: u32, v: u32, rel: Rel) -> Exclusion
    ensures { result ≡ exclusion_of dim u v rel }
{
    Exclusion {
        dim: dim.saturating_sub(1),
        u: u.saturating_sub(1),
        v: v.saturating_sub(1),
        rel,
    }
}

/// Whether no relation is left at a place of the text; else why not.
pub(crate) fn clash_refusal(
    instance: &Instance,
    state: &EdgeState,
    dim: u32,
    u: u32,
    v: u32,
) -> Option<AuditCode>
    requires dims { state.now.dims ≡ dims instance.now }
    requires count { state.now.boxes ≡ box_count instance.now }
    ensures { result ≡ rest_refusal instance.now state.now.trail (PlainClash dim u v) }
{
    if !names_pair(instance, dim, u, v) {
        return Some(AuditCode::Range);
    }
    let mask = state.mask(from_text(dim), from_text(u), from_text(v));
    if mask.has(Rel::Overlap) | mask.has(Rel::Before) | mask.has(Rel::After) {
        return Some(AuditCode::Conflict);
    }
    None
}

/// Whether the pair may be split into apart and joined; else why not.
pub(crate) fn apart_refusal(
    instance: &Instance,
    state: &EdgeState,
    dim: u32,
    u: u32,
    v: u32,
) -> Option<AuditCode>
    requires dims { state.now.dims ≡ dims instance.now }
    requires count { state.now.boxes ≡ box_count instance.now }
    ensures { result ≡ token_refusal instance.now state.now.trail (PlainApart dim u v) }
{
    if !names_pair(instance, dim, u, v) {
        return Some(AuditCode::Range);
    }
    let mask = state.mask(from_text(dim), from_text(u), from_text(v));
    let may = mask.has(Rel::Overlap) & (mask.has(Rel::Before) | mask.has(Rel::After));
    if may { None } else { Some(AuditCode::Choice) }
}

/// Whether it may be split into its two orders; else why not.
pub(crate) fn order_refusal(
    instance: &Instance,
    state: &EdgeState,
    dim: u32,
    u: u32,
    v: u32,
) -> Option<AuditCode>
    requires dims { state.now.dims ≡ dims instance.now }
    requires count { state.now.boxes ≡ box_count instance.now }
    ensures { result ≡ token_refusal instance.now state.now.trail (PlainOrder dim u v) }
{
    if !names_pair(instance, dim, u, v) {
        return Some(AuditCode::Range);
    }
    let mask = state.mask(from_text(dim), from_text(u), from_text(v));
    let may = !mask.has(Rel::Overlap) & mask.has(Rel::Before) & mask.has(Rel::After);
    if may { None } else { Some(AuditCode::Choice) }
}

/// Whether the box is longer than the container; else why not.
pub(crate) fn side_refusal(instance: &Instance, box_no: u32, dim: u32) -> Option<AuditCode>
    ensures { (es : List PlainExclusion)
        → result ≡ token_refusal instance.now es (PlainTooLarge box_no dim) }
{
    if !names_box(instance, box_no) {
        return Some(AuditCode::Range);
    }
    if !names_dim(instance, dim) {
        return Some(AuditCode::Range);
    }
    if instance.container_side(dim - 1) < instance.side(box_no - 1, dim - 1) {
        return None;
    }
    Some(AuditCode::Side)
}
