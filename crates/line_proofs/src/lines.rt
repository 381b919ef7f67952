//! A line at the next open node.
ghost use Rattle.std.specs.Prelude.{◌≡◌, ◌≤◌, ℕ, length, vec_capacity, Some, None, List};
ghost use Rattle.packing_terms.specs.Packing.{dims, box_count};
ghost use Rattle.packing_terms.specs.Tokens.PlainToken.{Apart as PlainApart, Order as PlainOrder};
ghost use Rattle.verdict_terms.specs.ExplainedJudging.{at_rest, token_refusal};
ghost use Rattle.verdict_terms.specs.Steps.PlainStep.{Chain as PlainChain, Plain as PlainPlain};
ghost use Rattle.verdict_terms.specs.Kept.{IsSoundAt, IsGrown};
ghost use Rattle.packing_terms.specs.declared.Exclusion.{Exclusion as PlainExclusion};
ghost use Rattle.proof_tree.specs.Plain.{plain_token};
ghost use Rattle.line_proofs.specs.Plain.{plain_step};
ghost use Rattle.line_proofs.specs.Chains.{chain_at, chain_seen};
ghost use Rattle.line_proofs.specs.Boxed.{node_of, HasSameRoom, Grows};
ghost use Rattle.line_proofs.specs.Lines.{IsTaken, found_stays, found_closes};

use crate::Step;
use crate::chain::{Begun, Chain};
use crate::chain_lines::box_line;
use crate::judging::{
    apart_line, apart_refusal, clash_refusal, compose_line, cycle_line, exclusion_at, from_text,
    order_line, order_refusal, pair_line, side_refusal, triple_line,
};
use crate::naming::{names_box, names_dim};
use crate::tuples::tuple_audit;
use crate::waiting::Waiting;
use box_instances::Instance;
use edge_state::{EdgeState, Rel};
use proof_tree::Token;
use verdict_terms::AuditCode;

/// What a line came to.
#[derive(Clone, Copy)]
pub enum Taken {
    /// It is refused, and nothing changed.
    Refused { code: AuditCode },
    /// The node goes on.
    Stays,
    /// The node is closed.
    Closes,
    /// The node goes on as the first child of a split, and the second waits.
    Splits { second: Waiting },
}

/// The node goes on unless there is a reason to refuse the line.
pub(crate) fn stays(found: Option<AuditCode>) -> Taken
    ensures { result ≡ found_stays found }
{
    match found {
        Some(code) => Taken::Refused { code },
        None => Taken::Stays,
    }
}

/// The node is closed unless there is one.
pub(crate) fn closes(found: Option<AuditCode>) -> Taken
    ensures { result ≡ found_closes found }
{
    match found {
        Some(code) => Taken::Refused { code },
        None => Taken::Closes,
    }
}

// Takes a split into apart and joined.
pub(crate) fn part(instance: &Instance, state: &mut EdgeState, dim: u32, u: u32, v: u32) -> Taken
    requires dims { state.old.dims ≡ dims instance.now }
    requires count { state.old.boxes ≡ box_count instance.now }
    requires accepted { None ≡ token_refusal instance.now state.old.trail (PlainApart dim u v) }
    ensures taken { IsTaken instance.now (at_rest state.old.trail) (at_rest state.new.trail)
        (PlainPlain (PlainApart dim u v)) result }
    ensures state { state.new ≡ record state.old { trail = state.new.trail } }
    ensures grows { Grows state.old.trail state.new.trail }
{
    // For the proof alone: states the limits of the instance.
    let _dims = instance.dims();
    let mark = state.mark();
    let first = exclusion_at(dim, u, v, Rel::Before);
    let other = exclusion_at(dim, u, v, Rel::After);
    let overlap = exclusion_at(dim, u, v, Rel::Overlap);
    state.exclude(overlap.dim, overlap.u, overlap.v, overlap.rel);
    Taken::Splits {
        second: Waiting {
            mark,
            first,
            second: Some(other),
        },
    }
}

/// A split into apart and joined.
pub(crate) fn part_line(
    instance: &Instance,
    state: &mut EdgeState,
    dim: u32,
    u: u32,
    v: u32,
) -> Taken
    requires dims { state.old.dims ≡ dims instance.now }
    requires count { state.old.boxes ≡ box_count instance.now }
    ensures taken { IsTaken instance.now (at_rest state.old.trail) (at_rest state.new.trail)
        (PlainPlain (PlainApart dim u v)) result }
    ensures state { state.new ≡ record state.old { trail = state.new.trail } }
    ensures grows { Grows state.old.trail state.new.trail }
{
    match apart_refusal(instance, state, dim, u, v) {
        Some(code) => Taken::Refused { code },
        None => part(instance, state, dim, u, v),
    }
}

/// A split into two orders.
pub(crate) fn ordered_line(
    instance: &Instance,
    state: &mut EdgeState,
    dim: u32,
    u: u32,
    v: u32,
) -> Taken
    requires dims { state.old.dims ≡ dims instance.now }
    requires count { state.old.boxes ≡ box_count instance.now }
    ensures taken { IsTaken instance.now (at_rest state.old.trail) (at_rest state.new.trail)
        (PlainPlain (PlainOrder dim u v)) result }
    ensures state { state.new ≡ record state.old { trail = state.new.trail } }
    ensures grows { Grows state.old.trail state.new.trail }
{
    if let Some(code) = order_refusal(instance, state, dim, u, v) {
        return Taken::Refused { code };
    }
    let second = Waiting {
        mark: state.mark(),
        first: exclusion_at(dim, u, v, Rel::Before),
        second: None,
    };
    state.exclude(from_text(dim), from_text(u), from_text(v), Rel::After);
    Taken::Splits { second }
}

/// A token.
pub(crate) fn token_line(instance: &Instance, state: &mut EdgeState, token: &Token) -> Taken
    requires dims { state.old.dims ≡ dims instance.now }
    requires count { state.old.boxes ≡ box_count instance.now }
    ensures taken { IsTaken instance.now (at_rest state.old.trail) (at_rest state.new.trail)
        (PlainPlain (plain_token token.now)) result }
    ensures state { state.new ≡ record state.old { trail = state.new.trail } }
    ensures grows { Grows state.old.trail state.new.trail }
{
    match token {
        Token::Apart { dim, u, v } => part_line(instance, state, *dim, *u, *v),
        Token::Order { dim, u, v } => ordered_line(instance, state, *dim, *u, *v),
        Token::TooLarge { box_no, dim } => closes(side_refusal(instance, *box_no, *dim)),
        Token::Scales(tuple) => closes(tuple_audit(instance, tuple.as_slice())),
        _ => Taken::Refused {
            code: AuditCode::Kind,
        },
    }
}

/// The first line of a chain.
pub(crate) fn begin_line(
    instance: &Instance,
    chain: &mut Chain,
    dim: u32,
    first: u32,
    second: u32,
) -> Taken
    requires { chain.old.begun ≡ None }
    ensures taken { (es : List PlainExclusion)
        → IsTaken instance.now (at_rest es) (node_of es chain.new)
        (PlainChain dim first second) result }
    ensures room { HasSameRoom chain.old chain.new }
{
    let named = names_dim(instance, dim) & names_box(instance, first) & names_box(instance, second);
    if !named {
        return Taken::Refused {
            code: AuditCode::Range,
        };
    }
    chain.begun = Some(Begun {
        dim: from_text(dim),
        first,
        second,
    });
    chain.before.clear();
    chain.after.clear();
    Taken::Stays
}

/// A line where no chain is begun.
pub(crate) fn rest_line(
    instance: &Instance,
    state: &mut EdgeState,
    chain: &mut Chain,
    step: &Step,
) -> Taken
    requires dims { state.old.dims ≡ dims instance.now }
    requires count { state.old.boxes ≡ box_count instance.now }
    requires none { chain.old.begun ≡ None }
    ensures taken { IsTaken instance.now (at_rest state.old.trail)
        (node_of state.new.trail chain.new)
        (plain_step step.now) result }
    ensures state { state.new ≡ record state.old { trail = state.new.trail } }
    ensures grows { Grows state.old.trail state.new.trail }
    ensures room { HasSameRoom chain.old chain.new }
{
    match step {
        Step::Pair { dim, u, v } => stays(pair_line(instance, state, *dim, *u, *v)),
        Step::Apart { dim, u, v } => stays(apart_line(instance, state, *dim, *u, *v)),
        Step::Triple { dim, u, v, x } => stays(triple_line(instance, state, *dim, *u, *v, *x)),
        Step::Compose { dim, u, v, x } => stays(compose_line(instance, state, *dim, *u, *v, *x)),
        Step::Cycle { dim, a, b, c, d } => stays(cycle_line(instance, state, *dim, *a, *b, *c, *d)),
        Step::Order { dim, a, b, c, d } => stays(order_line(instance, state, *dim, *a, *b, *c, *d)),
        Step::Chain { dim, first, second } => begin_line(instance, chain, *dim, *first, *second),
        Step::On { box_no: _ } => Taken::Refused {
            code: AuditCode::Kind,
        },
        Step::Clash { dim, u, v } => closes(clash_refusal(instance, state, *dim, *u, *v)),
        Step::Plain(token) => token_line(instance, state, token),
    }
}

/// A line where a chain is begun.
pub(crate) fn begun_line(
    instance: &Instance,
    state: &mut EdgeState,
    chain: &mut Chain,
    begun: Begun,
    step: &Step,
) -> Taken
    requires dims { state.old.dims ≡ dims instance.now }
    requires count { state.old.boxes ≡ box_count instance.now }
    requires grown { IsGrown instance.now state.old.trail
        (chain_at begun chain.old.before.items chain.old.after.items) }
    requires begun { chain.old.begun ≡ Some begun }
    requires before_room { box_count instance.now ≤ vec_capacity chain.old.before }
    requires after_room { box_count instance.now ≤ vec_capacity chain.old.after }
    ensures taken { IsTaken instance.now (node_of state.old.trail chain.old)
        (node_of state.new.trail chain.new)
        (plain_step step.now) result }
    ensures state { state.new ≡ record state.old { trail = state.new.trail } }
    ensures grows { Grows state.old.trail state.new.trail }
    ensures room { HasSameRoom chain.old chain.new }
{
    match step {
        Step::On { box_no } => stays(box_line(instance, state, chain, begun, *box_no)),
        _ => Taken::Refused {
            code: AuditCode::Kind,
        },
    }
}

/// A line at the next open node.
pub(crate) fn take_line(
    instance: &Instance,
    state: &mut EdgeState,
    chain: &mut Chain,
    step: &Step,
) -> Taken
    requires dims { state.old.dims ≡ dims instance.now }
    requires count { state.old.boxes ≡ box_count instance.now }
    requires sound { IsSoundAt instance.now state.old.trail
        (chain_seen chain.old.begun chain.old.before.items chain.old.after.items) }
    requires before_room { box_count instance.now ≤ vec_capacity chain.old.before }
    requires after_room { box_count instance.now ≤ vec_capacity chain.old.after }
    ensures taken { IsTaken instance.now (node_of state.old.trail chain.old)
        (node_of state.new.trail chain.new)
        (plain_step step.now) result }
    ensures state { state.new ≡ record state.old { trail = state.new.trail } }
    ensures grows { Grows state.old.trail state.new.trail }
    ensures room { HasSameRoom chain.old chain.new }
{
    match chain.begun {
        Some(begun) => begun_line(instance, state, chain, begun, step),
        None => rest_line(instance, state, chain, step),
    }
}
