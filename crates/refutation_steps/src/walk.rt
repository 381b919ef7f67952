//! An explained refutation, written from a refutation.
ghost use Rattle.std.specs.Prelude.{◌≡◌, ◌∷◌, [], List, OnOk, IfOk};
ghost use Rattle.packing_terms.specs.Tokens.{PlainToken};
ghost use Rattle.packing_terms.specs.Refutation.{Refutes};
ghost use Rattle.verdict_terms.specs.Steps.{tokens_among};
ghost use Rattle.verdict_terms.specs.Explaining.{Explains};
ghost use Rattle.proof_tree.specs.Plain.{plain_tokens};
ghost use Rattle.refutation_steps.specs.Walks.{IsFor, IsBetween, IsAt};

use crate::chain_steps::chain_room;
use crate::pending::{Pending, enter, push_pending};
use crate::shortening::short_explanation;
use crate::taking::take_token;
use crate::walk_state::Walk;
use box_instances::{Instance, NoMemory};
use edge_state::{EdgeState, Mark};
use line_proofs::StepList;
use proof_tree::Token;
use rule_closure::Closer;
use std::alloc::Global;

// A walk before its first node.
fn begin(alloc: Global, instance: &Instance) -> Result<Walk, NoMemory>
    ensures sizes { IfOk result (λ walk. IsFor instance.now walk) }
    ensures lines { IfOk result (λ walk. walk.lines ≡ []) }
    ensures between { IfOk result (λ walk. (tokens : List PlainToken)
        → Refutes instance.now [] tokens → IsBetween instance.now walk tokens) }
{
    let dims = instance.dims();
    let count = instance.len();
    let state = EdgeState::new(alloc, dims, count)?;
    let given = EdgeState::new(alloc, dims, count)?;
    let closer = Closer::in_order(alloc, dims, count)?;
    let room = chain_room(alloc, count)?;
    let mut pending = Vec::new(alloc);
    let root = Pending {
        given: Mark::first(),
        held: Mark::first(),
        closed: None,
        first: None,
        second: None,
    };
    push_pending(&mut pending, root)?;
    Ok(Walk {
        state,
        given,
        closer,
        room,
        pending,
        lines: StepList::new(alloc),
    })
}

// Goes to the next node. Answers up to which position what is given is closed there.
fn enter_next(instance: &Instance, walk: &mut Walk) -> Option<Mark>
    requires sizes { IsFor instance.now walk.old }
    requires between { (token : PlainToken) × (rest : List PlainToken)
        × IsBetween instance.now walk.old (token ∷ rest) }
    ensures sizes { IsFor instance.now walk.new }
    ensures lines { walk.new.lines ≡ walk.old.lines }
    ensures at { (token : PlainToken) (rest : List PlainToken)
        → IsBetween instance.now walk.old (token ∷ rest)
        → IsAt instance.now walk.new result (token ∷ rest) }
{
    let Some(node) = walk.pending.pop() else {
        unreachable!();
    };
    let Pending {
        given,
        held,
        closed,
        first,
        second,
    } = node;
    enter(&mut walk.state, held, first, second);
    enter(&mut walk.given, given, first, second);
    closed
}

// Every step to all that each closing adds: an explanation for every refutation.
fn explain_whole(alloc: Global, instance: &Instance, tokens: &[Token]) -> Result<StepList, NoMemory>
    requires { Refutes instance.now [] (plain_tokens tokens.now) }
    ensures explains { IfOk result (λ lines.
        Explains instance.now [] lines) }
    ensures tokens { IfOk result (λ lines.
        tokens_among lines ≡ plain_tokens tokens.now) }
{
    let mut walk = begin(alloc, instance)?;
    for token in tokens {
        let closed = enter_next(instance, &mut walk);
        take_token(alloc, instance, &mut walk, closed, token)?;
    }
    Ok(walk.lines)
}

/// An explained refutation of the instance: lines in which the tokens stand among steps, so that
/// each conflict and each split is reached step by step. Without the steps, and with each conflict
/// read without its place, the lines are the tokens.
///
/// The tokens are an inner refutation of the instance. Each node's own exclusions are closed, and
/// of what the closing adds only what a conflict or a split needs is explained, traced back from
/// there. Were that not accepted by an auditor, all of it would be, the oldest first.
pub fn explain(alloc: Global, instance: &Instance, tokens: &[Token]) -> Result<StepList, NoMemory>
    requires { Refutes instance.now [] (plain_tokens tokens.now) }
    ensures explains { IfOk result (λ lines.
        Explains instance.now [] lines) }
    ensures tokens { IfOk result (λ lines.
        tokens_among lines ≡ plain_tokens tokens.now) }
{
    match short_explanation(alloc, instance, tokens)? {
        Some(lines) => Ok(lines),
        None => explain_whole(alloc, instance, tokens),
    }
}
