//! One token of a refutation at its node.
ghost use Rattle.std.specs.Prelude.{◌≡◌, ◌<◌, ◌∷◌, ℕ, List, length, drop, OnOk, slice_index_or};
ghost use Rattle.packing_terms.specs.Tokens.{PlainToken};
ghost use Rattle.packing_terms.specs.Tokens.PlainToken.{Apart as PlainApart, Order as PlainOrder, Rules as PlainRules};
ghost use Rattle.proof_tree.specs.Plain.{plain_token};
ghost use Rattle.refutation_steps.specs.Walks.{IsFor, IsAt, IsLeafWritten, Takes};

use crate::empties::empty_place;
use crate::settling::settle;
use crate::splits::{split_apart, split_order};
use crate::steps::write_line;
use crate::walk_state::Walk;
use box_instances::{Instance, NoMemory};
use edge_state::Mark;
use line_proofs::Step;
use proof_tree::{Token, copy_token};
use std::alloc::Global;

// A conflict: the steps to an empty mask, and its place.
fn take_rules(instance: &Instance, walk: &mut Walk, closed: Option<Mark>) -> Result<(), NoMemory>
    requires sizes { IsFor instance.now walk.old }
    requires at { (rest : List PlainToken) × IsAt instance.now walk.old closed (PlainRules ∷ rest) }
    ensures { OnOk result (Takes instance.now walk.old walk.new closed PlainRules) }
{
    settle(instance, walk, closed)?;
    let Some(place) = empty_place(&walk.state) else {
        unreachable!();
    };
    // For the proof alone: states the limits of the state.
    let _sizes = walk.state.dims();
    let clash = Step::Clash {
        dim: place.dim + 1,
        u: place.u + 1,
        v: place.v + 1,
    };
    write_line(&mut walk.lines, clash)
}

// A split into apart and joined: steps to what follows, and the line.
fn take_apart(
    instance: &Instance,
    walk: &mut Walk,
    closed: Option<Mark>,
    dim: u32,
    u: u32,
    v: u32,
) -> Result<(), NoMemory>
    requires sizes { IsFor instance.now walk.old }
    requires at { (rest : List PlainToken)
        × IsAt instance.now walk.old closed (PlainApart dim u v ∷ rest) }
    ensures { OnOk result (Takes instance.now walk.old walk.new closed (PlainApart dim u v)) }
{
    let Some(mark) = settle(instance, walk, closed)? else {
        unreachable!();
    };
    split_apart(walk, mark, dim, u, v)
}

// A split of an ordered pair: steps to what follows, and the line.
fn take_order(
    instance: &Instance,
    walk: &mut Walk,
    closed: Option<Mark>,
    dim: u32,
    u: u32,
    v: u32,
) -> Result<(), NoMemory>
    requires sizes { IsFor instance.now walk.old }
    requires at { (rest : List PlainToken)
        × IsAt instance.now walk.old closed (PlainOrder dim u v ∷ rest) }
    ensures { OnOk result (Takes instance.now walk.old walk.new closed (PlainOrder dim u v)) }
{
    let Some(mark) = settle(instance, walk, closed)? else {
        unreachable!();
    };
    split_order(walk, mark, dim, u, v)
}

// Another leaf: the line alone.
fn take_leaf(alloc: Global, walk: &mut Walk, token: &Token) -> Result<(), NoMemory>
    ensures { OnOk result (IsLeafWritten walk.old walk.new (plain_token token.now)) }
{
    let copy = copy_token(alloc, token)?;
    write_line(&mut walk.lines, Step::Plain(copy))
}

/// The lines of a token at its node: the steps to what follows there, and the line of the token.
pub(crate) fn take_token(
    alloc: Global,
    instance: &Instance,
    walk: &mut Walk,
    closed: Option<Mark>,
    token: &Token,
) -> Result<(), NoMemory>
    requires sizes { IsFor instance.now walk.old }
    requires at { (rest : List PlainToken)
        × IsAt instance.now walk.old closed (plain_token token.now ∷ rest) }
    ensures { OnOk result (Takes instance.now walk.old walk.new closed (plain_token token.now)) }
{
    match token {
        Token::Rules => take_rules(instance, walk, closed),
        Token::Apart { dim, u, v } => take_apart(instance, walk, closed, *dim, *u, *v),
        Token::Order { dim, u, v } => take_order(instance, walk, closed, *dim, *u, *v),
        Token::TooLarge { .. } => take_leaf(alloc, walk, token),
        Token::Scales(_) => take_leaf(alloc, walk, token),
        Token::Assign { .. } => unreachable!(),
        Token::Choose { .. } => unreachable!(),
        Token::SetRefuted { .. } => unreachable!(),
        Token::ValueShort => unreachable!(),
        Token::GlobalScales(_) => unreachable!(),
    }
}
