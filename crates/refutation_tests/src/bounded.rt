//! Choice trees with priced leaves and exchanges.
use crate::verdicts::is_wanted;
use bounded_tokens::BoundedToken;
use box_instances::{BoxItem, Instance, Sides};
use conservative_scales::{ScaleFn, ScaleTuple};
use outer_check::{Goal, OuterRefuter};
use proof_tree::Token;
use refutation_check::{FeedVerdict, RefuseCode};
use std::alloc::Global;
use std::test::Fail;

// A token by a short name: a box that is chosen, a set, a leaf of a value, one that is priced out
// with its two weights and its scale functions, or an exchange for the box that is in.
#[derive(Clone, Copy)]
enum Step {
    Choose(u32),
    Set,
    Short,
    Priced(u32, u32, &'static [ScaleFn]),
    Exchange(u32, u32),
}

use Step::{Choose, Exchange, Priced, Set, Short};

fn token_of(alloc: Global, step: Step) -> Result<BoundedToken, Fail> {
    Ok(match step {
        Choose(box_no) => BoundedToken::Plain(Token::Choose { box_no }),
        Set => BoundedToken::Plain(Token::SetRefuted { bin: None }),
        Short => BoundedToken::Plain(Token::ValueShort),
        Priced(value_weight, share_weight, functions) => BoundedToken::PricedOut {
            value_weight,
            share_weight,
            tuple: ScaleTuple::from_slice(alloc, functions)?,
        },
        Exchange(left_no, taken_no) => BoundedToken::Exchange { left_no, taken_no },
    })
}

// Four squares of 6 with a value of 5, of which a square of 10 holds one.
fn squares(alloc: Global) -> Result<Instance, Fail> {
    let mut items = Vec::new(alloc);
    for _ in 0..4 {
        items.push(BoxItem {
            sides: Sides::from_slice(alloc, &[6, 6])?,
            value: 5,
        })?;
    }
    Ok(Instance::new(Sides::from_slice(alloc, &[10, 10])?, items)?)
}

// By halves each square has the whole container as its share.
const HALVES: &[ScaleFn] = &[ScaleFn::Step(1), ScaleFn::Step(1)];

const AREAS: &[ScaleFn] = &[ScaleFn::Id, ScaleFn::Id];

const ILLEGAL: &[ScaleFn] = &[ScaleFn::Step(17), ScaleFn::Id];

const ALONE: &[ScaleFn] = &[ScaleFn::Id];

// The goal, the tokens, how many are taken with more to come, and the code of the refusal of the
// one behind them, or none where it makes the tree whole.
type Case = (u64, &'static [Step], u32, Option<RefuseCode>);

const CASES: [Case; 17] = [
    (6, &[Priced(1000000000, 5, HALVES)], 0, None),
    (
        5,
        &[Priced(1000000000, 5, HALVES)],
        0,
        Some(RefuseCode::Excess),
    ),
    (
        6,
        &[Priced(5, 1000000000, HALVES)],
        0,
        Some(RefuseCode::Excess),
    ),
    (
        13,
        &[Priced(360000000, 5, AREAS)],
        0,
        Some(RefuseCode::Excess),
    ),
    (14, &[Priced(360000000, 5, AREAS)], 0, None),
    (
        6,
        &[Priced(1000000000, 5, ILLEGAL)],
        0,
        Some(RefuseCode::Range),
    ),
    (
        6,
        &[Priced(1000000000, 5, ALONE)],
        0,
        Some(RefuseCode::Kind),
    ),
    (
        6,
        &[Choose(1), Set, Priced(1000000000, 5, HALVES)],
        2,
        Some(RefuseCode::Kind),
    ),
    (
        6,
        &[
            Choose(1),
            Priced(1000000000, 5, HALVES),
            Priced(1000000000, 5, HALVES),
        ],
        2,
        None,
    ),
    (
        6,
        &[Choose(1), Choose(2), Priced(0, 1, HALVES), Short],
        3,
        Some(RefuseCode::Value),
    ),
    (21, &[Short], 0, None),
    (
        6,
        &[
            Choose(1),
            Priced(1000000000, 5, HALVES),
            Choose(2),
            Exchange(1, 2),
            Choose(3),
            Exchange(1, 3),
            Choose(4),
            Exchange(1, 4),
            Short,
        ],
        8,
        None,
    ),
    (
        6,
        &[
            Choose(2),
            Priced(1000000000, 5, HALVES),
            Choose(1),
            Exchange(2, 1),
        ],
        3,
        Some(RefuseCode::Choice),
    ),
    (6, &[Choose(2), Exchange(1, 2)], 1, Some(RefuseCode::Choice)),
    (6, &[Exchange(1, 2)], 0, Some(RefuseCode::Choice)),
    (6, &[Choose(2), Exchange(0, 2)], 1, Some(RefuseCode::Range)),
    (
        6,
        &[Choose(1), Set, Exchange(1, 2)],
        2,
        Some(RefuseCode::Kind),
    ),
];

// How many of the tokens are taken with more to come, and what the one behind them is answered.
fn fed(
    alloc: Global,
    refuter: &mut OuterRefuter<'_>,
    steps: &[Step],
) -> Result<(u32, FeedVerdict), Fail> {
    let mut taken = 0u32;
    for step in steps {
        let token = token_of(alloc, *step)?;
        let verdict = refuter.feed_bounded(&token);
        if verdict != FeedVerdict::More {
            return Ok((taken, verdict));
        }
        taken = taken.saturating_add(1);
    }
    Ok((taken, FeedVerdict::More))
}

fn case_is_checked(alloc: Global, instance: &Instance, case: Case) -> Result<bool, Fail> {
    let (value, steps, taken, wanted) = case;
    let mut refuter = OuterRefuter::new(alloc, instance, Goal::Value(value))?;
    let (before, verdict) = fed(alloc, &mut refuter, steps)?;
    let is_answered = before == taken && is_wanted(verdict, wanted);
    Ok(is_answered && refuter.whole() == wanted.is_none())
}

fn cases_are_checked(alloc: Global, instance: &Instance) -> Result<bool, Fail> {
    for case in &CASES {
        if !case_is_checked(alloc, instance, *case)? {
            return Ok(false);
        }
    }
    Ok(true)
}

#[test]
fn further_leaves_are_accepted_or_refused(rt: HostRuntime) -> Result<(), Fail> {
    let instance = squares(rt.alloc())?;
    assert!(rt; cases_are_checked(rt.alloc(), &instance)?);
    Ok(())
}
