//! Refutations for bins and for values.
ghost use Rattle.std.specs.Prelude.{◌≡◌};

use crate::verdicts::is_wanted;
use box_instances::{BoxItem, Instance, NoMemory, Sides};
use conservative_scales::{ScaleFn, ScaleTuple};
use outer_check::{Goal, OuterRefuter};
use proof_tree::Token;
use refutation_check::{FeedVerdict, RefuseCode};
use std::alloc::Global;
use std::test::Fail;

// A token of an outer tree by a short name: a box that is assigned or chosen, a set, a leaf.
#[derive(Clone, Copy)]
enum Step {
    Assign(u32),
    Choose(u32),
    Bin(u32),
    Set,
    Short,
    Rules,
    Whole(u32),
}

use Step::{Assign, Bin, Choose, Rules, Set, Short, Whole};

fn token_of(alloc: Global, step: Step) -> Result<Token, Fail> {
    Ok(match step {
        Assign(box_no) => Token::Assign { box_no },
        Choose(box_no) => Token::Choose { box_no },
        Bin(bin) => Token::SetRefuted { bin: Some(bin) },
        Set => Token::SetRefuted { bin: None },
        Short => Token::ValueShort,
        Rules => Token::Rules,
        Whole(dims) => {
            let mut tuple = ScaleTuple::new(alloc);
            for _ in 0..dims {
                tuple.push(ScaleFn::Id)?;
            }
            Token::GlobalScales(tuple)
        }
    })
}

// Squares with these sides and values in a square of 10.
fn squares(alloc: Global, boxes: &[(u32, u64)]) -> Result<Instance, Fail> {
    let mut items = Vec::new(alloc);
    for (side, value) in boxes {
        items.push(BoxItem {
            sides: Sides::from_slice(alloc, [*side, *side].as_slice())?,
            value: *value,
        })?;
    }
    Ok(Instance::new(Sides::from_slice(alloc, &[10, 10])?, items)?)
}

// How many of the tokens are taken with more to come, and what the one behind them is answered.
fn fed(
    alloc: Global,
    refuter: &mut OuterRefuter<'_>,
    steps: &[Step],
) -> Result<(u32, FeedVerdict), Fail> {
    let mut taken = 0u32;
    for step in steps {
        let token = token_of(alloc, *step)?;
        let verdict = refuter.feed(&token);
        if verdict != FeedVerdict::More {
            return Ok((taken, verdict));
        }
        taken = taken.saturating_add(1);
    }
    Ok((taken, FeedVerdict::More))
}

// What is wanted: that the tree is whole, or the code of a refusal.
type Wanted = Option<RefuseCode>;

const DONE: Wanted = None;

// For values: what is to be refuted of squares of 6, 6 and 4 with the values 5, 4 and 3, the
// tokens, how many are taken with more to come, and the answer behind them.
const VALUES: [(u64, &[Step], u32, Wanted); 12] = [
    (
        9,
        &[Choose(1), Choose(2), Set, Rules, Short, Short],
        5,
        DONE,
    ),
    (13, &[Short], 0, DONE),
    (12, &[Short], 0, Some(RefuseCode::Value)),
    (9, &[Set], 0, Some(RefuseCode::Set)),
    (9, &[Choose(1), Choose(1)], 1, Some(RefuseCode::Choice)),
    (9, &[Choose(4)], 0, Some(RefuseCode::Range)),
    (9, &[Choose(0)], 0, Some(RefuseCode::Range)),
    (9, &[Assign(1)], 0, Some(RefuseCode::Kind)),
    (9, &[Bin(1)], 0, Some(RefuseCode::Kind)),
    (9, &[Choose(1), Set, Rules], 2, Some(RefuseCode::Conflict)),
    (
        9,
        &[Choose(1), Choose(2), Set, Short],
        3,
        Some(RefuseCode::Kind),
    ),
    (13, &[Choose(3), Short, Short], 2, DONE),
];

fn value_is_checked(
    alloc: Global,
    instance: &Instance,
    case: (u64, &[Step], u32, Wanted),
) -> Result<bool, Fail> {
    let (value, steps, taken, wanted) = case;
    let mut refuter = OuterRefuter::new(alloc, instance, Goal::Value(value))?;
    let (before, verdict) = fed(alloc, &mut refuter, steps)?;
    let is_answered = before == taken && is_wanted(verdict, wanted);
    Ok(is_answered && refuter.whole() == wanted.is_none())
}

fn values_are_checked(alloc: Global, instance: &Instance) -> Result<bool, Fail> {
    for case in &VALUES {
        if !value_is_checked(alloc, instance, *case)? {
            return Ok(false);
        }
    }
    Ok(true)
}

#[test]
fn values_are_refuted_or_not(rt: HostRuntime) -> Result<(), Fail> {
    let instance = squares(rt.alloc(), &[(6, 5), (6, 4), (4, 3)])?;
    assert!(rt; values_are_checked(rt.alloc(), &instance)?);
    Ok(())
}

// For bins: how many, of squares of 6, the tokens, how many are taken with more to come, and the
// answer behind them.
const BINS: [(u32, &[Step], u32, Wanted); 14] = [
    (
        2,
        &[
            Assign(1),
            Assign(2),
            Bin(1),
            Rules,
            Assign(3),
            Bin(1),
            Rules,
            Bin(2),
            Rules,
        ],
        8,
        DONE,
    ),
    (
        2,
        &[
            Assign(3),
            Assign(1),
            Bin(1),
            Rules,
            Assign(2),
            Bin(1),
            Rules,
            Bin(2),
            Rules,
        ],
        8,
        DONE,
    ),
    (1, &[Whole(2)], 0, DONE),
    (2, &[Whole(2)], 0, Some(RefuseCode::Excess)),
    (1, &[Whole(3)], 0, Some(RefuseCode::Kind)),
    (0, &[Assign(2)], 0, DONE),
    (2, &[Bin(1)], 0, Some(RefuseCode::Set)),
    (2, &[Assign(1), Bin(0)], 1, Some(RefuseCode::Set)),
    (2, &[Assign(1), Bin(2)], 1, Some(RefuseCode::Set)),
    (2, &[Assign(4)], 0, Some(RefuseCode::Range)),
    (2, &[Assign(1), Assign(1)], 1, Some(RefuseCode::Choice)),
    (2, &[Choose(1)], 0, Some(RefuseCode::Kind)),
    (2, &[Assign(1), Set], 1, Some(RefuseCode::Kind)),
    (
        2,
        &[Assign(1), Bin(1), Rules],
        2,
        Some(RefuseCode::Conflict),
    ),
];

fn bin_case_is_checked(
    alloc: Global,
    instance: &Instance,
    case: (u32, &[Step], u32, Wanted),
) -> Result<bool, Fail> {
    let (bins, steps, taken, wanted) = case;
    if bins > 128 || !instance.sides_fit() {
        return Ok(false);
    }
    let mut refuter = OuterRefuter::new(alloc, instance, Goal::Bins(bins))?;
    let (before, verdict) = fed(alloc, &mut refuter, steps)?;
    let is_answered = before == taken && is_wanted(verdict, wanted);
    Ok(is_answered && refuter.whole() == wanted.is_none())
}

fn bins_are_checked(alloc: Global, instance: &Instance) -> Result<bool, Fail> {
    for case in &BINS {
        if !bin_case_is_checked(alloc, instance, *case)? {
            return Ok(false);
        }
    }
    Ok(true)
}

#[test]
fn bins_are_refuted_or_not(rt: HostRuntime) -> Result<(), Fail> {
    let instance = squares(rt.alloc(), &[(6, 1), (6, 1), (6, 1)])?;
    assert!(rt; bins_are_checked(rt.alloc(), &instance)?);
    Ok(())
}

const AFTER: FeedVerdict = FeedVerdict::Refused {
    code: RefuseCode::After,
};

// Whether a leaf that makes the tree whole is taken, and whatever comes behind it is refused, for
// good.
fn ends_at_its_leaf(alloc: Global, instance: &Instance) -> Result<bool, NoMemory> {
    let mut refuter = OuterRefuter::new(alloc, instance, Goal::Value(10))?;
    let is_taken = refuter.feed(&Token::ValueShort) == FeedVerdict::Done && refuter.whole();
    let is_after = refuter.feed(&Token::ValueShort) == AFTER && !refuter.whole();
    Ok(is_taken && is_after && refuter.feed(&Token::Rules) == AFTER)
}

#[test]
fn a_whole_tree_takes_no_token_and_a_refusal_stays(rt: HostRuntime) -> Result<(), Fail> {
    let instance = squares(rt.alloc(), &[(6, 5), (6, 4)])?;
    assert!(rt; ends_at_its_leaf(rt.alloc(), &instance)?);
    Ok(())
}
