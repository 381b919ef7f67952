//! Trees with families, token by token.
use crate::verdicts::is_wanted;
use bounded_tokens::{FamilyToken, JoiningBoxes, Token};
use box_instances::{BoxItem, Instance, Sides};
use outer_check::{FamilyRefuter, FeedVerdict, RefuseCode};
use std::alloc::Global;
use std::test::Fail;

// A token by a short name: boxes of a family with its dimension, a conflict, or a split.
#[derive(Clone, Copy)]
enum Step {
    Join(u32, &'static [u32]),
    Conflict,
    Apart(u32, u32, u32),
    Order(u32, u32, u32),
}

use Step::{Apart, Conflict, Join, Order};

fn boxes_of(numbers: &[u32]) -> Result<JoiningBoxes, Fail> {
    let mut boxes = JoiningBoxes::new();
    boxes.try_extend_from_slice(numbers)?;
    Ok(boxes)
}

fn token_of(step: Step) -> Result<FamilyToken, Fail> {
    Ok(match step {
        Join(dim, numbers) => FamilyToken::Family {
            dim,
            boxes: boxes_of(numbers)?,
        },
        Conflict => FamilyToken::Plain(Token::Rules),
        Apart(dim, u, v) => FamilyToken::Plain(Token::Apart { dim, u, v }),
        Order(dim, u, v) => FamilyToken::Plain(Token::Order { dim, u, v }),
    })
}

// Four boxes 6 2 and one 3 1, in a strip of width 10. Every two of the first four are too wide to
// stand beside one another.
fn strip(alloc: Global, height: u32) -> Result<Instance, Fail> {
    let mut items = Vec::new(alloc);
    for _ in 0..4 {
        items.push(BoxItem {
            sides: Sides::from_slice(alloc, &[6, 2])?,
            value: 1,
        })?;
    }
    items.push(BoxItem {
        sides: Sides::from_slice(alloc, &[3, 1])?,
        value: 1,
    })?;
    Ok(Instance::new(Sides::from_slice(alloc, &[10, height])?, items)?)
}

// The height, the tokens, how many are taken with more to come, and the code of the refusal of the
// one behind them, or none where it makes the tree whole.
type Case = (u32, &'static [Step], u32, Option<RefuseCode>);

const CASES: [Case; 16] = [
    (7, &[Join(2, &[1, 2, 3, 4])], 0, None),
    (7, &[Join(2, &[4, 2]), Join(2, &[1, 3])], 1, None),
    (
        7,
        &[Join(2, &[1]), Join(2, &[2]), Join(2, &[3]), Join(2, &[4])],
        3,
        None,
    ),
    // A split first; the family closes both children.
    (
        7,
        &[
            Order(2, 1, 2),
            Join(2, &[1, 2, 3, 4]),
            Join(2, &[1, 2]),
            Join(2, &[3, 4]),
        ],
        3,
        None,
    ),
    (7, &[Join(2, &[1, 2, 3, 4]), Join(2, &[1])], 0, None),
    // A height of 8 holds them.
    (
        8,
        &[Join(2, &[1, 2, 3, 4]), Conflict],
        1,
        Some(RefuseCode::Kind),
    ),
    (
        7,
        &[Join(2, &[1, 2]), Join(1, &[3])],
        1,
        Some(RefuseCode::Kind),
    ),
    (
        7,
        &[Join(2, &[1, 2]), Apart(2, 1, 5)],
        1,
        Some(RefuseCode::Kind),
    ),
    (7, &[Join(3, &[1])], 0, Some(RefuseCode::Range)),
    (7, &[Join(0, &[1])], 0, Some(RefuseCode::Range)),
    (7, &[Join(2, &[1, 6])], 0, Some(RefuseCode::Range)),
    (7, &[Join(2, &[0])], 0, Some(RefuseCode::Range)),
    (7, &[Join(2, &[1, 2, 1])], 0, Some(RefuseCode::Choice)),
    (
        7,
        &[Join(2, &[1, 2]), Join(2, &[2])],
        1,
        Some(RefuseCode::Choice),
    ),
    // The fifth box may stand beside another one.
    (7, &[Join(2, &[1, 5])], 0, Some(RefuseCode::Choice)),
    // Three of them are too high by the rules: the closure has a conflict.
    (5, &[Join(2, &[1, 2, 3])], 0, Some(RefuseCode::Choice)),
];

// How many of the tokens are taken with more to come, and what the one behind them is answered.
fn fed(refuter: &mut FamilyRefuter<'_>, steps: &[Step]) -> Result<(u32, FeedVerdict), Fail> {
    let mut taken = 0u32;
    for step in steps {
        let token = token_of(*step)?;
        let verdict = refuter.feed(&token);
        if verdict != FeedVerdict::More {
            return Ok((taken, verdict));
        }
        taken = taken.saturating_add(1);
    }
    Ok((taken, FeedVerdict::More))
}

fn case_is_checked(alloc: Global, case: Case) -> Result<bool, Fail> {
    let (height, steps, taken, wanted) = case;
    let instance = strip(alloc, height)?;
    let mut refuter = FamilyRefuter::new(alloc, &instance)?;
    let (before, verdict) = fed(&mut refuter, steps)?;
    let is_answered = before == taken && is_wanted(verdict, wanted);
    Ok(is_answered && refuter.whole() == wanted.is_none())
}

fn cases_are_checked(alloc: Global) -> Result<bool, Fail> {
    for case in &CASES {
        if !case_is_checked(alloc, *case)? {
            return Ok(false);
        }
    }
    Ok(true)
}

#[test]
fn families_are_accepted_or_refused(rt: HostRuntime) -> Result<(), Fail> {
    assert!(rt; cases_are_checked(rt.alloc())?);
    Ok(())
}

fn answers_of_a_whole_tree(alloc: Global) -> Result<(FeedVerdict, FeedVerdict), Fail> {
    let instance = strip(alloc, 7)?;
    let mut refuter = FamilyRefuter::new(alloc, &instance)?;
    let (_, whole) = fed(&mut refuter, &[Join(2, &[1, 2, 3, 4])])?;
    let (_, behind) = fed(&mut refuter, &[Join(2, &[1])])?;
    Ok((whole, behind))
}

#[test]
fn a_whole_tree_takes_no_family(rt: HostRuntime) -> Result<(), Fail> {
    let (whole, behind) = answers_of_a_whole_tree(rt.alloc())?;
    assert!(rt; whole == FeedVerdict::Done);
    assert!(rt;
        behind
            == FeedVerdict::Refused {
                code: RefuseCode::After
            }
    );
    Ok(())
}
