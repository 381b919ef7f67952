//! Why a token is refused.
ghost use Rattle.std.specs.Prelude.{◌≡◌};

use crate::instances::instance_of;
use FeedVerdict::{Done, More};
use ScaleFn::{Cut, Id, Step};
use box_instances::{Instance, NoMemory};
use conservative_scales::{ScaleFn, ScaleTuple};
use edge_state::{Exclusion, Rel};
use proof_tree::Token;
use refutation_check::{FeedVerdict, RefuseCode, Refuter};
use std::alloc::Global;
use std::test::Fail;

const KIND: FeedVerdict = FeedVerdict::Refused {
    code: RefuseCode::Kind,
};

const RANGE: FeedVerdict = FeedVerdict::Refused {
    code: RefuseCode::Range,
};

const CHOICE: FeedVerdict = FeedVerdict::Refused {
    code: RefuseCode::Choice,
};

const CONFLICT: FeedVerdict = FeedVerdict::Refused {
    code: RefuseCode::Conflict,
};

const EXCESS: FeedVerdict = FeedVerdict::Refused {
    code: RefuseCode::Excess,
};

const SIDE: FeedVerdict = FeedVerdict::Refused {
    code: RefuseCode::Side,
};

// A token of an inner tree, or of an outer one, by a short form.
#[derive(Clone, Copy)]
enum Brief {
    Apart(u32, u32, u32),
    Order(u32, u32, u32),
    Rules,
    TooLarge(u32, u32),
    Scales(&'static [ScaleFn]),
    Assign,
    Choose,
    Bin,
    Set,
    Short,
    Outer,
}

use Brief::{Apart, Assign, Bin, Choose, Order, Outer, Rules, Scales, Set, Short, TooLarge};

fn token_of(alloc: Global, brief: Brief) -> Result<Token, Fail> {
    Ok(match brief {
        Apart(dim, u, v) => Token::Apart { dim, u, v },
        Order(dim, u, v) => Token::Order { dim, u, v },
        Rules => Token::Rules,
        TooLarge(box_no, dim) => Token::TooLarge { box_no, dim },
        Scales(functions) => Token::Scales(ScaleTuple::from_slice(alloc, functions)?),
        Assign => Token::Assign { box_no: 1 },
        Choose => Token::Choose { box_no: 1 },
        Bin => Token::SetRefuted { bin: Some(1) },
        Set => Token::SetRefuted { bin: None },
        Short => Token::ValueShort,
        Outer => Token::GlobalScales(ScaleTuple::new(alloc)),
    })
}

// Boxes with how often each stands, and what the first token of their tree is answered.
type Case = (
    u32,
    &'static [(&'static [u32], u32)],
    &'static [(Brief, FeedVerdict)],
);

// Two boxes in a square of 10, of which one must lie above the other.
const TWO: &[(&[u32], u32)] = &[(&[6, 4], 1), (&[6, 6], 1)];

const CASES: [Case; 8] = [
    // Numbers out of range are refused first.
    (
        10,
        TWO,
        &[
            (Apart(0, 1, 2), RANGE),
            (Apart(3, 1, 2), RANGE),
            (Apart(1, 0, 2), RANGE),
            (Apart(1, 1, 3), RANGE),
            (Apart(1, 2, 1), RANGE),
            (Apart(1, 1, 1), RANGE),
            (Order(0, 1, 2), RANGE),
            (Order(3, 1, 2), RANGE),
            (Order(1, 0, 2), RANGE),
            (Order(1, 1, 3), RANGE),
            (Order(1, 2, 1), RANGE),
            (Order(1, 1, 1), RANGE),
            (TooLarge(0, 1), RANGE),
            (TooLarge(3, 1), RANGE),
            (TooLarge(1, 0), RANGE),
            (TooLarge(1, 3), RANGE),
        ],
    ),
    // Splits are those of the closed masks.
    (
        10,
        TWO,
        &[
            (Apart(1, 1, 2), CHOICE),
            (Apart(2, 1, 2), CHOICE),
            (Order(1, 1, 2), CHOICE),
            (Order(2, 1, 2), More),
            (Rules, CONFLICT),
        ],
    ),
    (
        10,
        &[(&[3, 3], 2)],
        &[(Order(1, 1, 2), CHOICE), (Apart(1, 1, 2), More)],
    ),
    // A split of a conflict is no choice.
    (
        10,
        &[(&[6, 6], 2), (&[1, 1], 2)],
        &[(Apart(1, 3, 4), CHOICE), (Rules, Done)],
    ),
    (
        10,
        &[(&[10, 11], 1)],
        &[(TooLarge(1, 1), SIDE), (TooLarge(1, 2), Done)],
    ),
    // Tuples are tested by count, then range, then excess.
    (
        9,
        &[(&[4, 4], 5)],
        &[
            (Scales(&[Step(2), Id]), Done),
            (Scales(&[Step(0)]), KIND),
            (Scales(&[Id, Id, Step(0)]), KIND),
            (Scales(&[Id, Step(0)]), RANGE),
            (Scales(&[Id, Step(17)]), RANGE),
            (Scales(&[Id, Cut(0)]), RANGE),
            (Scales(&[Id, Cut(5)]), RANGE),
            (Scales(&[Id, Id]), EXCESS),
        ],
    ),
    (
        9,
        &[(&[10, 4], 5)],
        &[
            (Scales(&[Id, Step(0)]), RANGE),
            (Scales(&[Step(2), Id]), EXCESS),
        ],
    ),
    // Tokens of outer trees are of another kind.
    (
        10,
        TWO,
        &[
            (Assign, KIND),
            (Choose, KIND),
            (Bin, KIND),
            (Set, KIND),
            (Short, KIND),
            (Outer, KIND),
        ],
    ),
];

// Whether the first token of a tree is answered so.
fn is_answered(
    alloc: Global,
    instance: &Instance,
    brief: Brief,
    answer: FeedVerdict,
) -> Result<bool, Fail> {
    let token = token_of(alloc, brief)?;
    let mut refuter = Refuter::new(alloc, instance)?;
    Ok(refuter.feed(&token) == answer)
}

// Whether each of these first tokens is answered so.
fn are_answered(
    alloc: Global,
    instance: &Instance,
    tokens: &[(Brief, FeedVerdict)],
) -> Result<bool, Fail> {
    for (brief, answer) in tokens {
        if !is_answered(alloc, instance, *brief, *answer)? {
            return Ok(false);
        }
    }
    Ok(true)
}

fn case_is_answered(alloc: Global, case: &Case) -> Result<bool, Fail> {
    let (side, boxes, tokens) = *case;
    are_answered(alloc, &instance_of(alloc, &[side, side], boxes)?, tokens)
}

#[test]
fn each_refusal_has_its_cause(rt: HostRuntime) -> Result<(), Fail> {
    for case in &CASES {
        assert!(rt; case_is_answered(rt.alloc(), case)?);
    }
    Ok(())
}

// An order of the first two boxes in the second dimension.
fn ordered(rel: Rel) -> Exclusion
    ensures { result ≡ record { dim = 1; u = 0; v = 1; rel = rel } }
{
    Exclusion {
        dim: 1,
        u: 0,
        v: 1,
        rel,
    }
}

// The answer to a token where `count` of the two orders of the boxes are excluded from the
// start.
fn under(
    alloc: Global,
    instance: &Instance,
    count: usize,
    token: &Token,
) -> Result<Option<FeedVerdict>, NoMemory> {
    if instance.dims() != 2 || instance.len() != 2 || count > 2 {
        return Ok(None);
    }
    let (before, after) = (ordered(Rel::Before), ordered(Rel::After));
    let mut refuter = match count {
        0 => Refuter::starting(alloc, instance, &[])?,
        1 => Refuter::starting(alloc, instance, &[before])?,
        _ => Refuter::starting(alloc, instance, &[before, after])?,
    };
    Ok(Some(refuter.feed(token)))
}

// How many orders are excluded, whether the token is a leaf or else a split by order, and its
// answer.
const STARTS: [(usize, bool, FeedVerdict); 4] = [
    (0, false, More),
    (1, false, CHOICE),
    (1, true, CONFLICT),
    (2, true, Done),
];

// Whether each start has its answer.
fn starts_are_answered(alloc: Global, instance: &Instance) -> Result<bool, NoMemory> {
    for (count, is_leaf, answer) in STARTS {
        let token = if is_leaf {
            Token::Rules
        } else {
            Token::Order { dim: 2, u: 1, v: 2 }
        };
        if under(alloc, instance, count, &token)? != Some(answer) {
            return Ok(false);
        }
    }
    Ok(true)
}

#[test]
fn a_refutation_begins_with_exclusions(rt: HostRuntime) -> Result<(), Fail> {
    let boxes = instance_of(rt.alloc(), &[10, 10], TWO)?;
    assert!(rt; starts_are_answered(rt.alloc(), &boxes)?);
    Ok(())
}
