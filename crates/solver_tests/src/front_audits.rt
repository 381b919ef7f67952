//! Verdicts on the lines of a front.
use crate::instances::pair;
use box_instances::Sides;
use proof_tree::Token;
use size_front::{FrontLine, FrontReason, FrontVerdict, audit_front};
use std::alloc::Global;
use std::test::Fail;
use verdict_terms::{PlaceVerdict, RefuseCode};

fn corner(width: u32, height: u32) -> FrontLine {
    FrontLine::Corner { width, height }
}

fn point(width: u32, height: u32) -> FrontLine {
    FrontLine::Point { width, height }
}

fn place(alloc: Global, x: u32, y: u32) -> Result<FrontLine, Fail> {
    Ok(FrontLine::Place(Sides::from_slice(alloc, &[x, y])?))
}

// The lines of the front of the pair, with this width of the second corner and this place of the
// last box, and without the last `missing` lines.
fn lines(alloc: Global, width: u32, last: u32, missing: usize) -> Result<Vec<FrontLine>, Fail> {
    let mut lines = Vec::new(alloc);
    lines.push(corner(1, 4))?;
    lines.push(FrontLine::Tree(Token::TooLarge { box_no: 1, dim: 1 }))?;
    lines.push(point(2, 2))?;
    lines.push(place(alloc, 0, 0)?)?;
    lines.push(place(alloc, 0, 1)?)?;
    lines.push(corner(width, 1))?;
    lines.push(FrontLine::Tree(Token::Rules))?;
    lines.push(point(4, 1))?;
    lines.push(place(alloc, 0, 0)?)?;
    lines.push(place(alloc, last, 0)?)?;
    lines.truncate(10usize.saturating_sub(missing));
    Ok(lines)
}

// The verdict on such lines, as all of a front of two points.
fn verdict(alloc: Global, width: u32, last: u32, missing: usize) -> Result<FrontVerdict, Fail> {
    let lines = lines(alloc, width, last, missing)?;
    audited(alloc, &lines)
}

fn audited(alloc: Global, lines: &[FrontLine]) -> Result<FrontVerdict, Fail> {
    let pair = pair(alloc)?;
    if pair.dims() != 2 {
        return Ok(FrontVerdict::Short);
    }
    Ok(audit_front(alloc, &pair, true, 2, lines)?)
}

#[test]
fn good_lines_and_those_that_end_early(rt: HostRuntime) -> Result<(), Fail> {
    assert!(rt; verdict(rt.alloc(), 3, 2, 0)? == FrontVerdict::Good);
    for missing in 1..10 {
        assert!(rt; verdict(rt.alloc(), 3, 2, missing)? == FrontVerdict::Short);
    }
    Ok(())
}

const NARROW: FrontVerdict = FrontVerdict::Refused {
    index: 7,
    reason: FrontReason::Tree(RefuseCode::Range),
};

const CROSSING: FrontVerdict = FrontVerdict::Refused {
    index: 9,
    reason: FrontReason::Places(PlaceVerdict::Overlap {
        first: 0,
        second: 1,
    }),
};

// The corner of width 2 is refuted, and the point behind it is too wide for it.
#[test]
fn the_first_line_that_is_not_allowed_is_named(rt: HostRuntime) -> Result<(), Fail> {
    assert!(rt; verdict(rt.alloc(), 2, 2, 0)? == NARROW);
    assert!(rt; verdict(rt.alloc(), 3, 1, 0)? == CROSSING);
    Ok(())
}
