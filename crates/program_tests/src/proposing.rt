//! Instances that are decided by proposals first, with budgets of the described tree.
use crate::asked::{ends, is_refused, stops_reading, stops_writing, tells, writes};
use crate::rows::{Solved, is_solved};
use crate::runs::run_on;
use crate::texts::{EIGHT_IN_A_ROW, TWO_BOXES, UNIT};
use std::alloc::AllocGlobal;
use std::sync::Wait;
use std::test::Fail;
use std::thread::Threads;

const PROPOSED: &[&str] = &["fit", "--proposals", "yes", "--budget", "0"];

const SHARED: &[&str] = &["fit", "--proposals=yes", "--budget=0", "--workers=2"];

const NOT_PROPOSED: &[&str] = &["fit", "--proposals", "no", "--budget", "0"];

const STRIP_PROPOSED: &[&str] = &["strip", "--proposals", "yes", "--budget", "0"];

const STRIP_SHARED: &[&str] = &["strip", "--proposals=yes", "--budget=0", "--workers=2"];

const BINS_PROPOSED: &[&str] = &["bins", "--proposals", "yes", "--budget", "0"];

const BINS_SHARED: &[&str] = &["bins", "--proposals=yes", "--budget=0", "--workers=2"];

const SACK_PROPOSED: &[&str] = &["knapsack", "--proposals", "yes", "--budget", "0"];

const SACK_SHARED: &[&str] = &["knapsack", "--proposals=yes", "--budget=0", "--workers=2"];

const SACK_WITHOUT_SCALES: &[&str] = &["knapsack", "--proposals=yes", "--budget=0", "--scales=no"];

const SACK_SHARED_WITHOUT_SCALES: &[&str] = &[
    "knapsack",
    "--proposals=yes",
    "--budget=0",
    "--scales=no",
    "--workers=2",
];

const FOUR: &[u8] = b"format 1\ncontainer 10 6\nbox 3 6\nbox 3 6\nbox 3 6\nbox 3 6\n";

const AROUND_A_HOLE: &[u8] =
    b"format 1\ncontainer 10 10\nbox 6 4\nbox 4 6\nbox 6 4\nbox 4 6\nbox 1 3\n";

const THREE_WORTH: &[u8] =
    b"format 1\ncontainer 10 6\nbox 3 6 value 5\nbox 3 6 value 4\nbox 3 6 value 3\n";

const FOUR_WORTH: &[u8] =
    b"format 1\ncontainer 10 6\nbox 3 6 value 5\nbox 3 6 value 4\nbox 3 6 value 3\nbox 3 6 value 2\n";

const PINWHEEL: &[u8] = b"format 1\ncontainer 5 1\nbox 1 1\nbox 3 2\nbox 2 3\nbox 3 2\nbox 2 3\n";

const TWO_HALVES: &[u8] = b"format 1\ncontainer 4 4\nbox 2 1\nbox 2 1\n";

const TOO_LARGE: &[u8] = b"format 1\ncontainer 4 4\nbox 5 1\n";

const PLACED: &[u8] = b"result yes\nplace 0 0\nend\n";

const REFUTED: &[u8] = b"result no\nt 1 1\nend\n";

const OPEN: &[u8] = b"result undecided\nend\n";

const ROWS: [Solved; 6] = [
    (PROPOSED, UNIT, 0, PLACED),
    (SHARED, UNIT, 0, PLACED),
    (PROPOSED, TOO_LARGE, 1, REFUTED),
    (SHARED, TOO_LARGE, 1, REFUTED),
    (NOT_PROPOSED, TWO_HALVES, 3, OPEN),
    (&["fit", "--budget", "0"], TWO_HALVES, 3, OPEN),
];

#[test]
fn proposals_have_the_documents_of_the_rows(rt: HostRuntime) -> Result<(), Fail> {
    for row in &ROWS {
        assert!(rt; is_solved(&rt, b"answer fit\n", row)?);
    }
    Ok(())
}

// Words, the same for two workers, an instance, the status, and the line of `check` for the
// document.
type Verified = (
    &'static [&'static str],
    &'static [&'static str],
    &'static [u8],
    u8,
    &'static str,
);

// All trees but those of `fit` have branchings, so a budget of 0 is spent without proposals. Three
// of four boxes go into one bin. Neither volume nor scales refute that the boxes around a hole go
// into one bin, and its tree has branchings. Three boxes of worth fit, of four one is left out, and
// that 13 is too much is refuted by volume in a proposed tree, and without scales by a described
// tree with branchings. Four boxes fit around the hole, and no proposed tree refutes all five.
const VERIFIED: [Verified; 11] = [
    (PROPOSED, SHARED, TWO_HALVES, 0, "verified fit yes\n"),
    (PROPOSED, SHARED, TWO_BOXES, 0, "verified fit yes\n"),
    (PROPOSED, SHARED, EIGHT_IN_A_ROW, 1, "verified fit no\n"),
    (
        STRIP_PROPOSED,
        STRIP_SHARED,
        PINWHEEL,
        0,
        "verified strip least 5\n",
    ),
    (
        BINS_PROPOSED,
        BINS_SHARED,
        FOUR,
        0,
        "verified bins least 2\n",
    ),
    (
        BINS_PROPOSED,
        BINS_SHARED,
        AROUND_A_HOLE,
        3,
        "verified bins between 0 2\n",
    ),
    (
        SACK_PROPOSED,
        SACK_SHARED,
        THREE_WORTH,
        0,
        "verified knapsack greatest 12\n",
    ),
    (
        SACK_PROPOSED,
        SACK_SHARED,
        FOUR_WORTH,
        0,
        "verified knapsack greatest 12\n",
    ),
    (
        SACK_WITHOUT_SCALES,
        SACK_SHARED_WITHOUT_SCALES,
        FOUR_WORTH,
        3,
        "verified knapsack between 12 15\n",
    ),
    (
        SACK_PROPOSED,
        SACK_SHARED,
        AROUND_A_HOLE,
        3,
        "verified knapsack between 4 6\n",
    ),
    (
        &["knapsack", "--proposals=yes"],
        &["knapsack", "--proposals=yes", "--workers=2"],
        FOUR_WORTH,
        0,
        "verified knapsack greatest 12\n",
    ),
];

// Whether the document of a row is also that of two workers, and `check` verifies it.
fn is_verified<R: AllocGlobal + Threads + Wait + Sync>(
    rt: &R,
    row: &Verified,
) -> Result<bool, Fail> {
    let (words, shared, text, status, line) = *row;
    let answer = run_on(rt, words, text)?;
    let is_same = writes(rt, shared, text, status, &answer.out)?;
    let is_checked = tells(rt, &["check"], &answer.out, 0, line)?;
    Ok(answer.status == status && is_same && is_checked)
}

// Whichever packing or refutation is written, `check` verifies it, and workers have no part in it.
#[test]
fn documents_with_proposals_verify(rt: HostRuntime) -> Result<(), Fail> {
    for row in &VERIFIED {
        assert!(rt; is_verified(&rt, row)?, "{}", row.4);
    }
    Ok(())
}

#[test]
fn a_budget_of_none_is_spent_without_proposals(rt: HostRuntime) -> Result<(), Fail> {
    let rows = [
        ("strip", PINWHEEL),
        ("bins", FOUR),
        ("knapsack", THREE_WORTH),
    ];
    for (job, text) in rows {
        assert!(rt; ends(&rt, &[job, "--budget", "0"], text, 3)?, "{job}");
    }
    assert!(rt; ends(&rt, BINS_PROPOSED, TOO_LARGE, 1)?);
    Ok(())
}

#[test]
fn proposals_refuse_what_fit_refuses(rt: HostRuntime) -> Result<(), Fail> {
    let faulty = b"format 1\ncontainer 5 5\nbox 0 1\n";
    assert!(rt; is_refused(&rt, PROPOSED, faulty, "pack: line 3: code 4\n")?);
    for words in [
        ["front", "--proposals", "yes"],
        ["reduced", "--proposals", "no"],
        ["check", "--proposals", "no"],
        ["fit", "--proposals", "maybe"],
    ] {
        assert!(rt; ends(&rt, &words, UNIT, 2)?);
    }
    Ok(())
}

#[test]
fn a_read_or_write_that_fails_ends_proposals(rt: HostRuntime) -> Result<(), Fail> {
    assert!(rt; stops_reading(&rt, PROPOSED, UNIT, 5)?);
    assert!(rt; stops_writing(&rt, PROPOSED, UNIT, 7, b"answer ")?);
    Ok(())
}
