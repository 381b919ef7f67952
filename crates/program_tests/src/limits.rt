//! Both ends of each limit, with ample memory, compared whole: a body that stops for want of memory
//! at some size fails here.
use crate::asked::{ends, matches_one_worker, tells, writes};
use crate::rows::{Solved, is_solved};
use crate::runs::count_reads;
use crate::texts::EIGHT_IN_A_ROW;
use pack_streams::{MemorySink, SinkError, WriteFault, write_number, write_on};
use std::alloc::{AllocGlobal, Global};
use std::sync::Wait;
use std::test::Fail;
use std::thread::Threads;
use work_share::NoGate;

// The first line of each document, and its row.
const ROWS: [(&[u8], Solved); 6] = [
    (
        b"answer fit\n",
        (
            &["fit", "--budget", "0"],
            b"format 1\ncontainer 1 1 1 1\nbox 1 1 1 1\n",
            0,
            b"result yes\nplace 0 0 0 0\nend\n",
        ),
    ),
    (
        b"answer fit\n",
        (
            &["fit", "--budget", "10000000"],
            b"format 1\ncontainer 1000000 1000000\nbox 1000000 1000000\n",
            0,
            b"result yes\nplace 0 0\nend\n",
        ),
    ),
    (
        b"answer fit\n",
        (
            &["fit", "--budget", "0"],
            b"format 1\ncontainer 1000000 1000000 1000000 1000000\nbox 1000000 1000000 1000000 1000000 value 1000000000\n",
            0,
            b"result yes\nplace 0 0 0 0\nend\n",
        ),
    ),
    (
        b"answer strip\n",
        (
            &["strip", "--budget", "0"],
            b"format 1\ncontainer 1 1000000\nbox 1 1000000\n",
            0,
            b"result least 1000000\nplace 0 0\nproof\nt 1 2\nend\n",
        ),
    ),
    (
        b"answer knapsack\n",
        (
            &["knapsack", "--budget", "10000000"],
            b"format 1\ncontainer 1 1\nbox 1 1 value 1000000000\n",
            0,
            b"result greatest 1000000000\ntake 1 0 0\nproof\nw\nend\n",
        ),
    ),
    (
        b"answer bins\n",
        (
            &["bins", "--budget", "0"],
            b"format 1\ncontainer 1 1 1 1\nbox 1 1 1 1\n",
            0,
            b"result least 1\nplace 1 0 0 0 0\nproof\ng id id id id\nend\n",
        ),
    ),
];

#[test]
fn least_and_greatest_sizes_are_answered(rt: HostRuntime) -> Result<(), Fail> {
    for (first, row) in &ROWS {
        assert!(rt; is_solved(&rt, first, row)?);
    }
    Ok(())
}

// `count` boxes in a row that they fill.
fn row(alloc: Global, count: u64) -> Result<MemorySink, SinkError> {
    let mut text = MemorySink::new(alloc, 4096, Vec::new(alloc))?;
    let headed = write_on(&mut text, Ok(()), b"format 1\ncontainer ");
    let sized = write_number(&mut text, headed, count);
    let mut written = write_on(&mut text, sized, b" 1\n");
    for _ in 0..count {
        written = write_on(&mut text, written, b"box 1 1\n");
    }
    Ok(text)
}

// A line for each box of the row behind the ones before it: this word, the number of the box where
// it is named, and its place.
fn write_places(
    out: &mut MemorySink,
    so_far: Result<(), WriteFault>,
    word: &[u8],
    is_named: bool,
    count: u64,
) -> Result<(), WriteFault> {
    let mut written = so_far;
    for v in 0..count {
        written = write_on(out, written, word);
        if is_named {
            written = write_number(out, written, v.saturating_add(1));
            written = write_on(out, written, b" ");
        }
        written = write_number(out, written, v);
        written = write_on(out, written, b" 0\n");
    }
    written
}

// The document that places the row.
fn placed_row(alloc: Global, text: &[u8], count: u64) -> Result<MemorySink, SinkError> {
    let mut out = MemorySink::new(alloc, 8192, Vec::new(alloc))?;
    let headed = write_on(&mut out, Ok(()), b"answer fit\n");
    let held = write_on(&mut out, headed, text);
    let said = write_on(&mut out, held, b"result yes\n");
    let placed = write_places(&mut out, said, b"place ", false, count);
    let _ended = write_on(&mut out, placed, b"end\n");
    Ok(out)
}

// The document that takes all boxes of the row.
fn taken_row(alloc: Global, text: &[u8], count: u64) -> Result<MemorySink, SinkError> {
    let mut out = MemorySink::new(alloc, 8192, Vec::new(alloc))?;
    let headed = write_on(&mut out, Ok(()), b"answer knapsack\n");
    let held = write_on(&mut out, headed, text);
    let said = write_on(&mut out, held, b"result greatest ");
    let counted = write_number(&mut out, said, count);
    let lined = write_on(&mut out, counted, b"\n");
    let taken = write_places(&mut out, lined, b"take ", true, count);
    let _ended = write_on(&mut out, taken, b"proof\nw\nend\n");
    Ok(out)
}

// Whether the row is placed by this document, which `check` verifies.
fn is_placed<R: AllocGlobal + Threads + Wait + Sync>(
    rt: &R,
    text: &[u8],
    document: &[u8],
) -> Result<bool, Fail> {
    let is_written = writes(rt, &["fit"], text, 0, document)?;
    Ok(is_written && tells(rt, &["check"], document, 0, "verified fit yes\n")?)
}

#[test]
fn the_most_boxes_are_placed_and_checked(rt: HostRuntime) -> Result<(), Fail> {
    let text = row(rt.alloc(), 128)?;
    let document = placed_row(rt.alloc(), text.written(), 128)?;
    assert!(rt; is_placed(&rt, text.written(), document.written())?);
    Ok(())
}

#[test]
fn forty_boxes_are_taken(rt: HostRuntime) -> Result<(), Fail> {
    let text = row(rt.alloc(), 40)?;
    let document = taken_row(rt.alloc(), text.written(), 40)?;
    assert!(rt; writes(&rt, &["knapsack"], text.written(), 0, document.written())?);
    Ok(())
}

#[test]
fn the_most_boxes_that_are_taken_are_checked(rt: HostRuntime) -> Result<(), Fail> {
    let text = row(rt.alloc(), 128)?;
    let document = taken_row(rt.alloc(), text.written(), 128)?;
    let line = "verified knapsack greatest 128\n";
    assert!(rt; tells(&rt, &["check"], document.written(), 0, line)?);
    Ok(())
}

// Ten boxes in a row, which have a leaf for each order of nine of them: 362,879 branchings.
const TEN_IN_A_ROW: &[u8] =
    b"format 1\ncontainer 29 10\nbox 3 6\nbox 3 6\nbox 3 6\nbox 3 6\nbox 3 6\nbox 3 6\nbox 3 6\nbox 3 6\nbox 3 6\nbox 3 6\n";

const PAST_100001: Solved = (
    &["fit", "--scales", "no", "--budget", "100001"],
    TEN_IN_A_ROW,
    3,
    b"result undecided\nend\n",
);

#[test]
fn a_long_search_ends_at_its_budget(rt: HostRuntime) -> Result<(), Fail> {
    assert!(rt; is_solved(&rt, b"answer fit\n", &PAST_100001)?);
    Ok(())
}

#[test]
fn sixty_four_boxes_are_made(rt: HostRuntime) -> Result<(), Fail> {
    let lines = "made 10 boxes 64 volume 1064334\nfit no\nbranchings 0\n";
    assert!(rt; tells(&rt, &["make", "--number", "10"], b"", 1, lines)?);
    Ok(())
}

#[test]
fn the_most_workers_write_the_same(rt: HostRuntime) -> Result<(), Fail> {
    let words = ["fit", "--scales", "no"];
    assert!(rt; ends(&rt, &words, EIGHT_IN_A_ROW, 1)?);
    assert!(rt; matches_one_worker(&rt, &words, "64", EIGHT_IN_A_ROW, &NoGate)?);
    Ok(())
}

// Of a source that gives no byte behind its end, `check` asks once more at the end and not again.
#[test]
fn check_reads_nothing_behind_the_end(rt: HostRuntime) -> Result<(), Fail> {
    let text = row(rt.alloc(), 1)?;
    let document = placed_row(rt.alloc(), text.written(), 1)?;
    let reads = count_reads(&rt, &["check"], document.written())?;
    assert!(rt; reads == document.written().len().saturating_add(1));
    Ok(())
}
