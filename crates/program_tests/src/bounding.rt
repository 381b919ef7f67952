//! `knapsack` with priced leaves, each document whole.
use crate::asked::{ends, is_refused, stops_reading, stops_writing, tells};
use crate::rows::{Solved, is_solved};
use crate::runs::run_with_read_fault;
use crate::texts::{SACK, UNIT};
use std::alloc::Global;
use std::test::Fail;

const SQUARES: &[u8] =
    b"format 1\ncontainer 10 10\nbox 6 6 value 5\nbox 6 6 value 5\nbox 6 6 value 5\nbox 3 3 value 2\n";

const SPENT: &[&str] = &["knapsack", "--bounds", "yes", "--budget", "0"];

const PRICED_7: &[u8] =
    b"result greatest 7\ntake 1 0 0\ntake 4 6 0\nproof\nu 1000000000 5 step 1 step 1\nend\n";

const PRICED_8: &[u8] =
    b"result greatest 8\ntake 1 0 0\ntake 3 6 0\nproof\nu 1000000000 4 step 1 step 1\nend\n";

// With no branching the choice trees leave all values open, and one priced leaf closes them. With
// ample budget their own tree stands, and without scale functions no leaf is priced.
const ROWS: [Solved; 6] = [
    (SPENT, SQUARES, 0, PRICED_7),
    (
        &["knapsack", "--bounds=yes", "--budget=5"],
        SACK,
        0,
        PRICED_8,
    ),
    (
        &["knapsack", "--bounds=yes", "--budget=5", "--workers=2"],
        SACK,
        0,
        PRICED_8,
    ),
    (
        &["knapsack", "--bounds", "yes"],
        SACK,
        0,
        b"result greatest 8\ntake 1 0 0\ntake 3 6 0\nproof\nc 1\nc 2\ns\nx\nw\nw\nend\n",
    ),
    (
        &["knapsack", "--bounds", "yes", "--scales=no", "--budget=0"],
        SACK,
        3,
        b"result between 0 13\nproof\nw\nend\n",
    ),
    (
        &["knapsack", "--bounds=yes", "--proposals=yes", "--budget=0"],
        SACK,
        0,
        b"result greatest 8\ntake 1 4 0\ntake 3 0 0\nproof\nu 1000000000 4 step 1 step 1\nend\n",
    ),
];

#[test]
fn bounded_knapsacks_have_the_documents_of_the_rows(rt: HostRuntime) -> Result<(), Fail> {
    for row in &ROWS {
        assert!(rt; is_solved(&rt, b"bounded knapsack\n", row)?);
    }
    Ok(())
}

const DOCUMENT: &[u8] =
    b"bounded knapsack\nformat 1\ncontainer 10 10\nbox 6 6 value 5\nbox 6 6 value 4\nbox 4 4 value 3\nresult greatest 8\ntake 1 0 0\ntake 3 6 0\nproof\nu 1000000000 4 step 1 step 1\nend\n";

#[test]
fn audit_verifies_the_document_and_check_refuses_it(rt: HostRuntime) -> Result<(), Fail> {
    let line = "verified bounded knapsack greatest 8\n";
    assert!(rt; tells(&rt, &["audit"], DOCUMENT, 0, line)?);
    assert!(rt; tells(&rt, &["check"], DOCUMENT, 1, "refused 1 form\n")?);
    Ok(())
}

// The most bytes of a document that `audit` holds.
const MOST_HELD: usize = 16_777_216;

// `before`, a comment of `count` bytes, and `behind`.
fn with_comment(
    alloc: Global,
    before: &[u8],
    count: usize,
    behind: &[u8],
) -> Result<Vec<u8>, Fail> {
    let mut bytes = Vec::new(alloc);
    bytes.extend_from_slice(before)?;
    bytes.push(b'#')?;
    for _ in 0..count {
        bytes.push(b'a')?;
    }
    bytes.push(b'\n')?;
    bytes.extend_from_slice(behind)?;
    Ok(bytes)
}

const AUDIT: &[&str] = &["audit"];

const TOO_LONG: &str = "pack: input too long\n";

#[test]
fn audit_verifies_a_bounded_document_of_any_length(rt: HostRuntime) -> Result<(), Fail> {
    let bytes = with_comment(rt.alloc(), DOCUMENT, MOST_HELD, b"")?;
    assert!(rt;
        tells(
            &rt,
            AUDIT,
            &bytes,
            0,
            "verified bounded knapsack greatest 8\n"
        )?
    );
    Ok(())
}

#[test]
fn audit_refuses_another_document_past_its_limit(rt: HostRuntime) -> Result<(), Fail> {
    let bytes = with_comment(rt.alloc(), b"reduced fit\n", MOST_HELD, b"")?;
    assert!(rt; is_refused(&rt, AUDIT, &bytes, TOO_LONG)?);
    Ok(())
}

#[test]
fn audit_refuses_a_heading_past_its_limit(rt: HostRuntime) -> Result<(), Fail> {
    let bytes = with_comment(rt.alloc(), b"", MOST_HELD, DOCUMENT)?;
    assert!(rt; is_refused(&rt, AUDIT, &bytes, TOO_LONG)?);
    Ok(())
}

// The third line has one number too many, and what stands behind it would be too long.
const DAMAGED: &[u8] = b"bounded knapsack\nformat 1\ncontainer 10 10 10 10 10\nbox 6 6 value 5\n";

#[test]
fn audit_reads_no_byte_behind_a_refused_line_of_a_bounded_document(
    rt: HostRuntime,
) -> Result<(), Fail> {
    let refused = "refused 3 text 2\n";
    assert!(rt; tells(&rt, AUDIT, DAMAGED, 1, refused)?);
    assert!(rt; run_with_read_fault(&rt, AUDIT, DAMAGED, 51)?.is_line(1, refused));
    for count in 0..51 {
        assert!(rt; stops_reading(&rt, AUDIT, DAMAGED, count)?, "{count}");
    }
    Ok(())
}

#[test]
fn bounds_are_of_knapsack_and_strip_alone(rt: HostRuntime) -> Result<(), Fail> {
    assert!(rt; ends(&rt, &["bins", "--bounds", "yes"], UNIT, 2)?);
    assert!(rt; ends(&rt, &["audit", "--bounds", "no"], UNIT, 2)?);
    assert!(rt; ends(&rt, &["strip", "--bounds=yes", "--facts=yes"], UNIT, 2)?);
    assert!(rt;
        is_solved(
            &rt,
            b"answer knapsack\n",
            &(
                &["knapsack", "--bounds", "no", "--budget", "5"],
                SACK,
                3,
                b"result between 0 13\nproof\nw\nend\n",
            )
        )?
    );
    Ok(())
}

#[test]
fn bounded_knapsack_refuses_what_knapsack_refuses(rt: HostRuntime) -> Result<(), Fail> {
    let faulty = b"format 1\ncontainer 5 5\nbox 0 1\n";
    assert!(rt; is_refused(&rt, SPENT, faulty, "pack: line 3: code 4\n")?);
    assert!(rt; stops_reading(&rt, SPENT, SQUARES, 20)?);
    Ok(())
}

const SHARED: &[&str] = &["knapsack", "--bounds=yes", "--budget=5"];

#[test]
fn a_write_that_fails_leaves_the_bytes_before(rt: HostRuntime) -> Result<(), Fail> {
    for count in [0, 1, 17, DOCUMENT.len() - 1] {
        assert!(rt;
            stops_writing(&rt, SHARED, SACK, count, DOCUMENT)?,
            "{count}"
        );
    }
    Ok(())
}
