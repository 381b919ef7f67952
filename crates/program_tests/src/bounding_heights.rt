//! `strip` with families, each document whole.
use crate::asked::{is_refused, stops_writing, tells};
use crate::rows::{Solved, is_solved};
use std::test::Fail;

const BOARDS: &[u8] = b"format 1\ncontainer 10 9\nbox 6 2\nbox 6 2\nbox 6 2\nbox 6 2\n";

const SPENT: &[&str] = &["strip", "--bounds", "yes", "--scales=no", "--budget", "0"];

const BY_FAMILY: &[u8] =
    b"result least 8\nplace 0 0\nplace 0 2\nplace 0 4\nplace 0 6\nproof\nk 2 1 2 3 4\nend\n";

// With no branching and no scale functions the class trees leave heights open, and one family
// closes them. With scale functions their own line stands, and a box that is too wide fits at no
// height.
const ROWS: [Solved; 4] = [
    (SPENT, BOARDS, 0, BY_FAMILY),
    (
        &[
            "strip",
            "--bounds=yes",
            "--scales=no",
            "--budget=0",
            "--workers=2",
        ],
        BOARDS,
        0,
        BY_FAMILY,
    ),
    (
        &["strip", "--bounds=yes", "--budget=0"],
        BOARDS,
        0,
        b"result least 8\nplace 0 0\nplace 0 2\nplace 0 4\nplace 0 6\nproof\nv step 1 id\nend\n",
    ),
    (
        &["strip", "--bounds", "yes"],
        b"format 1\ncontainer 5 9\nbox 6 2\n",
        1,
        b"result none\nt 1 1\nend\n",
    ),
];

#[test]
fn bounded_strips_have_the_documents_of_the_rows(rt: HostRuntime) -> Result<(), Fail> {
    for row in &ROWS {
        assert!(rt; is_solved(&rt, b"bounded strip\n", row)?);
    }
    Ok(())
}

const DOCUMENT: &[u8] =
    b"bounded strip\nformat 1\ncontainer 10 9\nbox 6 2\nbox 6 2\nbox 6 2\nbox 6 2\nresult least 8\nplace 0 0\nplace 0 2\nplace 0 4\nplace 0 6\nproof\nk 2 1 2 3 4\nend\n";

#[test]
fn audit_verifies_a_bounded_strip_and_check_refuses_it(rt: HostRuntime) -> Result<(), Fail> {
    let line = "verified bounded strip least 8\n";
    assert!(rt; tells(&rt, &["audit"], DOCUMENT, 0, line)?);
    assert!(rt; tells(&rt, &["check"], DOCUMENT, 1, "refused 1 form\n")?);
    Ok(())
}

#[test]
fn bounded_strip_refuses_what_strip_refuses(rt: HostRuntime) -> Result<(), Fail> {
    let faulty = b"format 1\ncontainer 5 5\nbox 0 1\n";
    assert!(rt; is_refused(&rt, SPENT, faulty, "pack: line 3: code 4\n")?);
    Ok(())
}

#[test]
fn a_failed_write_of_a_bounded_strip_leaves_the_bytes_before(rt: HostRuntime) -> Result<(), Fail> {
    for count in [0, 1, 14, DOCUMENT.len() - 1] {
        assert!(rt;
            stops_writing(&rt, SPENT, BOARDS, count, DOCUMENT)?,
            "{count}"
        );
    }
    Ok(())
}
