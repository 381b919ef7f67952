//! Instances that are decided from their symmetry facts on, and the documents that are audited.
use crate::asked::{ends, is_refused, reads_all_and_prints, stops_reading, stops_writing, tells};
use crate::rows::{Solved, is_solved};
use crate::texts::{EIGHT_IN_A_ROW, TWO_BOXES, UNIT};
use std::test::Fail;

const FOUR_IN_A_ROW: &[u8] = b"format 1\ncontainer 10 10\nbox 3 6\nbox 3 6\nbox 3 6\nbox 3 6\n";

const TWO_HALVES: &[u8] = b"format 1\ncontainer 4 4\nbox 2 1\nbox 2 1\n";

const PLAIN: &[&str] = &["reduced", "--scales", "no", "--budget", "0"];

const SHARED: &[&str] = &["reduced", "--scales=no", "--budget=0", "--workers=2"];

const ONE_LEAF: &[u8] = b"result no\nx\nend\n";

const UPRIGHT: &[u8] = b"result yes\nplace 0 0\nplace 0 4\nend\n";

const ROWS: [Solved; 9] = [
    (PLAIN, FOUR_IN_A_ROW, 1, ONE_LEAF),
    (SHARED, FOUR_IN_A_ROW, 1, ONE_LEAF),
    (PLAIN, EIGHT_IN_A_ROW, 1, ONE_LEAF),
    (SHARED, EIGHT_IN_A_ROW, 1, ONE_LEAF),
    (&["reduced", "--budget", "0"], TWO_BOXES, 0, UPRIGHT),
    (
        &["reduced", "--budget", "0", "--workers", "2"],
        TWO_BOXES,
        0,
        UPRIGHT,
    ),
    (&["reduced"], UNIT, 0, b"result yes\nplace 0 0\nend\n"),
    (PLAIN, TWO_HALVES, 3, b"result undecided\nend\n"),
    (
        &["reduced", "--budget", "1"],
        TWO_HALVES,
        0,
        b"result yes\nplace 0 0\nplace 2 0\nend\n",
    ),
];

#[test]
fn reduced_has_the_documents_of_the_rows(rt: HostRuntime) -> Result<(), Fail> {
    for row in &ROWS {
        assert!(rt; is_solved(&rt, b"reduced fit\n", row)?);
    }
    Ok(())
}

const THREE_HALVES: &[u8] = b"format 1\ncontainer 4 1\nbox 2 1\nbox 2 1\nbox 2 1\n";

const TOO_WIDE: &[u8] = b"format 1\ncontainer 3 1\nbox 4 1\n";

const STRIP: &[&str] = &["strip", "--facts", "yes", "--scales", "no"];

const SHARED_STRIP: &[&str] = &["strip", "--facts=yes", "--scales=no", "--workers=2"];

const SPENT_STRIP: &[&str] = &["strip", "--scales=no", "--budget=0", "--facts=yes"];

const TWO_ROWS: &[u8] =
    b"result least 12\nplace 0 0\nplace 3 0\nplace 6 0\nplace 6 6\nproof\nx\nend\n";

const STACKED: &[u8] = b"result between 1 3\nplace 0 0\nplace 0 1\nplace 0 2\nproof\nx\nend\n";

const NONE: &[u8] = b"result none\nt 1 1\nend\n";

const STRIP_ROWS: [Solved; 4] = [
    (STRIP, FOUR_IN_A_ROW, 0, TWO_ROWS),
    (SHARED_STRIP, FOUR_IN_A_ROW, 0, TWO_ROWS),
    (SPENT_STRIP, THREE_HALVES, 3, STACKED),
    (STRIP, TOO_WIDE, 1, NONE),
];

#[test]
fn strips_with_facts_have_the_documents_of_the_rows(rt: HostRuntime) -> Result<(), Fail> {
    for row in &STRIP_ROWS {
        assert!(rt; is_solved(&rt, b"reduced strip\n", row)?);
    }
    let plain: Solved = (&["strip", "--facts", "no"], TOO_WIDE, 1, NONE);
    assert!(rt; is_solved(&rt, b"answer strip\n", &plain)?);
    Ok(())
}

const NO_JOBS: [&[&str]; 4] = [
    &["strip", "--facts=yes", "--proposals=yes"],
    &["bins", "--facts", "no"],
    &["fit", "--facts", "yes"],
    &["reduced", "--facts", "yes"],
];

#[test]
fn facts_are_of_strips_without_proposals(rt: HostRuntime) -> Result<(), Fail> {
    for words in NO_JOBS {
        assert!(rt; ends(&rt, words, UNIT, 2)?);
    }
    Ok(())
}

const FOUR_REFUTED: &[u8] =
    b"reduced fit\nformat 1\ncontainer 10 10\nbox 3 6\nbox 3 6\nbox 3 6\nbox 3 6\nresult no\nx\nend\n";

const AUDIT: &[&str] = &["audit"];

// Documents, the status of their audit and its line.
const AUDITED: [(&[u8], u8, &str); 16] = [
    (
        b"explained fit\nformat 1\ncontainer 10 10\nbox 6 6\nbox 6 6\nresult no\npair 1 1 2\npair 2 1 2\napart 1 1 2\nx 1 1 2\nend\n",
        0,
        "verified explained fit no\n",
    ),
    (
        b"\nexplained fit\nformat 1\ncontainer 10 10\nbox 6 6\nbox 6 6\nresult no\npair 1 1 2\napart 1 1 2\nx 1 1 2\nend\n",
        1,
        "refused 9 step\n",
    ),
    (
        b"explained fit\nformat 1\ncontainer 10 10\nbox 6\nresult no\nend\n",
        1,
        "refused 4 text 2\n",
    ),
    (b"explained strip\nformat 1\n", 1, "refused 1 form\n"),
    (FOUR_REFUTED, 0, "verified reduced fit no\n"),
    (
        b"reduced fit\nformat 1\ncontainer 10 10\nbox 6 4\nbox 6 6\nresult yes\nplace 0 0\nplace 0 4\nend\n",
        0,
        "verified reduced fit yes\n",
    ),
    (
        b"answer fit\nformat 1\ncontainer 1 1\nbox 1 1\nresult yes\nplace 0 0\nend\n",
        1,
        "refused 1 form\n",
    ),
    (
        b"reduced strip\nformat 1\ncontainer 10 1\nbox 3 6\nbox 3 6\nbox 3 6\nbox 3 6\nresult least 12\nplace 0 0\nplace 3 0\nplace 6 0\nplace 0 6\nproof\nx\nend\n",
        0,
        "verified reduced strip least 12\n",
    ),
    (
        b"reduced strip\nformat 1\ncontainer 10 1\nbox 3 6\nbox 3 6\nbox 3 6\nbox 3 6\nresult between 11 24\nplace 0 0\nplace 0 6\nplace 0 12\nplace 0 18\nproof\nx\nend\n",
        0,
        "verified reduced strip between 11 24\n",
    ),
    (
        b"reduced strip\nformat 1\ncontainer 10 1\nbox 3 6\nbox 3 6\nbox 3 6\nbox 3 6\nresult least 12\nplace 0 0\nplace 3 0\nplace 6 0\nplace 0 5\nproof\nx\nend\n",
        1,
        "refused 12 overlap 1 4\n",
    ),
    (b"reduced strip\n", 1, "refused 2 short\n"),
    (b"reduced bins\n", 1, "refused 1 form\n"),
    (b"", 1, "refused 1 short\n"),
    (
        b"reduced fit\nformat 1\ncontainer 10 10\nbox 3 6\nbox 3 6\nbox 3 6\nresult no\nx\nend\n",
        1,
        "refused 8 conflict\n",
    ),
    (
        b"reduced fit\nformat 1\ncontainer 10 10\nbox 6 4\nbox 6 6\nresult yes\nplace 0 0\nplace 0 3\nend\n",
        1,
        "refused 8 overlap 1 2\n",
    ),
    (
        b"reduced fit\nformat 1\ncontainer 4 4\nbox 2 1\nbox 2 1\nresult undecided\nend\n",
        1,
        "refused 6 claim\n",
    ),
];

#[test]
fn audits_write_one_line(rt: HostRuntime) -> Result<(), Fail> {
    for row in &AUDITED {
        let (document, status, line) = *row;
        assert!(rt;
            reads_all_and_prints(&rt, AUDIT, document, status, line)?,
            "{line}"
        );
    }
    Ok(())
}

#[test]
fn check_refuses_a_reduced_document_at_its_first_line(rt: HostRuntime) -> Result<(), Fail> {
    assert!(rt; tells(&rt, &["check"], FOUR_REFUTED, 1, "refused 1 form\n")?);
    Ok(())
}

// The whole input is read before a line is refused.
#[test]
fn a_read_that_fails_at_each_byte_of_an_audit_is_a_read_fault(rt: HostRuntime) -> Result<(), Fail> {
    for count in 0..16 {
        assert!(rt;
            stops_reading(&rt, AUDIT, b"answer pile\nend\n", count)?,
            "{count}"
        );
    }
    Ok(())
}

#[test]
fn a_write_that_fails_at_each_byte_of_an_audit_leaves_those_before(
    rt: HostRuntime,
) -> Result<(), Fail> {
    let line = b"verified reduced fit no\n";
    for count in 0..line.len() {
        assert!(rt;
            stops_writing(&rt, AUDIT, FOUR_REFUTED, count, line)?,
            "{count}"
        );
    }
    Ok(())
}

#[test]
fn reduced_refuses_what_fit_refuses(rt: HostRuntime) -> Result<(), Fail> {
    let faulty = b"format 1\ncontainer 5 5\nbox 0 1\n";
    assert!(rt; is_refused(&rt, &["reduced"], faulty, "pack: line 3: code 4\n")?);
    assert!(rt; ends(&rt, &["reduced", "--number", "3"], UNIT, 2)?);
    assert!(rt; ends(&rt, &["audit", "--budget", "3"], UNIT, 2)?);
    Ok(())
}
