//! Refutations that are explained, and documents that hold none.
use crate::asked::{ends, reads_all_and_prints, stops_reading, stops_writing, tells};
use crate::runs::run_on;
use crate::texts::TWO_BOXES_FIT;
use std::alloc::AllocGlobal;
use std::sync::Wait;
use std::test::Fail;
use std::thread::Threads;

const EXPLAIN: &[&str] = &["explain"];

const SQUARES: &[u8] =
    b"answer fit\nformat 1\ncontainer 10 10\nbox 6 6\nbox 6 6\nresult no\nx\nend\n";

// Documents, and the line that refuses each.
const REFUSED: [(&[u8], &str); 5] = [
    (TWO_BOXES_FIT, "refused 6 claim\n"),
    (
        b"\nanswer strip\nformat 1\ncontainer 4 4\nbox 5 1\nresult none\nt 1 1\nend\n",
        "refused 6 claim\n",
    ),
    (b"reduced fit\n", "refused 1 form\n"),
    (
        b"answer fit\nformat 1\ncontainer 10 10\nbox 6 6\nbox 6 6\nresult no\nx\n",
        "refused 8 short\n",
    ),
    (
        b"answer fit\nformat 1\ncontainer 10 10\nbox 6 4\nbox 6 6\nresult no\nx\nend\n",
        "refused 7 conflict\n",
    ),
];

#[test]
fn what_holds_no_refutation_is_refused(rt: HostRuntime) -> Result<(), Fail> {
    for (document, line) in REFUSED {
        assert!(rt;
            reads_all_and_prints(&rt, EXPLAIN, document, 1, line)?,
            "{line}"
        );
    }
    Ok(())
}

const INSTANCES: [&[u8]; 3] = [
    b"format 1\ncontainer 10 10\nbox 6 6\nbox 6 6\n",
    b"format 1\ncontainer 10 10\nbox 3 6\nbox 3 6\nbox 3 6\nbox 3 6\n",
    b"format 2\ncontainer 7 7 4\nkerf 1 0 0\nbox 3 4 3\nbox 3 4 3\nbox 3 4 3\nbox 3 4 3\nbox 2 4 2\n",
];

// Whether `explain` takes the refutation, and `audit` verifies what it writes.
fn is_explained<R: AllocGlobal + Threads + Wait + Sync>(
    rt: &R,
    refutation: &[u8],
) -> Result<bool, Fail> {
    let explained = run_on(rt, EXPLAIN, refutation)?;
    let line = "verified explained fit no\n";
    Ok(explained.status == 0 && tells(rt, &["audit"], &explained.out, 0, line)?)
}

// Whether the instance is refuted, and its refutation explained.
fn is_explained_of<R: AllocGlobal + Threads + Wait + Sync>(
    rt: &R,
    instance: &[u8],
) -> Result<bool, Fail> {
    let refuted = run_on(rt, &["fit", "--scales", "no"], instance)?;
    Ok(refuted.status == 1 && is_explained(rt, &refuted.out)?)
}

// What `explain` writes of the refutation of each instance is verified by `audit`.
#[test]
fn explained_documents_are_verified(rt: HostRuntime) -> Result<(), Fail> {
    for instance in INSTANCES {
        assert!(rt; is_explained_of(&rt, instance)?);
    }
    Ok(())
}

// The input is read to its end before a line is refused or written.
#[test]
fn a_fault_of_explain_is_told(rt: HostRuntime) -> Result<(), Fail> {
    assert!(rt; stops_reading(&rt, EXPLAIN, SQUARES, 20)?);
    assert!(rt; stops_writing(&rt, EXPLAIN, SQUARES, 9, b"explained")?);
    assert!(rt; ends(&rt, &["explain", "--budget", "3"], SQUARES, 2)?);
    Ok(())
}
