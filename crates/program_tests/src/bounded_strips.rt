//! Documents of `bounded strip`, which `audit` reads line by line: verified ones, and why others
//! are refused.
use crate::asked::{reads_all_and_prints, tells};
use crate::rows::Checked;
use crate::runs::run_with_read_fault;
use std::test::Fail;

const AUDIT: &[&str] = &["audit"];

const VERIFIED: [Checked; 7] = [
    (
        b"bounded strip\nformat 1\ncontainer 10 1\nbox 6 2\nbox 6 2\nbox 6 2\nbox 6 2\nresult least 8\nplace 0 0\nplace 0 2\nplace 0 4\nplace 0 6\nproof\nk 2 1 2 3 4\nend\n",
        "verified bounded strip least 8\n",
    ),
    (
        b"bounded strip\nformat 1\ncontainer 10 1\nbox 6 2\nbox 6 2\nbox 6 2\nbox 6 2\nresult least 8\nplace 0 0\nplace 0 2\nplace 0 4\nplace 0 6\nproof\nk 2 4 2\nk 2 1\n # more\nk 2 3\nend",
        "verified bounded strip least 8\n",
    ),
    (
        b"bounded strip\nformat 1\ncontainer 10 1\nbox 6 2\nbox 6 2\nbox 6 2\nbox 6 2\nresult between 7 8\nplace 0 0\nplace 0 2\nplace 0 4\nplace 0 6\nproof\nd 2 1 2\nk 2 1 2 3 4\nk 2 4 3 2 1\nend\n",
        "verified bounded strip between 7 8\n",
    ),
    (
        b"bounded strip\nformat 1\ncontainer 10 1\nbox 6 2\nbox 6 2\nresult least 4\nplace 0 0\nplace 0 2\nproof\nx\nend\n",
        "verified bounded strip least 4\n",
    ),
    (
        b"bounded strip\nformat 1\ncontainer 10 10 1\nbox 6 6 2\nbox 6 7 2\nbox 8 6 2\nbox 6 6 1\nresult least 7\nplace 0 0 0\nplace 0 0 2\nplace 0 0 4\nplace 0 0 6\nproof\nk 3 4 3 2 1\nend\n",
        "verified bounded strip least 7\n",
    ),
    (
        b"bounded strip\nformat 2\ncontainer 10 1\nkerf 0 1\nbox 6 2 times 4\nresult least 11\nplace 0 0\nplace 0 3\nplace 0 6\nplace 0 9\nproof\nk 2 1 2 3 4\nend\n",
        "verified bounded strip least 11\n",
    ),
    (
        b"bounded strip\nformat 1\ncontainer 5 1\nbox 6 2\nresult none\nt 1 1\nend\n",
        "verified bounded strip none\n",
    ),
];

#[test]
fn families_show_least_heights(rt: HostRuntime) -> Result<(), Fail> {
    for row in &VERIFIED {
        let (document, line) = *row;
        assert!(rt;
            reads_all_and_prints(&rt, AUDIT, document, 0, line)?,
            "{line}"
        );
    }
    Ok(())
}

const REFUSED: [Checked; 23] = [
    (
        b"bounded strip\nformat 1\ncontainer 10 1\nbox 6 2\nbox 6 2\nbox 6 2\nbox 6 2\nresult between 8 9\nplace 0 0\nplace 0 2\nplace 0 4\nplace 0 6\nproof\nk 2 1 2 3 4\nend\n",
        "refused 15 short\n",
    ),
    (
        b"bounded strip\nformat 1\ncontainer 10 1\nbox 6 2\nbox 6 2\nbox 6 2\nbox 6 2\nresult least 8\nplace 0 0\nplace 0 2\nplace 0 4\nplace 0 6\nproof\nk 2 1 2\nend\n",
        "refused 15 short\n",
    ),
    (
        b"bounded strip\nformat 1\ncontainer 10 1\nbox 5 2\nbox 5 2\nbox 5 2\nbox 5 2\nresult least 8\nplace 0 0\nplace 0 2\nplace 0 4\nplace 0 6\nproof\nk 2 1 2 3 4\nend\n",
        "refused 14 choice\n",
    ),
    (
        b"bounded strip\nformat 1\ncontainer 10 1\nbox 6 2\nbox 6 2\nbox 6 2\nbox 6 2\nresult least 8\nplace 0 0\nplace 0 2\nplace 0 4\nplace 0 6\nproof\nk 2 1 2 1\nend\n",
        "refused 14 choice\n",
    ),
    (
        b"bounded strip\nformat 1\ncontainer 10 1\nbox 6 2\nbox 6 2\nbox 6 2\nbox 6 2\nresult least 8\nplace 0 0\nplace 0 2\nplace 0 4\nplace 0 6\nproof\nk 2 1 2\nk 2 3 1\nend\n",
        "refused 15 choice\n",
    ),
    (
        b"bounded strip\nformat 1\ncontainer 10 1\nbox 6 2\nbox 6 2\nbox 6 2\nbox 6 2\nresult least 8\nplace 0 0\nplace 0 2\nplace 0 4\nplace 0 6\nproof\nk 2 1 2 3 5\nend\n",
        "refused 14 range\n",
    ),
    (
        b"bounded strip\nformat 1\ncontainer 10 1\nbox 6 2\nbox 6 2\nbox 6 2\nbox 6 2\nresult least 8\nplace 0 0\nplace 0 2\nplace 0 4\nplace 0 6\nproof\nk 0 1 2 3 4\nend\n",
        "refused 14 range\n",
    ),
    (
        b"bounded strip\nformat 1\ncontainer 10 1\nbox 6 2\nbox 6 2\nbox 6 2\nbox 6 2\nresult least 8\nplace 0 0\nplace 0 2\nplace 0 4\nplace 0 6\nproof\nk 2 1 2\nk 1 3 4\nend\n",
        "refused 15 form\n",
    ),
    (
        b"bounded strip\nformat 1\ncontainer 10 1\nbox 6 2\nbox 6 2\nbox 6 2\nbox 6 2\nresult least 8\nplace 0 0\nplace 0 2\nplace 0 4\nplace 0 6\nproof\nk 2 1 2\nx\nend\n",
        "refused 15 form\n",
    ),
    (
        b"bounded strip\nformat 1\ncontainer 10 1\nbox 6 2\nbox 6 2\nbox 6 2\nbox 6 2\nresult least 8\nplace 0 0\nplace 0 2\nplace 0 4\nplace 0 6\nproof\nk 2\nend\n",
        "refused 14 form\n",
    ),
    (
        b"bounded strip\nformat 1\ncontainer 10 1\nbox 6 2\nbox 6 2\nbox 6 2\nbox 6 2\nresult least 8\nplace 0 0\nplace 0 2\nplace 0 4\nplace 0 6\nproof\nk 2 1 2 3 4 1 2 3 4 1 2\nend\n",
        "refused 14 form\n",
    ),
    (
        b"bounded strip\nformat 1\ncontainer 10 1\nbox 6 2\nbox 6 2\nbox 6 2\nbox 6 2\nresult least 8\nplace 0 0\nplace 0 2\nplace 0 4\nplace 0 6\nproof\nu 1 1 id id\nend\n",
        "refused 14 form\n",
    ),
    (
        b"bounded strip\nformat 1\ncontainer 10 1\nbox 6 2\nbox 6 2\nbox 6 2\nbox 6 2\nresult least 8\nplace 0 0\nplace 0 2\nplace 0 4\nplace 0 6\nproof\nx\nend\n",
        "refused 14 conflict\n",
    ),
    (
        b"bounded strip\nformat 1\ncontainer 10 1\nbox 6 2\nbox 6 2\nbox 6 2\nbox 6 2\nresult least 8\nplace 0 0\nplace 0 2\nplace 0 4\nplace 0 6\nproof\nt 1 1\nend\n",
        "refused 14 side\n",
    ),
    (
        b"bounded strip\nformat 1\ncontainer 10 1\nbox 6 2\nbox 6 2\nbox 6 2\nbox 6 2\nresult least 8\nplace 0 0\nplace 0 2\nplace 0 4\nplace 0 6\nproof\nv id id\nend\n",
        "refused 14 excess\n",
    ),
    (
        b"bounded strip\nformat 1\ncontainer 10 1\nbox 6 2\nbox 6 2\nbox 6 2\nbox 6 2\nresult least 8\nplace 0 0\nplace 0 2\nplace 0 4\nplace 0 6\nproof\nk 2 1 2 3 4\nk 2 1\nend\n",
        "refused 15 after\n",
    ),
    (
        b"bounded strip\nformat 1\ncontainer 10 1\nbox 6 2\nbox 6 2\nbox 6 2\nbox 6 2\nresult least 8\nplace 0 0\nplace 0 2\nplace 0 4\nplace 0 6\nproof\nk 2 1 2 3 4\nx\nend\n",
        "refused 15 after\n",
    ),
    (
        b"bounded strip\nformat 1\ncontainer 10 1\nbox 6 2\nbox 6 2\nbox 6 2\nbox 6 2\nresult least 8\nplace 0 0\nplace 0 2\nplace 0 4\nplace 0 6\nproof\nk 2 1 2 3 4\nend\nend\n",
        "refused 16 after\n",
    ),
    (
        b"bounded strip\nformat 1\ncontainer 10 1\nbox 6 2\nbox 6 2\nbox 6 2\nbox 6 2\nresult least 8\nplace 0 0\nplace 0 2\nplace 0 4\nplace 0 6\nproof\nk 2 1 2 3 4\nproof\nend\n",
        "refused 15 form\n",
    ),
    (
        b"bounded strip\nformat 1\ncontainer 10 1\nbox 6 2\nbox 6 2\nbox 6 2\nbox 6 2\nresult least 8\nplace 0 0\nplace 0 2\nplace 0 4\nplace 0 6\nproof\nk 2 1 2 3 4\n",
        "refused 15 short\n",
    ),
    (
        b"bounded strip\nformat 1\ncontainer 5 1\nbox 6 2\nresult none\nt 1 1\nk 2 1\nend\n",
        "refused 7 form\n",
    ),
    (b"bounded strips\n", "refused 1 form\n"),
    (
        b"reduced strip\nformat 1\ncontainer 10 1\nbox 6 2\nbox 6 2\nbox 6 2\nbox 6 2\nresult least 8\nplace 0 0\nplace 0 2\nplace 0 4\nplace 0 6\nproof\nk 2 1 2 3 4\nend\n",
        "refused 14 form\n",
    ),
];

#[test]
fn other_families_are_refused(rt: HostRuntime) -> Result<(), Fail> {
    for row in &REFUSED {
        let (document, line) = *row;
        assert!(rt; tells(&rt, AUDIT, document, 1, line)?, "{line}");
    }
    Ok(())
}

#[test]
fn check_refuses_bounded_strips(rt: HostRuntime) -> Result<(), Fail> {
    for row in &VERIFIED {
        let (document, _) = *row;
        assert!(rt; tells(&rt, &["check"], document, 1, "refused 1 form\n")?);
    }
    Ok(())
}

// The line `k` is refused, and nothing behind its line feed is read.
const DAMAGED: &[u8] =
    b"bounded strip\nformat 1\ncontainer 10 1\nbox 5 2\nbox 5 2\nresult least 2\nplace 0 0\nplace 5 0\nproof\nk 2 1 2\nend\n";

#[test]
fn audit_reads_no_byte_behind_a_refused_family(rt: HostRuntime) -> Result<(), Fail> {
    let line = "refused 10 choice\n";
    assert!(rt; tells(&rt, AUDIT, DAMAGED, 1, line)?);
    assert!(rt; run_with_read_fault(&rt, AUDIT, DAMAGED, DAMAGED.len() - 4)?.is_line(1, line));
    Ok(())
}
