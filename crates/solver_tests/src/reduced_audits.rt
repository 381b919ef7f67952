//! Reduced documents that stand in memory, and the audit of each.
use document_check::{Audit, audit_document};
use std::alloc::Global;
use std::test::Fail;
use text_terms::Claim;
use verdict_terms::{Heading, Reason, RefuseCode};

// The most bytes that an audit takes.
const MOST_BYTES: usize = 1_099_511_627_776;

// Whether the audit refuses the document at this line with this code.
fn refuses(alloc: Global, document: &[u8], at: u64, why: RefuseCode) -> bool {
    if document.len() > MOST_BYTES {
        return false;
    }
    match audit_document(alloc, Heading::Reduced, document) {
        Audit::Refused {
            line,
            reason: Reason::Token { code },
        } => line == at && code == why,
        _ => false,
    }
}

// Whether the audit verifies the document, with this claim.
fn is_verified(alloc: Global, document: &[u8], claim: Claim) -> bool {
    if document.len() > MOST_BYTES {
        return false;
    }
    audit_document(alloc, Heading::Reduced, document) == Audit::Verified(claim)
}

// Documents that are verified, with their claims.
const VERIFIED: [(&[u8], Claim); 5] = [
    (
        b"reduced fit\nformat 1\ncontainer 10 10\nbox 3 6\nbox 3 6\nbox 3 6\nbox 3 6\nresult no\nx\nend\n",
        Claim::NotFitting,
    ),
    (
        b"reduced fit\nformat 1\ncontainer 10 10\nbox 6 4\nbox 6 6\nresult yes\nplace 0 0\nplace 0 4\nend\n",
        Claim::Fitting,
    ),
    (
        b"reduced strip\nformat 1\ncontainer 10 1\nbox 3 6\nbox 3 6\nbox 3 6\nbox 3 6\nresult least 12\nplace 0 0\nplace 3 0\nplace 6 0\nplace 0 6\nproof\nx\nend\n",
        Claim::LeastHeight { height: 12 },
    ),
    (
        b"reduced strip\nformat 1\ncontainer 10 1\nbox 3 6\nbox 3 6\nbox 3 6\nbox 3 6\nresult between 11 24\nplace 0 0\nplace 0 6\nplace 0 12\nplace 0 18\nproof\nx\nend\n",
        Claim::HeightBetween {
            refuted: 11,
            placed: 24,
        },
    ),
    (
        b"reduced strip\nformat 1\ncontainer 10 1\nbox 11 2\nresult none\nt 1 1\nend\n",
        Claim::NoHeight,
    ),
];

// Documents that are refused, with the line and why.
const REFUSED: [(&[u8], u64, RefuseCode); 5] = [
    (PLAIN, 1, RefuseCode::Kind),
    (
        b"reduced fit\nformat 1\ncontainer 10 10\nbox 3 6\nbox 3 6\nbox 3 6\nresult no\nx\nend\n",
        8,
        RefuseCode::Conflict,
    ),
    (
        b"reduced strip\nformat 1\ncontainer 10 1\nbox 3 6\nbox 3 6\nbox 3 6\nresult least 12\nplace 0 0\nplace 3 0\nplace 0 6\nproof\nx\nend\n",
        12,
        RefuseCode::Conflict,
    ),
    (
        b"reduced strip\nformat 1\ncontainer 10 1\nbox 3 6\nbox 3 6\nbox 3 6\nbox 3 6\nresult least 12\nplace 0 0\nplace 3 0\nplace 6 0\nplace 0 6\nproof\nd 1 1 2\nx\nx\nend\n",
        14,
        RefuseCode::Choice,
    ),
    (b"reduced bins\n", 1, RefuseCode::Kind),
];

// An answer, which has a heading of its own.
const PLAIN: &[u8] =
    b"answer fit\nformat 1\ncontainer 10 10\nbox 3 6\nresult yes\nplace 0 0\nend\n";

#[test]
fn rows_are_audited(rt: HostRuntime) -> Result<(), Fail> {
    for (document, claim) in VERIFIED {
        assert!(rt; is_verified(rt.alloc(), document, claim));
    }
    for (document, at, why) in REFUSED {
        assert!(rt; refuses(rt.alloc(), document, at, why));
    }
    Ok(())
}

#[test]
fn an_answer_is_audited_under_its_own_heading(rt: HostRuntime) -> Result<(), Fail> {
    let audit = audit_document(rt.alloc(), Heading::Answer, PLAIN);
    assert!(rt; audit == Audit::Verified(Claim::Fitting));
    Ok(())
}

// Documents with a tree.
const TREES: [&[u8]; 4] = [
    b"reduced fit\nformat 1\ncontainer 17 17\nbox 9 9\nbox 8 8\nbox 7 7\nbox 6 6\nbox 5 5\nbox 4 4\nbox 3 3\nbox 2 2\nbox 1 1\nresult no\na 1 1 2\na 1 1 3\nd 2 2 3\na 1 1 4\nx\nd 2 1 4\na 1 2 4\na 1 1 5\nx\nx\na 1 1 5\nx\nx\na 1 1 5\nx\nx\na 1 1 4\nx\nd 2 1 4\na 1 3 4\na 1 1 5\nx\nx\na 1 1 5\nx\nx\na 1 2 4\na 1 1 5\nx\nx\na 1 1 5\nx\nx\nd 2 1 3\na 1 2 3\na 1 1 4\nd 2 2 4\na 1 1 5\nx\nx\na 1 3 4\na 1 1 5\nx\nx\na 1 1 5\nx\nx\na 1 1 5\nx\nx\na 1 1 4\na 1 1 5\nx\nx\na 1 2 4\na 1 1 5\nx\nx\nx\na 1 2 3\na 1 1 4\nd 2 2 4\na 1 1 5\nx\nx\na 1 1 5\nx\nx\na 1 1 5\nx\nx\na 1 1 4\na 1 1 5\nx\nx\na 1 2 4\na 1 1 5\nx\nx\nx\na 1 1 3\nd 1 1 3\na 1 2 3\na 1 1 4\na 1 2 4\nd 2 3 4\na 1 1 5\nx\nx\na 1 1 5\nx\nx\na 1 1 5\nx\nx\na 1 1 5\nx\nx\na 1 1 4\na 1 1 5\nx\nx\nd 1 2 4\nx\na 1 1 5\nx\nx\na 1 2 3\na 1 1 4\na 1 2 4\nd 2 3 4\na 1 1 5\nx\nx\na 1 1 5\nx\nx\na 1 1 5\nx\nx\na 1 1 5\nx\nx\na 1 1 4\na 1 1 5\nx\nx\nd 1 2 4\na 1 1 5\nx\nx\nx\nd 1 2 3\na 1 1 4\nd 1 1 4\na 1 1 5\nx\nx\na 1 1 5\nx\nx\nx\na 1 1 4\nd 1 1 4\na 1 1 5\nx\nx\na 1 1 5\nx\nx\nx\nend\n",
    b"reduced fit\nformat 1\ncontainer 20 20\nbox 1 13\nbox 11 7\nbox 1 9\nbox 10 11\nbox 1 8\nbox 2 9\nbox 8 9\nbox 10 5\nbox 6 1\nbox 6 4\nbox 3 3\nbox 2 1\nbox 2 1\nresult no\na 1 4 7\nd 1 4 7\na 1 4 10\na 1 2 10\nd 2 7 10\na 1 4 6\nx\nx\nx\na 1 4 6\nx\nx\nx\na 1 4 10\na 1 2 10\nd 2 7 10\na 1 4 6\nx\nx\nx\na 1 4 6\nx\nx\nx\nd 1 2 7\nd 1 4 8\nx\na 1 4 10\na 1 4 6\nx\nx\nx\nd 1 4 8\na 1 4 10\na 1 4 6\nx\nx\nx\nx\nend\n",
    b"reduced fit\nformat 1\ncontainer 24 22\nbox 4 5\nbox 1 9\nbox 23 1\nbox 5 13\nbox 3 2\nbox 10 21\nbox 9 21\nbox 5 1\nresult no\nd 1 4 6\nx\nd 1 4 7\nx\nx\nend\n",
    b"reduced fit\nformat 1\ncontainer 20 20\nbox 8 12\nbox 3 11\nbox 12 8\nbox 2 2\nbox 3 11\nbox 6 1\nbox 4 7\nbox 11 4\nbox 14 2\nbox 4 8\nresult no\nd 2 1 8\na 1 1 10\nx\nx\na 1 1 10\nx\nx\nend\n",
];

#[test]
fn trees_with_splits_are_verified(rt: HostRuntime) -> Result<(), Fail> {
    for document in TREES {
        assert!(rt; is_verified(rt.alloc(), document, Claim::NotFitting));
    }
    Ok(())
}
