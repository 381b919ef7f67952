//! Documents of fronts that stand in memory, and the audit of each.
use document_audits::{FrontAudit, audit_front_document};
use std::alloc::Global;
use std::test::Fail;
use verdict_terms::{Reason, RefuseCode};

const FORM: Reason = Reason::Token {
    code: RefuseCode::Kind,
};

const RANGE: Reason = Reason::Token {
    code: RefuseCode::Range,
};

const AFTER: Reason = Reason::Token {
    code: RefuseCode::After,
};

// Two boxes of 2 by 1, in a container of 4 by 4.
const PAIR: &[u8] = b"front\nformat 1\ncontainer 4 4\nbox 2 1\nbox 2 1\n";

// A document with these lines behind those of the pair.
fn of_pair(alloc: Global, rest: &[u8]) -> Result<Vec<u8>, Fail> {
    let mut document = Vec::from_slice(alloc, PAIR)?;
    document.extend_from_slice(rest)?;
    Ok(document)
}

// Whether such a document is refused at this line for this reason.
fn refuses(alloc: Global, rest: &[u8], line: u64, reason: Reason) -> Result<bool, Fail> {
    let document = of_pair(alloc, rest)?;
    let found = audit_front_document(alloc, document.as_slice());
    Ok(found == FrontAudit::Refused { line, reason })
}

// Whether it is verified with this claim.
fn verifies(alloc: Global, rest: &[u8], complete: bool, points: u32) -> Result<bool, Fail> {
    let document = of_pair(alloc, rest)?;
    let found = audit_front_document(alloc, document.as_slice());
    Ok(found == FrontAudit::Verified { complete, points })
}

const TWO_POINTS: &[u8] =
    b"result front 2\ncorner 1 4\nt 1 1\npoint 2 2\nplace 0 0\nplace 0 1\ncorner 3 1\nx\npoint 4 1\nplace 0 0\nplace 2 0\nend\n";

const SPACED: &[u8] =
    b"\n# two points\n result  front 02\r\ncorner 1 4\n\nt 1 1\npoint 2 2\n\nplace 0 0\nplace 0 1 # on top\ncorner 3 1\nx\npoint 4 1\nplace 0 0\n\nplace 2 0\nend\n# that's all";

const PART: &[u8] =
    b"result partial 1\ncorner 1 4\nt 1 1\npoint 2 2\nplace 0 0\nplace 0 1\ncorner 2 1\nx\nend\n";

// Lines behind those of the pair, whether the front is complete, and its points.
const VERIFIED: [(&[u8], bool, u32); 4] = [
    (TWO_POINTS, true, 2),
    (SPACED, true, 2),
    (PART, false, 1),
    (b"result partial 0\nend\n", false, 0),
];

// Whole documents of complete fronts, and their points.
const OTHERS: [(&[u8], u32); 2] = [
    (
        b"front\nformat 1\ncontainer 2 2\nbox 3 1\nresult front 0\ncorner 2 2\nt 1 1\nend\n",
        0,
    ),
    (
        b"front\nformat 1\ncontainer 1 1\nbox 1 1\nresult front 1\npoint 1 1\nplace 0 0\nend",
        1,
    ),
];

#[test]
fn fronts_are_verified(rt: HostRuntime) -> Result<(), Fail> {
    for row in &VERIFIED {
        let (lines, complete, points) = *row;
        assert!(rt; verifies(rt.alloc(), lines, complete, points)?);
    }
    for (document, points) in OTHERS {
        let verified = FrontAudit::Verified {
            complete: true,
            points,
        };
        assert!(rt; audit_front_document(rt.alloc(), document) == verified);
    }
    Ok(())
}

// A document or the lines behind those of the pair, the line that is refused, and why.
type Row = (&'static [u8], u64, Reason);

const WHOLE: [Row; 8] = [
    (b"", 1, Reason::TooShort),
    (b"\n# nothing\n", 3, Reason::TooShort),
    (b"fronts\n", 1, FORM),
    (b"front 1\n", 1, FORM),
    (b"front\x07\n", 1, FORM),
    (
        b"front\nformat 1\ncontainer 4\n",
        3,
        Reason::Text { code: 2 },
    ),
    (
        b"front\nformat 1\ncontainer 4 4\nresult front 0\n",
        4,
        Reason::Text { code: 10 },
    ),
    (
        b"front\nformat 1\ncontainer 2 2 2\nbox 1 1 1\nresult front\n",
        5,
        FORM,
    ),
];

const RESULTS: [Row; 8] = [
    (b"", 6, Reason::TooShort),
    (b"result front\n", 6, FORM),
    (b"result whole 1\n", 6, FORM),
    (b"result front 1 1\n", 6, FORM),
    (b"result front x\n", 6, FORM),
    (b"result front 1000001\n", 6, RANGE),
    (b"result front 1000000\n", 7, Reason::TooShort),
    (b"result partial 99999999999999999999\n", 6, RANGE),
];

#[test]
fn lines_up_to_the_result_are_refused(rt: HostRuntime) -> Result<(), Fail> {
    for row in &WHOLE {
        let (document, line, reason) = *row;
        let refused = FrontAudit::Refused { line, reason };
        assert!(rt;
            audit_front_document(rt.alloc(), document) == refused,
            "{line}"
        );
    }
    for row in &RESULTS {
        let (lines, line, reason) = *row;
        assert!(rt; refuses(rt.alloc(), lines, line, reason)?, "{line}");
    }
    Ok(())
}

const CORNERS: [Row; 23] = [
    (b"result front 1\ncorner 1 3\n", 7, RANGE),
    (b"result front 1\ncorner 4 4\n", 7, RANGE),
    (b"result front 1\ncorner 0 4\n", 7, RANGE),
    (b"result front 1\ncorner 99999999999999999999 4\n", 7, RANGE),
    (b"result front 1\ncorner 1 4294967300\n", 7, RANGE),
    (b"result front 1\ncorner 1\n", 7, FORM),
    (b"result front 1\npoint 2 2\n", 7, RANGE),
    (b"result front 1\npoint 1 5\n", 7, RANGE),
    (b"result front 1\npoint 1 0\n", 7, RANGE),
    (b"result front 1\nplace 0 0\n", 7, FORM),
    (b"result front 1\nt 1 1\n", 7, FORM),
    (b"result front 1\nend\n", 7, FORM),
    (b"result front 1\n\x07\n", 7, FORM),
    (b"result front 1\ncorner 1 4\n", 8, Reason::TooShort),
    (b"result partial 0\ncorner 4 4\n", 7, FORM),
    (b"result front 0\nend\n", 7, FORM),
    (b"result front 0\npoint 1 1\n", 7, FORM),
    (
        b"result front 2\ncorner 1 4\nt 1 1\npoint 2 2\nplace 0 0\nplace 0 1\ncorner 2 1\nx\npoint 4 1\n",
        14,
        RANGE,
    ),
    (
        b"result front 2\ncorner 1 4\nt 1 1\npoint 2 2\nplace 0 0\nplace 0 1\npoint 3 1\n",
        12,
        FORM,
    ),
    (
        b"result partial 1\ncorner 1 4\nt 1 1\npoint 2 2\nplace 0 0\nplace 0 1\ncorner 3 1\n",
        12,
        RANGE,
    ),
    (
        b"result partial 1\ncorner 1 4\nt 1 1\npoint 2 2\nplace 0 0\nplace 0 1\nend\n",
        12,
        FORM,
    ),
    (b"result partial 0\nend\nend\n", 8, AFTER),
    (b"result partial 0\nend\n\x07\n", 8, AFTER),
];

#[test]
fn corners_and_points_are_refused(rt: HostRuntime) -> Result<(), Fail> {
    for row in &CORNERS {
        let (lines, line, reason) = *row;
        assert!(rt; refuses(rt.alloc(), lines, line, reason)?, "{line}");
    }
    Ok(())
}

const TREES: [Row; 13] = [
    (b"result front 1\ncorner 1 4\nend\n", 8, Reason::TooShort),
    (b"result front 1\ncorner 1 4\npoint 2 2\n", 8, FORM),
    (
        b"result front 1\ncorner 2 4\nt 1 1\n",
        8,
        Reason::Token {
            code: RefuseCode::Side,
        },
    ),
    (b"result front 1\ncorner 1 4\nt 1 1\nt 1 1\n", 9, AFTER),
    (b"result front 1\ncorner 1 4\nt 1 1\nend\n", 9, FORM),
    (
        b"result front 1\ncorner 1 4\nt 1 1\npoint 2 2\nplace 0 0\nend\n",
        11,
        FORM,
    ),
    (
        b"result front 1\ncorner 1 4\nt 1 1\npoint 2 2\nplace 0 0\n",
        11,
        Reason::TooShort,
    ),
    (
        b"result front 1\ncorner 1 4\nt 1 1\npoint 2 2\nx\n",
        10,
        FORM,
    ),
    (
        b"result front 1\ncorner 1 4\nt 1 1\npoint 2 2\nplace 4294967296 0\n",
        10,
        RANGE,
    ),
    (
        b"result front 1\ncorner 1 4\nt 1 1\npoint 2 2\nplace 0\n",
        10,
        FORM,
    ),
    (
        b"result front 1\ncorner 1 4\nt 1 1\npoint 2 2\nplace 0 0\nplace 0 2\n",
        11,
        Reason::OutsideAt { box_no: 2, dim: 2 },
    ),
    (
        b"result front 1\ncorner 1 4\nt 1 1\npoint 2 2\nplace 0 0\nplace 0 0\n",
        11,
        Reason::OverlapAt {
            first: 1,
            second: 2,
        },
    ),
    (
        b"result front 1\ncorner 1 4\nt 1 1\npoint 2 2\nplace 0 0\nplace 0 1\nx\n",
        12,
        FORM,
    ),
];

#[test]
fn trees_and_places_are_refused(rt: HostRuntime) -> Result<(), Fail> {
    for row in &TREES {
        let (lines, line, reason) = *row;
        assert!(rt; refuses(rt.alloc(), lines, line, reason)?, "{line}");
    }
    Ok(())
}
