//! The least sizes of two boxes, and what `front` refuses.
use crate::asked::{ends, is_refused, stops_writing, writes};
use crate::texts::UNIT;
use std::test::Fail;

const PAIR: &[u8] = b"format 1\ncontainer 4 4\nbox 2 1\nbox 2 1\n";

const PAIR_FRONT: &[u8] =
    b"front\nformat 1\ncontainer 4 4\nbox 2 1\nbox 2 1\nresult front 2\ncorner 1 4\nt 1 1\npoint 2 2\nplace 0 0\nplace 0 1\ncorner 3 1\nx\npoint 4 1\nplace 0 0\nplace 2 0\nend\n";

const PLATE: &[u8] = b"format 1\ncontainer 10 10\nbox 2 1\n";

const PLATE_FRONT: &[u8] =
    b"front\nformat 1\ncontainer 10 10\nbox 2 1\nresult front 1\ncorner 1 10\nt 1 1\npoint 2 1\nplace 0 0\nend\n";

const PAIR_PART: &[u8] =
    b"front\nformat 1\ncontainer 4 4\nbox 2 1\nbox 2 1\nresult partial 0\nend\n";

// The second corner is narrower than its point asks for.
const NARROW_FRONT: &[u8] =
    b"front\nformat 1\ncontainer 4 4\nbox 2 1\nbox 2 1\nresult front 2\ncorner 1 4\nt 1 1\npoint 2 2\nplace 0 0\nplace 0 1\ncorner 2 1\nx\npoint 4 1\nplace 0 0\nplace 2 0\nend\n";

const SOLID: &[u8] = b"format 1\ncontainer 2 2 2\nbox 1 1 1\n";

const LARGE: &[u8] = b"format 1\ncontainer 2 2\nbox 3 1\n";

const LARGE_FRONT: &[u8] =
    b"front\nformat 1\ncontainer 2 2\nbox 3 1\nresult front 0\ncorner 2 2\nt 1 1\nend\n";

// Words, a text, the status of its front and the document.
const ROWS: [(&[&str], &[u8], u8, &[u8]); 6] = [
    (&["front"], PLATE, 0, PLATE_FRONT),
    (&["front"], PAIR, 0, PAIR_FRONT),
    (&["front", "--workers", "2"], PAIR, 0, PAIR_FRONT),
    (&["front", "--budget", "1"], PAIR, 3, PAIR_PART),
    (&["front"], LARGE, 1, LARGE_FRONT),
    (
        &["front"],
        UNIT,
        0,
        b"front\nformat 1\ncontainer 1 1\nbox 1 1\nresult front 1\npoint 1 1\nplace 0 0\nend\n",
    ),
];

#[test]
fn front_has_the_documents_of_the_rows(rt: HostRuntime) -> Result<(), Fail> {
    for row in &ROWS {
        let (words, text, status, document) = *row;
        assert!(rt; writes(&rt, words, text, status, document)?, "{status}");
    }
    Ok(())
}

#[test]
fn audit_reads_documents_of_fronts(rt: HostRuntime) -> Result<(), Fail> {
    let rows: [(&[u8], u8, &[u8]); 5] = [
        (PAIR_FRONT, 0, b"verified front 2\n"),
        (PLATE_FRONT, 0, b"verified front 1\n"),
        (LARGE_FRONT, 0, b"verified front 0\n"),
        (PAIR_PART, 0, b"verified front partial 0\n"),
        (NARROW_FRONT, 1, b"refused 14 range\n"),
    ];
    for (document, status, line) in rows {
        assert!(rt;
            writes(&rt, &["audit"], document, status, line)?,
            "{status}"
        );
    }
    for job in ["check", "explain"] {
        assert!(rt;
            writes(&rt, &[job], PAIR_FRONT, 1, b"refused 1 form\n")?,
            "{job}"
        );
    }
    Ok(())
}

#[test]
fn front_needs_two_dimensions(rt: HostRuntime) -> Result<(), Fail> {
    let flat = "pack: front needs two dimensions\n";
    assert!(rt; is_refused(&rt, &["front"], SOLID, flat)?);
    let faulty = b"format 1\ncontainer 5 5 5\nbox 0 1 1\n";
    assert!(rt; is_refused(&rt, &["front"], faulty, "pack: line 3: code 4\n")?);
    assert!(rt; ends(&rt, &["front", "--number", "3"], SOLID, 2)?);
    Ok(())
}

#[test]
fn a_write_that_fails_leaves_the_front_of_the_document(rt: HostRuntime) -> Result<(), Fail> {
    for count in 0..LARGE_FRONT.len() {
        assert!(rt;
            stops_writing(&rt, &["front"], LARGE, count, LARGE_FRONT)?,
            "{count}"
        );
    }
    Ok(())
}
