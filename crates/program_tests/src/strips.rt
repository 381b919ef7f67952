//! Strips, each document whole.
use crate::asked::has_128_boxes;
use crate::rows::{Solved, is_solved};
use crate::texts::STRIP;
use std::test::Fail;

const TOO_WIDE: &[u8] = b"format 1\ncontainer 10 10\nbox 11 2\n";

const TOO_WIDE_BEHIND: &[u8] = b"format 1\ncontainer 3 3 7\nbox 1 1 9\nbox 3 4 1\nbox 4 4 1\n";

const KERF: &[u8] = b"format 2\ncontainer 10 1\nkerf 0 1\nbox 10 3\nbox 10 3\n";

const CUBES: &[u8] = b"format 1\ncontainer 4 3 1\nbox 2 3 2\nbox 2 3 3\nbox 4 1 2\nbox 3 2 1\n";

const FOUR_DIMENSIONS: &[u8] =
    b"format 1\ncontainer 2 2 2 1\nbox 2 2 1 1\nbox 2 2 1 2\nbox 1 2 2 1\nbox 1 2 2 2\n";

const HIGH: &[u8] =
    b"format 1\ncontainer 2 1\nbox 1 1000000\nbox 1 1000000\nbox 2 1000000\nbox 1 500000\n";

const ALONE: &[u8] = b"format 1\ncontainer 3 3 7\nbox 3 3 9\n";

const LEAST_5: &[u8] = b"result least 5\nplace 0 0\nplace 0 3\nplace 6 0\nproof\nx\nend\n";

const ROWS: [Solved; 10] = [
    (&["strip"], STRIP, 0, LEAST_5),
    (&["strip", "--budget", "3"], STRIP, 0, LEAST_5),
    (
        &["strip", "--budget", "2"],
        STRIP,
        3,
        b"result between 4 9\nplace 0 0\nplace 0 3\nplace 0 5\nproof\nx\nend\n",
    ),
    (&["strip"], TOO_WIDE, 1, b"result none\nt 1 1\nend\n"),
    (&["strip"], TOO_WIDE_BEHIND, 1, b"result none\nt 2 2\nend\n"),
    (
        &["strip"],
        KERF,
        0,
        b"result least 7\nplace 0 0\nplace 0 4\nproof\nx\nend\n",
    ),
    (
        &["strip"],
        CUBES,
        0,
        b"result least 5\nplace 0 0 0\nplace 2 0 0\nplace 0 0 3\nplace 0 1 3\nproof\nx\nend\n",
    ),
    (
        &["strip", "--scales", "no"],
        FOUR_DIMENSIONS,
        0,
        b"result least 4\nplace 0 0 0 0\nplace 0 0 1 0\nplace 0 0 0 2\nplace 1 0 0 2\nproof\nx\nend\n",
    ),
    (
        &["strip"],
        HIGH,
        0,
        b"result least 2500000\nplace 0 0\nplace 1 0\nplace 0 1000000\nplace 0 2000000\nproof\nx\nend\n",
    ),
    (
        &["strip", "--budget", "0"],
        ALONE,
        0,
        b"result least 9\nplace 0 0 0\nproof\nt 1 3\nend\n",
    ),
];

#[test]
fn strips_have_the_documents_of_the_rows(rt: HostRuntime) -> Result<(), Fail> {
    for row in &ROWS {
        assert!(rt; is_solved(&rt, b"answer strip\n", row)?);
    }
    Ok(())
}

const STACK: &[u8] = b"format 2\ncontainer 1000000 1\nbox 1000000 1000000 times 128\n";

#[test]
fn the_highest_strip_is_a_stack_of_128_boxes(rt: HostRuntime) -> Result<(), Fail> {
    let end = b"place 0 126000000\nplace 0 127000000\nproof\nv id id\nend\n";
    assert!(rt; has_128_boxes(&rt, &["strip", "--budget", "0"], STACK, end)?);
    Ok(())
}
