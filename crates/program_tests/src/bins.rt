//! Bins, each document whole.
use crate::asked::has_128_boxes;
use crate::rows::{Solved, is_solved};
use crate::texts::PLANKS;
use std::test::Fail;

const LARGE: &[u8] = b"format 1\ncontainer 10 10\nbox 6 6\nbox 6 6\n";

const ONE_EACH: &[u8] = b"format 1\ncontainer 3 3\nbox 2 2\nbox 2 2\nbox 2 3\n";

const TOO_LARGE: &[u8] = b"format 1\ncontainer 3 3\nbox 1 3\nbox 1 4\nbox 4 1\n";

const BLOCKS: &[u8] = b"format 1\ncontainer 2 2 2\nbox 2 2 1\nbox 2 1 2\nbox 1 2 2\n";

const KERF: &[u8] = b"format 2\ncontainer 9 9\nkerf 1 0\nbox 4 9\nbox 4 9\nbox 5 9\n";

const LEAST_2: &[u8] =
    b"result least 2\nplace 1 0 0\nplace 1 0 5\nplace 2 0 0\nproof\ng id id\nend\n";

const ROWS: [Solved; 9] = [
    (&["bins"], PLANKS, 0, LEAST_2),
    (&["bins", "--budget", "5"], PLANKS, 0, LEAST_2),
    (
        &["bins", "--budget", "4"],
        PLANKS,
        3,
        b"result between 1 3\nplace 1 0 0\nplace 2 0 0\nplace 3 0 0\nproof\ng id id\nend\n",
    ),
    (
        &["bins"],
        LARGE,
        0,
        b"result least 2\nplace 1 0 0\nplace 2 0 0\nproof\ng step 1 id\nend\n",
    ),
    (
        &["bins", "--scales", "no"],
        LARGE,
        0,
        b"result least 2\nplace 1 0 0\nplace 2 0 0\nproof\nb 1\nb 2\ns 1\nx\nend\n",
    ),
    (
        &["bins"],
        ONE_EACH,
        0,
        b"result least 3\nplace 1 0 0\nplace 2 0 0\nplace 3 0 0\nproof\ng step 1 id\nend\n",
    ),
    (&["bins"], TOO_LARGE, 1, b"result none\nt 2 2\nend\n"),
    (
        &["bins"],
        BLOCKS,
        0,
        b"result least 3\nplace 1 0 0 0\nplace 2 0 0 0\nplace 3 0 0 0\nproof\nb 1\nb 2\ns 1\nx\nb 3\ns 1\nx\ns 2\nx\nend\n",
    ),
    (
        &["bins"],
        KERF,
        0,
        b"result least 2\nplace 2 0 0\nplace 2 5 0\nplace 1 0 0\nproof\ng id id\nend\n",
    ),
];

#[test]
fn bins_have_the_documents_of_the_rows(rt: HostRuntime) -> Result<(), Fail> {
    for row in &ROWS {
        assert!(rt; is_solved(&rt, b"answer bins\n", row)?);
    }
    Ok(())
}

const FULL: &[u8] = b"format 2\ncontainer 1 1\nbox 1 1 times 128\n";

#[test]
fn the_most_bins_are_one_for_each_of_128_boxes(rt: HostRuntime) -> Result<(), Fail> {
    let end = b"place 127 0 0\nplace 128 0 0\nproof\ng id id\nend\n";
    assert!(rt; has_128_boxes(&rt, &["bins", "--budget", "0"], FULL, end)?);
    Ok(())
}
