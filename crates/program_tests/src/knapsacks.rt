//! Knapsacks, each document whole.
use crate::asked::has_128_boxes;
use crate::rows::{Solved, is_solved};
use crate::texts::SACK;
use std::test::Fail;

const BOTH: &[u8] = b"format 1\ncontainer 10 10\nbox 4 4 value 2\nbox 4 4 value 3\n";

const NONE: &[u8] = b"format 1\ncontainer 3 3\nbox 4 1 value 7\nbox 1 5 value 0\n";

const WORTHLESS: &[u8] = b"format 1\ncontainer 3 3\nbox 1 1 value 0\nbox 3 3 value 0\n";

const BLOCKS: &[u8] =
    b"format 1\ncontainer 2 2 2\nbox 2 2 1 value 3\nbox 2 1 2 value 4\nbox 1 2 2 value 5\n";

const KERF: &[u8] =
    b"format 2\ncontainer 9 9\nkerf 1 0\nbox 4 9 value 2\nbox 4 9 value 2\nbox 5 9 value 3\n";

const GREATEST_8: &[u8] =
    b"result greatest 8\ntake 1 0 0\ntake 3 6 0\nproof\nc 1\nc 2\ns\nx\nw\nw\nend\n";

const ROWS: [Solved; 8] = [
    (&["knapsack"], SACK, 0, GREATEST_8),
    (&["knapsack", "--budget", "6"], SACK, 0, GREATEST_8),
    (
        &["knapsack", "--budget", "5"],
        SACK,
        3,
        b"result between 0 13\nproof\nw\nend\n",
    ),
    (
        &["knapsack"],
        BOTH,
        0,
        b"result greatest 5\ntake 1 0 0\ntake 2 4 0\nproof\nw\nend\n",
    ),
    (
        &["knapsack"],
        NONE,
        0,
        b"result greatest 0\nproof\nc 2\ns\nt 1 2\nc 1\ns\nt 1 1\nw\nend\n",
    ),
    (
        &["knapsack"],
        WORTHLESS,
        0,
        b"result greatest 0\nproof\nw\nend\n",
    ),
    (
        &["knapsack"],
        BLOCKS,
        0,
        b"result greatest 5\ntake 3 0 0 0\nproof\nc 1\nc 2\ns\nx\nc 3\ns\nx\nw\nc 2\nc 3\ns\nx\nw\nw\nend\n",
    ),
    (
        &["knapsack"],
        KERF,
        0,
        b"result greatest 4\ntake 1 0 0\ntake 2 5 0\nproof\nc 3\nc 1\ns\nx\nc 2\ns\nx\nw\nw\nend\n",
    ),
];

#[test]
fn knapsacks_have_the_documents_of_the_rows(rt: HostRuntime) -> Result<(), Fail> {
    for row in &ROWS {
        assert!(rt; is_solved(&rt, b"answer knapsack\n", row)?);
    }
    Ok(())
}

const MANY: &[u8] = b"format 2\ncontainer 1 1\nbox 1 1 value 9\nbox 1 1 value 0 times 127\n";

#[test]
fn one_of_128_boxes_is_taken(rt: HostRuntime) -> Result<(), Fail> {
    let end = b"result greatest 9\ntake 1 0 0\nproof\nw\nend\n";
    assert!(rt; has_128_boxes(&rt, &["knapsack", "--budget", "1"], MANY, end)?);
    Ok(())
}
