//! Documents that are verified, each with its line: the rows of the solving jobs, other spellings,
//! trees that no search wrote, and kerfs.
use crate::rows::{Checked, is_checked};
use std::test::Fail;

const VERIFIED: [Checked; 22] = [
    (
        b"answer fit\nformat 1\ncontainer 10 10\nbox 6 4\nbox 6 6\nresult yes\nplace 0 0\nplace 0 4\nend\n",
        "verified fit yes\n",
    ),
    (
        b"answer fit\nformat 1\ncontainer 10 10\nbox 6 4\nbox 6 6\nresult yes\nplace 0 0\nplace 0 4\nend",
        "verified fit yes\n",
    ),
    (
        b"answer fit\nformat 1\ncontainer 10 10\nbox 6 4\nbox 6 6\nresult yes\nplace 0 0\nplace 0 4\nend\n \t # rest\r\n\n",
        "verified fit yes\n",
    ),
    (
        b"# a comment\r\n\nanswer fit\nformat 1\ncontainer 10 10\nbox 6 4\nbox 6 6\nresult yes\nplace 0 0\n  place\t000 04 # behind\nend\n",
        "verified fit yes\n",
    ),
    (
        b"answer fit\nformat 1\ncontainer 10 10\nbox 6 6\nbox 6 6\nresult no\nx\nend\n",
        "verified fit no\n",
    ),
    (
        b"answer fit\nformat 1\ncontainer 10 10\nbox 3 6\nbox 3 6\nbox 3 6\nbox 3 6\nresult no\nd 1 1 2\nd 1 1 3\nd 1 2 3\nx\nx\nx\nd 1 1 3\nx\nd 1 2 3\nx\nx\nend\n",
        "verified fit no\n",
    ),
    (
        b"answer fit\nformat 1\ncontainer 10 10\nbox 3 6\nbox 3 6\nbox 3 6\nbox 3 6\nresult no\nv id step 1\nend\n",
        "verified fit no\n",
    ),
    (
        b"answer strip\nformat 1\ncontainer 10 1\nbox 6 3\nbox 6 2\nbox 4 4\nresult least 5\nplace 0 0\nplace 0 3\nplace 6 0\nproof\nx\nend\n",
        "verified strip least 5\n",
    ),
    (
        b"answer strip\nformat 1\ncontainer 10 1\nbox 6 3\nbox 6 2\nbox 4 4\nresult least 005\nplace 0 0\nplace 0 3\nplace 6 0\nproof\nx\nend\n",
        "verified strip least 5\n",
    ),
    (
        b"answer strip\nformat 1\ncontainer 10 1\nbox 6 3\nbox 6 2\nbox 4 4\nresult between 4 9\nplace 0 0\nplace 0 3\nplace 0 5\nproof\nx\nend\n",
        "verified strip between 4 9\n",
    ),
    (
        b"answer strip\nformat 1\ncontainer 10 10\nbox 11 2\nresult none\nt 1 1\nend\n",
        "verified strip none\n",
    ),
    (
        b"answer bins\nformat 1\ncontainer 10 10\nbox 10 5\nbox 10 5\nbox 10 5\nresult least 2\nplace 1 0 0\nplace 1 0 5\nplace 2 0 0\nproof\ng id id\nend\n",
        "verified bins least 2\n",
    ),
    (
        b"answer bins\nformat 1\ncontainer 10 10\nbox 10 5\nbox 10 5\nbox 10 5\nresult between 1 3\nplace 1 0 0\nplace 1 0 5\nplace 3 0 0\nproof\ng id id\nend\n",
        "verified bins between 1 3\n",
    ),
    (
        b"answer bins\nformat 1\ncontainer 10 10\nbox 2 11\nresult none\nt 1 2\nend\n",
        "verified bins none\n",
    ),
    (
        b"answer bins\nformat 1\ncontainer 10 10\nbox 6 6\nbox 6 6\nbox 6 6\nresult least 3\nplace 1 0 0\nplace 2 0 0\nplace 3 0 0\nproof\nb 1\nb 2\ns 1\nx\nb 3\ns 1\nx\ns 2\nx\nend\n",
        "verified bins least 3\n",
    ),
    (
        b"answer knapsack\nformat 1\ncontainer 10 10\nbox 6 6 value 5\nbox 6 6 value 4\nbox 4 4 value 3\nresult greatest 8\ntake 1 0 0\ntake 3 6 0\nproof\nc 1\nc 2\ns\nx\nw\nw\nend\n",
        "verified knapsack greatest 8\n",
    ),
    (
        b"answer knapsack\nformat 1\ncontainer 10 10\nbox 6 6 value 5\nbox 6 6 value 4\nbox 4 4 value 3\nresult between 8 9\ntake 1 0 0\ntake 3 6 0\nproof\nc 1\nc 2\ns\nx\nw\nw\nend\n",
        "verified knapsack between 8 9\n",
    ),
    (
        b"answer knapsack\nformat 1\ncontainer 1 1\nbox 2 2\nresult greatest 0\nproof\nc 1\ns\nt 1 1\nw\nend\n",
        "verified knapsack greatest 0\n",
    ),
    (
        b"answer fit\nformat 2\ncontainer 10 10\nkerf 1 1\nbox 5 5\nbox 5 5\nresult no\nx\nend\n",
        "verified fit no\n",
    ),
    (
        b"answer fit\nformat 2\ncontainer 10 10\nkerf 2 0\nbox 4 10\nbox 4 10\nresult yes\nplace 0 0\nplace 6 0\nend\n",
        "verified fit yes\n",
    ),
    (
        b"answer strip\nformat 2\ncontainer 10 1\nkerf 0 1\nbox 10 3\nbox 10 3\nresult least 7\nplace 0 0\nplace 0 4\nproof\nx\nend\n",
        "verified strip least 7\n",
    ),
    (
        b"answer fit\nformat 2\ncontainer 5 5\nbox 1 1 times 2\nresult yes\nplace 0 0\nplace 1 0\nend\n",
        "verified fit yes\n",
    ),
];

#[test]
fn documents_of_all_claims_are_verified(rt: HostRuntime) -> Result<(), Fail> {
    for row in &VERIFIED {
        assert!(rt; is_checked(&rt, 0, row)?, "{}", row.1);
    }
    Ok(())
}
