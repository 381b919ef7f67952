//! Documents that are refused by what they show, each with its line: their places, their trees,
//! their end.
use crate::rows::{Checked, is_checked};
use std::test::Fail;

const PLACES: [Checked; 13] = [
    (
        b"answer fit\nformat 1\ncontainer 10 10\nbox 6 4\nbox 6 6\nresult undecided\nend\n",
        "refused 6 claim\n",
    ),
    (
        b"answer fit\nformat 1\ncontainer 10 10\nbox 6 4\nbox 6 6\nresult yes\nplace 0 0\nplace 0 3\nend\n",
        "refused 8 overlap 1 2\n",
    ),
    (
        b"answer fit\nformat 1\ncontainer 10 10\nbox 6 4\nbox 6 6\nresult yes\nplace 0 0\nplace 0 5\nend\n",
        "refused 8 outside 2 2\n",
    ),
    (
        b"answer fit\nformat 1\ncontainer 10 10\nbox 6 4\nbox 6 6\nresult yes\nplace 5 0\nplace 5 0\nend\n",
        "refused 8 outside 1 1\n",
    ),
    (
        b"answer fit\nformat 2\ncontainer 10 10\nkerf 2 0\nbox 4 10\nbox 4 10\nresult yes\nplace 0 0\nplace 5 0\nend\n",
        "refused 9 overlap 1 2\n",
    ),
    (
        b"answer fit\nformat 2\ncontainer 10 10\nkerf 2 0\nbox 4 10\nbox 4 10\nresult yes\nplace 0 0\nplace 7 0\nend\n",
        "refused 9 outside 2 1\n",
    ),
    (
        b"answer strip\nformat 2\ncontainer 10 1\nkerf 0 1\nbox 10 3\nbox 10 3\nresult least 7\nplace 0 0\nplace 0 3\nproof\nx\nend\n",
        "refused 9 overlap 1 2\n",
    ),
    (
        b"answer strip\nformat 1\ncontainer 10 1\nbox 6 3\nbox 6 2\nbox 4 4\nresult least 4\nplace 0 0\nplace 0 3\nplace 6 0\nproof\nx\nend\n",
        "refused 10 outside 2 2\n",
    ),
    (
        b"answer bins\nformat 1\ncontainer 10 10\nbox 10 5\nbox 10 5\nbox 10 5\nresult least 2\nplace 1 0 0\nplace 1 0 4\nplace 2 0 0\nproof\ng id id\nend\n",
        "refused 10 overlap 1 2\n",
    ),
    (
        b"answer bins\nformat 1\ncontainer 10 10\nbox 10 5\nbox 10 5\nbox 10 5\nresult least 2\nplace 1 0 0\nplace 1 0 4\nplace 2 0 6\nproof\ng id id\nend\n",
        "refused 10 outside 3 2\n",
    ),
    (
        b"answer knapsack\nformat 1\ncontainer 10 10\nbox 6 6 value 5\nbox 6 6 value 4\nbox 4 4 value 3\nresult greatest 8\ntake 1 0 0\ntake 3 5 0\nproof\nc 1\nc 2\ns\nx\nw\nw\nend\n",
        "refused 10 overlap 1 3\n",
    ),
    (
        b"answer knapsack\nformat 1\ncontainer 10 10\nbox 6 6 value 5\nbox 6 6 value 4\nbox 4 4 value 3\nresult greatest 8\ntake 1 0 0\ntake 3 7 0\nproof\nc 1\nc 2\ns\nx\nw\nw\nend\n",
        "refused 10 outside 3 1\n",
    ),
    (
        b"answer knapsack\nformat 1\ncontainer 10 10\nbox 6 6 value 5\nbox 6 6 value 4\nbox 4 4 value 3\nresult greatest 9\ntake 1 0 0\ntake 3 6 0\nproof\nc 1\nc 2\ns\nx\nw\nw\nend\n",
        "refused 10 worth\n",
    ),
];

#[test]
fn places_that_are_no_packing_of_the_claim_are_refused(rt: HostRuntime) -> Result<(), Fail> {
    for row in &PLACES {
        assert!(rt; is_checked(&rt, 1, row)?, "{}", row.1);
    }
    Ok(())
}

const TREES: [Checked; 21] = [
    (
        b"answer fit\nformat 1\ncontainer 10 10\nbox 6 6\nbox 6 6\nresult no\na 1 1 2\nx\nx\nend\n",
        "refused 7 choice\n",
    ),
    (
        b"answer fit\nformat 1\ncontainer 10 10\nbox 6 6\nbox 6 6\nresult no\nx\nx\nend\n",
        "refused 8 after\n",
    ),
    (
        b"answer fit\nformat 1\ncontainer 10 10\nbox 3 6\nbox 3 6\nbox 3 6\nbox 3 6\nresult no\nd 1 1 2\nd 1 1 3\nd 1 2 3\nx\nx\nx\nd 1 1 3\nx\nd 1 2 3\nx\nend\n",
        "refused 19 short\n",
    ),
    (
        b"answer fit\nformat 1\ncontainer 10 10\nbox 3 6\nbox 3 6\nbox 3 6\nbox 3 6\nresult no\nx\nd 1 1 3\nd 1 2 3\nx\nx\nx\nd 1 1 3\nx\nd 1 2 3\nx\nx\nend\n",
        "refused 9 conflict\n",
    ),
    (
        b"answer fit\nformat 1\ncontainer 10 10\nbox 3 6\nbox 3 6\nbox 3 6\nbox 3 6\nresult no\nv id id\nd 1 1 3\nd 1 2 3\nx\nx\nx\nd 1 1 3\nx\nd 1 2 3\nx\nx\nend\n",
        "refused 9 excess\n",
    ),
    (
        b"answer fit\nformat 1\ncontainer 10 10\nbox 3 6\nbox 3 6\nbox 3 6\nbox 3 6\nresult no\nt 1 1\nd 1 1 3\nd 1 2 3\nx\nx\nx\nd 1 1 3\nx\nd 1 2 3\nx\nx\nend\n",
        "refused 9 side\n",
    ),
    (
        b"answer fit\nformat 1\ncontainer 10 10\nbox 3 6\nbox 3 6\nbox 3 6\nbox 3 6\nresult no\nd 2 1 2\nd 1 1 3\nd 1 2 3\nx\nx\nx\nd 1 1 3\nx\nd 1 2 3\nx\nx\nend\n",
        "refused 9 choice\n",
    ),
    (
        b"answer strip\nformat 1\ncontainer 10 10\nbox 10 2\nresult none\nt 1 1\nend\n",
        "refused 6 side\n",
    ),
    (
        b"answer strip\nformat 1\ncontainer 10 10\nbox 11 2\nresult none\nend\n",
        "refused 6 short\n",
    ),
    (
        b"answer strip\nformat 1\ncontainer 10 10\nbox 11 2\nresult none\nt 1 1\nt 1 1\nend\n",
        "refused 7 after\n",
    ),
    (
        b"answer fit\nformat 1\ncontainer 10 10\nbox 6 6\nbox 6 6\nresult no\nend\n",
        "refused 7 short\n",
    ),
    (
        b"answer bins\nformat 1\ncontainer 10 10\nbox 10 5\nbox 10 5\nbox 10 5\nresult least 2\nplace 1 0 0\nplace 1 0 5\nplace 2 0 0\nproof\ns 1\nend\n",
        "refused 12 set\n",
    ),
    (
        b"answer bins\nformat 1\ncontainer 10 10\nbox 10 5\nbox 10 5\nbox 10 5\nresult least 2\nplace 1 0 0\nplace 1 0 5\nplace 2 0 0\nproof\nb 1\nb 1\nend\n",
        "refused 13 choice\n",
    ),
    (
        b"answer bins\nformat 1\ncontainer 10 10\nbox 10 5\nbox 10 5\nbox 10 5\nresult least 3\nplace 1 0 0\nplace 1 0 5\nplace 2 0 0\nproof\ng id id\nend\n",
        "refused 12 excess\n",
    ),
    (
        b"answer knapsack\nformat 1\ncontainer 10 10\nbox 6 6 value 5\nbox 6 6 value 4\nbox 4 4 value 3\nresult greatest 8\ntake 1 0 0\ntake 3 6 0\nproof\ns\nc 2\ns\nx\nw\nw\nend\n",
        "refused 11 set\n",
    ),
    (
        b"answer knapsack\nformat 1\ncontainer 10 10\nbox 6 6 value 5\nbox 6 6 value 4\nbox 4 4 value 3\nresult greatest 8\ntake 1 0 0\ntake 3 6 0\nproof\nw\nc 2\ns\nx\nw\nw\nend\n",
        "refused 11 value\n",
    ),
    (
        b"answer knapsack\nformat 1\ncontainer 10 10\nbox 6 6 value 5\nbox 6 6 value 4\nbox 4 4 value 3\nresult greatest 8\ntake 1 0 0\ntake 3 6 0\nproof\nc 1\nc 1\ns\nx\nw\nw\nend\n",
        "refused 12 choice\n",
    ),
    (
        b"answer fit\nformat 1\ncontainer 10 10\nbox 6 4\nbox 6 6\nresult yes\nplace 0 0\nplace 0 4\nend\nx\n",
        "refused 10 after\n",
    ),
    (
        b"answer fit\nformat 1\ncontainer 10 10\nbox 6 4\nbox 6 6\nresult yes\nplace 0 0\nplace 0 4\nend\n\x01\n",
        "refused 10 after\n",
    ),
    (b"", "refused 1 short\n"),
    (b"# nothing\n\n", "refused 3 short\n"),
];

#[test]
fn trees_that_are_no_refutation_are_refused(rt: HostRuntime) -> Result<(), Fail> {
    for row in &TREES {
        assert!(rt; is_checked(&rt, 1, row)?, "{}", row.1);
    }
    Ok(())
}
