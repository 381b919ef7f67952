//! Documents that are refused by their form, each with its line: faults of the instance, of lines,
//! of numbers.
use crate::rows::{Checked, is_checked};
use std::test::Fail;

const TEXTS: [Checked; 13] = [
    (
        b"answer fit\nformat 1\ncontainer 5 5\ncrate 1 1\nresult yes\n",
        "refused 4 text 1\n",
    ),
    (
        b"answer fit\nformat 1\ncontainer 5 5\nkerf 1 1\nresult yes\n",
        "refused 4 text 1\n",
    ),
    (
        b"answer fit\nformat 1\ncontainer 5 5\nbox 1\nresult yes\n",
        "refused 4 text 2\n",
    ),
    (
        b"answer fit\nformat 1\ncontainer 5 5\nbox 1 x\nresult yes\n",
        "refused 4 text 3\n",
    ),
    (
        b"answer strip\nformat 1\ncontainer 5 0\n",
        "refused 3 text 4\n",
    ),
    (
        b"answer fit\nformat 1\nbox 1 1\nresult yes\n",
        "refused 3 text 5\n",
    ),
    (
        b"answer fit\nformat 1\nformat 1\nresult yes\n",
        "refused 3 text 6\n",
    ),
    (b"answer fit\nresult yes\n", "refused 2 text 7\n"),
    (
        b"answer fit\nformat 1\nresult maybe\n",
        "refused 3 text 7\n",
    ),
    (
        b"answer fit\nformat 1\n\x01\nresult yes\n",
        "refused 3 text 8\n",
    ),
    (
        b"answer bins\nformat 2\ncontainer 5 5\nbox 1 1 times 128\nbox 1 1\nresult none\n",
        "refused 5 text 9\n",
    ),
    (
        b"answer bins\nformat 2\ncontainer 5 5\nbox 1 1 times 100\nbox 1 1 times 29\nresult none\n",
        "refused 5 text 9\n",
    ),
    (
        b"answer knapsack\nformat 1\ncontainer 5 5\nresult greatest 1\n",
        "refused 4 text 10\n",
    ),
];

#[test]
fn each_fault_of_an_instance_is_told_by_its_code(rt: HostRuntime) -> Result<(), Fail> {
    for row in &TEXTS {
        assert!(rt; is_checked(&rt, 1, row)?, "{}", row.1);
    }
    Ok(())
}

const FORMS: [Checked; 18] = [
    (b"answer pile\n", "refused 1 form\n"),
    (b"result yes\n", "refused 1 form\n"),
    (b"\x01\n", "refused 1 form\n"),
    (
        b"answer fit\nformat 1\ncontainer 5 5\nbox 1 1\nresult maybe\n",
        "refused 5 form\n",
    ),
    (
        b"answer fit\nformat 1\ncontainer 10 10\nbox 6 4\nbox 6 6\nresult yes\nplace 0 0\nplace 0 999999999999999999999\nend\n",
        "refused 8 form\n",
    ),
    (
        b"answer fit\nformat 1\ncontainer 10 10\nbox 6 4\nbox 6 6\nresult yes\nplace 0 0\nplace 1 1 1 1 1 1 1 1 1 1 1 1 1\nend\n",
        "refused 8 form\n",
    ),
    (
        b"answer fit\nformat 1\ncontainer 10 10\nbox 6 4\nbox 6 6\nresult yes\nplace 0 \x01\nplace 0 4\nend\n",
        "refused 7 form\n",
    ),
    (
        b"answer fit\nformat 1\ncontainer 10 10\nbox 6 4\nbox 6 6\nresult yes\nend\nplace 0 4\nend\n",
        "refused 7 form\n",
    ),
    (
        b"answer fit\nformat 1\ncontainer 10 10\nbox 6 4\nbox 6 6\nresult yes\nx\nplace 0 4\nend\n",
        "refused 7 form\n",
    ),
    (
        b"answer fit\nformat 1\ncontainer 10 10\nbox 6 4\nbox 6 6\nresult yes\nplace 0 0\nplace 0 4\nx\nend\n",
        "refused 9 form\n",
    ),
    (
        b"answer fit\nformat 1\ncontainer 10 10\nbox 6 6\nbox 6 6\nresult no\na 1 1 4294967296\nend\n",
        "refused 7 form\n",
    ),
    (
        b"answer fit\nformat 1\ncontainer 10 10\nbox 6 6\nbox 6 6\nresult no\nv id\nend\n",
        "refused 7 form\n",
    ),
    (
        b"answer fit\nformat 1\ncontainer 10 10\nbox 6 6\nbox 6 6\nresult no\nx\nv id\nend\n",
        "refused 8 form\n",
    ),
    (
        b"answer fit\nformat 1\ncontainer 10 10\nbox 6 6\nbox 6 6\nresult no\nb 1\nend\n",
        "refused 7 form\n",
    ),
    (
        b"answer strip\nformat 1\ncontainer 10 10\nbox 11 2\nresult none\nx\nend\n",
        "refused 6 form\n",
    ),
    (
        b"answer bins\nformat 1\ncontainer 10 10\nbox 10 5\nbox 10 5\nbox 10 5\nresult least 2\nplace 1 0 0\nplace 1 0 5\nplace 2 0 0\ng id id\nend\n",
        "refused 11 form\n",
    ),
    (
        b"answer bins\nformat 1\ncontainer 10 10\nbox 10 5\nbox 10 5\nbox 10 5\nresult least 2\nplace 1 0 0\nplace 1 0 5\nplace 2 0 0\nproof\ns\nend\n",
        "refused 12 form\n",
    ),
    (
        b"answer knapsack\nformat 1\ncontainer 10 10\nbox 6 6 value 5\nbox 6 6 value 4\nbox 4 4 value 3\nresult greatest 8\ntake 1 0 0\ntake 3 6 0\nproof\nc 1\nc 2\ns 1\nx\nw\nw\nend\n",
        "refused 13 form\n",
    ),
];

#[test]
fn lines_of_another_form_are_refused(rt: HostRuntime) -> Result<(), Fail> {
    for row in &FORMS {
        assert!(rt; is_checked(&rt, 1, row)?, "{}", row.1);
    }
    Ok(())
}

const RANGES: [Checked; 16] = [
    (
        b"answer fit\nformat 1\ncontainer 10 10\nbox 6 4\nbox 6 6\nresult yes\nplace 0 0\nplace 0 99999999999999999999\nend\n",
        "refused 8 range\n",
    ),
    (
        b"answer fit\nformat 1\ncontainer 10 10\nbox 6 4\nbox 6 6\nresult yes\nplace 0 0\nplace 0 4294967296\nend\n",
        "refused 8 range\n",
    ),
    (
        b"answer fit\nformat 1\ncontainer 10 10\nbox 6 6\nbox 6 6\nresult no\na 1 1 4294967295\nend\n",
        "refused 7 range\n",
    ),
    (
        b"answer fit\nformat 1\ncontainer 10 10\nbox 6 6\nbox 6 6\nresult no\nd 3 1 2\nend\n",
        "refused 7 range\n",
    ),
    (
        b"answer fit\nformat 1\ncontainer 10 10\nbox 6 6\nbox 6 6\nresult no\nv id step 0\nend\n",
        "refused 7 range\n",
    ),
    (
        b"answer strip\nformat 1\ncontainer 10 10\nbox 11 2\nresult none\nt 1 2\nend\n",
        "refused 6 range\n",
    ),
    (
        b"answer strip\nformat 1\ncontainer 10 1\nbox 6 3\nbox 6 2\nbox 4 4\nresult least 0\nplace 0 0\nplace 0 3\nplace 6 0\nproof\nx\nend\n",
        "refused 7 range\n",
    ),
    (
        b"answer strip\nformat 1\ncontainer 10 1\nbox 6 3\nbox 6 2\nbox 4 4\nresult between 5 128000001\nplace 0 0\nplace 0 3\nplace 6 0\nproof\nx\nend\n",
        "refused 7 range\n",
    ),
    (
        b"answer strip\nformat 1\ncontainer 10 1\nbox 6 3\nbox 6 2\nbox 4 4\nresult between 5 5\nplace 0 0\nplace 0 3\nplace 6 0\nproof\nx\nend\n",
        "refused 7 range\n",
    ),
    (
        b"answer bins\nformat 1\ncontainer 10 10\nbox 10 5\nbox 10 5\nbox 10 5\nresult least 2\nplace 1 0 0\nplace 3 0 5\nplace 2 0 0\nproof\ng id id\nend\n",
        "refused 9 range\n",
    ),
    (
        b"answer bins\nformat 1\ncontainer 10 10\nbox 10 5\nbox 10 5\nbox 10 5\nresult least 2\nplace 1 0 0\nplace 0 0 5\nplace 2 0 0\nproof\ng id id\nend\n",
        "refused 9 range\n",
    ),
    (
        b"answer bins\nformat 1\ncontainer 10 10\nbox 10 5\nbox 10 5\nbox 10 5\nresult least 4\nplace 1 0 0\nplace 1 0 5\nplace 2 0 0\nproof\ng id id\nend\n",
        "refused 7 range\n",
    ),
    (
        b"answer knapsack\nformat 1\ncontainer 10 10\nbox 6 6 value 5\nbox 6 6 value 4\nbox 4 4 value 3\nresult greatest 128000000002\ntake 1 0 0\ntake 3 6 0\nproof\nc 1\nc 2\ns\nx\nw\nw\nend\n",
        "refused 7 range\n",
    ),
    (
        b"answer knapsack\nformat 1\ncontainer 10 10\nbox 6 6 value 5\nbox 6 6 value 4\nbox 4 4 value 3\nresult greatest 8\ntake 3 6 0\ntake 1 0 0\ntake 3 6 0\nproof\nc 1\nc 2\ns\nx\nw\nw\nend\n",
        "refused 9 range\n",
    ),
    (
        b"answer knapsack\nformat 1\ncontainer 10 10\nbox 6 6 value 5\nbox 6 6 value 4\nbox 4 4 value 3\nresult greatest 8\ntake 4 0 0\ntake 3 6 0\nproof\nc 1\nc 2\ns\nx\nw\nw\nend\n",
        "refused 8 range\n",
    ),
    (
        b"answer knapsack\nformat 1\ncontainer 10 10\nbox 6 6 value 5\nbox 6 6 value 4\nbox 4 4 value 3\nresult greatest 8\ntake 1 0 0\ntake 3 6 0\nproof\nc 4\nc 2\ns\nx\nw\nw\nend\n",
        "refused 11 range\n",
    ),
];

#[test]
fn numbers_out_of_their_range_are_refused(rt: HostRuntime) -> Result<(), Fail> {
    for row in &RANGES {
        assert!(rt; is_checked(&rt, 1, row)?, "{}", row.1);
    }
    Ok(())
}
