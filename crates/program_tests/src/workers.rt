//! The same bytes by every number of workers.
use crate::runs::is_same_for_workers;
use crate::texts::{EIGHT_IN_A_ROW, PLANKS, SACK, STRIP};
use std::test::Fail;

const MANY: &[&str] = &["2", "4", "8"];

const SOME: &[&str] = &["2", "4"];

// Words, an instance, the status, and the numbers of workers. The first two are a refutation of
// 5,039 branchings and a budget of one less; of the others some trees stay below the first cap, and
// some pass it.
const ROWS: [(&[&str], &[u8], u8, &[&str]); 8] = [
    (
        &["fit", "--scales", "no", "--budget", "5039"],
        EIGHT_IN_A_ROW,
        1,
        MANY,
    ),
    (
        &["fit", "--scales", "no", "--budget", "5038"],
        EIGHT_IN_A_ROW,
        3,
        MANY,
    ),
    (&["strip"], STRIP, 0, SOME),
    (&["bins"], PLANKS, 0, SOME),
    (&["bins", "--budget", "4"], PLANKS, 3, SOME),
    (&["knapsack"], SACK, 0, SOME),
    (&["bins", "--scales", "no"], EIGHT_IN_A_ROW, 0, SOME),
    (&["knapsack", "--scales", "no"], EIGHT_IN_A_ROW, 0, SOME),
];

#[test]
fn output_is_identical_for_all_worker_counts(rt: HostRuntime) -> Result<(), Fail> {
    for row in &ROWS {
        let (words, text, status, workers) = *row;
        assert!(rt; is_same_for_workers(&rt, words, text, status, workers)?);
    }
    Ok(())
}
