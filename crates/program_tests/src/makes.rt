//! Generated instances, decided by one worker and by several.
use crate::runs::{is_same_for_workers, run_with_workers};
use std::alloc::AllocGlobal;
use std::sync::Wait;
use std::test::Fail;
use std::thread::Threads;
use work_share::NoGate;

// Words, and the status and the lines that they have.
const ROWS: [(&[&str], u8, &str); 5] = [
    (
        &["make"],
        0,
        "made 0 boxes 1 volume 52341\nfit yes\nbranchings 0\n",
    ),
    (
        &["make", "--number", "0"],
        0,
        "made 0 boxes 1 volume 52341\nfit yes\nbranchings 0\n",
    ),
    (
        &["make", "--number", "1"],
        0,
        "made 1 boxes 7 volume 76542\nfit yes\nbranchings 24\n",
    ),
    (
        &["make", "--number", "1", "--budget", "24"],
        0,
        "made 1 boxes 7 volume 76542\nfit yes\nbranchings 24\n",
    ),
    (
        &["make", "--number", "1", "--budget", "23"],
        3,
        "made 1 boxes 7 volume 76542\nfit undecided\nbranchings more than 23\n",
    ),
];

// Whether the words have this status and these lines with `workers` workers, which read nothing.
fn is_made<R: AllocGlobal + Threads + Wait + Sync>(
    rt: &R,
    words: &[&str],
    workers: &str,
    status: u8,
    lines: &str,
) -> Result<bool, Fail> {
    Ok(run_with_workers(rt, words, workers, b"not read", &NoGate)?.is_line(status, lines))
}

#[test]
fn made_instances_have_their_lines(rt: HostRuntime) -> Result<(), Fail> {
    for (words, status, lines) in ROWS {
        for workers in ["1", "8"] {
            assert!(rt; is_made(&rt, words, workers, status, lines)?, "{lines}");
        }
    }
    Ok(())
}

#[test]
fn make_is_identical_for_all_worker_counts(rt: HostRuntime) -> Result<(), Fail> {
    for number in ["0", "1", "2", "3", "4", "5", "6", "7"] {
        let words = ["make", "--number", number, "--budget", "500"];
        assert!(rt;
            is_same_for_workers(&rt, &words, b"", 0, &["2", "8"])?,
            "{number}"
        );
    }
    Ok(())
}
