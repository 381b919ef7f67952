//! Tasks are explored at the same time: one is held until another was explored.
use crate::asked::matches_one_worker;
use crate::texts::{EIGHT_IN_A_ROW, NINE_IN_A_ROW};
use std::alloc::AllocGlobal;
use std::sync::Wait;
use std::sync::atomic::{AtomicBool, Ordering};
use std::test::Fail;
use std::thread::Threads;
use work_share::Gate;

// The most turns for which a task is held.
const MOST_TURNS: u32 = 1_000_000_000;

// Holds the task `held` until the task `awaited` was explored.
#[derive(Drop)]
struct Holding {
    held: u64,
    awaited: u64,
    is_explored: AtomicBool,
    is_given_up: AtomicBool,
}

impl Holding {
    fn new(held: u64, awaited: u64) -> Holding {
        Holding {
            held,
            awaited,
            is_explored: AtomicBool::new(false),
            is_given_up: AtomicBool::new(false),
        }
    }

    // Whether the awaited task was explored while the other one was held.
    fn is_passed(&self) -> bool {
        self.is_explored.load(Ordering::SeqCst) && !self.is_given_up.load(Ordering::SeqCst)
    }
}

impl Gate for Holding {
    fn before(&self, number: u64) {
        if number != self.held {
            return;
        }
        for _ in 0..MOST_TURNS {
            if self.is_explored.load(Ordering::SeqCst) {
                return;
            }
        }
        self.is_given_up.store(true, Ordering::SeqCst);
    }

    fn after(&self, number: u64) {
        if number == self.awaited {
            self.is_explored.store(true, Ordering::SeqCst);
        }
    }
}

// A job with its text, the task that is held, and the one that is awaited. Two tasks wait at once:
// the root of `fit`, of `strip` at height 6 and of `knapsack` at value 8 passes its cap, so that it
// is split into the tasks 1 and 2; so does the only child of the root of `bins` at 4 bins, since
// eight boxes in one bin have 5,039 branchings, and it is split into the tasks 2 and 3. The tree of
// `knapsack` has more than the 16,384 branchings that one worker explores alone.
const CASES: [(&str, &[u8], u64, u64); 4] = [
    ("fit", EIGHT_IN_A_ROW, 1, 2),
    ("strip", EIGHT_IN_A_ROW, 1, 2),
    ("bins", EIGHT_IN_A_ROW, 2, 3),
    ("knapsack", NINE_IN_A_ROW, 1, 2),
];

// Whether two workers explored the awaited task while the other one was held, and wrote what one
// does.
fn is_explored_beside<R: AllocGlobal + Threads + Wait + Sync>(
    rt: &R,
    job: &str,
    text: &[u8],
    gate: &Holding,
) -> Result<bool, Fail> {
    let is_same = matches_one_worker(rt, &[job, "--scales", "no"], "2", text, gate)?;
    Ok(is_same && gate.is_passed())
}

#[test]
fn workers_explore_at_the_same_time(rt: HostRuntime) -> Result<(), Fail> {
    for (job, text, held, awaited) in CASES {
        assert!(rt;
            is_explored_beside(&rt, job, text, &Holding::new(held, awaited))?,
            "{job}"
        );
    }
    Ok(())
}

// The first child of the root has 6,795 branchings, more than its cap, and the second one 867, less
// than its cap.
const UNEVEN: &[u8] =
    b"format 1\ncontainer 11 10\nbox 4 4\nbox 4 2\nbox 5 2\nbox 2 5\nbox 4 5\nbox 6 3\nbox 4 2\nbox 5 4\n";

// One gate and then another.
#[derive(Drop)]
struct Both {
    first: Holding,
    second: Holding,
}

impl Gate for Both {
    fn before(&self, number: u64) {
        self.first.before(number);
        self.second.before(number);
    }

    fn after(&self, number: u64) {
        self.first.after(number);
        self.second.after(number);
    }
}

// Task 1 is held until task 2 was explored, whose worker then finds none that waits. Task 1 is
// split into the tasks 3 and 4, and task 3 is held until that worker has come back and explored
// task 4.
#[test]
fn idle_worker_takes_a_later_task(rt: HostRuntime) -> Result<(), Fail> {
    let gate = Both {
        first: Holding::new(1, 2),
        second: Holding::new(3, 4),
    };
    assert!(rt; matches_one_worker(&rt, &["fit", "--scales", "no"], "2", UNEVEN, &gate)?);
    assert!(rt; gate.first.is_passed());
    assert!(rt; gate.second.is_passed());
    Ok(())
}
