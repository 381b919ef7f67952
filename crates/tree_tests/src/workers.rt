//! Several workers that share one class tree: whatever their number, they give the outcome of one
//! thread.
use crate::board_rows::{EIGHT, LATE, ROWS, Row, instance_of};
use crate::compare::is_same;
use box_instances::{Instance, NoMemory};
use class_search::ClassTree;
use proof_tree::Outcome;
use std::alloc::Global;
use std::sync::Wait;
use std::sync::atomic::{AtomicU64, Ordering};
use std::test::Fail;
use std::thread::Threads;
use work_share::{Gate, NoGate, Settings, Tree, solve_shared};

const WORKERS: [u32; 6] = [1, 2, 3, 4, 8, 64];

// What `workers` workers give, who go on with each other's walks.
fn share<R: Threads + Wait + Sync, G: Gate + Sync>(
    rt: &R,
    alloc: Global,
    tree: &ClassTree<'_>,
    budget: u64,
    workers: u32,
    gate: &G,
) -> Result<Outcome, NoMemory> {
    let settings = Settings {
        workers,
        budget,
        scales: false,
    };
    tree.solve(rt, alloc, &settings, gate)
}

// What `workers` workers give, who begin each task anew.
fn share_anew<R: Threads + Wait + Sync>(
    rt: &R,
    alloc: Global,
    tree: &ClassTree<'_>,
    budget: u64,
    workers: u32,
) -> Result<Outcome, NoMemory> {
    let settings = Settings {
        workers,
        budget,
        scales: false,
    };
    solve_shared(rt, alloc, tree, &settings, &NoGate)
}

// Whether `workers` workers give this outcome, both ways.
fn is_shared_by<R: Threads + Wait + Sync>(
    rt: &R,
    alloc: Global,
    tree: &ClassTree<'_>,
    budget: u64,
    workers: u32,
    alone: &Outcome,
) -> Result<bool, NoMemory> {
    if !is_same(
        alloc,
        alone,
        &share(rt, alloc, tree, budget, workers, &NoGate)?,
    )? {
        return Ok(false);
    }
    is_same(alloc, alone, &share_anew(rt, alloc, tree, budget, workers)?)
}

// Whether each number of workers gives this outcome.
fn is_shared_by_all<R: Threads + Wait + Sync>(
    rt: &R,
    alloc: Global,
    tree: &ClassTree<'_>,
    budget: u64,
    alone: &Outcome,
) -> Result<bool, NoMemory> {
    for workers in WORKERS {
        if !is_shared_by(rt, alloc, tree, budget, workers, alone)? {
            return Ok(false);
        }
    }
    Ok(true)
}

// Whether each number of workers gives the outcome of one thread, under each of the budgets.
fn is_shared_under<R: Threads + Wait + Sync>(
    rt: &R,
    alloc: Global,
    tree: &ClassTree<'_>,
    budgets: [u64; 4],
) -> Result<bool, NoMemory> {
    for budget in budgets {
        if !is_shared_by_all(rt, alloc, tree, budget, &tree.explore(alloc, &[], budget)?)? {
            return Ok(false);
        }
    }
    Ok(true)
}

// The same for the tree of a row, under its budgets.
fn is_shared<R: Threads + Wait + Sync>(rt: &R, alloc: Global, row: &Row) -> Result<bool, Fail> {
    let instance = instance_of(alloc, row)?;
    let tree = ClassTree::new(alloc, &instance, row.scales)?;
    Ok(is_shared_under(rt, alloc, &tree, row.budgets)?)
}

#[test]
fn any_number_of_workers_gives_the_outcome_of_one_thread(rt: HostRuntime) -> Result<(), Fail> {
    for row in &ROWS {
        assert!(rt; is_shared(&rt, rt.alloc(), row)?);
    }
    Ok(())
}

#[test]
fn a_refutation_past_the_first_cap_is_shared(rt: HostRuntime) -> Result<(), Fail> {
    assert!(rt; is_shared(&rt, rt.alloc(), &EIGHT)?);
    Ok(())
}

#[test]
fn late_yes_is_found_by_several_workers(rt: HostRuntime) -> Result<(), Fail> {
    assert!(rt; is_shared(&rt, rt.alloc(), &LATE)?);
    Ok(())
}

// What an outcome is: a yes or a no with this count, or past the budget.
enum Told {
    Yes(u64),
    No(u64),
    Past,
}

// Whether the outcome is so.
fn is_told(outcome: &Outcome, wanted: &Told) -> bool {
    match (outcome, wanted) {
        (Outcome::Yes { count, .. }, Told::Yes(branchings)) => count == branchings,
        (Outcome::No { count, .. }, Told::No(branchings)) => count == branchings,
        (Outcome::Past, Told::Past) => true,
        _ => false,
    }
}

// Whether 8 workers give that under a budget.
fn is_told_by_eight<R: Threads + Wait + Sync>(
    rt: &R,
    alloc: Global,
    row: &Row,
    budget: u64,
    wanted: &Told,
) -> Result<bool, Fail> {
    let instance = instance_of(alloc, row)?;
    let tree = ClassTree::new(alloc, &instance, row.scales)?;
    Ok(is_told(&share(rt, alloc, &tree, budget, 8, &NoGate)?, wanted))
}

// Each tree under the least budget that is enough, and under one less.
const BUDGETS: [(Row, u64, Told); 4] = [
    (EIGHT, 5039, Told::No(5039)),
    (EIGHT, 5038, Told::Past),
    (LATE, 5062, Told::Yes(5062)),
    (LATE, 5061, Told::Past),
];

#[test]
fn the_budget_is_exact_for_eight_workers(rt: HostRuntime) -> Result<(), Fail> {
    for (row, budget, wanted) in &BUDGETS {
        assert!(rt; is_told_by_eight(&rt, rt.alloc(), row, *budget, wanted)?);
    }
    Ok(())
}

// A gate that counts its calls, and adds up the numbers of their tasks.
#[derive(Drop)]
struct CallCounts {
    before: AtomicU64,
    after: AtomicU64,
    numbers_before: AtomicU64,
    numbers_after: AtomicU64,
}

impl CallCounts {
    fn new() -> CallCounts {
        CallCounts {
            before: AtomicU64::new(0),
            after: AtomicU64::new(0),
            numbers_before: AtomicU64::new(0),
            numbers_after: AtomicU64::new(0),
        }
    }

    // Whether both calls came so often, with numbers of this sum.
    fn are(&self, calls: u64, sum: u64) -> bool {
        self.before.load(Ordering::SeqCst) == calls
            && self.after.load(Ordering::SeqCst) == calls
            && self.numbers_before.load(Ordering::SeqCst) == sum
            && self.numbers_after.load(Ordering::SeqCst) == sum
    }
}

impl Gate for CallCounts {
    fn before(&self, number: u64) {
        self.before.fetch_add(1, Ordering::SeqCst);
        self.numbers_before.fetch_add(number, Ordering::SeqCst);
    }

    fn after(&self, number: u64) {
        self.after.fetch_add(1, Ordering::SeqCst);
        self.numbers_after.fetch_add(number, Ordering::SeqCst);
    }
}

// Whether `workers` workers call the gate `calls` times under this budget, once for each of the
// numbers from 0 on.
fn calls_for_each<R: Threads + Wait + Sync>(
    rt: &R,
    alloc: Global,
    budget: u64,
    workers: u32,
    calls: u64,
    sum: u64,
) -> Result<bool, Fail> {
    let instance = instance_of(alloc, &EIGHT)?;
    let tree = ClassTree::new(alloc, &instance, EIGHT.scales)?;
    let counts = CallCounts::new();
    share(rt, alloc, &tree, budget, workers, &counts)?;
    Ok(counts.are(calls, sum))
}

// Each half of the tree has 2,519 branchings, more than the cap of 1,088 there. One child of a half
// has 1,679, more than the cap of 1,152, and the other 839; the children of the greater one are
// within their cap of 1,216. So with two workers and more each of the tasks 0 to 10 is explored,
// and none twice.
#[test]
fn the_gate_is_called_around_each_task(rt: HostRuntime) -> Result<(), Fail> {
    for workers in [2, 3, 8, 64] {
        assert!(rt;
            calls_for_each(&rt, rt.alloc(), 5039, workers, 11, 55)?,
            "{workers} workers"
        );
    }
    Ok(())
}

// One worker has no tasks. Under a budget that is no greater than its cap the root is the only one.
#[test]
fn the_gate_is_called_for_the_root_alone(rt: HostRuntime) -> Result<(), Fail> {
    assert!(rt; calls_for_each(&rt, rt.alloc(), 5039, 0, 0, 0)?);
    assert!(rt; calls_for_each(&rt, rt.alloc(), 5039, 1, 0, 0)?);
    assert!(rt; calls_for_each(&rt, rt.alloc(), 1024, 8, 1, 0)?);
    Ok(())
}

// A gate that holds the worker of task 1 until task 2 was explored, or until it has looked so often
// that this won't come.
#[derive(Drop)]
struct Hold {
    is_explored: AtomicU64,
    was_met: AtomicU64,
}

impl Gate for Hold {
    fn before(&self, number: u64) {
        if number != 1 {
            return;
        }
        for _ in 0..1_000_000_000u32 {
            if self.is_explored.load(Ordering::SeqCst) == 1 {
                self.was_met.store(1, Ordering::SeqCst);
                return;
            }
        }
    }

    fn after(&self, number: u64) {
        if number == 2 {
            self.is_explored.store(1, Ordering::SeqCst);
        }
    }
}

// Whether two workers of the tree of an instance meet so.
fn do_meet<R: Threads + Wait + Sync>(
    rt: &R,
    alloc: Global,
    instance: &Instance,
) -> Result<bool, NoMemory> {
    let tree = ClassTree::new(alloc, instance, EIGHT.scales)?;
    let hold = Hold {
        is_explored: AtomicU64::new(0),
        was_met: AtomicU64::new(0),
    };
    share(rt, alloc, &tree, 5039, 2, &hold)?;
    Ok(hold.was_met.load(Ordering::SeqCst) == 1)
}

#[test]
fn two_tasks_are_explored_at_the_same_time(rt: HostRuntime) -> Result<(), Fail> {
    let instance = instance_of(rt.alloc(), &EIGHT)?;
    assert!(rt; do_meet(&rt, rt.alloc(), &instance)?);
    Ok(())
}
