//! Random schedules over the class trees of the worked rows.
use crate::board_rows::{ROWS, Row, instance_of};
use crate::compare::is_same;
use crate::runner::{Met, complete, drive};
use box_instances::NoMemory;
use class_search::ClassTree;
use proof_tree::Outcome;
use std::alloc::Global;
use std::test::Fail;
use work_share::{Board, Tree};

// What a schedule showed: that its board was over, and gave the outcome of one thread; whether
// another yes was finished before the one that is the answer, which stands on its left; and whether
// the budget was passed while tasks waited.
#[derive(Drop)]
struct Shown {
    is_right: bool,
    is_overtaken: bool,
    is_past_early: bool,
}

// Whether the outcome is a yes with other numbers.
fn is_other_yes(outcome: &Outcome, first: &Option<Vec<u32>>) -> bool {
    match (outcome, first) {
        (Outcome::Yes { numbers, .. }, Some(first)) => numbers.as_slice() != first.as_slice(),
        _ => false,
    }
}

// `count` numbers of a linear congruence.
fn draw(alloc: Global, seed: u32, count: usize) -> Result<Vec<u32>, NoMemory> {
    let mut numbers = Vec::new(alloc);
    let mut state = seed;
    for _ in 0..count {
        state = state.wrapping_mul(1_664_525).wrapping_add(1_013_904_223);
        let Ok(()) = numbers.push(state >> 12) else {
            return Err(NoMemory);
        };
    }
    Ok(numbers)
}

fn run_schedule(
    alloc: Global,
    tree: &ClassTree<'_>,
    budget: u64,
    numbers: &[u32],
) -> Result<Option<Shown>, NoMemory> {
    let mut met = Met::new(alloc);
    let mut board = Board::start(alloc, tree, budget)?;
    drive(alloc, tree, budget, &mut board, &mut met, numbers)?;
    let is_complete = complete(alloc, tree, budget, &mut board, &mut met, 1000)?;
    if !is_complete || board.is_short() || !board.is_over() {
        return Ok(None);
    }
    let joined = board.joined(alloc)?;
    Ok(Some(Shown {
        is_right: is_same(alloc, &joined, &tree.explore(alloc, &[], budget)?)?,
        is_overtaken: is_other_yes(&joined, &met.first_yes),
        is_past_early: matches!(joined, Outcome::Past) && met.waiting > 0,
    }))
}

// How many schedules were run, and what they showed together.
#[derive(Drop)]
struct Total {
    right: u32,
    overtaken: u32,
    past_early: u32,
}

impl Total {
    // With one more schedule.
    fn add(&mut self, shown: &Shown) {
        self.right = self.right.saturating_add(u32::from(shown.is_right));
        self.overtaken = self.overtaken.saturating_add(u32::from(shown.is_overtaken));
        self.past_early = self
            .past_early
            .saturating_add(u32::from(shown.is_past_early));
    }
}

// One schedule, drawn from this seed.
fn run_drawn(
    alloc: Global,
    tree: &ClassTree<'_>,
    budget: u64,
    seed: u32,
    total: &mut Total,
) -> Result<(), NoMemory> {
    let numbers = draw(alloc, seed, 48)?;
    if let Some(shown) = run_schedule(alloc, tree, budget, numbers.as_slice())? {
        total.add(&shown);
    }
    Ok(())
}

// `rounds` rounds of schedules, each under all of the budgets.
fn run_rounds(
    alloc: Global,
    tree: &ClassTree<'_>,
    row: &Row,
    rounds: u32,
    total: &mut Total,
) -> Result<(), NoMemory> {
    let mut seed = row.container[0];
    for _ in 0..rounds {
        for budget in row.budgets {
            seed = seed.wrapping_add(7919);
            run_drawn(alloc, tree, budget, seed, total)?;
        }
    }
    Ok(())
}

fn run_row(alloc: Global, row: &Row, rounds: u32, total: &mut Total) -> Result<(), Fail> {
    let instance = instance_of(alloc, row)?;
    let tree = ClassTree::new(alloc, &instance, row.scales)?;
    Ok(run_rounds(alloc, &tree, row, rounds, total)?)
}

fn run_rows(alloc: Global, rounds: u32) -> Result<Total, Fail> {
    let mut total = Total {
        right: 0,
        overtaken: 0,
        past_early: 0,
    };
    for row in &ROWS {
        run_row(alloc, row, rounds, &mut total)?;
    }
    Ok(total)
}

// 42 rounds over six rows with four budgets each: 1008 schedules. In some a yes is finished before
// another on its left, and in some the budget is passed by the leftmost run while tasks wait.
#[test]
fn random_schedules_give_the_outcome_of_one_thread(rt: HostRuntime) -> Result<(), Fail> {
    let total = run_rows(rt.alloc(), 42)?;
    assert!(rt; total.right == 1008);
    assert!(rt; total.overtaken > 50);
    assert!(rt; total.past_early > 100);
    Ok(())
}
