//! Two runs of a board over the tree of four boxes that don't fit in a row.
ghost use Rattle.std.specs.Prelude.{◌≡◌};

use crate::board_rows::{EIGHT, FOUR, instance_of};
use crate::compare::is_same;
use crate::runner::{Met, complete, drive, finish, split};
use box_instances::{Instance, NoMemory};
use class_search::ClassTree;
use proof_tree::Outcome;
use std::alloc::Global;
use std::test::Fail;
use work_share::{Board, Take, Task, Tree};

// The task that the board hands out, if it has this number and path.
fn take_task<T: Tree>(board: &mut Board<'_, T>, number: u64, path: &[u32]) -> Option<Task>
    ensures { board.new ≡ record board.old { state = board.new.state } }
{
    let Take::Job(task) = board.take() else {
        return None;
    };
    let is_wanted = task.number() == number
        && task.path() == path
        && task.depth() as usize == path.len();
    if is_wanted { Some(task) } else { None }
}

fn is_empty<T: Tree>(board: &mut Board<'_, T>) -> bool
    ensures { board.new ≡ record board.old { state = board.new.state } }
{
    matches!(board.take(), Take::Empty)
}

fn is_over<T: Tree>(board: &mut Board<'_, T>) -> bool
    ensures { board.new ≡ record board.old { state = board.new.state } }
{
    matches!(board.take(), Take::Over)
}

// The outcome that the board joins to, if it is over.
fn join<T: Tree>(alloc: Global, board: Board<'_, T>) -> Result<Option<Outcome>, NoMemory> {
    if board.is_short() || !board.is_over() {
        return Ok(None);
    }
    Ok(Some(board.joined(alloc)?))
}

// Takes the root and splits it. Answers whether the root was there.
fn split_root<T: Tree>(
    alloc: Global,
    tree: &T,
    budget: u64,
    board: &mut Board<'_, T>,
    met: &mut Met,
) -> Result<bool, NoMemory>
    requires tree { board.old.tree ≡ tree.now }
    requires budget { board.old.budget ≡ budget }
    ensures { board.new ≡ record board.old { state = board.new.state } }
{
    let Some(root) = take_task(board, 0, &[]) else {
        return Ok(false);
    };
    split(alloc, tree, budget, board, met, root)?;
    Ok(true)
}

// Takes the first child and finishes it. Answers whether the board is over then.
fn finish_first<T: Tree>(
    alloc: Global,
    tree: &T,
    budget: u64,
    board: &mut Board<'_, T>,
    met: &mut Met,
) -> Result<bool, NoMemory>
    requires tree { board.old.tree ≡ tree.now }
    requires budget { board.old.budget ≡ budget }
    ensures { board.new ≡ record board.old { state = board.new.state } }
{
    let Some(first) = take_task(board, 1, &[0]) else {
        return Ok(false);
    };
    finish(alloc, tree, budget, board, met, first)?;
    Ok(is_over(board))
}

// Takes both children, and finishes the second before the first. Answers whether no task waited
// meanwhile, and the board is over then.
fn finish_backwards<T: Tree>(
    alloc: Global,
    tree: &T,
    budget: u64,
    board: &mut Board<'_, T>,
    met: &mut Met,
) -> Result<bool, NoMemory>
    requires tree { board.old.tree ≡ tree.now }
    requires budget { board.old.budget ≡ budget }
    ensures { board.new ≡ record board.old { state = board.new.state } }
{
    let Some(first) = take_task(board, 1, &[0]) else {
        return Ok(false);
    };
    let Some(second) = take_task(board, 2, &[1]) else {
        return Ok(false);
    };
    let none_waits = is_empty(board);
    finish(alloc, tree, budget, board, met, second)?;
    let still_none = is_empty(board);
    finish(alloc, tree, budget, board, met, first)?;
    let is_over = is_over(board);
    Ok(none_waits && still_none && is_over)
}

// Under a budget of 5: the second child is finished before the first, and the pieces join to the
// whole refutation.
fn run_whole(alloc: Global, tree: &ClassTree<'_>) -> Result<Option<Outcome>, NoMemory> {
    let mut met = Met::new(alloc);
    let mut board = Board::start(alloc, tree, 5)?;
    if !split_root(alloc, tree, 5, &mut board, &mut met)? {
        return Ok(None);
    }
    let is_whole = finish_backwards(alloc, tree, 5, &mut board, &mut met)?;
    if !is_whole || board.history().len() != 6 {
        return Ok(None);
    }
    join(alloc, board)
}

// Under a budget of 2: the leftmost run is past the budget while the second child waits.
fn run_past(alloc: Global, tree: &ClassTree<'_>) -> Result<Option<Outcome>, NoMemory> {
    let mut met = Met::new(alloc);
    let mut board = Board::start(alloc, tree, 2)?;
    if !split_root(alloc, tree, 2, &mut board, &mut met)? {
        return Ok(None);
    }
    if !finish_first(alloc, tree, 2, &mut board, &mut met)? {
        return Ok(None);
    }
    join(alloc, board)
}

// Eight times the leftmost task that waits is taken and split.
const DOWN_TO_EIGHT: [u32; 16] = [0, 3, 0, 3, 0, 3, 0, 3, 0, 3, 0, 3, 0, 3, 0, 3];

// Tasks are split down to depth 8, and then all that wait are explored: eight splits and nine
// tasks, each of them taken first.
fn run_deep(alloc: Global, tree: &ClassTree<'_>) -> Result<Option<Outcome>, NoMemory> {
    let mut met = Met::new(alloc);
    let mut board = Board::start(alloc, tree, 5039)?;
    drive(alloc, tree, 5039, &mut board, &mut met, &DOWN_TO_EIGHT)?;
    let is_whole = complete(alloc, tree, 5039, &mut board, &mut met, 10)?;
    if !is_whole || board.history().len() != 34 {
        return Ok(None);
    }
    join(alloc, board)
}

// Whether a run came to the refutation of one thread, which has `branchings` branchings.
fn is_refuted(
    alloc: Global,
    tree: &ClassTree<'_>,
    joined: Option<Outcome>,
    branchings: u64,
) -> Result<bool, NoMemory> {
    let Some(outcome) = joined else {
        return Ok(false);
    };
    let Outcome::No { count, .. } = &outcome else {
        return Ok(false);
    };
    Ok(*count == branchings && is_same(alloc, &outcome, &tree.explore(alloc, &[], branchings)?)?)
}

// Whether the run that splits down to depth 8 comes to the refutation of one thread.
fn is_refuted_deep(alloc: Global, instance: &Instance) -> Result<bool, NoMemory> {
    let tree = ClassTree::new(alloc, instance, false)?;
    let joined = run_deep(alloc, &tree)?;
    is_refuted(alloc, &tree, joined, 5039)
}

#[test]
fn a_tree_that_is_split_to_depth_8_is_the_same(rt: HostRuntime) -> Result<(), Fail> {
    let instance = instance_of(rt.alloc(), &EIGHT)?;
    assert!(rt; is_refuted_deep(rt.alloc(), &instance)?);
    Ok(())
}

// Whether the run that finishes the second child first does.
fn is_refuted_backwards(alloc: Global, instance: &Instance) -> Result<bool, NoMemory> {
    let tree = ClassTree::new(alloc, instance, false)?;
    let joined = run_whole(alloc, &tree)?;
    is_refuted(alloc, &tree, joined, 5)
}

#[test]
fn pieces_in_any_order_join_to_the_refutation(rt: HostRuntime) -> Result<(), Fail> {
    let instance = instance_of(rt.alloc(), &FOUR)?;
    assert!(rt; is_refuted_backwards(rt.alloc(), &instance)?);
    Ok(())
}

// Whether the run under a budget of 2 is past it.
fn is_past(alloc: Global, instance: &Instance) -> Result<bool, NoMemory> {
    let joined = run_past(alloc, &ClassTree::new(alloc, instance, false)?)?;
    Ok(matches!(&joined, Some(Outcome::Past)))
}

#[test]
fn a_leftmost_run_past_the_budget_ends_the_search(rt: HostRuntime) -> Result<(), Fail> {
    let instance = instance_of(rt.alloc(), &FOUR)?;
    assert!(rt; is_past(rt.alloc(), &instance)?);
    Ok(())
}

// Whether a board for this tree, under a budget of 5, is for the one with or without scales, under
// that budget.
fn is_for(
    alloc: Global,
    instance: &Instance,
    tree: &ClassTree<'_>,
    scales: bool,
    budget: u64,
) -> Result<bool, NoMemory> {
    let other = ClassTree::new(alloc, instance, scales)?;
    Ok(Board::start(alloc, tree, 5)?.is_for(&other, budget))
}

// Whether another tree has scales, a budget, and whether a board for the first is for them.
const OTHERS: [(bool, u64, bool); 3] = [(false, 5, true), (false, 4, false), (true, 5, false)];

// Whether that is so for each of them.
fn is_for_its_own(alloc: Global, instance: &Instance) -> Result<bool, NoMemory> {
    let tree = ClassTree::new(alloc, instance, false)?;
    for (scales, budget, wanted) in OTHERS {
        if is_for(alloc, instance, &tree, scales, budget)? != wanted {
            return Ok(false);
        }
    }
    Ok(true)
}

#[test]
fn a_board_is_for_its_tree_and_budget(rt: HostRuntime) -> Result<(), Fail> {
    let instance = instance_of(rt.alloc(), &FOUR)?;
    assert!(rt; is_for_its_own(rt.alloc(), &instance)?);
    Ok(())
}
