//! One search tree, explored by several workers.
ghost use Rattle.std.specs.Prelude.{◌≡◌, IfOk, IfSome, Some};
ghost use Rattle.tree_terms.specs.Trees.{outcome, under_budget};
ghost use Rattle.tree_terms.specs.Paths.{IsReachable};
ghost use Rattle.work_share.specs.Board.{out_path};
ghost use Rattle.work_share.specs.Steps.{BoardStep, AskTask};
ghost use Rattle.work_share.specs.Outcomes.{plain_outcome};
ghost use Rattle.work_share.specs.Tasks.{IfJob, reply_of};
ghost use Rattle.work_share.specs.Exploring.{IsFoundAt, PutsFound, HandsIn};

use crate::exploring::{Found, explore_task};
use crate::{Board, Gate, Settings, Take, Task, Tree};
use box_instances::NoMemory;
use proof_tree::Outcome;
use std::alloc::Global;
use std::sync::{Condvar, Mutex, Wait};
use std::thread;
use std::thread::Threads;

// The greatest number of workers.
const MOST_WORKERS: usize = 64;

// What the workers share: the board, and a signal for those that wait that tasks were added or that
// the board is over.
struct SharedBoard<'a, T: Tree> {
    board: Mutex<Board<'a, T>>,
    moved: Condvar,
}

// Puts what was found of a task that is out into its board, in one step. A split without memory is
// noted as a shortage.
fn put_found<T: Tree>(board: &mut Board<'_, T>, task: Task, found: Found)
    requires out { out_path task.number board.old.state.entries ≡ Some task.path }
    requires found { IsFoundAt (T.shape board.old.tree) board.old.budget task.path found }
    ensures step { PutsFound (T.shape board.old.tree) board.old.budget board.old.state task.number
        found
        board.new.state }
    ensures same { board.new ≡ record board.old { state = board.new.state } }
{
    match found {
        Found::Whole(outcome) => board.finish(task, outcome),
        Found::Pieces {
            token,
            own,
            children,
        } => {
            if board.split(task, token, own, children).is_err() {
                board.short();
            }
        }
    }
}

// Submits what a worker found of a task, or that it was short of memory. Nothing is known of the
// board that the worker finds: where it isn't for the worker's tree and budget, or the task isn't
// out, what was found is dropped.
fn submit<T: Tree>(
    board: &mut Board<'_, T>,
    tree: &T,
    budget: u64,
    task: Task,
    found: Result<Found, NoMemory>,
)
    requires { IfOk found (λ f. IsFoundAt (T.shape tree.now) budget task.path f) }
    ensures handed { T.AreSame board.old.tree tree.now → board.old.budget ≡ budget
        → HandsIn (T.shape tree.now) budget board.old.state task found board.new.state }
    ensures same { board.new ≡ record board.old { state = board.new.state } }
{
    if !board.is_for(tree, budget) {
        return;
    }
    match found {
        Err(NoMemory) => board.short(),
        Ok(found) => {
            if board.is_out(&task) {
                put_found(board, task, found);
            }
        }
    }
}

// What a board gives a worker that asks for a task. To one of another tree or budget it gives
// nothing.
fn take_from<T: Tree>(board: &mut Board<'_, T>, tree: &T, budget: u64) -> Take
    ensures taken { T.AreSame board.old.tree tree.now → board.old.budget ≡ budget
        → BoardStep (T.shape tree.now) budget board.old.state AskTask (reply_of result)
        board.new.state }
    ensures path { IfJob result (λ task. IsReachable (T.shape tree.now) task.path) }
    ensures same { board.new ≡ record board.old { state = board.new.state } }
{
    if board.is_for(tree, budget) {
        board.take()
    } else {
        Take::Over
    }
}

// Explores a task, with the gate's calls before and after.
fn explore_between<T: Tree, G: Gate>(
    alloc: Global,
    tree: &T,
    budget: u64,
    gate: &G,
    task: &Task,
) -> Result<Found, NoMemory>
    requires { IsReachable (T.shape tree.now) task.now.path }
    ensures { IfOk result (λ found. IsFoundAt (T.shape tree.now) budget task.now.path found) }
{
    gate.before(task.number());
    let found = explore_task(alloc, tree, budget, task);
    gate.after(task.number());
    found
}

// The next task. None comes where there is nothing left to do, and where the board isn't for this
// tree and budget. Where no task waits, but the board isn't over, the worker sleeps until it is
// woken.
fn next_task<R: Wait, T: Tree>(
    rt: &R,
    tree: &T,
    budget: u64,
    desk: &SharedBoard<'_, T>,
) -> Option<Task>
    ensures { IfSome result (λ task. IsReachable (T.shape tree.now) task.path) }
{
    let mut board = desk.board.lock(rt);
    for _ in rt.forever() {
        match take_from(&mut board, tree, budget) {
            Take::Over => return None,
            Take::Job(task) => return Some(task),
            Take::Empty => board = desk.moved.wait(rt, board),
        }
    }
    None
}

// Takes the lock and submits what was found. Answers whether those that wait have a reason to look
// again: tasks may have been added, or nothing is left to do.
fn submit_and_wake<R: Wait, T: Tree>(
    rt: &R,
    tree: &T,
    budget: u64,
    desk: &SharedBoard<'_, T>,
    task: Task,
    found: Result<Found, NoMemory>,
) -> bool
    requires { IfOk found (λ f. IsFoundAt (T.shape tree.now) budget task.path f) }
{
    let has_pieces = matches!(found, Ok(Found::Pieces { .. }));
    let mut board = desk.board.lock(rt);
    submit(&mut board, tree, budget, task, found);
    has_pieces || board.is_over()
}

// A worker: it takes tasks, explores them outside the lock, and submits what it found, until there
// is no further task for it.
fn work<R: Wait, T: Tree, G: Gate>(
    rt: &R,
    alloc: Global,
    tree: &T,
    budget: u64,
    desk: &SharedBoard<'_, T>,
    gate: &G,
) {
    for _ in rt.forever() {
        let Some(task) = next_task(rt, tree, budget, desk) else {
            return;
        };
        let found = explore_between(alloc, tree, budget, gate, &task);
        if submit_and_wake(rt, tree, budget, desk, task, found) {
            desk.moved.notify_all();
        }
    }
}

// Explores the root of a new board, which no other thread has, and submits what was found.
fn explore_root<T: Tree, G: Gate>(
    alloc: Global,
    tree: &T,
    budget: u64,
    gate: &G,
    board: &mut Board<'_, T>,
) {
    if let Take::Job(task) = take_from(board, tree, budget) {
        let found = explore_between(alloc, tree, budget, gate, &task);
        submit(board, tree, budget, task, found);
    }
}

// Works on a board by the workers of the settings, and returns it.
fn work_together<'a, R: Threads + Wait + Sync, T: Tree + Sync, G: Gate + Sync>(
    rt: &R,
    alloc: Global,
    tree: &T,
    settings: &Settings,
    gate: &G,
    board: Board<'a, T>,
) -> Board<'a, T> {
    let desk = SharedBoard {
        board: Mutex::new(board),
        moved: Condvar::new(),
    };
    let mut seats = [(); MOST_WORKERS];
    let workers = (settings.workers as usize).clamp(1, MOST_WORKERS);
    thread::for_each_mut(
        rt,
        &mut seats[..workers],
        workers,
        &|_, _| { work(rt, alloc, tree, settings.budget, &desk, gate) },
    );
    let SharedBoard { board, moved: _ } = desk;
    board.into_inner()
}

// The outcome that a board holds. If the board is of another tree or budget, or isn't over, this
// thread explores the whole tree.
fn answer_of<T: Tree>(
    alloc: Global,
    tree: &T,
    budget: u64,
    board: Board<'_, T>,
) -> Result<Outcome, NoMemory>
    ensures { IfOk result (λ r. plain_outcome r ≡ under_budget budget (outcome (T.shape tree.now))) }
{
    let has_answer = board.is_for(tree, budget) && board.is_over();
    if !has_answer {
        return tree.explore(alloc, &[], budget);
    }
    if board.is_short() {
        return Err(NoMemory);
    }
    board.joined(alloc)
}

/// What a search tree gives under the budget: its outcome where that has a count of at most the
/// budget, and `Past` exactly where its count is greater. It is the same for every number of
/// workers and every gate. `Err` is want of memory, of any worker.
///
/// With one worker, or none, the calling thread explores alone, takes no lock and calls no gate.
/// With more, of which 64 at most are used, the tree is cut into tasks, the first of which is the
/// root. A task is explored under a cap of 1,024 branchings, 8 more for each step down from the
/// root, and from 512 steps on the square of the further ones. If its count is greater, it is
/// split, or explored again under the whole budget if its node is a leaf. The calling thread
/// explores the root; threads are started only where that leaves tasks. The gate is called before
/// and after the exploring of each task, outside the lock of the board.
///
/// Nothing is promised of which worker explores what and when, of progress, or of speed.
pub fn solve_shared<R: Threads + Wait + Sync, T: Tree + Sync, G: Gate + Sync>(
    rt: &R,
    alloc: Global,
    tree: &T,
    settings: &Settings,
    gate: &G,
) -> Result<Outcome, NoMemory>
    ensures { IfOk result (λ r. plain_outcome r
        ≡ under_budget settings.now.budget (outcome (T.shape tree.now))) }
{
    if settings.workers <= 1 {
        return tree.explore(alloc, &[], settings.budget);
    }
    let mut board = Board::start(alloc, tree, settings.budget)?;
    explore_root(alloc, tree, settings.budget, gate, &mut board);
    if board.is_over() {
        return answer_of(alloc, tree, settings.budget, board);
    }
    let board = work_together(rt, alloc, tree, settings, gate, board);
    answer_of(alloc, tree, settings.budget, board)
}
