//! A runner: a list of numbers drives a board over a tree, through any events that the board
//! allows.
ghost use Rattle.std.specs.Prelude.{◌≡◌};

use box_instances::NoMemory;
use proof_tree::Outcome;
use std::alloc::Global;
use work_share::{Board, Node, Take, Task, Tree};

/// The tasks that are out, and what a run met: how many tasks wait, and the numbers of the first
/// yes.
#[derive(Drop)]
pub struct Met {
    pub out: Vec<Task>,
    pub waiting: u64,
    pub first_yes: Option<Vec<u32>>,
}

impl Met {
    /// At the start the root waits.
    pub fn new(alloc: Global) -> Met {
        Met {
            out: Vec::new(alloc),
            waiting: 1,
            first_yes: None,
        }
    }

    // Keeps the numbers of the first yes.
    fn see(&mut self, alloc: Global, outcome: &Outcome) -> Result<(), NoMemory> {
        let Outcome::Yes { numbers, .. } = outcome else {
            return Ok(());
        };
        if self.first_yes.is_none() {
            let Ok(numbers) = Vec::from_slice(alloc, numbers.as_slice()) else {
                return Err(NoMemory);
            };
            self.first_yes = Some(numbers);
        }
        Ok(())
    }
}

/// Asks the board for a task, and answers whether it is over.
pub(crate) fn take<T: Tree>(board: &mut Board<'_, T>, met: &mut Met) -> Result<bool, NoMemory>
    ensures { board.new ≡ record board.old { state = board.new.state } }
{
    match board.take() {
        Take::Job(task) => {
            met.waiting = met.waiting.saturating_sub(1);
            let Ok(()) = met.out.push(task) else {
                return Err(NoMemory);
            };
            Ok(false)
        }
        Take::Empty => Ok(false),
        Take::Over => Ok(true),
    }
}

/// Explores a task that is out, and submits its outcome.
pub(crate) fn finish<T: Tree>(
    alloc: Global,
    tree: &T,
    budget: u64,
    board: &mut Board<'_, T>,
    met: &mut Met,
    task: Task,
) -> Result<(), NoMemory>
    requires tree { board.old.tree ≡ tree.now }
    requires budget { board.old.budget ≡ budget }
    ensures { board.new ≡ record board.old { state = board.new.state } }
{
    if !board.is_out(&task) {
        return Ok(());
    }
    let outcome = tree.explore(alloc, task.path(), budget)?;
    met.see(alloc, &outcome)?;
    board.finish(task, outcome);
    Ok(())
}

/// Splits a task that is out, or submits its outcome where its node is a leaf.
pub(crate) fn split<T: Tree>(
    alloc: Global,
    tree: &T,
    budget: u64,
    board: &mut Board<'_, T>,
    met: &mut Met,
    task: Task,
) -> Result<(), NoMemory>
    requires tree { board.old.tree ≡ tree.now }
    requires budget { board.old.budget ≡ budget }
    ensures { board.new ≡ record board.old { state = board.new.state } }
{
    if !board.is_out(&task) {
        return Ok(());
    }
    match tree.node(alloc, task.path())? {
        Node::Leaf => finish(alloc, tree, budget, board, met, task),
        Node::Split {
            token,
            own,
            children,
        } => {
            met.waiting = met.waiting.saturating_add(u64::from(children));
            match board.split(task, token, own, children) {
                Ok(()) => Ok(()),
                Err(_task) => Err(NoMemory),
            }
        }
    }
}

/// One event: a number below 4 in its last two bits says which, and the rest of it which task that
/// is out.
pub(crate) fn turn<T: Tree>(
    alloc: Global,
    tree: &T,
    budget: u64,
    board: &mut Board<'_, T>,
    met: &mut Met,
    number: u32,
) -> Result<(), NoMemory>
    requires tree { board.old.tree ≡ tree.now }
    requires budget { board.old.budget ≡ budget }
    ensures { board.new ≡ record board.old { state = board.new.state } }
{
    let kind = number % 4;
    if kind < 2 || met.out.is_empty() {
        take(board, met)?;
        return Ok(());
    }
    let choice = (number / 4) as usize % met.out.len();
    let task = met.out.swap_remove(choice);
    if kind == 2 {
        finish(alloc, tree, budget, board, met, task)
    } else {
        split(alloc, tree, budget, board, met, task)
    }
}

/// The events of a list of numbers.
pub(crate) fn drive<T: Tree>(
    alloc: Global,
    tree: &T,
    budget: u64,
    board: &mut Board<'_, T>,
    met: &mut Met,
    numbers: &[u32],
) -> Result<(), NoMemory>
    requires tree { board.old.tree ≡ tree.now }
    requires budget { board.old.budget ≡ budget }
    ensures { board.new ≡ record board.old { state = board.new.state } }
{
    for number in numbers {
        turn(alloc, tree, budget, board, met, *number)?;
    }
    Ok(())
}

/// Takes and finishes tasks, the last taken first, until the board is over. It answers false where
/// it isn't within `turns` turns.
pub(crate) fn complete<T: Tree>(
    alloc: Global,
    tree: &T,
    budget: u64,
    board: &mut Board<'_, T>,
    met: &mut Met,
    turns: u32,
) -> Result<bool, NoMemory>
    requires tree { board.old.tree ≡ tree.now }
    requires budget { board.old.budget ≡ budget }
    ensures { board.new ≡ record board.old { state = board.new.state } }
{
    for _ in 0..turns {
        if take(board, met)? {
            return Ok(true);
        }
        if let Some(task) = met.out.pop() {
            finish(alloc, tree, budget, board, met, task)?;
        }
    }
    Ok(false)
}
