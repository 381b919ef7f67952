//! The work board.
ghost use Rattle.std.specs.Prelude.{◌≡◌, ◌+◌, ◌*◌, ◌^◌, ◌≤◌, ◌<◌, IfOk, OnOk, OnErr, IfErr, IfSome, IsTrue, MatchBool, Some, true, false, vec_len, vec_capacity};
ghost use Rattle.tree_terms.specs.Trees.{node_at, outcome, under_budget};
ghost use Rattle.tree_terms.specs.Paths.{Splits, node_view, outcome_at, IsReachable};
ghost use Rattle.work_share.specs.Board.{board_start, out_path};
ghost use Rattle.work_share.specs.Runs.{is_board_over, board_joined};
ghost use Rattle.work_share.specs.Steps.{AskTask, AskSplit, AskFinish, NoteShort, IsDone, BoardStep};
ghost use Rattle.work_share.specs.Replay.{replay};
ghost use Rattle.work_share.specs.Kept.{IsOutcomeOf};
ghost use Rattle.work_share.specs.Outcomes.{plain_outcome};
ghost use Rattle.proof_tree.specs.Plain.{plain_token};
ghost use Rattle.work_share.specs.Tasks.{reply_of, IfJob, is_past};

use crate::Event;
use crate::children::{children_of, put_children};
use crate::front::{FinishedPrefix, advance};
use crate::joining::join_run;
use crate::link::next_of;
use crate::slot::{Slot, SlotState, put_state};
use crate::stack::count_left;
use crate::task::{Take, Task};
use crate::tree::Tree;
use box_instances::NoMemory;
use proof_tree::{Outcome, Token};
use std::alloc::{AllocError, Global};
use std::marker::Model;

/// The tasks into which one search tree is cut, under one budget, and what they have given so far.
/// It is seen as its tree, its budget and its state: the entries in prefix order, and whether a
/// worker was short of memory.
///
/// It keeps the history of its events: each task that was taken, each split, each finish, and the
/// first note of a shortage. The history replays to the state; no path of a task that is out is a
/// prefix of another's; and each done task has its node's outcome, or past where the count of that
/// exceeds the budget.
#[derive(Drop)]
pub struct Board<'a, T: Tree> {
    tree: &'a T,
    alloc: Global,
    budget: u64,
    // By number, each linked to the one behind it in prefix order.
    slots: Vec<Slot>,
    // The tasks that wait, the leftmost last.
    waiting: Vec<Task>,
    front: FinishedPrefix,
    is_short: bool,
    history: Vec<Event>,
}

impl<'a, T: Tree> Model for Board<'a, T> {
    ghost use Rattle.std.specs.Prelude.{vec_capacity};
    ghost use Rattle.work_share.specs.Links.{order_of, IsLinked};
    ghost use Rattle.work_share.specs.Boards.{PlainBoard, stored_state, IsKept};

    ghost Value = { PlainBoard T };

    ghost view = { λ b. record {
      tree = b.tree.now;
      budget = b.budget;
      state = stored_state b.slots.items (order_of b.slots.items) b.is_short;
    } };

    ghost invariant = { λ b. IsKept (T.shape b.tree.now) b.budget b.slots.items
        (order_of b.slots.items) b.waiting.items b.front.len b.front.count b.front.is_ended
        b.is_short b.history.items (vec_capacity b.history)
        × IsLinked b.slots.items b.front.len b.front.behind };
}

// Whether an outcome is "past the budget".
pub(crate) fn is_past(outcome: &Outcome) -> bool
    ensures { result ≡ is_past (plain_outcome outcome.now) }
{
    match outcome {
        Outcome::Yes { .. } => false,
        Outcome::No { .. } => false,
        Outcome::Past => true,
    }
}

// Makes room for `children` children, and for all events of their tasks.
fn reserve_for(
    slots: &mut Vec<Slot>,
    waiting: &mut Vec<Task>,
    history: &mut Vec<Event>,
    children: usize,
) -> Result<(), AllocError>
    requires few { children < 2 ^ 32 }
    requires known { vec_len history.old ≤ 2 * vec_len slots.old + 1 }
    ensures slots { slots.new.items ≡ slots.old.items }
    ensures waiting { waiting.new.items ≡ waiting.old.items }
    ensures history { history.new.items ≡ history.old.items }
    ensures kept { vec_capacity history.old ≤ vec_capacity history.new }
    ensures slots_room { OnOk result (vec_len slots.new + children ≤ vec_capacity slots.new) }
    ensures waiting_room { OnOk result (vec_len waiting.new + children ≤ vec_capacity waiting.new) }
    ensures history_room { OnOk result
        (2 * (vec_len slots.new + children) + 1 ≤ vec_capacity history.new) }
{
    slots.reserve(children)?;
    waiting.reserve(children)?;
    let events = 2 * (slots.len() + children) + 1;
    history.reserve(events - history.len())
}

impl<'a, T: Tree> Board<'a, T> {
    /// The board with one task that waits, the root.
    pub fn start(alloc: Global, tree: &'a T, budget: u64) -> Result<Board<'a, T>, NoMemory>
        ensures { IfOk result (λ b. b ≡ record {
          tree = tree.entry.now;
          budget = budget;
          state = board_start;
        }) }
    {
        let Ok(board) = Board::with_root(alloc, tree, budget) else {
            return Err(NoMemory);
        };
        Ok(board)
    }

    fn with_root(alloc: Global, tree: &'a T, budget: u64) -> Result<Board<'a, T>, AllocError>
        ensures { IfOk result (λ b. b ≡ record {
          tree = tree.entry.now;
          budget = budget;
          state = board_start;
        }) }
    {
        let mut slots = Vec::new(alloc);
        slots.push(Slot {
            path: Vec::new(alloc),
            state: SlotState::Waits,
            behind: None,
        })?;
        let mut waiting = Vec::new(alloc);
        waiting.push(Task::new(Vec::new(alloc), 0))?;
        let mut history = Vec::new(alloc);
        history.reserve(3)?;
        Ok(Board {
            tree,
            alloc,
            budget,
            slots,
            waiting,
            front: FinishedPrefix::new(0, 0, false, Some(0)),
            is_short: false,
            history,
        })
    }

    /// Whether there is nothing left to do: a worker was short of memory, or every task that is
    /// needed is finished, or the counts of the leftmost finished run exceed the budget.
    pub fn is_over(&self) -> bool
        ensures { result ≡ is_board_over self.now.budget self.now.state }
    {
        self.is_short || self.front.is_ended || self.front.len == self.slots.len()
    }

    /// Hands out the leftmost task that waits, unless the board is over.
    ///
    /// `Over` comes exactly where it is over, and `Empty` exactly where it isn't and no task waits;
    /// then some task is out. It takes no memory, and doesn't go through the entries.
    pub fn take(&mut self) -> Take
        ensures step { BoardStep (T.shape self.old.tree) self.old.budget self.old.state AskTask
            (reply_of result) self.new.state }
        ensures same { self.new ≡ record self.old { state = self.new.state } }
        ensures path { IfJob result (λ task. IsReachable (T.shape self.old.tree) task.path) }
        ensures out { IfJob result
            (λ task. out_path task.number self.new.state.entries ≡ Some task.path) }
    {
        if self.is_over() {
            return Take::Over;
        }
        match self.waiting.pop() {
            None => Take::Empty,
            Some(task) => {
                put_state(&mut self.slots, task.number() as usize, SlotState::Out);
                self.history.push_reserved(Event::Take {
                    number: task.number(),
                });
                Take::Job(task)
            }
        }
    }

    /// Whether this task is out: the task of its number is, and has its path. Then its path may be
    /// reached.
    pub fn is_out(&self, task: &Task) -> bool
        ensures reached { IsTrue result → IsReachable (T.shape self.now.tree) task.now.path }
        ensures exactly { MatchBool result
            (out_path task.now.number self.now.state.entries ≡ Some task.now.path)
            (¬ (out_path task.now.number self.now.state.entries ≡ Some task.now.path)) }
    {
        match self.slots.get(task.number() as usize) {
            Some(slot) => slot.is_out_at(task.path()),
            None => false,
        }
    }

    /// Puts the children of a split in the place of its task: they wait, and are numbered from left
    /// to right, beginning with the number of entries that there were before.
    ///
    /// The task is out, and the tree's node there is reported as this split. `Err` is want of
    /// memory; it returns the task, and the board is as before.
    pub fn split(&mut self, task: Task, token: Token, own: u64, children: u32) -> Result<(), Task>
        requires out { out_path task.number self.old.state.entries ≡ Some task.path }
        requires told { IfSome (node_at (Some (T.shape self.old.tree)) task.path)
            (λ node. node_view node ≡ Splits (plain_token token) own children) }
        ensures step { OnOk result
            (BoardStep (T.shape self.old.tree) self.old.budget self.old.state (AskSplit task.number)
            IsDone self.new.state) }
        ensures unchanged { OnErr result (self.new ≡ self.old) }
        ensures back { IfErr result (λ t. t ≡ task) }
        ensures same { self.new ≡ record self.old { state = self.new.state } }
    {
        if task.depth() == u32::MAX {
            return Err(task);
        }
        let number = task.number() as usize;
        let behind = next_of(&self.slots, number);
        let Ok(made) = children_of(self.alloc, task.path(), children, self.slots.len(), behind)
        else {
            return Err(task);
        };
        let Ok(()) = reserve_for(
            &mut self.slots,
            &mut self.waiting,
            &mut self.history,
            children as usize,
        ) else {
            return Err(task);
        };
        let left = count_left(&self.waiting, task.path());
        let state = SlotState::Split {
            token,
            own,
            children,
        };
        put_children(
            &mut self.slots,
            &mut self.waiting,
            number,
            left,
            state,
            made,
        );
        self.front = advance(&self.slots, self.budget, self.front);
        self.history.push_reserved(Event::Split {
            number: task.number(),
        });
        Ok(())
    }

    /// Stores what a task gave.
    ///
    /// The task is out, and the outcome is the tree's at its path, or `Past` where the count of
    /// that exceeds the budget. It takes no memory.
    pub fn finish(&mut self, task: Task, outcome: Outcome)
        requires out { out_path task.number self.old.state.entries ≡ Some task.path }
        requires right { IfSome (outcome_at (T.shape self.old.tree) task.path)
            (λ verdict. IsOutcomeOf self.old.budget verdict (plain_outcome outcome)) }
        ensures step { BoardStep (T.shape self.old.tree) self.old.budget self.old.state
            (AskFinish task.number (is_past (plain_outcome outcome))) IsDone self.new.state }
        ensures same { self.new ≡ record self.old { state = self.new.state } }
    {
        let past = is_past(&outcome);
        put_state(
            &mut self.slots,
            task.number() as usize,
            SlotState::Done(outcome),
        );
        self.front = advance(&self.slots, self.budget, self.front);
        self.history.push_reserved(Event::Finish {
            number: task.number(),
            past,
        });
    }

    /// Notes that a worker was short of memory.
    pub fn short(&mut self)
        ensures step { BoardStep (T.shape self.old.tree) self.old.budget self.old.state NoteShort
            IsDone self.new.state }
        ensures same { self.new ≡ record self.old { state = self.new.state } }
    {
        if !self.is_short {
            self.is_short = true;
            self.history.push_reserved(Event::Short);
        }
    }

    /// Whether a worker was short of memory.
    pub fn is_short(&self) -> bool
        ensures { result ≡ self.now.state.is_short }
    {
        self.is_short
    }

    /// Whether the board is for this tree and this budget: its tree was made from equal parts, and
    /// its budget is the same.
    pub fn is_for(&self, tree: &T, budget: u64) -> bool
        ensures { MatchBool result (T.AreSame self.now.tree tree.now × (self.now.budget ≡ budget))
            (¬ (T.AreSame self.now.tree tree.now × (self.now.budget ≡ budget))) }
    {
        self.budget == budget && self.tree.same(tree)
    }

    /// Events, from the first on, whose replay gives the state.
    pub fn history(&self) -> &[Event]
        ensures { replay (T.shape self.now.tree) self.now.budget result.now ≡ self.now.state }
    {
        self.history.as_slice()
    }

    /// The pieces of a board that is over, joined from left to right: the first yes, or a no with
    /// all tokens, or `Past` where the count exceeds the budget. It is the outcome of the whole
    /// tree under the budget.
    ///
    /// The board is over, and no worker was short of memory.
    pub fn joined(self, alloc: Global) -> Result<Outcome, NoMemory>
        requires over { is_board_over self.budget self.state ≡ true }
        requires enough { self.state.is_short ≡ false }
        ensures joined { IfOk result
            (λ r. plain_outcome r ≡ board_joined self.entry.budget self.entry.state) }
        ensures outcome { IfOk result
            (λ r. plain_outcome r ≡ under_budget self.entry.budget (outcome (T.shape self.entry.tree))) }
    {
        let Board {
            slots,
            budget,
            front,
            ..
        } = self;
        join_run(alloc, slots, budget, front)
    }
}
