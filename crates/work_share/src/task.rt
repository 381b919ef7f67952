//! Tasks, as they are handed out.
ghost use Rattle.std.specs.Prelude.{◌≡◌, ◌<◌, ◌^◌, length};

use std::marker::Model;

/// A task of a board: the node at a path, to be explored. It is seen as its path and its number.
#[derive(Drop)]
pub struct Task {
    path: Vec<u32>,
    number: u64,
}

impl Model for Task {
    ghost use Rattle.std.specs.Prelude.{◌<◌, ◌^◌, length};
    ghost use Rattle.work_share.specs.Board.{PlainTask};

    ghost Value = { PlainTask };

    ghost view = { λ t. record { path = t.path.items; number = t.number } };

    ghost invariant = { λ t. length t.path.items < 2 ^ 32 };
}

impl Task {
    // The task of this path and number.
    pub(crate) fn new(path: Vec<u32>, number: u64) -> Task
        requires { length path.items < 2 ^ 32 }
        ensures { result ≡ record { path = path.items; number = number } }
    {
        Task { path, number }
    }

    /// The number of the child that is taken at each split, from the root on, counted from 0.
    pub fn path(&self) -> &[u32]
        ensures { result.now ≡ self.now.path }
    {
        self.path.as_slice()
    }

    /// The number of the task on its board. The root has the number 0.
    pub fn number(&self) -> u64
        ensures { result ≡ self.now.number }
    {
        self.number
    }

    /// The length of the path. The root has the depth 0.
    pub fn depth(&self) -> u32
        ensures { result ≡ length self.now.path }
    {
        self.path.len() as u32
    }
}

/// What a board replies to a worker that asks for a task.
///
/// `Job`: this task, which is out from now on. `Empty`: none waits, but some are out. `Over`: there
/// is nothing left to do.
#[derive(Drop)]
pub enum Take {
    Job(Task),
    Empty,
    Over,
}
