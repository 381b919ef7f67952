//! What the workers that explore a search tree share.
#![tactic(auto)]

mod board;
mod children;
mod exploring;
mod front;
mod gate;
mod joining;
mod laws;
mod link;
mod sharing;
mod short;
mod slot;
mod stack;
mod task;
mod tree;

pub use board::Board;
pub use gate::{Gate, NoGate};
pub use laws::{
    any_order_gives_one_outcome, histories_keep_a_board, pieces_are_outcomes, steps_are_replayed,
};
pub use sharing::solve_shared;
pub use short::ShortTree;
pub use task::{Take, Task};
pub use text_terms::Settings;
pub use tree::{Node, Tree};

/// An event that changes a board. Tasks are named by their numbers.
///
/// `Take`: the task, which waits, is handed out. `Split`: the task, which is out, gives way to the
/// split that the tree has at its path, and to its children, which wait. `Finish`: the task, which
/// is out, is done with the outcome that the tree has at its path, or, with `past`, with "past the
/// budget". `Short`: a worker was short of memory.
#[derive(Clone, Copy, Debug, PartialEq, Eq)]
pub enum Event {
    Take { number: u64 },
    Split { number: u64 },
    Finish { number: u64, past: bool },
    Short,
}
