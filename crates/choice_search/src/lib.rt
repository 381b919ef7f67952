//! The choice tree, which looks for a set of boxes of a value that fits, and its exploration with a
//! stack of its own.
#![tactic(auto)]

mod node;
mod numbers;
mod path;
mod shared;
mod tree;
mod walk;

pub use numbers::choice_numbers;
pub use tree::ChoiceTree;
