//! The bin tree, which looks for a packing in a given number of bins, and its exploration with a
//! stack of its own.
#![tactic(auto)]

mod lists;
mod node;
mod numbers;
mod path;
mod root;
mod shared;
mod tree;
mod walk;

pub use tree::BinTree;
