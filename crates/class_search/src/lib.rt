//! The class tree, which decides whether an instance fits, and its exploration with a stack of its
//! own.
//!
//! Source: the search over packing classes of Fekete, Schepers and van der Veen (2007).
#![tactic(auto)]

mod decider;
mod decision;
mod exploring;
mod keeping;
mod kept;
mod pairs;
mod places;
mod rank;
mod root;
mod same;
mod search;
mod splits;
mod tree;
mod visit;
mod walk;

pub use decider::Decider;
pub use decision::{decide, decide_alone, decide_in};
pub use edge_state::Exclusion;
pub use level_search::{Level, Reached};
pub use root::first_too_large;
pub use same::are_same_instances;
pub use tree::ClassTree;
