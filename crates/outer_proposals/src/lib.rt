//! Proposed outer trees: choice trees that refute a value, in which each set of boxes is closed by
//! one token.
//!
//! The caller tests each proposal. The search is proved to be safe and to end, and nothing else.
#![tactic(auto)]

mod choice;
mod closing;
mod order;
mod pairs;
mod slots;
mod tuples;

pub use choice::propose_value_refutation;
