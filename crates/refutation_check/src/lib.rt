//! Whether tokens are a refutation of an instance, or of a set of its boxes, taken one by one.
//!
//! It stands on the rules, their passes over a state, the scales and the tokens, and on no solver.
#![tactic(auto)]

mod children;
mod closing;
mod joining;
mod judging;
mod node;
mod refuter;

pub use judging::{are_legal, judge_tuple};
pub use refuter::Refuter;
pub use verdict_terms::{FeedVerdict, RefuseCode};
