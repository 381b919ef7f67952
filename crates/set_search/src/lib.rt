//! Decisions of sets of the boxes of one instance, and what the outer search trees share beside
//! them.
#![tactic(auto)]

mod answer;
mod cache;
mod child;
mod insert;
mod kept;
mod key;
mod known;
mod pool;
mod search;
mod shared;

pub use answer::push_coordinates;
pub use child::Child;
pub use insert::{put_box, with_box};
pub use search::{MAX_BUDGET, SetSearch, TASK_SET_BUDGET};
