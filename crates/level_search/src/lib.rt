//! Runs of levels: the bisection between a level that is refuted and one that is placed, whatever
//! answers a level.
#![tactic(auto)]

mod bounds;
mod laws;
mod level;
mod run;

pub use bounds::{Bounds, updated_misses};
pub use laws::followed_runs_are_runs;
pub use level::{Level, Reached, level_of};
