//! Answers by proposals first: whether boxes fit, and the least height, the least number of bins
//! and the greatest value between bounds that are certified before any tree is searched. What is
//! proposed is tested, and what is left open is decided by the described trees.
#![tactic(auto)]

mod bin_testing;
mod choice_testing;
mod counts;
mod decision;
mod effort;
mod greatest;
mod heights;
mod least;
mod proposing;
mod purse;
mod refuting;
mod share;
mod steps;
mod strip;
mod testing;
mod upper;
mod values;

pub use bin_knapsack::{Bins, Choice};
pub use bin_testing::are_bin_numbers;
pub use choice_testing::{is_choice, worth_of};
pub use conflict_search::Proposal;
pub use decision::{answer_of, decide_proposed, decide_with_proposal};
pub use greatest::greatest_value_proposed;
pub use least::least_bins_proposed;
pub use refuting::is_value_refutation;
pub use share::level_share;
pub use steps::value_batches;
pub use strip::least_height_proposed;
pub use strip_solver::Strip;
pub use testing::is_refutation;
