//! The least number of bins, and the greatest value of boxes that fit together; and the outer
//! search trees that decide them.
#![tactic(auto)]

mod bins;
mod choice;
mod counts;
mod greatest;
mod least;
mod spread;
mod values;

pub use bin_search::BinTree;
pub use bins::Bins;
pub use choice::Choice;
pub use choice_search::ChoiceTree;
pub use counts::decide_bins;
pub use greatest::{first_values, greatest_value};
pub use least::least_bins;
pub use values::decide_value;
