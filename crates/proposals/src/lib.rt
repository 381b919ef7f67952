//! Proposals: places, bins and choices of an instance. Their contracts promise sizes only.
//!
//! The caller tests a proposal. So a search here is free to be clever: it is proved to be safe and
//! to end, and nothing else.
#![tactic(auto)]

mod bins;
mod choice;
mod heights;
mod packings;
mod places;
mod pool;

pub use bins::{ProposedBins, propose_bins};
pub use choice::{ProposedChoice, propose_choice};
pub use heights::{ProposedHeight, propose_height};
pub use packings::propose_packing;
pub use places::propose_places;
