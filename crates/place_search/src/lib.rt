//! The search for places of all boxes in a container, with going back.
//!
//! Nothing is promised of what it finds, so the code guards each access and has no invariant.
#![tactic(auto)]

mod corners;
mod gaps;
mod lines;
mod luby;
mod places;
mod rounds;

pub use places::PlaceSearch;
