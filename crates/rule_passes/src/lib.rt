//! The seven rules over a state until none adds anything: what the search and the checker both
//! close a state with, each from where it stands.
#![tactic(auto)]

mod candidates;
mod chains;
mod closing;
mod composing;
mod cycles;
mod dispatch;
mod edges;
mod empties;
mod excluding;
mod long_chains;
mod orders;
mod overlaps;
mod pairs;
mod prechecks;
mod room;
mod rows;
mod triples;
mod worklist;

pub use room::Propagator;
