//! Explained refutations written from refutations: between the tokens come the steps by which each
//! conflict is reached.
#![tactic(auto)]

mod chain_steps;
mod chains;
mod closings;
mod empties;
mod explaining;
mod facts;
mod finding;
mod heaviest;
mod links;
mod marks;
mod pending;
mod places;
mod reasons;
mod replay;
mod settling;
mod short_reasons;
mod shortening;
mod splits;
mod steps;
mod taking;
mod tracing;
mod walk;
mod walk_state;
mod written;

pub use walk::explain;
