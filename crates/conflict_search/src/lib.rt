//! Proposed refutations: a tree over the same rules as every other, with splits of its own choice,
//! by what conflicts rest on.
//!
//! Of what it proposes nothing is promised but sizes: the caller tests it. So it is free to be
//! clever, and is proved to be safe and to end, and nothing else.
#![tactic(auto)]

mod causes;
mod chains;
mod choice;
mod closing;
mod cycles;
mod depths;
mod lookahead;
mod nodes;
mod orders;
mod proposal;
mod reasons;
mod refuting;
mod relations;
mod search;
mod splits;
mod spread;
mod state;
mod table;
mod weights;

pub use proposal::Proposal;
pub use refuting::propose_refutation;
