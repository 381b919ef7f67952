//! Proposed refutations of bounded runs.
//!
//! Of a value: choice trees whose leaves are priced out by tuples of scale functions, and whose sets
//! of boxes are decided by proposals too. Of a height: families of boxes side by side, of which
//! every two are apart in one dimension by the closure of the root, and which are together longer
//! than the container.
//!
//! The caller tests each proposal. The searches are proved to be safe and to end, and nothing else.
//!
//! Sources: the surrogate bound of a knapsack, by Dantzig's bound over the volumes of conservative
//! scales (Fekete and Schepers); the stable sets of a component graph (Fekete, Schepers and van der
//! Veen, 2007), found as heavy cliques of the graph of the pairs that are apart.
#![tactic(auto)]

mod boxes;
mod candidates;
mod exchanges;
mod family_growing;
mod family_lines;
mod family_search;
mod family_sides;
mod family_space;
mod fill;
mod functions;
mod kinds;
mod memory;
mod path;
mod patience;
mod pause;
mod pool;
mod recent;
mod refuter;
mod sets;
mod slots;
mod tree_search;
mod tree_space;

pub use family_search::propose_family;
pub use pause::TreeLimits;
pub use refuter::{BoundedEffort, ValueProposal, ValueRefuter};
