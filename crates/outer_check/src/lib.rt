//! Whether tokens refute that boxes fit in a number of bins, that they reach a value, or, with
//! families of boxes side by side, that they fit. They are taken one by one.
#![tactic(auto)]

mod exchanging;
mod family_refuter;
mod goal;
mod laws;
mod leaves;
mod path;
mod point;
mod pricing;
mod products;
mod refuter;
mod step;
mod taking;

pub use family_refuter::FamilyRefuter;
pub use goal::Goal;
pub use laws::{bounded_steps_leave_the_open_nodes, outer_steps_leave_the_open_nodes};
pub use refuter::OuterRefuter;
pub use verdict_terms::{FeedVerdict, RefuseCode};
