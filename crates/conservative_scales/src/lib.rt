//! Conservative scales: whether a tuple of scale functions, one for each dimension, shows that the
//! boxes don't fit.
//!
//! Source: Fekete and Schepers, on dual feasible functions and the volume bounds that they give.
#![tactic(auto)]

mod excess;
mod fastest;
mod functions;
mod listed;
mod partial;
mod rows;
mod search;

pub use excess::{exceeds, exceeds_among};
pub use functions::{image, legal, whole};
pub use packing_terms::ScaleFn;
pub use search::{ScaleTuple, first_exceeding};
