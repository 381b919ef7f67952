//! Whether lines are those of a front of least sizes. It stands on no solver.
#![tactic(auto)]

mod allowed;
mod audit;
mod containers;
mod copying;
mod line;
mod parts;
mod reading;

pub use allowed::{corner_reason, is_whole, point_reason, token_reason};
pub use audit::audit_front;
pub use containers::with_container;
pub use line::FrontLine;
pub use parts::{Part, Stage};
pub use verdict_terms::{FrontReason, FrontVerdict};
