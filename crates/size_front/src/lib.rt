//! The front of least sizes: all least widths and heights of a container in which two-dimensional
//! boxes fit, each with a packing, and refutations of everything below them.
#![tactic(auto)]

mod deciding;
mod front;
mod heights;
mod rounds;
mod walking;
mod widths;

pub use front::{Corner, Front, Point};
pub use front_check::{FrontLine, FrontReason, FrontVerdict, audit_front};
pub use walking::least_sizes;
