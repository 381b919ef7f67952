//! The closure of a state under the seven propagation rules, as a search asks for it.
#![tactic(auto)]

mod closer;

pub use closer::{Closed, Closer};
