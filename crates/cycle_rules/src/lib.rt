//! The propagation rules of four boxes: CYCLE and ORDER, one instance at a time.
#![tactic(auto)]

mod rules;

pub use rules::{apply_cycle, apply_order};
