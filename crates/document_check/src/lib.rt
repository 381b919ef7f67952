//! The check of a document from a source, in one pass, and the audit of one that stands in memory.
#![tactic(auto)]

mod audit;
mod check;
mod families;
mod phases;
mod position;
mod showing;
mod values;

pub use audit::{Audit, audit_document};
pub use check::{CheckEnd, check_document, check_rest};
