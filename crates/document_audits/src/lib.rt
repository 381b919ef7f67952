//! Documents that are audited or read again: of explained refutations and of fronts, each in a plain
//! loop over its lines, the kind of a document that comes from a source, and the refutation that a
//! verified document of `fit` holds. It stands on no solver.
#![tactic(auto)]

mod explained_audit;
mod explained_head;
mod explained_lines;
mod explained_tree;
mod front_audit;
mod front_head;
mod front_lines;
mod front_opening;
mod front_places;
mod front_reading;
mod front_steps;
mod front_tree;
mod kind;
mod opening;
mod opening_laws;
mod position;
mod refutation;
mod refutation_reading;
mod words;

pub use explained_audit::{ExplainedAudit, audit_explained};
pub use front_audit::{FrontAudit, audit_front_document};
pub use kind::document_kind;
pub use opening::{Opened, open_document};
pub use opening_laws::{documents_are_read_one_way, kinds_stay};
pub use position::result_line;
pub use refutation::{ReadRefutation, read_refutation};
