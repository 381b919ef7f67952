//! What the program writes: the documents of answers and of fronts, the line of a check or an audit
//! and the summary of `make`, each streamed to a sink through one block.
#![tactic(auto)]

mod audited;
mod audited_fronts;
mod bins_documents;
mod block_buffer;
mod bounded_documents;
mod bounded_strips;
mod documents;
mod explained;
mod front_document;
mod front_lines;
mod front_steps;
mod knapsack_documents;
mod numbered;
mod results;
mod solution;
mod streaming;
mod strip_documents;
mod summary;
mod tree_start;
mod verdict;

pub use audited::{AuditedVerdict, ExplainedVerdict};
pub use audited_fronts::FrontAudited;
pub use bounded_documents::{BoundedDocument, bounded_status};
pub use bounded_strips::{BoundedStripDocument, bounded_strip_status};
pub use documents::Written;
pub use explained::Explanation;
pub use front_document::{FrontDocument, front_status};
pub use solution::{Solution, fit_status};
pub use streaming::{AnswerDocument, Streamed, stream};
pub use summary::Made;
pub use tree_start::TreeStart;
pub use verdict::Verdict;
