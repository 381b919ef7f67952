//! The words of the command line: which job they name, with its settings and its number.
#![tactic(auto)]

mod command;
mod job;
mod texts;
mod words;

pub use job::{Job, JobWords, WordsError};
pub use text_terms::{Settings, SolvingJob};
pub use words::read_words;
