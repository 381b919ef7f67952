//! Texts: their lines, words and numbers, which of them are instances, how they are read byte by
//! byte, and how an instance is written.
#![tactic(auto)]

mod claim;
mod document_laws;
mod fault;
mod laws;
mod number;
mod settings;

pub use claim::{Claim, SolvingJob};
pub use document_laws::{token_lines_are_told, tokens_are_read_back};
pub use fault::TextFault;
pub use laws::{
    lines_are_told, lines_have_form, texts_are_fed, texts_are_instances, texts_are_lines,
    texts_are_read_back, texts_have_form,
};
pub use number::read_number;
pub use settings::Settings;
