//! Instance texts: read byte by byte and line by line, with the line and the code of the first
//! fault, and written in their one spelling.
#![tactic(auto)]

mod codes;
mod cursor;
mod held;
mod lexer;
mod parts;
mod reader;
mod word;
mod words;
mod writing;

pub use cursor::{Cursor, next_filled};
pub use lexer::{LexStep, LineLexer};
pub use reader::{InstanceReader, ReadTextError, read_instance};
pub use text_terms::TextFault;
pub use word::is_same;
pub use words::{is_blank, is_first, is_result, is_word};
pub use writing::{write_instance, write_numbers};
