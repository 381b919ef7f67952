//! Tokens of refutations, and what a search tree gives under a budget.
#![tactic(auto)]

mod copies;
mod function;
mod line;
mod list;
mod list_lines;
mod outcome;
mod reading;
mod short;
mod token;
mod writing;

pub use conservative_scales::ScaleTuple;
pub use copies::{copy_token, copy_tuple};
pub use list::{CompactTokens, write_tokens_on};
pub use outcome::Outcome;
pub use reading::{one_parameter, parameter_at, read_token, three_parameters, tuple_from};
pub use token::Token;
pub use writing::{write_functions, write_token, write_token_on};
