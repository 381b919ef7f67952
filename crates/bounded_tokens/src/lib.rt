//! Tokens of bounded refutations, of values and of heights: read from a line, copied and written.
#![tactic(auto)]

mod copies;
mod family_copies;
mod family_reading;
mod family_token;
mod family_writing;
mod reading;
mod token;
mod writing;

pub use copies::copy_bounded_token;
pub use family_copies::copy_family_token;
pub use family_reading::read_family_token;
pub use family_token::{FamilyToken, JoiningBoxes};
pub use family_writing::{write_family_token, write_family_token_on};
pub use proof_tree::{ScaleTuple, Token};
pub use reading::read_bounded_token;
pub use token::BoundedToken;
pub use writing::{write_bounded_token, write_bounded_token_on};
