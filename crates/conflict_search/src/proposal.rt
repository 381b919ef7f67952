//! What is proposed.

use proof_tree::Token;

/// What a search proposes of an instance: the places of all boxes, the coordinates of box 0 in all
/// dimensions first; the tokens of a refutation; or nothing.
#[derive(Drop)]
pub enum Proposal {
    Places(Vec<u32>),
    Tokens(Vec<Token>),
    Nothing,
}
