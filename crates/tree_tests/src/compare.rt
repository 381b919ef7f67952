//! Outcomes, compared.
use box_instances::NoMemory;
use proof_tree::{Outcome, Token};
use std::alloc::Global;

// Whether two tokens of a class tree are the same.
fn is_same_token(token: &Token, other: &Token) -> bool {
    match (token, other) {
        (Token::Apart { dim: i, u, v }, Token::Apart { dim: j, u: w, v: x }) => {
            i == j && u == w && v == x
        }
        (Token::Order { dim: i, u, v }, Token::Order { dim: j, u: w, v: x }) => {
            i == j && u == w && v == x
        }
        (Token::Rules, Token::Rules) => true,
        (Token::Scales(tuple), Token::Scales(others)) => tuple.as_slice() == others.as_slice(),
        _ => false,
    }
}

// Whether two lists of tokens are the same.
fn are_same_tokens(tokens: &[Token], others: &[Token]) -> bool {
    if tokens.len() != others.len() {
        return false;
    }
    for (token, other) in tokens.iter().zip(others) {
        if !is_same_token(token, other) {
            return false;
        }
    }
    true
}

/// Whether two outcomes are the same, with their numbers, tokens and counts.
pub(crate) fn is_same(alloc: Global, outcome: &Outcome, other: &Outcome) -> Result<bool, NoMemory> {
    Ok(match (outcome, other) {
        (
            Outcome::Yes { numbers, count },
            Outcome::Yes {
                numbers: others,
                count: more,
            },
        ) => numbers.as_slice() == others.as_slice() && count == more,
        (
            Outcome::No { tokens, count },
            Outcome::No {
                tokens: others,
                count: more,
            },
        ) => {
            let (tokens, others) = (tokens.tokens(alloc)?, others.tokens(alloc)?);
            are_same_tokens(tokens.as_slice(), others.as_slice()) && count == more
        }
        (Outcome::Past, Outcome::Past) => true,
        _ => false,
    })
}
