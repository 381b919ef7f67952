//! Tokens once more.
ghost use Rattle.std.specs.Prelude.{◌≡◌, IfOk};
ghost use Rattle.proof_tree.specs.Plain.{plain_token};

use crate::Token;
use box_instances::NoMemory;
use conservative_scales::ScaleTuple;
use std::alloc::Global;

/// The same tuple. `NoMemory` comes where it needs more than there is.
pub fn copy_tuple(alloc: Global, tuple: &ScaleTuple) -> Result<ScaleTuple, NoMemory>
    ensures { IfOk result (λ t. t.items ≡ tuple.now.items) }
{
    let Ok(copy) = ScaleTuple::from_slice(alloc, tuple.as_slice()) else {
        return Err(NoMemory);
    };
    Ok(copy)
}

/// The same token. `NoMemory` comes where its scale functions need more than there is.
pub fn copy_token(alloc: Global, token: &Token) -> Result<Token, NoMemory>
    ensures { IfOk result (λ t. plain_token t ≡ plain_token token.now) }
{
    match token {
        Token::Apart { dim, u, v } => Ok(Token::Apart {
            dim: *dim,
            u: *u,
            v: *v,
        }),
        Token::Order { dim, u, v } => Ok(Token::Order {
            dim: *dim,
            u: *u,
            v: *v,
        }),
        Token::Rules => Ok(Token::Rules),
        Token::TooLarge { box_no, dim } => Ok(Token::TooLarge {
            box_no: *box_no,
            dim: *dim,
        }),
        Token::Scales(tuple) => {
            let tuple = copy_tuple(alloc, tuple)?;
            Ok(Token::Scales(tuple))
        }
        Token::Assign { box_no } => Ok(Token::Assign { box_no: *box_no }),
        Token::Choose { box_no } => Ok(Token::Choose { box_no: *box_no }),
        Token::SetRefuted { bin } => Ok(Token::SetRefuted { bin: *bin }),
        Token::ValueShort => Ok(Token::ValueShort),
        Token::GlobalScales(tuple) => {
            let tuple = copy_tuple(alloc, tuple)?;
            Ok(Token::GlobalScales(tuple))
        }
    }
}
