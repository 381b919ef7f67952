//! Copies of the tokens of a bounded refutation.
ghost use Rattle.std.specs.Prelude.{◌≡◌, IfOk};
ghost use Rattle.bounded_tokens.specs.Plain.{plain_bounded};

use crate::BoundedToken;
use box_instances::NoMemory;
use proof_tree::{copy_token, copy_tuple};
use std::alloc::Global;

/// The same token. `NoMemory` comes where its scale functions need more than there is.
pub fn copy_bounded_token(alloc: Global, token: &BoundedToken) -> Result<BoundedToken, NoMemory>
    ensures { IfOk result (λ t. plain_bounded t ≡ plain_bounded token.now) }
{
    match token {
        BoundedToken::Plain(token) => {
            let token = copy_token(alloc, token)?;
            Ok(BoundedToken::Plain(token))
        }
        BoundedToken::PricedOut {
            value_weight,
            share_weight,
            tuple,
        } => {
            let tuple = copy_tuple(alloc, tuple)?;
            Ok(BoundedToken::PricedOut {
                value_weight: *value_weight,
                share_weight: *share_weight,
                tuple,
            })
        }
        BoundedToken::Exchange { left_no, taken_no } => Ok(BoundedToken::Exchange {
            left_no: *left_no,
            taken_no: *taken_no,
        }),
    }
}
