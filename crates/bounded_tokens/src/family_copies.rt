//! Copies of the tokens of a refutation with families.
ghost use Rattle.std.specs.Prelude.{◌≡◌, IfOk};
ghost use Rattle.bounded_tokens.specs.FamilyPlain.{plain_family};

use crate::family_token::{FamilyToken, JoiningBoxes};
use box_instances::NoMemory;
use proof_tree::copy_token;
use std::alloc::Global;

// The same boxes.
fn copy_boxes(boxes: &JoiningBoxes) -> JoiningBoxes
    ensures { result.items ≡ boxes.now.items }
{
    let numbers = boxes.as_slice();
    let mut copy = JoiningBoxes::new();
    for k in 0..numbers.len() {
        copy.push(numbers[k]);
    }
    copy
}

/// The same token. `NoMemory` comes where its scale functions need more than there is.
pub fn copy_family_token(alloc: Global, token: &FamilyToken) -> Result<FamilyToken, NoMemory>
    ensures { IfOk result (λ t. plain_family t ≡ plain_family token.now) }
{
    match token {
        FamilyToken::Plain(token) => {
            let token = copy_token(alloc, token)?;
            Ok(FamilyToken::Plain(token))
        }
        FamilyToken::Family { dim, boxes } => Ok(FamilyToken::Family {
            dim: *dim,
            boxes: copy_boxes(boxes),
        }),
    }
}
