//! The test of a proposed refutation of a value.
ghost use Rattle.std.specs.Prelude.{◌≡◌, IfOk, MatchBool, map};
ghost use Rattle.packing_terms.specs.OuterRefutation.{IsValueRefutation};
ghost use Rattle.proof_tree.specs.Plain.{plain_token};

use box_instances::{Instance, NoMemory};
use outer_check::{Goal, OuterRefuter};
use proof_tree::Token;
use std::alloc::Global;

/// Whether tokens are a refutation of a value: no set of boxes that fits in the container is worth
/// `goal` or more.
pub fn is_value_refutation(
    alloc: Global,
    instance: &Instance,
    goal: u64,
    tokens: &[Token],
) -> Result<bool, NoMemory>
    ensures { IfOk result (λ r. MatchBool r
        (IsValueRefutation instance.now goal (map plain_token tokens.now))
        (¬ IsValueRefutation instance.now goal (map plain_token tokens.now))) }
{
    let mut refuter = OuterRefuter::new(alloc, instance, Goal::Value(goal))?;
    for k in 0..tokens.len() {
        let _verdict = refuter.feed(&tokens[k]);
    }
    Ok(refuter.whole())
}
