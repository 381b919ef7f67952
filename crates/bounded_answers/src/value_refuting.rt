//! The test of a proposed bounded refutation.
ghost use Rattle.std.specs.Prelude.{◌≡◌, ◌∷◌, [], IfOk, MatchBool};
ghost use Rattle.verdict_terms.specs.BoundedRefutation.{IsBoundedRefutation};
ghost use Rattle.bounded_tokens.specs.Plain.{plain_bounded, plain_bounded_tokens};
ghost use Rattle.answer_terms.specs.BoundedAnswers.{HaveParameters};

use bounded_tokens::BoundedToken;
use box_instances::{Instance, NoMemory};
use outer_check::{Goal, OuterRefuter};
use std::alloc::Global;

/// Whether tokens are a bounded refutation of a value: no set of boxes that fits in the container
/// is worth `goal` or more.
pub fn is_bounded_refutation(
    alloc: Global,
    instance: &Instance,
    goal: u64,
    tokens: &[BoundedToken],
) -> Result<bool, NoMemory>
    ensures { IfOk result (λ r. MatchBool r
        (IsBoundedRefutation instance.now goal (plain_bounded_tokens tokens.now))
        (¬ IsBoundedRefutation instance.now goal (plain_bounded_tokens tokens.now))) }
{
    let mut refuter = OuterRefuter::new(alloc, instance, Goal::Value(goal))?;
    for k in 0..tokens.len() {
        let _verdict = refuter.feed_bounded(&tokens[k]);
    }
    Ok(refuter.whole())
}

// For the proof alone: states the ranges of the numbers of a token.
fn tell_parameter(token: &BoundedToken)
    ensures { HaveParameters (plain_bounded token.now ∷ []) }
{
    match token {
        BoundedToken::Plain(_) => {}
        BoundedToken::PricedOut {
            value_weight,
            share_weight,
            ..
        } => {
            let _value_weight = *value_weight;
            let _share_weight = *share_weight;
        }
        BoundedToken::Exchange { left_no, taken_no } => {
            let _left_no = *left_no;
            let _taken_no = *taken_no;
        }
    }
}

/// For the proof alone: states the ranges of the numbers of tokens.
pub(crate) fn tell_parameters(tokens: &[BoundedToken])
    ensures { HaveParameters (plain_bounded_tokens tokens.now) }
{
    for k in 0..tokens.len() {
        tell_parameter(&tokens[k]);
    }
}
