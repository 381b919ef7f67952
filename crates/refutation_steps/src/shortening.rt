//! Explanations that have only steps that something later needs.
ghost use Rattle.std.specs.Prelude.{◌≡◌, [], IsTrue, IfOk, MatchOption};
ghost use Rattle.verdict_terms.specs.Steps.{tokens_among};
ghost use Rattle.verdict_terms.specs.Explaining.{Explains};
ghost use Rattle.proof_tree.specs.Plain.{plain_tokens};

use crate::closings::{begin_closings, trace_token};
use crate::tracing::Trace;
use crate::written::written;
use box_instances::{Instance, NoMemory};
use line_proofs::{Auditor, StepList};
use proof_tree::Token;
use std::alloc::Global;

// Traces the closings of all nodes back. Answers nothing where a token isn't right at its node.
fn traced(alloc: Global, instance: &Instance, tokens: &[Token]) -> Result<Option<Trace>, NoMemory> {
    let mut walk = begin_closings(alloc, instance)?;
    for token in tokens {
        if !trace_token(instance, &mut walk, token)? {
            return Ok(None);
        }
    }
    let mut trace = walk.trace;
    trace.leave(0)?;
    Ok(Some(trace))
}

// Whether an auditor accepts the lines whole.
fn is_accepted(alloc: Global, instance: &Instance, lines: &StepList) -> Result<bool, NoMemory>
    ensures { IfOk result (λ accepted. IsTrue accepted
        → Explains instance.now [] lines.now) }
{
    let mut auditor = Auditor::new(alloc, instance)?;
    for k in 0..lines.len() {
        let line = lines.at(k);
        auditor.feed(line.step());
    }
    Ok(auditor.whole())
}

/// An explained refutation of the instance with these tokens, in which each step is needed, where
/// an auditor accepts it.
pub(crate) fn short_explanation(
    alloc: Global,
    instance: &Instance,
    tokens: &[Token],
) -> Result<Option<StepList>, NoMemory>
    ensures { IfOk result (λ short. MatchOption short (Unit {0}) (λ lines.
        Explains instance.now [] lines
        × (tokens_among lines ≡ plain_tokens tokens.now))) }
{
    let Some(trace) = traced(alloc, instance, tokens)? else {
        return Ok(None);
    };
    let lines = written(alloc, &trace, tokens)?;
    if is_accepted(alloc, instance, &lines)? {
        return Ok(Some(lines));
    }
    Ok(None)
}
