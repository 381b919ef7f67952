//! The lines of reasons and tokens.
ghost use Rattle.std.specs.Prelude.{◌≡◌, [], ◌∷◌, ◌++◌, OnOk, IfOk};
ghost use Rattle.verdict_terms.specs.Steps.{tokens_among};
ghost use Rattle.line_proofs.specs.Plain.{plain_step};
ghost use Rattle.proof_tree.specs.Plain.{plain_token, plain_tokens};
ghost use Rattle.refutation_steps.specs.Shortened.{IsNoToken};

use crate::marks::Spot;
use crate::reasons::{Reason, box_of};
use crate::steps::write_line;
use crate::tracing::{Span, Trace};
use box_instances::NoMemory;
use line_proofs::{Step, StepList};
use proof_tree::{Token, copy_token};
use std::alloc::Global;

// A number of the text.
fn numbered(number: u32) -> u32 {
    number.wrapping_add(1)
}

// A line that is no token.
fn write_step(lines: &mut StepList, step: Step) -> Result<(), NoMemory>
    requires { IsNoToken (plain_step step) }
    ensures { OnOk result (tokens_among lines.new ≡ tokens_among lines.old) }
{
    write_line(lines, step)
}

fn write_box(lines: &mut StepList, boxes: &[u32], at: usize) -> Result<(), NoMemory>
    ensures { OnOk result (tokens_among lines.new ≡ tokens_among lines.old) }
{
    let box_no = numbered(box_of(boxes, at));
    write_step(lines, Step::On { box_no })
}

// The boxes of a chain that ends where its list begins.
fn write_back(lines: &mut StepList, boxes: &[u32], from: usize, count: u32) -> Result<(), NoMemory>
    ensures { OnOk result (tokens_among lines.new ≡ tokens_among lines.old) }
{
    for k in 0..count {
        let back = (count - 1 - k) as usize;
        write_box(lines, boxes, from.wrapping_add(back))?;
    }
    Ok(())
}

// The boxes of a chain that starts where its list begins.
fn write_on(lines: &mut StepList, boxes: &[u32], from: usize, count: u32) -> Result<(), NoMemory>
    ensures { OnOk result (tokens_among lines.new ≡ tokens_among lines.old) }
{
    for k in 0..count {
        write_box(lines, boxes, from.wrapping_add(k as usize))?;
    }
    Ok(())
}

// The lines of a chain step.
fn write_chain(
    lines: &mut StepList,
    boxes: &[u32],
    dim: u32,
    from: usize,
    first: u32,
    second: u32,
) -> Result<(), NoMemory>
    ensures { OnOk result (tokens_among lines.new ≡ tokens_among lines.old) }
{
    let step = Step::Chain {
        dim: numbered(dim),
        first,
        second,
    };
    write_step(lines, step)?;
    write_back(lines, boxes, from, first)?;
    write_on(lines, boxes, from.wrapping_add(first as usize), second)
}

// The step of another rule; its place stands where the rule's text has it.
fn step_of(reason: Reason) -> Step
    ensures { IsNoToken (plain_step result) }
{
    match reason {
        Reason::Pair { at } => Step::Pair {
            dim: numbered(at.dim),
            u: numbered(at.u),
            v: numbered(at.v),
        },
        Reason::Apart { at } => Step::Apart {
            dim: numbered(at.dim),
            u: numbered(at.u),
            v: numbered(at.v),
        },
        Reason::Triple { at, x } => Step::Triple {
            dim: numbered(at.dim),
            u: numbered(at.u),
            v: numbered(at.v),
            x: numbered(x),
        },
        Reason::Compose { at, x } => Step::Compose {
            dim: numbered(at.dim),
            u: numbered(at.u),
            v: numbered(x),
            x: numbered(at.v),
        },
        Reason::Cycle { at, a, c } => Step::Cycle {
            dim: numbered(at.dim),
            a: numbered(a),
            b: numbered(at.u),
            c: numbered(c),
            d: numbered(at.v),
        },
        Reason::Order { at, a, d } => Step::Order {
            dim: numbered(at.dim),
            a: numbered(a),
            b: numbered(at.v),
            c: numbered(at.u),
            d: numbered(d),
        },
        Reason::Chain {
            dim,
            first,
            second,
            ..
        } => Step::Chain {
            dim: numbered(dim),
            first,
            second,
        },
    }
}

// The lines of a reason.
fn write_reason(lines: &mut StepList, boxes: &[u32], reason: Reason) -> Result<(), NoMemory>
    ensures { OnOk result (tokens_among lines.new ≡ tokens_among lines.old) }
{
    match reason {
        Reason::Chain {
            dim,
            from,
            first,
            second,
        } => write_chain(lines, boxes, dim, from, first, second),
        _ => write_step(lines, step_of(reason)),
    }
}

// The lines of one reason of the list, where there is one.
fn write_reason_at(lines: &mut StepList, trace: &Trace, at: usize) -> Result<(), NoMemory>
    ensures { OnOk result (tokens_among lines.new ≡ tokens_among lines.old) }
{
    match trace.reasons.as_slice().get(at) {
        Some(short) => write_reason(lines, trace.boxes.as_slice(), short.reason()),
        None => Ok(()),
    }
}

// The lines of the reasons of a node, the last one first.
fn write_reasons(lines: &mut StepList, trace: &Trace, span: Span) -> Result<(), NoMemory>
    ensures { OnOk result (tokens_among lines.new ≡ tokens_among lines.old) }
{
    for at in span.from..span.to {
        let back = span
            .to
            .wrapping_sub(at.wrapping_sub(span.from))
            .wrapping_sub(1);
        write_reason_at(lines, trace, back)?;
    }
    Ok(())
}

// A token's own line.
fn line_of(alloc: Global, token: &Token, clash: Spot) -> Result<Step, NoMemory>
    ensures { IfOk result (λ line. tokens_among (plain_step line ∷ []) ≡ plain_token token.now ∷ []) }
{
    match token {
        Token::Rules => Ok(Step::Clash {
            dim: numbered(clash.dim),
            u: numbered(clash.u),
            v: numbered(clash.v),
        }),
        _ => {
            let copy = copy_token(alloc, token)?;
            Ok(Step::Plain(copy))
        }
    }
}

// The lines of a token: its node's reasons, and its own line.
fn write_token(
    alloc: Global,
    lines: &mut StepList,
    trace: &Trace,
    span: Span,
    token: &Token,
) -> Result<(), NoMemory>
    ensures { OnOk result (tokens_among lines.new
        ≡ tokens_among lines.old ++ plain_token token.now ∷ []) }
{
    write_reasons(lines, trace, span)?;
    let line = line_of(alloc, token, span.clash)?;
    write_line(lines, line)
}

/// The lines of all tokens, with the reasons that were traced for them.
pub(crate) fn written(alloc: Global, trace: &Trace, tokens: &[Token]) -> Result<StepList, NoMemory>
    ensures { IfOk result (λ lines. tokens_among lines
        ≡ plain_tokens tokens.now) }
{
    let mut lines = StepList::with_capacity(alloc, trace.line_count())?;
    for at in 0..tokens.len() {
        let span = trace.span_at(at);
        write_token(alloc, &mut lines, trace, span, &tokens[at])?;
    }
    Ok(lines)
}
