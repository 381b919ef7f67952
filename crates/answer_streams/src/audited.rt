//! The verdict on a document that was audited, and its one line.
ghost use Rattle.std.specs.Prelude.{◌≡◌};
ghost use Rattle.pack_streams.specs.Writing.{Continues, Writes};
ghost use Rattle.verdict_terms.specs.ExplainedDocuments.{explained_line};
ghost use Rattle.answer_streams.specs.Audited.{explained_text, verdict_text, audit_code_end, explained_end, reported_status};

use crate::audited_fronts::{FrontAudited, write_front_verdict};
use crate::documents::Written;
use crate::streaming::Streamed;
use crate::verdict::{BoundedVerdict, ReducedVerdict, Verdict, write_numbered};
use pack_streams::{Sink, write_number, write_on};
use verdict_terms::{AuditCode, ExplainedReason};

/// The verdict on an explained document.
#[derive(Clone, Copy, Debug, PartialEq, Eq)]
pub enum ExplainedVerdict {
    /// The document shows that its instance has no packing.
    Verified,
    /// The first refused line, counted from 1, and why.
    Refused { line: u64, reason: ExplainedReason },
}

/// The verdict on a document of one of the kinds that are audited.
#[derive(Clone, Copy, Debug, PartialEq, Eq)]
pub enum AuditedVerdict {
    Reduced(Verdict),
    Bounded(Verdict),
    Explained(ExplainedVerdict),
    Front(FrontAudited),
}

impl AuditedVerdict {
    /// The status that an audit ends with.
    pub fn status(self) -> u8
        ensures { result ≡ reported_status self }
    {
        match self {
            AuditedVerdict::Reduced(verdict) => verdict.status(),
            AuditedVerdict::Bounded(verdict) => verdict.status(),
            AuditedVerdict::Explained(ExplainedVerdict::Verified) => 0,
            AuditedVerdict::Explained(ExplainedVerdict::Refused { line: _, reason: _ }) => 1,
            AuditedVerdict::Front(verdict) => verdict.status(),
        }
    }
}

// The end of the line that states a code, from the space on.
fn code_text(code: AuditCode) -> &'static [u8]
    ensures { result.now ≡ audit_code_end code }
{
    match code {
        AuditCode::Kind => b" form\n",
        AuditCode::Range => b" range\n",
        AuditCode::Step => b" step\n",
        AuditCode::Choice => b" choice\n",
        AuditCode::Conflict => b" conflict\n",
        AuditCode::Excess => b" excess\n",
        AuditCode::Side => b" side\n",
        AuditCode::After => b" after\n",
    }
}

// Writes the end of the line that states a reason, from the space on.
fn write_explained_reason<K: Sink>(
    sink: &mut K,
    so_far: Written,
    reason: ExplainedReason,
) -> Written
    ensures { Continues (K.written sink.old) (K.written sink.new) (K.faults sink.old)
        (K.faults sink.new)
        (explained_end reason) so_far result }
{
    match reason {
        ExplainedReason::Text { code } => write_numbered(sink, so_far, b" text ", code as u64),
        ExplainedReason::Line { code } => write_on(sink, so_far, code_text(code)),
        ExplainedReason::TooShort => write_on(sink, so_far, b" short\n"),
    }
}

// Writes the line of a refusal.
fn write_explained_refusal<K: Sink>(sink: &mut K, line: u64, reason: ExplainedReason) -> Written
    ensures { Writes (K.written sink.old) (K.written sink.new) (K.faults sink.old)
        (K.faults sink.new)
        (explained_line (Err (record { line = line; reason = reason }))) result }
{
    let named = write_on(sink, Ok(()), b"refused ");
    let numbered = write_number(sink, named, line);
    write_explained_reason(sink, numbered, reason)
}

// Writes the line of a verdict on an explained document.
fn write_explained<K: Sink>(sink: &mut K, verdict: ExplainedVerdict) -> Written
    ensures { Writes (K.written sink.old) (K.written sink.new) (K.faults sink.old)
        (K.faults sink.new)
        (explained_text verdict) result }
{
    match verdict {
        ExplainedVerdict::Verified => write_on(sink, Ok(()), b"verified explained fit no\n"),
        ExplainedVerdict::Refused { line, reason } => write_explained_refusal(sink, line, reason),
    }
}

// The line of a verdict: `verified` with the kind of the document, the job and the words of the
// result line, or `refused` with the number of the line and the reason.
impl Streamed for AuditedVerdict {
    ghost text = { λ v. verdict_text v };

    ghost IsReady = { λ _. Unit {0} };

    fn write_to<K: Sink>(&self, sink: &mut K) -> Written {
        match *self {
            AuditedVerdict::Reduced(verdict) => ReducedVerdict { verdict }.write_to(sink),
            AuditedVerdict::Bounded(verdict) => BoundedVerdict { verdict }.write_to(sink),
            AuditedVerdict::Explained(verdict) => write_explained(sink, verdict),
            AuditedVerdict::Front(verdict) => write_front_verdict(sink, verdict),
        }
    }
}
