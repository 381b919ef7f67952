//! The verdict on a document, and its one line.
ghost use Rattle.std.specs.Prelude.{◌≡◌, ◌++◌, ◌∷◌, []};
ghost use Rattle.std.specs.Fmt.{decimal};
ghost use Rattle.pack_streams.specs.Writing.{Continues, Writes};
ghost use Rattle.verdict_terms.specs.declared.reason.Reason.{Reason as PlainReason};
ghost use Rattle.verdict_terms.specs.Documents.{verdict_line, reduced_verdict_line, bounded_verdict_line};
ghost use Rattle.answer_streams.specs.Verdicts.{plain_verdict, verdict_status};
ghost use Rattle.answer_streams.specs.Lines.{number_line, pair_line, claim_text, reason_end, code_end};

use crate::documents::Written;
use crate::streaming::Streamed;
use pack_streams::{Sink, write_number, write_on};
use text_terms::Claim;
use verdict_terms::{Reason, RefuseCode};

/// The verdict on a document.
#[derive(Clone, Copy, Debug, PartialEq, Eq)]
pub enum Verdict {
    /// The document shows its claim.
    Verified(Claim),
    /// The first refused line, counted from 1, and why.
    Refused { line: u64, reason: Reason },
}

impl Verdict {
    /// The status that a check ends with.
    pub fn status(self) -> u8
        ensures { result ≡ verdict_status (plain_verdict self) }
    {
        match self {
            Verdict::Verified(_) => 0,
            Verdict::Refused { line: _, reason: _ } => 1,
        }
    }
}

/// Writes the text, a number and a line feed.
pub(crate) fn write_numbered<K: Sink>(
    sink: &mut K,
    so_far: Written,
    text: &[u8],
    number: u64,
) -> Written
    ensures { Continues (K.written sink.old) (K.written sink.new) (K.faults sink.old)
        (K.faults sink.new)
        (number_line text.now number) so_far result }
{
    let named = write_on(sink, so_far, text);
    let numbered = write_number(sink, named, number);
    write_on(sink, numbered, b"\n")
}

// Writes the text, two numbers with a space between them and a line feed.
fn write_paired<K: Sink>(
    sink: &mut K,
    so_far: Written,
    text: &[u8],
    first: u64,
    second: u64,
) -> Written
    ensures { Continues (K.written sink.old) (K.written sink.new) (K.faults sink.old)
        (K.faults sink.new)
        (pair_line text.now first second) so_far result }
{
    let named = write_on(sink, so_far, text);
    let numbered = write_number(sink, named, first);
    write_numbered(sink, numbered, b" ", second)
}

// Writes the line of a claim from its job on.
fn write_claim<K: Sink>(sink: &mut K, first: Written, claim: Claim) -> Written
    ensures { Continues (K.written sink.old) (K.written sink.new) (K.faults sink.old)
        (K.faults sink.new)
        (claim_text claim) first result }
{
    match claim {
        Claim::Fitting => write_on(sink, first, b"fit yes\n"),
        Claim::NotFitting => write_on(sink, first, b"fit no\n"),
        Claim::LeastHeight { height } => {
            write_numbered(sink, first, b"strip least ", height as u64)
        }
        Claim::HeightBetween { refuted, placed } => write_paired(
            sink,
            first,
            b"strip between ",
            refuted as u64,
            placed as u64,
        ),
        Claim::NoHeight => write_on(sink, first, b"strip none\n"),
        Claim::LeastBins { bins } => { write_numbered(sink, first, b"bins least ", bins as u64) }
        Claim::BinsBetween { refuted, placed } => write_paired(
            sink,
            first,
            b"bins between ",
            refuted as u64,
            placed as u64,
        ),
        Claim::NoBins => write_on(sink, first, b"bins none\n"),
        Claim::GreatestValue { value } => {
            write_numbered(sink, first, b"knapsack greatest ", value)
        }
        Claim::ValueBetween { placed, refuted } => {
            write_paired(sink, first, b"knapsack between ", placed, refuted)
        }
    }
}

// Writes the line of an answer that is verified.
fn write_verified<K: Sink>(sink: &mut K, claim: Claim) -> Written
    ensures { Writes (K.written sink.old) (K.written sink.new) (K.faults sink.old)
        (K.faults sink.new)
        (verdict_line (Ok claim)) result }
{
    let named = write_on(sink, Ok(()), b"verified ");
    write_claim(sink, named, claim)
}

// Writes the line of a reduced document that is verified.
fn write_reduced<K: Sink>(sink: &mut K, claim: Claim) -> Written
    ensures { Writes (K.written sink.old) (K.written sink.new) (K.faults sink.old)
        (K.faults sink.new)
        (reduced_verdict_line (Ok claim)) result }
{
    let named = write_on(sink, Ok(()), b"verified reduced ");
    write_claim(sink, named, claim)
}

// Writes the line of a bounded document that is verified.
fn write_bounded<K: Sink>(sink: &mut K, claim: Claim) -> Written
    ensures { Writes (K.written sink.old) (K.written sink.new) (K.faults sink.old)
        (K.faults sink.new)
        (bounded_verdict_line (Ok claim)) result }
{
    let named = write_on(sink, Ok(()), b"verified bounded ");
    write_claim(sink, named, claim)
}

// The end of the line that states a code, from the space on.
fn code_text(code: RefuseCode) -> &'static [u8]
    ensures { result.now ≡ code_end code }
{
    match code {
        RefuseCode::Kind => b" form\n",
        RefuseCode::Range => b" range\n",
        RefuseCode::Choice => b" choice\n",
        RefuseCode::Conflict => b" conflict\n",
        RefuseCode::Excess => b" excess\n",
        RefuseCode::Side => b" side\n",
        RefuseCode::Value => b" value\n",
        RefuseCode::Set => b" set\n",
        RefuseCode::After => b" after\n",
    }
}

// Writes the end of the line that states a reason, from the space on.
fn write_reason<K: Sink>(sink: &mut K, so_far: Written, reason: Reason) -> Written
    ensures { Continues (K.written sink.old) (K.written sink.new) (K.faults sink.old)
        (K.faults sink.new)
        (reason_end reason) so_far result }
{
    match reason {
        Reason::Text { code } => write_numbered(sink, so_far, b" text ", code as u64),
        Reason::Token { code } => write_on(sink, so_far, code_text(code)),
        Reason::NoClaim => write_on(sink, so_far, b" claim\n"),
        Reason::OutsideAt { box_no, dim } => {
            write_paired(sink, so_far, b" outside ", box_no as u64, dim as u64)
        }
        Reason::OverlapAt { first, second } => {
            write_paired(sink, so_far, b" overlap ", first as u64, second as u64)
        }
        Reason::TooLittle => write_on(sink, so_far, b" worth\n"),
        Reason::TooShort => write_on(sink, so_far, b" short\n"),
    }
}

/// Writes the line of a refusal.
pub(crate) fn write_refusal<K: Sink>(sink: &mut K, line: u64, reason: Reason) -> Written
    ensures { Writes (K.written sink.old) (K.written sink.new) (K.faults sink.old)
        (K.faults sink.new)
        (verdict_line (Err (record { line = line; reason = reason }))) result }
{
    let named = write_on(sink, Ok(()), b"refused ");
    let numbered = write_number(sink, named, line);
    write_reason(sink, numbered, reason)
}

// The line of a verdict: `verified` with the job and the words of the result line, or `refused`
// with the number of the line and the reason.
impl Streamed for Verdict {
    ghost text = { λ v. verdict_line (plain_verdict v) };

    ghost IsReady = { λ _. Unit {0} };

    fn write_to<K: Sink>(&self, sink: &mut K) -> Written {
        match *self {
            Verdict::Verified(claim) => write_verified(sink, claim),
            Verdict::Refused { line, reason } => write_refusal(sink, line, reason),
        }
    }
}

/// The verdict on a reduced document.
#[derive(Clone, Copy, Debug, PartialEq, Eq)]
pub(crate) struct ReducedVerdict {
    pub verdict: Verdict,
}

// The line of a verdict on a reduced document: `verified reduced` with the job and the words of the
// result line, or `refused` with the number of the line and the reason.
impl Streamed for ReducedVerdict {
    ghost text = { λ v. reduced_verdict_line (plain_verdict v.verdict) };

    ghost IsReady = { λ _. Unit {0} };

    fn write_to<K: Sink>(&self, sink: &mut K) -> Written {
        match self.verdict {
            Verdict::Verified(claim) => write_reduced(sink, claim),
            Verdict::Refused { line, reason } => write_refusal(sink, line, reason),
        }
    }
}

/// The verdict on a bounded document.
#[derive(Clone, Copy, Debug, PartialEq, Eq)]
pub(crate) struct BoundedVerdict {
    pub verdict: Verdict,
}

// The line of a verdict on a bounded document: `verified bounded` with the job and the words of the
// result line, or `refused` with the number of the line and the reason.
impl Streamed for BoundedVerdict {
    ghost text = { λ v. bounded_verdict_line (plain_verdict v.verdict) };

    ghost IsReady = { λ _. Unit {0} };

    fn write_to<K: Sink>(&self, sink: &mut K) -> Written {
        match self.verdict {
            Verdict::Verified(claim) => write_bounded(sink, claim),
            Verdict::Refused { line, reason } => write_refusal(sink, line, reason),
        }
    }
}
