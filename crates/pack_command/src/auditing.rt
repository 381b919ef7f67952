//! The job `audit`: a document of its kind is verified, or refused at its first faulty line.
ghost use Rattle.std.specs.Prelude.{◌≡◌, ◌≢◌, ◌≤◌, length, IfOk, IfErr};
ghost use Rattle.verdict_terms.specs.Documents.{reduced_verdict, bounded_verdict};
ghost use Rattle.verdict_terms.specs.ExplainedDocuments.{explained_verdict};
ghost use Rattle.answer_streams.specs.Verdicts.{plain_verdict};
ghost use Rattle.verdict_terms.specs.FrontDocumentVerdicts.{front_document_verdict};
ghost use Rattle.answer_streams.specs.Audited.{IsExplainedAs, IsFrontReportedAs, IsReportedAs, audit_verdict};
ghost use Rattle.pack_command.specs.Counts.{CountsReads, CountsWrites};
ghost use Rattle.pack_command.specs.Inputs.{max_audit_bytes};
ghost use Rattle.pack_command.specs.ByLines.{IsRestRead};
ghost use Rattle.pack_command.specs.Readings.{Audits, IsAuditRead, IsReadingDone, IsWithoutReading};

use crate::input::DOCUMENT_LIMIT;
use crate::stop::Stop;
use answer_streams::{AuditedVerdict, ExplainedVerdict, FrontAudited, Verdict, stream};
use box_instances::NoMemory;
use document_audits::{
    ExplainedAudit, FrontAudit, Opened, audit_explained, audit_front_document, document_kind,
    open_document,
};
use document_check::{Audit, CheckEnd, audit_document, check_rest};
use instance_text::LineLexer;
use pack_streams::{ReadStop, Sink, Source};
use std::alloc::Global;
use text_terms::SolvingJob;
use verdict_terms::{DocumentKind, Heading};

// The verdict on these bytes as a reduced document.
fn reduced_on(alloc: Global, bytes: &[u8]) -> Result<Verdict, NoMemory>
    requires { length bytes.now ≤ max_audit_bytes }
    ensures { IfOk result (λ v. plain_verdict v ≡ reduced_verdict bytes.now) }
{
    match audit_document(alloc, Heading::Reduced, bytes) {
        Audit::Verified(claim) => Ok(Verdict::Verified(claim)),
        Audit::Refused { line, reason } => Ok(Verdict::Refused { line, reason }),
        Audit::NoMemory => Err(NoMemory),
    }
}

// The verdict on them as a bounded one.
fn bounded_on(alloc: Global, bytes: &[u8]) -> Result<Verdict, NoMemory>
    requires { length bytes.now ≤ max_audit_bytes }
    ensures { IfOk result (λ v. plain_verdict v ≡ bounded_verdict bytes.now) }
{
    match audit_document(alloc, Heading::Bounded, bytes) {
        Audit::Verified(claim) => Ok(Verdict::Verified(claim)),
        Audit::Refused { line, reason } => Ok(Verdict::Refused { line, reason }),
        Audit::NoMemory => Err(NoMemory),
    }
}

// The verdict on them as an explained one.
fn explained_on(alloc: Global, bytes: &[u8]) -> Result<ExplainedVerdict, NoMemory>
    ensures { IfOk result (IsExplainedAs (explained_verdict bytes.now)) }
{
    match audit_explained(alloc, bytes) {
        ExplainedAudit::Verified => Ok(ExplainedVerdict::Verified),
        ExplainedAudit::Refused { line, reason } => Ok(ExplainedVerdict::Refused { line, reason }),
        ExplainedAudit::NoMemory => Err(NoMemory),
    }
}

// The verdict on them as a document of a front.
fn front_on(alloc: Global, bytes: &[u8]) -> Result<FrontAudited, NoMemory>
    ensures { IfOk result (IsFrontReportedAs (front_document_verdict bytes.now)) }
{
    match audit_front_document(alloc, bytes) {
        FrontAudit::Verified { complete, points } => {
            Ok(FrontAudited::Verified { complete, points })
        }
        FrontAudit::Refused { line, reason } => Ok(FrontAudited::Refused { line, reason }),
        FrontAudit::NoMemory => Err(NoMemory),
    }
}

// The verdict on the document of these bytes, as one of its kind.
fn verdict_on(alloc: Global, bytes: &[u8]) -> Result<AuditedVerdict, NoMemory>
    requires { length bytes.now ≤ max_audit_bytes }
    ensures { IfOk result (IsReportedAs (audit_verdict bytes.now)) }
{
    match document_kind(bytes) {
        DocumentKind::Reduced => {
            let verdict = reduced_on(alloc, bytes)?;
            Ok(AuditedVerdict::Reduced(verdict))
        }
        DocumentKind::Bounded => {
            let verdict = bounded_on(alloc, bytes)?;
            Ok(AuditedVerdict::Bounded(verdict))
        }
        DocumentKind::Explained => {
            let verdict = explained_on(alloc, bytes)?;
            Ok(AuditedVerdict::Explained(verdict))
        }
        DocumentKind::Front => {
            let verdict = front_on(alloc, bytes)?;
            Ok(AuditedVerdict::Front(verdict))
        }
    }
}

// The verdict on a bounded document of `job`, of which `count` bytes were taken, up to the line
// feed of its heading. The rest is read line by line.
fn read_bounded<S: Source>(
    alloc: Global,
    job: SolvingJob,
    lexer: LineLexer,
    count: u64,
    input: &mut S,
) -> Result<Verdict, Stop>
    requires number { lexer.number ≤ count }
    requires few { count ≤ max_audit_bytes }
    ensures { IsRestRead (S.left input.old) (S.left input.new) (S.faults input.old)
        (S.faults input.new) lexer count job result }
{
    match check_rest(alloc, Heading::Bounded, job, lexer, count, input) {
        CheckEnd::Verified(claim) => Ok(Verdict::Verified(claim)),
        CheckEnd::Refused { line, reason } => Ok(Verdict::Refused { line, reason }),
        CheckEnd::TooLong => Err(Stop::TooLong),
        CheckEnd::ReadFault => Err(Stop::ReadFault),
        CheckEnd::NoMemory => Err(Stop::NoMemory),
    }
}

// The verdict on the document that a source gives.
fn read_verdict<S: Source>(alloc: Global, input: &mut S) -> Result<AuditedVerdict, Stop>
    ensures is { IsAuditRead (S.left input.old) (S.left input.new) result }
    ensures reads { CountsReads (S.faults input.old) (S.faults input.new) result }
{
    match open_document(alloc, input, DOCUMENT_LIMIT) {
        Ok(Opened::Whole(bytes)) => match verdict_on(alloc, bytes.as_slice()) {
            Ok(verdict) => Ok(verdict),
            Err(_) => Err(Stop::NoMemory),
        },
        Ok(Opened::Begun { lexer, count, job }) => {
            match read_bounded(alloc, job, lexer, count, input) {
                Ok(verdict) => Ok(AuditedVerdict::Bounded(verdict)),
                Err(stop) => Err(stop),
            }
        }
        Err(ReadStop::TooLong) => Err(Stop::TooLong),
        Err(ReadStop::ReadFault) => Err(Stop::ReadFault),
        Err(ReadStop::NoMemory) => Err(Stop::NoMemory),
    }
}

/// Reads a document and writes the line of its verdict: a bounded one line by line, and no byte
/// behind the line feed of a refused line; another one whole. It answers the verdict's status, or
/// why there is no whole line.
pub(crate) fn audit<S: Source, K: Sink>(
    alloc: Global,
    input: &mut S,
    out: &mut K,
) -> Result<u8, Stop>
    ensures judged { IfOk result
        (IsReadingDone Audits (S.left input.old) (S.left input.new) (K.written out.old)
        (K.written out.new)) }
    ensures unjudged { IfErr result
        (IsWithoutReading Audits (S.left input.old) (S.left input.new) (K.written out.old)
        (K.written out.new)) }
    ensures unwritten { IfErr result (λ stop. stop ≢ Stop.WriteFault → out.new ≡ out.old) }
    ensures reads { CountsReads (S.faults input.old) (S.faults input.new) result }
    ensures writes { CountsWrites (K.faults out.old) (K.faults out.new) result }
{
    let verdict = match read_verdict(alloc, input) {
        Ok(verdict) => verdict,
        Err(stop) => return Err(stop),
    };
    match stream(out, &verdict) {
        Ok(()) => Ok(verdict.status()),
        Err(_) => Err(Stop::WriteFault),
    }
}
