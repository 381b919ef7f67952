//! The job `explain`: the refutation in a document, explained step by step.
ghost use Rattle.std.specs.Prelude.{◌≡◌, ◌≢◌, ◌≤◌, length, Ok, IfOk, IfErr};
ghost use Rattle.text_terms.specs.declared.claim.Claim.TheVariants.{NotFitting};
ghost use Rattle.verdict_terms.specs.Documents.{document_verdict};
ghost use Rattle.pack_command.specs.Counts.{CountsReads, CountsWrites};
ghost use Rattle.pack_command.specs.Inputs.{max_audit_bytes};
ghost use Rattle.pack_command.specs.Explanations.{is_no, IsExplained};
ghost use Rattle.pack_command.specs.Readings.{Explains, IsReadingDone, IsWithoutReading};

use crate::input::read_document;
use crate::stop::Stop;
use answer_streams::{Explanation, stream};
use box_instances::NoMemory;
use document_audits::{read_refutation, result_line};
use document_check::{Audit, audit_document};
use pack_streams::{Sink, Source};
use std::alloc::Global;
use text_terms::Claim;
use verdict_terms::{Heading, Reason};

// Whether the claim is that the boxes don't fit.
fn is_no(claim: Claim) -> bool
    ensures { result ≡ is_no claim }
{
    match claim {
        Claim::NotFitting => true,
        _ => false,
    }
}

// The refutation in a document that says no, explained.
fn explain_no(alloc: Global, bytes: &[u8]) -> Result<Explanation, NoMemory>
    requires { document_verdict bytes.now ≡ Ok NotFitting }
    ensures { IfOk result (IsExplained bytes.now) }
{
    let held = read_refutation(alloc, bytes)?;
    let steps = refutation_steps::explain(alloc, &held.instance, held.tokens.as_slice())?;
    Ok(Explanation::Explained {
        instance: held.instance,
        steps,
    })
}

// What the document of these bytes comes to.
fn explanation_of(alloc: Global, bytes: &[u8]) -> Result<Explanation, NoMemory>
    requires { length bytes.now ≤ max_audit_bytes }
    ensures { IfOk result (IsExplained bytes.now) }
{
    match audit_document(alloc, Heading::Answer, bytes) {
        Audit::Verified(claim) => {
            if is_no(claim) {
                return explain_no(alloc, bytes);
            }
            Ok(Explanation::Refused {
                line: result_line(bytes),
                reason: Reason::NoClaim,
            })
        }
        Audit::Refused { line, reason } => Ok(Explanation::Refused { line, reason }),
        Audit::NoMemory => Err(NoMemory),
    }
}

/// Reads a document whole and writes the document that explains its refutation, or the line that
/// refuses it. It answers the status, or why nothing whole was written.
pub(crate) fn explain<S: Source, K: Sink>(
    alloc: Global,
    input: &mut S,
    out: &mut K,
) -> Result<u8, Stop>
    ensures explained { IfOk result
        (IsReadingDone Explains (S.left input.old) (S.left input.new) (K.written out.old)
        (K.written out.new)) }
    ensures unexplained { IfErr result
        (IsWithoutReading Explains (S.left input.old) (S.left input.new) (K.written out.old)
        (K.written out.new)) }
    ensures unwritten { IfErr result (λ stop. stop ≢ Stop.WriteFault → out.new ≡ out.old) }
    ensures reads { CountsReads (S.faults input.old) (S.faults input.new) result }
    ensures writes { CountsWrites (K.faults out.old) (K.faults out.new) result }
{
    let bytes = read_document(alloc, input)?;
    let Ok(explanation) = explanation_of(alloc, bytes.as_slice()) else {
        return Err(Stop::NoMemory);
    };
    match stream(out, &explanation) {
        Ok(()) => Ok(explanation.status()),
        Err(_) => Err(Stop::WriteFault),
    }
}
