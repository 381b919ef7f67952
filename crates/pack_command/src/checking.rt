//! The job `check`: a document is verified, or refused at its first faulty line.
ghost use Rattle.std.specs.Prelude.{◌≡◌, ◌≢◌, ◌<◌, ◌≤◌, ◌⊎◌, ℕ, List, length, take, Some, IfOk, IfErr};
ghost use Rattle.verdict_terms.specs.Fed.{NoneRefused};
ghost use Rattle.document_check.specs.Checked.{max_check_bytes};
ghost use Rattle.pack_command.specs.Counts.{CountsReads, CountsWrites, CountsStatus, IsFaultStatus};
ghost use Rattle.pack_command.specs.Stops.{stop_status};
ghost use Rattle.pack_command.specs.Checks.{IsVerdict, IsVerdictStatus, IsVerdictWritten, IsWithoutVerdict, IsVerdictOutput, IsVerifiedClaim};
ghost use Rattle.pack_command.specs.declared.stop.Stop.{Stop as PlainStop};

use crate::stop::Stop;
use answer_streams::{Verdict, stream};
use document_check::{CheckEnd, check_document};
use pack_streams::{Sink, Source};
use std::alloc::Global;
use verdict_terms::Heading;

// The verdict on the document that a source gives.
fn read_verdict<S: Source>(alloc: Global, input: &mut S) -> Result<Verdict, Stop>
    ensures is { IsVerdict (S.left input.old) (S.left input.new) result }
    ensures reads { CountsReads (S.faults input.old) (S.faults input.new) result }
{
    match check_document(alloc, Heading::Answer, input) {
        CheckEnd::Verified(claim) => Ok(Verdict::Verified(claim)),
        CheckEnd::Refused { line, reason } => Ok(Verdict::Refused { line, reason }),
        CheckEnd::TooLong => Err(Stop::TooLong),
        CheckEnd::ReadFault => Err(Stop::ReadFault),
        CheckEnd::NoMemory => Err(Stop::NoMemory),
    }
}

/// Reads a document and writes the line of its verdict. It answers the verdict's status, or why
/// there is no whole line.
pub(crate) fn check<S: Source, K: Sink>(
    alloc: Global,
    input: &mut S,
    out: &mut K,
) -> Result<u8, Stop>
    ensures judged { IfOk result
        (IsVerdictWritten (S.left input.old) (S.left input.new) (K.written out.old)
        (K.written out.new)) }
    ensures unjudged { IfErr result
        (IsWithoutVerdict (S.left input.old) (S.left input.new) (K.written out.old)
        (K.written out.new)) }
    ensures unwritten { IfErr result (λ stop. stop ≢ Stop.WriteFault → out.new ≡ out.old) }
    ensures reads { CountsReads (S.faults input.old) (S.faults input.new) result }
    ensures writes { CountsWrites (K.faults out.old) (K.faults out.new) result }
{
    let verdict = read_verdict(alloc, input)?;
    match stream(out, &verdict) {
        Ok(()) => Ok(verdict.status()),
        Err(_) => Err(Stop::WriteFault),
    }
}

/// Checks a document in one pass, and writes the one line of its verdict to `out`.
///
/// It answers 0 where the document is verified, 1 where it is refused, 2 where more than
/// 1,099,511,627,776 bytes came, 4 at a failed read, 5 at a failed write and 6 at want of memory.
/// No byte behind the line feed of a refused line is taken. With 2, 4 and 6 nothing was written.
pub fn check_stream<S: Source, K: Sink>(alloc: Global, input: &mut S, out: &mut K) -> u8
    // Verified or refused by the bytes taken, and the line was written whole.
    ensures judged { IsVerdictStatus result
        → IsVerdictWritten (S.left input.old) (S.left input.new) (K.written out.old)
        (K.written out.new) result }

    // Else the cause holds, and nothing was done to the sink, but for the part that was written
    // before a fault.
    ensures unjudged { ¬ IsVerdictStatus result → (stop : PlainStop) × (result ≡ stop_status stop)
        × IsWithoutVerdict (S.left input.old) (S.left input.new) (K.written out.old)
        (K.written out.new) stop }
    ensures unwritten { ¬ IsVerdictStatus result → result ≢ 5 → out.new ≡ out.old }

    // With status 4 the source's count of faults rose, with status 5 the sink's. By an exact count
    // one call failed, and it was the last one; with any other status none failed.
    ensures reads { CountsStatus 4 result (S.faults input.old) (S.faults input.new) }
    ensures writes { CountsStatus 5 result (K.faults out.old) (K.faults out.new) }

    // Within the limit it is exactly the line and the status of the definition, unless a read or a
    // write fails or memory is refused.
    ensures exactly { (bytes : List ℕ) → S.left input.old ≡ Some bytes → IsVerdictStatus result
        → IsVerdictOutput bytes (K.written out.old) (K.written out.new) result }
    ensures completes { (bytes : List ℕ) → S.left input.old ≡ Some bytes
        → length bytes ≤ max_check_bytes → IsVerdictStatus result ⊎ IsFaultStatus result }

    // Where more bytes come, and no line that is whole within the limit is refused, it is too long.
    ensures too_long { (bytes : List ℕ) → S.left input.old ≡ Some bytes
        → max_check_bytes < length bytes → NoneRefused (take max_check_bytes bytes)
        → (result ≡ 2) ⊎ IsFaultStatus result }

    // What is verified is true.
    ensures claimed { result ≡ 0
        → IsVerifiedClaim (S.left input.old) (S.left input.new) (K.written out.old)
        (K.written out.new) }
{
    match check(alloc, input, out) {
        Ok(status) => status,
        Err(stop) => stop.status(),
    }
}
