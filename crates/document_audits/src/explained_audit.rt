//! The audit of an explained document that stands in memory.
ghost use Rattle.std.specs.Prelude.{◌≡◌, ◌+◌, ◌<◌, ◌^◌};
ghost use Rattle.verdict_terms.specs.declared.explained_reason.ExplainedReason.TheVariants.{TooShort};
ghost use Rattle.verdict_terms.specs.ExplainedStages.{Heading};
ghost use Rattle.verdict_terms.specs.ExplainedDocuments.{explained_verdict};
ghost use Rattle.document_audits.specs.ExplainedAudits.{IsVerdict, IsTrueAudit, verdict_left};
ghost use Rattle.instance_text.specs.Lines.{IsAmong};

use crate::explained_head::read_head;
use crate::explained_tree::{read_end, read_tree};
use instance_text::Cursor;
use line_proofs::Auditor;
use std::alloc::Global;
use verdict_terms::ExplainedReason;

/// What the audit of an explained document came to.
#[derive(Clone, Copy, Debug, PartialEq, Eq)]
pub enum ExplainedAudit {
    /// The bytes are such a document: the instance in it has no packing.
    Verified,
    /// The first refused line, counted from 1, and why.
    Refused { line: u64, reason: ExplainedReason },
    /// Memory was refused.
    NoMemory,
}

/// The end of the bytes after `lines` lines, where a line is wanted.
pub(crate) fn short(lines: u64) -> ExplainedAudit
    requires { lines < 2 ^ 63 }
    ensures { result ≡ ExplainedAudit.Refused (lines + 1) TooShort }
{
    ExplainedAudit::Refused {
        line: lines + 1,
        reason: ExplainedReason::TooShort,
    }
}

// The verdict of the lines that are left.
fn audit_lines(alloc: Global, bytes: &[u8], at: &mut Cursor) -> ExplainedAudit
    requires { IsAmong bytes.now at.old }
    ensures { IsVerdict (verdict_left bytes.now at.old Heading) result }
{
    let instance = match read_head(alloc, bytes, at) {
        Ok(instance) => instance,
        Err(end) => return end,
    };
    let dims = instance.dims();
    let Ok(mut auditor) = Auditor::new(alloc, &instance) else {
        return ExplainedAudit::NoMemory;
    };
    match read_tree(alloc, bytes, at, &mut auditor, dims) {
        Some(end) => end,
        None => read_end(alloc, bytes, at, dims),
    }
}

/// What the explained document of these bytes is: verified, or refused at its first refused line,
/// exactly by the verdict on such documents. The instance of what is verified has no packing. Want
/// of memory is the one other answer: memory is asked for the instance and for the auditor alone.
pub fn audit_explained(alloc: Global, bytes: &[u8]) -> ExplainedAudit
    ensures audited { IsVerdict (explained_verdict bytes.now) result }
    ensures truth { IsTrueAudit bytes.now result }
{
    let mut at = Cursor::start();
    audit_lines(alloc, bytes, &mut at)
}
