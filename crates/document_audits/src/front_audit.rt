//! The audit of a document of a front that stands in memory.
ghost use Rattle.std.specs.Prelude.{◌≡◌, ◌+◌, ◌<◌, ◌^◌};
ghost use Rattle.verdict_terms.specs.declared.reason.Reason.TheVariants.{TooShort};
ghost use Rattle.verdict_terms.specs.FrontDocumentVerdicts.{Opening, front_document_verdict};
ghost use Rattle.instance_text.specs.Lines.{IsAmong};
ghost use Rattle.document_audits.specs.FrontAudits.{IsVerdict, IsTrueAudit, verdict_left};

use crate::front_head::read_head;
use crate::front_steps::read_front;
use instance_text::Cursor;
use std::alloc::Global;
use verdict_terms::Reason;

/// What the audit of a document of a front came to.
#[derive(Clone, Copy, Debug, PartialEq, Eq)]
pub enum FrontAudit {
    /// The bytes are such a document with `points` points: the front of the instance in it if
    /// `complete`, else all of it up to the last of them.
    Verified { complete: bool, points: u32 },
    /// The first refused line, counted from 1, and why.
    Refused { line: u64, reason: Reason },
    /// Memory was refused.
    NoMemory,
}

/// The end of the bytes after `lines` lines, where a line is wanted.
pub(crate) fn short(lines: u64) -> FrontAudit
    requires { lines < 2 ^ 63 }
    ensures { result ≡ FrontAudit.Refused (lines + 1) TooShort }
{
    FrontAudit::Refused {
        line: lines + 1,
        reason: Reason::TooShort,
    }
}

// The verdict of the lines that are left.
fn audit_lines(alloc: Global, bytes: &[u8], at: &mut Cursor) -> FrontAudit
    requires { IsAmong bytes.now at.old }
    ensures { IsVerdict (verdict_left bytes.now at.old Opening) result }
{
    match read_head(alloc, bytes, at) {
        Ok(head) => read_front(alloc, bytes, at, &head.instance, head.complete, head.points),
        Err(end) => end,
    }
}

/// What the document of a front of these bytes is: verified with its claim, or refused at its first
/// refused line, exactly by the verdict on such documents. What is verified is true of the instance
/// in it. Want of memory is the one other answer.
pub fn audit_front_document(alloc: Global, bytes: &[u8]) -> FrontAudit
    ensures audited { IsVerdict (front_document_verdict bytes.now) result }
    ensures truth { IsTrueAudit bytes.now result }
{
    let mut at = Cursor::start();
    audit_lines(alloc, bytes, &mut at)
}
