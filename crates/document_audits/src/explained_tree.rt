//! The lines of an explained tree, and the line behind it.
ghost use Rattle.std.specs.Prelude.{◌≡◌, ◌≤◌, None};
ghost use Rattle.packing_terms.specs.Packing.{PlainInstance, dims as dim_count};
ghost use Rattle.text_terms.specs.Feeding.{ended_line};
ghost use Rattle.verdict_terms.specs.ExplainedStages.{Explaining, Ending, Ended, filled_line};
ghost use Rattle.instance_text.specs.Lines.{IsAmong};
ghost use Rattle.document_audits.specs.ExplainedAudits.{IsVerdict, IsStopped, verdict_left};
ghost use Rattle.verdict_terms.specs.Trees.{map_ok};
ghost use Rattle.document_audits.specs.ExplainedTrees.{IsGoing, IsGrown};

use crate::explained_audit::{ExplainedAudit, short};
use crate::explained_head::FORM;
use crate::explained_lines::next_taken;
use instance_text::{Cursor, LineLexer, is_word};
use line_proofs::{Auditor, read_step};
use std::alloc::Global;
use verdict_terms::{AuditCode, AuditVerdict, ExplainedReason};

// The document was whole before the line.
const AFTER: ExplainedReason = ExplainedReason::Line {
    code: AuditCode::After,
};

// Gives a line to the auditor. Answers whether the tree is whole with it.
fn take_step(
    alloc: Global,
    auditor: &mut Auditor,
    dims: u32,
    line: &LineLexer,
) -> Result<bool, ExplainedReason>
    requires going { IsGoing auditor.old dims }
    ensures step { IsGrown auditor.old auditor.new dims (ended_line line.now.held) result }
{
    if line.bad_byte() {
        return Err(FORM);
    }
    if is_word(line, b"end") {
        return Err(ExplainedReason::TooShort);
    }
    let Some(step) = read_step(alloc, line, dims) else {
        return Err(FORM);
    };
    match auditor.feed(&step) {
        AuditVerdict::More => Ok(false),
        AuditVerdict::Done => Ok(true),
        AuditVerdict::Refused { code } => Err(ExplainedReason::Line { code }),
    }
}

/// Reads the lines of the tree. `None` means that it is whole.
pub(crate) fn read_tree(
    alloc: Global,
    bytes: &[u8],
    at: &mut Cursor,
    auditor: &mut Auditor,
    dims: u32,
) -> Option<ExplainedAudit>
    requires at { IsAmong bytes.now at.old }
    requires going { IsGoing auditor.old dims }
    ensures at { IsAmong bytes.now at.new }
    ensures whole { result ≡ None
        → verdict_left bytes.now at.old (Explaining auditor.old.instance auditor.old.audited.nodes)
        ≡ verdict_left bytes.now at.new (Ending auditor.old.instance) }
    ensures stopped { IsStopped (verdict_left bytes.now at.old
        (Explaining auditor.old.instance auditor.old.audited.nodes)) result }
{
    loop {
        let there = next_taken(bytes, at);
        let line = at.line.line_number();
        if !there {
            return Some(short(line));
        }
        match take_step(alloc, auditor, dims, &at.line) {
            Ok(true) => return None,
            Ok(false) => {}
            Err(reason) => return Some(ExplainedAudit::Refused { line, reason }),
        }
    }
}

// The line behind the tree.
fn end_line(alloc: Global, dims: u32, line: &LineLexer) -> Result<(), ExplainedReason>
    requires least { 2 ≤ dims }
    requires most { dims ≤ 4 }
    ensures { (instance : PlainInstance) → dim_count instance ≡ dims
        → map_ok (λ u. Ended instance) result
        ≡ filled_line (Ending instance) (ended_line line.now.held) }
{
    if line.bad_byte() {
        return Err(FORM);
    }
    if is_word(line, b"end") {
        return Ok(());
    }
    match read_step(alloc, line, dims) {
        Some(_) => Err(AFTER),
        None => Err(FORM),
    }
}

/// Reads `end`, after the tree of an instance of `dims` dimensions, and what is left after it.
pub(crate) fn read_end(alloc: Global, bytes: &[u8], at: &mut Cursor, dims: u32) -> ExplainedAudit
    requires at { IsAmong bytes.now at.old }
    requires least { 2 ≤ dims }
    requires most { dims ≤ 4 }
    ensures { (instance : PlainInstance) → dim_count instance ≡ dims
        → IsVerdict (verdict_left bytes.now at.old (Ending instance)) result }
{
    let there = next_taken(bytes, at);
    let line = at.line.line_number();
    if !there {
        return short(line);
    }
    if let Err(reason) = end_line(alloc, dims, &at.line) {
        return ExplainedAudit::Refused { line, reason };
    }
    if next_taken(bytes, at) {
        return ExplainedAudit::Refused {
            line: at.line.line_number(),
            reason: AFTER,
        };
    }
    ExplainedAudit::Verified
}
