//! The lines of an explained document up to its result line.
ghost use Rattle.std.specs.Prelude.{◌≡◌, IfOk, IfErr, true};
ghost use Rattle.text_terms.specs.Texts.{no_parts};
ghost use Rattle.text_terms.specs.Feeding.{ended_line};
ghost use Rattle.verdict_terms.specs.ExplainedStages.{Heading, Reading, begun, filled_line, result_line};
ghost use Rattle.instance_text.specs.Lines.{IsAmong};
ghost use Rattle.document_audits.specs.ExplainedAudits.{IsVerdict, verdict_left};
ghost use Rattle.verdict_terms.specs.Trees.{map_ok};
ghost use Rattle.instance_text.specs.Readers.{held_parts, IsHeldHead};
ghost use Rattle.document_audits.specs.ExplainedHeads.{TakesText};

use crate::explained_audit::{ExplainedAudit, short};
use crate::explained_lines::next_taken;
use crate::words::are_two;
use box_instances::Instance;
use instance_text::{Cursor, InstanceReader, LineLexer, ReadTextError, is_result};
use std::alloc::Global;
use verdict_terms::{AuditCode, ExplainedReason};

/// The line has another form than the place wants.
pub(crate) const FORM: ExplainedReason = ExplainedReason::Line {
    code: AuditCode::Kind,
};

// Why a line of the instance text wasn't taken.
#[derive(Clone, Copy, Debug, PartialEq, Eq)]
pub(crate) enum TextStop {
    Refused(ExplainedReason),
    NoMemory,
}

// The first line.
fn heading(line: &LineLexer) -> Result<(), ExplainedReason>
    ensures { map_ok (λ u. Reading no_parts) result
        ≡ filled_line Heading (ended_line line.now.held) }
{
    if line.bad_byte() {
        return Err(FORM);
    }
    if are_two(line, b"explained", b"fit") {
        Ok(())
    } else {
        Err(FORM)
    }
}

// Reads the first line that isn't blank.
fn read_heading(bytes: &[u8], at: &mut Cursor) -> Result<(), ExplainedAudit>
    requires { IsAmong bytes.now at.old }
    ensures at { IsAmong bytes.now at.new }
    ensures read { IfOk result (λ u. verdict_left bytes.now at.old Heading
        ≡ verdict_left bytes.now at.new (Reading no_parts)) }
    ensures stopped { IfErr result (IsVerdict (verdict_left bytes.now at.old Heading)) }
{
    let there = next_taken(bytes, at);
    let line = at.line.line_number();
    if !there {
        return Err(short(line));
    }
    match heading(&at.line) {
        Ok(()) => Ok(()),
        Err(reason) => Err(ExplainedAudit::Refused { line, reason }),
    }
}

// Takes a line of the instance text.
fn take_text(reader: &mut InstanceReader, line: &LineLexer) -> Result<(), TextStop>
    requires { IsHeldHead reader.old }
    ensures held { IfOk result (λ u. IsHeldHead reader.new) }
    ensures text { TakesText (held_parts reader.old) (ended_line line.now.held)
        (held_parts reader.new) result }
{
    match reader.line(line) {
        Ok(()) => Ok(()),
        Err(ReadTextError::Fault(fault)) => Err(TextStop::Refused(ExplainedReason::Text {
            code: fault.code,
        })),
        Err(ReadTextError::NoMemory) => Err(TextStop::NoMemory),
    }
}

// The instance that was read, at the result line.
fn read_result(reader: InstanceReader, line: &LineLexer) -> Result<Instance, ExplainedReason>
    requires { IsHeldHead reader }
    ensures { map_ok begun result ≡ result_line (held_parts reader) line.now.held.words }
{
    let instance = match reader.finish(0) {
        Ok(instance) => instance,
        Err(ReadTextError::Fault(fault)) => {
            return Err(ExplainedReason::Text { code: fault.code });
        }
        Err(ReadTextError::NoMemory) => unreachable!(),
    };
    if are_two(line, b"result", b"no") {
        Ok(instance)
    } else {
        Err(FORM)
    }
}

// Reads the lines of the instance text, and the result line behind them.
fn read_instance(alloc: Global, bytes: &[u8], at: &mut Cursor) -> Result<Instance, ExplainedAudit>
    requires { IsAmong bytes.now at.old }
    ensures at { IsAmong bytes.now at.new }
    ensures read { IfOk result (λ i. verdict_left bytes.now at.old (Reading no_parts)
        ≡ verdict_left bytes.now at.new (begun i)) }
    ensures stopped { IfErr result (IsVerdict (verdict_left bytes.now at.old (Reading no_parts))) }
{
    let mut reader = InstanceReader::new(alloc);
    loop {
        let there = next_taken(bytes, at);
        let line = at.line.line_number();
        if !there {
            return Err(short(line));
        }
        if is_result(&at.line) {
            return match read_result(reader, &at.line) {
                Ok(instance) => Ok(instance),
                Err(reason) => Err(ExplainedAudit::Refused { line, reason }),
            };
        }
        match take_text(&mut reader, &at.line) {
            Ok(()) => {}
            Err(TextStop::Refused(reason)) => return Err(ExplainedAudit::Refused { line, reason }),
            Err(TextStop::NoMemory) => return Err(ExplainedAudit::NoMemory),
        }
    }
}

/// Reads the lines up to the result line.
pub(crate) fn read_head(
    alloc: Global,
    bytes: &[u8],
    at: &mut Cursor,
) -> Result<Instance, ExplainedAudit>
    requires { IsAmong bytes.now at.old }
    ensures at { IsAmong bytes.now at.new }
    ensures read { IfOk result (λ i. verdict_left bytes.now at.old Heading
        ≡ verdict_left bytes.now at.new (begun i)) }
    ensures stopped { IfErr result (IsVerdict (verdict_left bytes.now at.old Heading)) }
{
    read_heading(bytes, at)?;
    read_instance(alloc, bytes, at)
}
