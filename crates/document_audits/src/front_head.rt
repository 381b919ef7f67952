//! The lines of a document of a front up to its result line.
ghost use Rattle.std.specs.Prelude.{◌≡◌, ◌≤◌, IfOk, IfErr, true, length};
ghost use Rattle.packing_terms.specs.Packing.{dims};
ghost use Rattle.text_terms.specs.Texts.{no_parts};
ghost use Rattle.text_terms.specs.Feeding.{ended_line};
ghost use Rattle.verdict_terms.specs.Stages.{rest_of};
ghost use Rattle.verdict_terms.specs.Trees.{map_ok};
ghost use Rattle.verdict_terms.specs.FrontDocumentVerdicts.{Opening, Reading, front_claim, front_filled_line, front_result_line};
ghost use Rattle.instance_text.specs.Lines.{IsAmong};
ghost use Rattle.document_audits.specs.FrontAudits.{IsVerdict, verdict_left};
ghost use Rattle.instance_text.specs.Readers.{held_parts, IsHeldHead};
ghost use Rattle.document_audits.specs.FrontHeads.{TakesText, completeness, counted_points, claim_told, head_stage};

use crate::front_audit::{FrontAudit, short};
use crate::front_lines::{FORM, RANGE, next_taken};
use box_instances::Instance;
use instance_text::{
    Cursor, InstanceReader, LineLexer, ReadTextError, is_result, is_same, is_word,
};
use std::alloc::Global;
use text_terms::read_number;
use verdict_terms::Reason;

// The most points that a result line announces.
const MOST_POINTS: u128 = 1_000_000;

/// What the lines up to the result line say.
#[derive(Drop)]
pub(crate) struct Head {
    pub instance: Instance,
    pub complete: bool,
    pub points: u32,
}

// Why a line of the instance text wasn't taken.
#[derive(Clone, Copy, Debug, PartialEq, Eq)]
pub(crate) enum TextStop {
    Refused(Reason),
    NoMemory,
}

// The first line.
fn heading(line: &LineLexer) -> Result<(), Reason>
    ensures { map_ok (λ u. Reading no_parts) result
        ≡ front_filled_line Opening (ended_line line.now.held) }
{
    if line.bad_byte() {
        return Err(FORM);
    }
    if is_word(line, b"front") {
        Ok(())
    } else {
        Err(FORM)
    }
}

// Reads the first line that isn't blank.
fn read_heading(bytes: &[u8], at: &mut Cursor) -> Result<(), FrontAudit>
    requires { IsAmong bytes.now at.old }
    ensures at { IsAmong bytes.now at.new }
    ensures read { IfOk result (λ u. verdict_left bytes.now at.old Opening
        ≡ verdict_left bytes.now at.new (Reading no_parts)) }
    ensures stopped { IfErr result (IsVerdict (verdict_left bytes.now at.old Opening)) }
{
    let there = next_taken(bytes, at);
    let line = at.line.line_number();
    if !there {
        return Err(short(line));
    }
    match heading(&at.line) {
        Ok(()) => Ok(()),
        Err(reason) => Err(FrontAudit::Refused { line, reason }),
    }
}

// Takes a line of the instance text.
fn take_text(reader: &mut InstanceReader, line: &LineLexer) -> Result<(), TextStop>
    requires { IsHeldHead reader.old }
    ensures held { IfOk result (λ u. IsHeldHead reader.new) }
    ensures text { TakesText (held_parts reader.old) (ended_line line.now.held)
        (held_parts reader.new) result }
{
    match reader.line(line) {
        Ok(()) => Ok(()),
        Err(ReadTextError::Fault(fault)) => {
            Err(TextStop::Refused(Reason::Text { code: fault.code }))
        }
        Err(ReadTextError::NoMemory) => Err(TextStop::NoMemory),
    }
}

// Whether all points are announced, or those of a part.
fn completeness(word: &[u8]) -> Result<bool, Reason>
    ensures { result ≡ completeness word.now }
{
    if is_same(word, b"front") {
        return Ok(true);
    }
    if is_same(word, b"partial") {
        return Ok(false);
    }
    Err(FORM)
}

// How many points are announced.
fn counted_points(word: &[u8]) -> Result<u32, Reason>
    ensures { result ≡ counted_points word.now }
{
    let Some(number) = read_number(word) else {
        return Err(FORM);
    };
    if number > MOST_POINTS {
        return Err(RANGE);
    }
    Ok(number as u32)
}

// What the result line claims.
fn read_claim(line: &LineLexer) -> Result<(bool, u32), Reason>
    ensures { map_ok claim_told result ≡ front_claim (rest_of line.now.held.words) }
{
    if line.word_count() != 3 {
        return Err(FORM);
    }
    let complete = completeness(line.word(1))?;
    let points = counted_points(line.word(2))?;
    Ok((complete, points))
}

// The instance that was read and the claim, at the result line.
fn read_result(reader: InstanceReader, line: &LineLexer) -> Result<Head, Reason>
    requires { IsHeldHead reader }
    ensures stage { map_ok head_stage result
        ≡ front_result_line (held_parts reader) (rest_of line.now.held.words) }
    ensures plane { IfOk result (λ h. dims h.instance ≡ 2) }
{
    let instance = match reader.finish(0) {
        Ok(instance) => instance,
        Err(ReadTextError::Fault(fault)) => return Err(Reason::Text { code: fault.code }),
        Err(ReadTextError::NoMemory) => unreachable!(),
    };
    if instance.dims() != 2 {
        return Err(FORM);
    }
    let (complete, points) = read_claim(line)?;
    Ok(Head {
        instance,
        complete,
        points,
    })
}

// Reads the lines of the instance text, and the result line behind them.
fn read_instance(alloc: Global, bytes: &[u8], at: &mut Cursor) -> Result<Head, FrontAudit>
    requires { IsAmong bytes.now at.old }
    ensures at { IsAmong bytes.now at.new }
    ensures plane { IfOk result (λ h. dims h.instance ≡ 2) }
    ensures read { IfOk result (λ h. verdict_left bytes.now at.old (Reading no_parts)
        ≡ verdict_left bytes.now at.new (head_stage h)) }
    ensures stopped { IfErr result (IsVerdict (verdict_left bytes.now at.old (Reading no_parts))) }
{
    let mut reader = InstanceReader::new(alloc);
    loop {
        let there = next_taken(bytes, at);
        let line = at.line.line_number();
        if !there {
            return Err(short(line));
        }
        if is_result(&at.line) {
            return match read_result(reader, &at.line) {
                Ok(head) => Ok(head),
                Err(reason) => Err(FrontAudit::Refused { line, reason }),
            };
        }
        match take_text(&mut reader, &at.line) {
            Ok(()) => {}
            Err(TextStop::Refused(reason)) => return Err(FrontAudit::Refused { line, reason }),
            Err(TextStop::NoMemory) => return Err(FrontAudit::NoMemory),
        }
    }
}

/// Reads the lines up to the result line.
pub(crate) fn read_head(alloc: Global, bytes: &[u8], at: &mut Cursor) -> Result<Head, FrontAudit>
    requires { IsAmong bytes.now at.old }
    ensures at { IsAmong bytes.now at.new }
    ensures plane { IfOk result (λ h. dims h.instance ≡ 2) }
    ensures read { IfOk result (λ h. verdict_left bytes.now at.old Opening
        ≡ verdict_left bytes.now at.new (head_stage h)) }
    ensures stopped { IfErr result (IsVerdict (verdict_left bytes.now at.old Opening)) }
{
    read_heading(bytes, at)?;
    read_instance(alloc, bytes, at)
}
