//! The lines behind the result line, one part after another.
ghost use Rattle.std.specs.Prelude.{◌≡◌, IfOk, IfErr};
ghost use Rattle.packing_terms.specs.Packing.{PlainInstance, dims};
ghost use Rattle.verdict_terms.specs.Lines.{announced};
ghost use Rattle.verdict_terms.specs.FrontDocumentVerdicts.{Ended};
ghost use Rattle.instance_text.specs.Lines.{IsAmong};
ghost use Rattle.document_audits.specs.FrontAudits.{IsVerdict, claim_of, verdict_left};
ghost use Rattle.document_audits.specs.FrontParts.{at_front, IsOpenable, IsReadOn, IsReadUpTo};

use crate::front_audit::{FrontAudit, short};
use crate::front_lines::{AFTER, next_taken};
use crate::front_opening::{OpenPart, open_part};
use crate::front_places::read_places;
use crate::front_tree::read_tree;
use box_instances::Instance;
use front_check::{Part, Stage};
use instance_text::Cursor;
use std::alloc::Global;

// What is left behind `end`.
fn read_rest(bytes: &[u8], at: &mut Cursor, complete: bool, points: u32) -> FrontAudit
    requires { IsAmong bytes.now at.old }
    ensures { (instance : PlainInstance)
        → IsVerdict (verdict_left bytes.now at.old (Ended instance (claim_of complete points)))
        result }
{
    if next_taken(bytes, at) {
        return FrontAudit::Refused {
            line: at.line.line_number(),
            reason: AFTER,
        };
    }
    FrontAudit::Verified { complete, points }
}

// Reads the tree of a corner, or the places of a point.
fn read_part(
    alloc: Global,
    bytes: &[u8],
    at: &mut Cursor,
    instance: &Instance,
    stage: Stage,
    part: OpenPart,
) -> Result<Stage, FrontAudit>
    requires at { IsAmong bytes.now at.old }
    requires plane { dims instance.now ≡ 2 }
    requires open { IsOpenable instance.now stage part }
    ensures at { IsAmong bytes.now at.new }
    ensures read { IfOk result (IsReadOn bytes.now at.old at.new instance.now stage part) }
    ensures stopped { IfErr result (IsReadUpTo bytes.now at.old instance.now stage part) }
{
    match part {
        OpenPart::Corner { width, height } => {
            match read_tree(alloc, bytes, at, instance, width, height) {
                Some(end) => Err(end),
                None => Ok(Stage {
                    left: stage.left,
                    part: Part::Corner { width, height },
                }),
            }
        }
        OpenPart::Point { width, height } => {
            match read_places(alloc, bytes, at, instance, width, height) {
                Some(end) => Err(end),
                None => Ok(Stage {
                    left: stage.left - 1,
                    part: Part::Point { width, height },
                }),
            }
        }
    }
}

/// Reads the lines after the result line, which announces `points` points.
pub(crate) fn read_front(
    alloc: Global,
    bytes: &[u8],
    at: &mut Cursor,
    instance: &Instance,
    complete: bool,
    points: u32,
) -> FrontAudit
    requires at { IsAmong bytes.now at.old }
    requires plane { dims instance.now ≡ 2 }
    ensures { IsVerdict (verdict_left bytes.now at.old
        (at_front instance.now complete points (announced points))) result }
{
    let mut stage = Stage {
        left: points,
        part: Part::Begun,
    };
    loop {
        let there = next_taken(bytes, at);
        let line = at.line.line_number();
        if !there {
            return short(line);
        }
        match open_part(alloc, instance, complete, stage, &at.line) {
            Ok(Some(part)) => match read_part(alloc, bytes, at, instance, stage, part) {
                Ok(next) => stage = next,
                Err(end) => return end,
            },
            Ok(None) => return read_rest(bytes, at, complete, points),
            Err(reason) => return FrontAudit::Refused { line, reason },
        }
    }
}
