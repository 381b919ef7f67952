//! A line where a corner, a point or `end` is wanted.
ghost use Rattle.std.specs.Prelude.{◌≡◌, ℕ};
ghost use Rattle.packing_terms.specs.Packing.{dims};
ghost use Rattle.text_terms.specs.Feeding.{ended_line};
ghost use Rattle.verdict_terms.specs.Lines.{CornerAt, PointAt};
ghost use Rattle.front_check.specs.Audits.{IsPartInside};
ghost use Rattle.document_audits.specs.FrontParts.{IsOpened, clamped, told_code, opened_by, taken_by};

use crate::front_lines::{FORM, NamedLine, named_line};
use box_instances::Instance;
use front_check::{FrontReason, Stage, corner_reason, is_whole, point_reason, token_reason};
use instance_text::{LineLexer, is_word};
use std::alloc::Global;
use verdict_terms::Reason;

/// A corner whose tree is wanted, or a point whose places are.
#[derive(Clone, Copy, Debug, PartialEq, Eq)]
pub(crate) enum OpenPart {
    Corner { width: u32, height: u32 },
    Point { width: u32, height: u32 },
}

// A number that is too great for any side as the greatest one, which is too great too.
fn clamped(number: u128) -> u32
    ensures { result ≡ clamped number }
{
    if number > 4_294_967_295 {
        4_294_967_295
    } else {
        number as u32
    }
}

// The reason of a corner, of a point or of a token, as a document states it.
fn told_code(reason: FrontReason) -> Reason
    ensures { result ≡ told_code reason }
{
    match reason {
        FrontReason::Tree(code) => Reason::Token { code },
        FrontReason::Places(_) => FORM,
    }
}

// A corner where one may be wanted.
fn open_corner(
    instance: &Instance,
    complete: bool,
    stage: Stage,
    width: u128,
    height: u128,
) -> Result<Option<OpenPart>, Reason>
    requires plane { dims instance.now ≡ 2 }
    requires inside { IsPartInside instance.now stage.part }
    ensures { IsOpened instance.now complete stage
        (opened_by instance.now complete stage (CornerAt width height)) result }
{
    // For the proof alone: states the limits of the instance.
    let _limits = instance.len();
    let (width, height) = (clamped(width), clamped(height));
    match corner_reason(instance, complete, stage, width, height) {
        None => Ok(Some(OpenPart::Corner { width, height })),
        Some(reason) => Err(told_code(reason)),
    }
}

// A point where one may be wanted.
fn open_point(
    instance: &Instance,
    complete: bool,
    stage: Stage,
    width: u128,
    height: u128,
) -> Result<Option<OpenPart>, Reason>
    requires plane { dims instance.now ≡ 2 }
    requires inside { IsPartInside instance.now stage.part }
    ensures { IsOpened instance.now complete stage
        (opened_by instance.now complete stage (PointAt width height)) result }
{
    // For the proof alone: states the limits of the instance.
    let _limits = instance.len();
    let (width, height) = (clamped(width), clamped(height));
    match point_reason(instance, stage, width, height) {
        None => Ok(Some(OpenPart::Point { width, height })),
        Some(reason) => Err(told_code(reason)),
    }
}

/// What a line opens behind whole parts: a corner, a point, or nothing at `end`.
pub(crate) fn open_part(
    alloc: Global,
    instance: &Instance,
    complete: bool,
    stage: Stage,
    line: &LineLexer,
) -> Result<Option<OpenPart>, Reason>
    requires plane { dims instance.now ≡ 2 }
    requires inside { IsPartInside instance.now stage.part }
    ensures { IsOpened instance.now complete stage
        (taken_by instance.now complete stage (ended_line line.now.held)) result }
{
    if line.bad_byte() {
        return Err(FORM);
    }
    if is_word(line, b"end") {
        return if is_whole(complete, stage) {
            Ok(None)
        } else {
            Err(FORM)
        };
    }
    match named_line(alloc, line) {
        Some(NamedLine::Corner { width, height }) => {
            open_corner(instance, complete, stage, width, height)
        }
        Some(NamedLine::Point { width, height }) => {
            open_point(instance, complete, stage, width, height)
        }
        Some(NamedLine::Tree(_)) => Err(told_code(token_reason(stage.part))),
        Some(
            NamedLine::Place {
                first: _,
                second: _,
            },
        ) => Err(FORM),
        None => Err(FORM),
    }
}
