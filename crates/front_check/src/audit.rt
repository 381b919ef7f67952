//! Whether lines are those of a front, taken one by one.
ghost use Rattle.std.specs.Prelude.{◌≡◌, ◌<◌, map, length, IfOk};
ghost use Rattle.packing_terms.specs.Packing.{dims};
ghost use Rattle.verdict_terms.specs.Lines.{CornerAt, PointAt};
ghost use Rattle.verdict_terms.specs.Verdicts.{front_verdict};
ghost use Rattle.verdict_terms.specs.Laws.{IsTrueFront};
ghost use Rattle.verdict_terms.specs.declared.front_answers.FrontVerdict.TheVariants.{Good as GoodFront};
ghost use Rattle.front_check.specs.Plain.{plain_line};
ghost use Rattle.front_check.specs.Audits.{IsPartInside, IsStep, StandsAt};

use crate::allowed::{corner_reason, form, is_whole, point_reason, token_reason};
use crate::parts::{Part, Reading, Stage, Step};
use crate::reading::{read_places, read_tree};
use crate::{FrontLine, FrontVerdict};
use box_instances::{Instance, NoMemory};
use std::alloc::Global;

// A corner, and its tree.
fn corner_step(
    alloc: Global,
    instance: &Instance,
    complete: bool,
    stage: Stage,
    width: u32,
    height: u32,
    lines: &[FrontLine],
    index: usize,
) -> Result<Step, NoMemory>
    requires plane { dims instance.now ≡ 2 }
    requires inside { IsPartInside instance.now stage.part }
    requires line { StandsAt (map plain_line lines.now) index (CornerAt width height) }
    ensures { IfOk result (λ s. IsStep instance.now complete (map plain_line lines.now) index
        stage s) }
{
    if let Some(reason) = corner_reason(instance, complete, stage, width, height) {
        return Ok(Step::Refused { index, reason });
    }
    let reading = read_tree(alloc, instance, width, height, lines, index + 1)?;
    Ok(match reading {
        Reading::Whole { next } => {
            let left = stage.left;
            let part = Part::Corner { width, height };
            let stage = Stage { left, part };
            Step::On { stage, next }
        }
        Reading::Missing => Step::Missing,
        Reading::Refused { index, reason } => Step::Refused { index, reason },
    })
}

// A point, and its places.
fn point_step(
    alloc: Global,
    instance: &Instance,
    complete: bool,
    stage: Stage,
    width: u32,
    height: u32,
    lines: &[FrontLine],
    index: usize,
) -> Result<Step, NoMemory>
    requires plane { dims instance.now ≡ 2 }
    requires inside { IsPartInside instance.now stage.part }
    requires line { StandsAt (map plain_line lines.now) index (PointAt width height) }
    ensures { IfOk result (λ s. IsStep instance.now complete (map plain_line lines.now) index
        stage s) }
{
    if let Some(reason) = point_reason(instance, stage, width, height) {
        return Ok(Step::Refused { index, reason });
    }
    let reading = read_places(alloc, instance, width, height, lines, index + 1)?;
    Ok(match reading {
        Reading::Whole { next } => {
            let left = stage.left - 1;
            let part = Part::Point { width, height };
            let stage = Stage { left, part };
            Step::On { stage, next }
        }
        Reading::Missing => Step::Missing,
        Reading::Refused { index, reason } => Step::Refused { index, reason },
    })
}

// The line of this index, with all that belongs to it.
fn one_step(
    alloc: Global,
    instance: &Instance,
    complete: bool,
    stage: Stage,
    lines: &[FrontLine],
    index: usize,
) -> Result<Step, NoMemory>
    requires plane { dims instance.now ≡ 2 }
    requires inside { IsPartInside instance.now stage.part }
    requires there { index < length lines.now }
    ensures { IfOk result (λ s. IsStep instance.now complete (map plain_line lines.now) index
        stage s) }
{
    match &lines[index] {
        FrontLine::Corner { width, height } => {
            let (width, height) = (*width, *height);
            corner_step(
                alloc, instance, complete, stage, width, height, lines, index,
            )
        }
        FrontLine::Point { width, height } => {
            let (width, height) = (*width, *height);
            point_step(
                alloc, instance, complete, stage, width, height, lines, index,
            )
        }
        FrontLine::Place(_) => Ok(Step::Refused {
            index,
            reason: form(),
        }),
        FrontLine::Tree(_) => Ok(Step::Refused {
            index,
            reason: token_reason(stage.part),
        }),
    }
}

/// Whether lines are those of a front of a two-dimensional instance: `complete` says that it has
/// all points, and `points` points are announced.
///
/// `Refused` names the first line that isn't allowed, counted from 0, and `Short` comes exactly
/// where all lines are allowed and more are missing. Where the lines are `Good` their points are
/// the front, or all of it up to the last of them.
pub fn audit_front(
    alloc: Global,
    instance: &Instance,
    complete: bool,
    points: u32,
    lines: &[FrontLine],
) -> Result<FrontVerdict, NoMemory>
    requires plane { dims instance.now ≡ 2 }
    ensures exact { IfOk result (λ v. v
        ≡ front_verdict instance.now complete points (map plain_line lines.now)) }
    ensures right { IfOk result (λ v. v ≡ GoodFront
        → IsTrueFront instance.now complete points (map plain_line lines.now)) }
{
    // For the proof alone: states the limits of the instance.
    let _limits = instance.len();
    let mut stage = Stage {
        left: points,
        part: Part::Begun,
    };
    let mut index = 0;
    while index < lines.len() {
        match one_step(alloc, instance, complete, stage, lines, index)? {
            Step::On { stage: then, next } => {
                stage = then;
                index = next;
            }
            Step::Missing => return Ok(FrontVerdict::Short),
            Step::Refused { index, reason } => {
                return Ok(FrontVerdict::Refused {
                    index: index as u64,
                    reason,
                });
            }
        }
    }
    Ok(if is_whole(complete, stage) {
        FrontVerdict::Good
    } else {
        FrontVerdict::Short
    })
}
