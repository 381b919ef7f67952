//! Which lines of a corner or of a point are allowed.
ghost use Rattle.std.specs.Prelude.{◌≡◌, ◌≤◌, ◌-◌, ℕ, Bool, [], MatchOption, Ok, Err};
ghost use Rattle.packing_terms.specs.Packing.{PlainInstance, dims};
ghost use Rattle.packing_terms.specs.Tokens.{PlainToken};
ghost use Rattle.verdict_terms.specs.Lines.{token_line, corner_line, point_line, cornered, is_whole_front, form, range};
ghost use Rattle.front_check.specs.Audits.{plain_part, plain_stage, IsInside, IsPartInside, placing};

use crate::FrontReason;
use crate::parts::{Part, Stage};
use box_instances::Instance;
use verdict_terms::RefuseCode;

/// A line of another form than is wanted.
pub(crate) fn form() -> FrontReason
    ensures { result ≡ form }
{
    FrontReason::Tree(RefuseCode::Kind)
}

// A number that is out of its range.
fn range() -> FrontReason
    ensures { result ≡ range }
{
    FrontReason::Tree(RefuseCode::Range)
}

/// Why a corner may not stand behind what was read last, if it may not.
pub fn corner_reason(
    instance: &Instance,
    complete: bool,
    stage: Stage,
    width: u32,
    height: u32,
) -> Option<FrontReason>
    requires plane { dims instance.now ≡ 2 }
    requires inside { IsPartInside instance.now stage.part }
    ensures { MatchOption result
        (IsInside instance.now width height × (corner_line instance.now complete stage.left
        (plain_part stage.part) width height ≡ Ok (cornered stage.left width height)))
        (λ reason. corner_line instance.now complete stage.left (plain_part stage.part) width height
        ≡ Err reason) }
{
    // For the proof alone: states the limits of the instance.
    let _limits = instance.len();
    let most = instance.written_container(0);
    let highest = instance.written_container(1);
    let left = stage.left;
    match stage.part {
        Part::Begun => {
            if left > 0 {
                if height == highest && 1 <= width && width < most {
                    return None;
                }
                return Some(range());
            }
            if !complete {
                return Some(form());
            }
            if height == highest && width == most {
                None
            } else {
                Some(range())
            }
        }
        Part::Point {
            width: last,
            height: high,
        } => {
            if left > 0 {
                if height == high.saturating_sub(1) && last <= width && width < most {
                    return None;
                }
                return Some(range());
            }
            if high == 1 {
                return Some(form());
            }
            let closing = if complete { most } else { last };
            if height == high.saturating_sub(1) && width == closing {
                None
            } else {
                Some(range())
            }
        }
        Part::Corner { .. } => Some(form()),
    }
}

/// Why a point may not stand behind what was read last, if it may not.
pub fn point_reason(
    instance: &Instance,
    stage: Stage,
    width: u32,
    height: u32,
) -> Option<FrontReason>
    requires plane { dims instance.now ≡ 2 }
    requires inside { IsPartInside instance.now stage.part }
    ensures { (complete : Bool) → MatchOption result
        (IsInside instance.now width height × (1 ≤ stage.left) × (point_line instance.now complete
        stage.left (plain_part stage.part) width height ≡ Ok (placing (stage.left - 1) width
        height [])))
        (λ reason. point_line instance.now complete stage.left (plain_part stage.part) width height
        ≡ Err reason) }
{
    // For the proof alone: states the limits of the instance.
    let _limits = instance.len();
    let most = instance.written_container(0);
    let highest = instance.written_container(1);
    if stage.left == 0 {
        return Some(form());
    }
    match stage.part {
        Part::Begun => {
            if width == 1 && width <= most && 1 <= height && height <= highest {
                None
            } else {
                Some(range())
            }
        }
        Part::Corner {
            width: w,
            height: h,
        } => {
            if width == w + 1 && width <= most && 1 <= height && height <= h {
                None
            } else {
                Some(range())
            }
        }
        Part::Point { .. } => Some(form()),
    }
}

/// Why a token may not stand behind what was read last: behind a whole tree it comes too late, and
/// elsewhere it has no place.
pub fn token_reason(part: Part) -> FrontReason
    ensures { (instance : PlainInstance) (complete : Bool) (left : ℕ) (token : PlainToken)
        → token_line instance complete left (plain_part part) token ≡ Err result }
{
    match part {
        Part::Corner { .. } => FrontReason::Tree(RefuseCode::After),
        _ => form(),
    }
}

/// Whether nothing is missing behind what was read last.
pub fn is_whole(complete: bool, stage: Stage) -> bool
    ensures { result ≡ is_whole_front complete (plain_stage stage) }
{
    if stage.left > 0 {
        return false;
    }
    match stage.part {
        Part::Begun => !complete,
        Part::Corner { .. } => true,
        Part::Point { height, .. } => height == 1,
    }
}
