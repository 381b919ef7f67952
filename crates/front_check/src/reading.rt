//! The tree of a corner, and the places of a point, line by line.
ghost use Rattle.std.specs.Prelude.{◌≡◌, ◌≤◌, length, map, IfOk};
ghost use Rattle.packing_terms.specs.Packing.{dims};
ghost use Rattle.front_check.specs.Plain.{plain_line};
ghost use Rattle.front_check.specs.Audits.{IsInside, IsReadTree, IsReadPoint};

use crate::allowed::form;
use crate::parts::Reading;
use crate::{FrontLine, FrontReason, with_container};
use box_instances::{Instance, NoMemory};
use placement_check::check_places;
use refutation_check::Refuter;
use std::alloc::Global;
use verdict_terms::{FeedVerdict, PlaceVerdict};

// The tree of a corner, from the line of this index on.
pub(crate) fn read_tree(
    alloc: Global,
    instance: &Instance,
    width: u32,
    height: u32,
    lines: &[FrontLine],
    start: usize,
) -> Result<Reading, NoMemory>
    requires plane { dims instance.now ≡ 2 }
    requires inside { IsInside instance.now width height }
    requires start { start ≤ length lines.now }
    ensures { IfOk result (λ r. IsReadTree instance.now width height
        (map plain_line lines.now) start r) }
{
    // For the proof alone: states the limits of the instance.
    let _limits = instance.len();
    let sized = with_container(alloc, instance, width, height)?;
    let mut refuter = Refuter::new(alloc, &sized)?;
    for index in start..lines.len() {
        let FrontLine::Tree(token) = &lines[index] else {
            return Ok(Reading::Refused {
                index,
                reason: form(),
            });
        };
        match refuter.feed(token) {
            FeedVerdict::More => {}
            FeedVerdict::Done => return Ok(Reading::Whole { next: index + 1 }),
            FeedVerdict::Refused { code } => {
                return Ok(Reading::Refused {
                    index,
                    reason: FrontReason::Tree(code),
                });
            }
        }
    }
    Ok(Reading::Missing)
}

// The places of a point, from the line of this index on.
pub(crate) fn read_places(
    alloc: Global,
    instance: &Instance,
    width: u32,
    height: u32,
    lines: &[FrontLine],
    start: usize,
) -> Result<Reading, NoMemory>
    requires plane { dims instance.now ≡ 2 }
    requires inside { IsInside instance.now width height }
    requires start { start ≤ length lines.now }
    ensures { IfOk result (λ r. IsReadPoint instance.now width height
        (map plain_line lines.now) start r) }
{
    // For the proof alone: states the limits of the instance.
    let _limits = instance.len();
    let sized = with_container(alloc, instance, width, height)?;
    let wanted = 2 * instance.len() as usize;
    let mut places = Vec::new(alloc);
    for index in start..lines.len() {
        let FrontLine::Place(sides) = &lines[index] else {
            return Ok(Reading::Refused {
                index,
                reason: form(),
            });
        };
        if sides.len() != 2 {
            return Ok(Reading::Refused {
                index,
                reason: form(),
            });
        }
        if places.extend_from_slice(sides.as_slice()).is_err() {
            return Err(NoMemory);
        }
        if places.len() == wanted {
            return Ok(match check_places(&sized, places.as_slice()) {
                PlaceVerdict::Good => Reading::Whole { next: index + 1 },
                verdict => Reading::Refused {
                    index,
                    reason: FrontReason::Places(verdict),
                },
            });
        }
    }
    Ok(Reading::Missing)
}
