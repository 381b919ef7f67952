//! The places of a point.
ghost use Rattle.std.specs.Prelude.{◌≡◌, ◌≤◌, ◌*◌, length, None};
ghost use Rattle.packing_terms.specs.Packing.{dims, box_count};
ghost use Rattle.front_check.specs.Audits.{IsInside};
ghost use Rattle.instance_text.specs.Lines.{IsAmong, lines_left};
ghost use Rattle.document_audits.specs.FrontParts.{places_stage, point_stage, IsPartRead, places_reason};

use crate::front_audit::{FrontAudit, short};
use crate::front_lines::next_taken;
use crate::front_reading::{PlaceStop, take_place};
use box_instances::Instance;
use front_check::with_container;
use instance_text::Cursor;
use placement_check::{PlaceVerdict, check_places};
use std::alloc::Global;
use verdict_terms::Reason;

// Why places of all boxes are refused, if they are.
fn places_reason(instance: &Instance, places: &[u32]) -> Option<Reason>
    requires { length places.now ≡ box_count instance.now * dims instance.now }
    ensures { result ≡ places_reason instance.now places.now }
{
    let (_most_boxes, _most_dims) = (instance.len(), instance.dims());
    match check_places(instance, places) {
        PlaceVerdict::Good => None,
        PlaceVerdict::Outside { box_no, dim } => Some(Reason::OutsideAt {
            box_no: box_no + 1,
            dim: dim + 1,
        }),
        PlaceVerdict::Overlap { first, second } => Some(Reason::OverlapAt {
            first: first + 1,
            second: second + 1,
        }),
    }
}

/// Reads the places of a point. `None` means that they are a packing.
pub(crate) fn read_places(
    alloc: Global,
    bytes: &[u8],
    at: &mut Cursor,
    instance: &Instance,
    width: u32,
    height: u32,
) -> Option<FrontAudit>
    requires at { IsAmong bytes.now at.old }
    requires plane { dims instance.now ≡ 2 }
    requires inside { IsInside instance.now width height }
    ensures at { IsAmong bytes.now at.new }
    ensures later { result ≡ None
        → length (lines_left bytes.now at.new) ≤ length (lines_left bytes.now at.old) }
    ensures read { IsPartRead bytes.now at.old at.new instance.now (places_stage width height)
        (point_stage width height) result }
{
    let wanted = 2 * instance.len() as usize;
    let Ok(sized) = with_container(alloc, instance, width, height) else {
        return Some(FrontAudit::NoMemory);
    };
    let mut places = Vec::new(alloc);
    loop {
        let there = next_taken(bytes, at);
        let line = at.line.line_number();
        if !there {
            return Some(short(line));
        }
        match take_place(alloc, &mut places, &at.line) {
            Ok(()) => {}
            Err(PlaceStop::Refused(reason)) => return Some(FrontAudit::Refused { line, reason }),
            Err(PlaceStop::NoMemory) => return Some(FrontAudit::NoMemory),
        }
        if places.len() == wanted {
            return match places_reason(&sized, places.as_slice()) {
                Some(reason) => Some(FrontAudit::Refused { line, reason }),
                None => None,
            };
        }
    }
}
