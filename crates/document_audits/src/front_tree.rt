//! The tree of a corner.
ghost use Rattle.std.specs.Prelude.{◌≡◌, ◌≤◌, length, None};
ghost use Rattle.packing_terms.specs.Packing.{dims};
ghost use Rattle.front_check.specs.Audits.{IsInside};
ghost use Rattle.instance_text.specs.Lines.{IsAmong, lines_left};
ghost use Rattle.document_audits.specs.FrontParts.{tree_stage, whole_stage, IsPartRead};

use crate::front_audit::{FrontAudit, short};
use crate::front_lines::next_taken;
use crate::front_reading::take_token;
use box_instances::Instance;
use front_check::with_container;
use instance_text::Cursor;
use refutation_check::Refuter;
use std::alloc::Global;

/// Reads the tree of a corner. `None` means that it is whole.
pub(crate) fn read_tree(
    alloc: Global,
    bytes: &[u8],
    at: &mut Cursor,
    instance: &Instance,
    width: u32,
    height: u32,
) -> Option<FrontAudit>
    requires at { IsAmong bytes.now at.old }
    requires plane { dims instance.now ≡ 2 }
    requires inside { IsInside instance.now width height }
    ensures at { IsAmong bytes.now at.new }
    ensures later { result ≡ None
        → length (lines_left bytes.now at.new) ≤ length (lines_left bytes.now at.old) }
    ensures read { IsPartRead bytes.now at.old at.new instance.now (tree_stage width height)
        (whole_stage width height) result }
{
    // For the proof alone: states the limits of the instance.
    let _limits = instance.len();
    let Ok(sized) = with_container(alloc, instance, width, height) else {
        return Some(FrontAudit::NoMemory);
    };
    let Ok(mut refuter) = Refuter::new(alloc, &sized) else {
        return Some(FrontAudit::NoMemory);
    };
    loop {
        let there = next_taken(bytes, at);
        let line = at.line.line_number();
        if !there {
            return Some(short(line));
        }
        match take_token(alloc, &mut refuter, &at.line) {
            Ok(true) => return None,
            Ok(false) => {}
            Err(reason) => return Some(FrontAudit::Refused { line, reason }),
        }
    }
}
