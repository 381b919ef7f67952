//! The lines of a family.

use bounded_tokens::{FamilyToken, JoiningBoxes};
use box_instances::NoMemory;
use std::alloc::Global;

// Appends the line of the boxes that join next.
fn push_line(lines: &mut Vec<FamilyToken>, dim: u32, boxes: JoiningBoxes) -> Result<(), NoMemory> {
    match lines.push(FamilyToken::Family { dim, boxes }) {
        Ok(()) => Ok(()),
        Err(_) => Err(NoMemory),
    }
}

/// The lines of a family of boxes, counted from 0, in dimension `dim`, counted from 0: nine boxes a
/// line. Lines count boxes and dimensions from 1.
pub(crate) fn family_lines(
    alloc: Global,
    dim: u32,
    family: &[u32],
) -> Result<Vec<FamilyToken>, NoMemory> {
    let named = dim.saturating_add(1);
    let mut lines = Vec::new(alloc);
    let mut boxes = JoiningBoxes::new();
    for v in family {
        if boxes.is_full() {
            push_line(&mut lines, named, boxes)?;
            boxes = JoiningBoxes::new();
        }
        let _fits = boxes.try_push(v.saturating_add(1));
    }
    push_line(&mut lines, named, boxes)?;
    Ok(lines)
}
