//! Reasons for what is excluded at one place, as far as later lines need it.

use crate::finding::{Found, Sought, find_chains, find_plain};
use crate::marks::{AFTER, ALL, BEFORE, OVERLAP, Spot};
use crate::reasons::need_reason;
use crate::short_reasons::ShortReason;
use crate::tracing::Trace;
use box_instances::NoMemory;

// What the needs of later lines want at a place, of these relations; it is wanted no longer.
fn take_wanted(trace: &mut Trace, at: Spot, came: u8) -> u8 {
    let wanted = trace.needs.at(at) & came;
    trace.needs.change(at, 0, wanted);
    wanted
}

// A reason for just this.
fn find_exactly(trace: &mut Trace, sought: Sought) -> Result<Option<Found>, NoMemory> {
    if let Some(plain) = find_plain(&trace.facts, &trace.needs, sought) {
        return Ok(Some(plain));
    }
    find_chains(&trace.facts, &mut trace.weights, &mut trace.boxes, sought)
}

// A reason for something of what is wanted at a place, for all of it where there is one.
fn find_some(trace: &mut Trace, sought: Sought) -> Result<Option<Found>, NoMemory> {
    for bits in [ALL, BEFORE, AFTER, OVERLAP] {
        let wanted = sought.wanted & bits;
        if wanted != 0 {
            let part = Sought { wanted, ..sought };
            let found = find_exactly(trace, part)?;
            if found.is_some() {
                return Ok(found);
            }
        }
    }
    Ok(None)
}

// A reason more, with what it needs. One that has no short form has boxes of a chain at a position
// that no memory of today holds, so that is want of memory.
fn push_found(trace: &mut Trace, found: Option<Found>, wanted: u8) -> Result<(), NoMemory> {
    let Some(Found { reason, bits }) = found else {
        return Ok(());
    };
    let boxes = trace.boxes.as_slice();
    need_reason(&trace.facts, &mut trace.needs, boxes, reason, bits & wanted);
    let Some(short) = ShortReason::of(reason) else {
        return Err(NoMemory);
    };
    let Ok(()) = trace.reasons.push(short) else {
        return Err(NoMemory);
    };
    Ok(())
}

// The same for what is left, where something is.
fn find_left(trace: &mut Trace, sought: Sought, wanted: u8) -> Result<Option<Found>, NoMemory> {
    if wanted == 0 {
        return Ok(None);
    }
    find_some(trace, Sought { wanted, ..sought })
}

// What is still wanted.
fn left_of(wanted: u8, found: Option<Found>) -> u8 {
    match found {
        Some(found) => wanted & !found.bits,
        None => wanted,
    }
}

// Reasons for what is wanted at a place, where these relations came one after another. What a later
// reason is for an earlier one doesn't exclude, so it comes behind it in the lines; here the last
// one is first.
pub(crate) fn explain_at(trace: &mut Trace, at: Spot, came: u8) -> Result<(), NoMemory> {
    let wanted = take_wanted(trace, at, came);
    let allowed = trace.facts.excluded.at(at) | came;
    let sought = Sought {
        at,
        wanted,
        allowed,
    };
    let first = find_left(trace, sought, wanted)?;
    let left = left_of(wanted, first);
    let second = find_left(trace, sought, left)?;
    let last = left_of(left, second);
    let third = find_left(trace, sought, last)?;
    push_found(trace, third, last)?;
    push_found(trace, second, left)?;
    push_found(trace, first, wanted)
}
