//! Relations of two boxes as bits, sets of boxes as bits, and what a composition needs.

/// A set of boxes, one bit each. So the search takes at most as many boxes as a word has bits: rows
/// of two words took 1.4 times the instructions, and no larger instance was ever refuted so.
pub type Row = u64;

/// The most boxes of a row.
pub(crate) const MAX_BOXES: u32 = 64;

pub(crate) const OVERLAP: u8 = 1;

pub(crate) const BEFORE: u8 = 2;

pub(crate) const AFTER: u8 = 4;
/// Before and after.
pub(crate) const ORDERS: u8 = 6;

pub(crate) const ALL: u8 = 7;

/// Each relation by itself.
pub(crate) const EACH: [u8; 3] = [OVERLAP, BEFORE, AFTER];

/// The set of one box.
#[inline]
pub(crate) fn bit(v: u32) -> Row {
    1u64.wrapping_shl(v)
}

/// Whether a set has a box.
#[inline]
pub(crate) fn has(row: Row, v: u32) -> bool {
    row & bit(v) != 0
}

/// The lowest box of a set that has one.
#[inline]
pub(crate) fn lowest(row: Row) -> u32 {
    row.trailing_zeros()
}

/// The set of all boxes below a number.
#[inline]
pub(crate) fn below(count: u32) -> Row {
    if count < MAX_BOXES {
        bit(count).wrapping_sub(1)
    } else {
        Row::MAX
    }
}

/// The same relations, seen from the other box.
#[inline]
pub(crate) fn turned(bits: u8) -> u8 {
    match bits & ORDERS {
        BEFORE => (bits & OVERLAP) | AFTER,
        AFTER => (bits & OVERLAP) | BEFORE,
        _ => bits,
    }
}

// What one relation behind another may come to, from end to end.
fn composed(first: u8, second: u8) -> u8 {
    match (first, second) {
        (BEFORE, BEFORE) => BEFORE,
        (BEFORE, OVERLAP) => BEFORE | OVERLAP,
        (OVERLAP, BEFORE) => BEFORE | OVERLAP,
        (AFTER, AFTER) => AFTER,
        (AFTER, OVERLAP) => AFTER | OVERLAP,
        (OVERLAP, AFTER) => AFTER | OVERLAP,
        _ => ALL,
    }
}

// The relations that come to one from end to end, each behind the first.
fn partners(first: u8, relation: u8) -> u8 {
    let mut found = 0;
    for second in EACH {
        if composed(first, second) & relation != 0 {
            found |= second;
        }
    }
    found
}

/// Which exclusions at the two edges of a path are enough to exclude a relation from end to end,
/// where those at the first edge are given: as few at the second as serve, and then at the first.
pub(crate) fn needed(relation: u8, first_gone: u8) -> (u8, u8) {
    let mut second = 0;
    for first in EACH {
        if first_gone & first == 0 {
            second |= partners(first, relation);
        }
    }
    let mut needed_first = 0;
    for first in EACH {
        if partners(first, relation) & !second != 0 {
            needed_first |= first;
        }
    }
    (needed_first, second)
}
