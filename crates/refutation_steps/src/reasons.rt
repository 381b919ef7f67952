//! Why something is excluded: an instance of a rule, and what it needs.
use crate::facts::{Facts, composed};
use crate::marks::{AFTER, BEFORE, Marked, Marks, OVERLAP, Spot, at_place, has_all};

/// An instance of a rule that excludes at a place. The boxes of a chain stand in a list from the
/// position `from` on: `first` boxes of the chain that ends in u, from u backwards, then `second`
/// boxes of the one that starts in v.
#[derive(Clone, Copy)]
pub enum Reason {
    Pair {
        at: Spot,
    },
    Apart {
        at: Spot,
    },
    Triple {
        at: Spot,
        x: u32,
    },
    Compose {
        at: Spot,
        x: u32,
    },
    Cycle {
        at: Spot,
        a: u32,
        c: u32,
    },
    Order {
        at: Spot,
        a: u32,
        d: u32,
    },
    Chain {
        dim: u32,
        from: usize,
        first: u32,
        second: u32,
    },
}

/// A box of the list of boxes of chains.
pub(crate) fn box_of(boxes: &[u32], at: usize) -> u32 {
    match boxes.get(at) {
        Some(v) => *v,
        None => 0,
    }
}

// The relations of the first set without which it doesn't exclude what is wanted, composed with the
// second.
fn needed_first(first: u8, second: u8, wanted: u8) -> u8 {
    let mut needed = first;
    if has_all(composed(needed & !OVERLAP, second), wanted) {
        needed &= !OVERLAP;
    }
    if has_all(composed(needed & !BEFORE, second), wanted) {
        needed &= !BEFORE;
    }
    if has_all(composed(needed & !AFTER, second), wanted) {
        needed &= !AFTER;
    }
    needed
}

// The same of the second set.
fn needed_second(first: u8, second: u8, wanted: u8) -> u8 {
    let mut needed = second;
    if has_all(composed(first, needed & !OVERLAP), wanted) {
        needed &= !OVERLAP;
    }
    if has_all(composed(first, needed & !BEFORE), wanted) {
        needed &= !BEFORE;
    }
    if has_all(composed(first, needed & !AFTER), wanted) {
        needed &= !AFTER;
    }
    needed
}

/// What COMPOSE by way of a third box needs for what is wanted, at the first box and the third and
/// at the third and the second.
pub(crate) fn compose_needs(facts: &Facts, at: Spot, x: u32, wanted: u8) -> (Marked, Marked) {
    let left = at_place(at.dim, at.u, x);
    let right = at_place(at.dim, x, at.v);
    let all = facts.excluded.at(right);
    let first = needed_first(facts.excluded.at(left), all, wanted);
    let second = needed_second(first, all, wanted);
    (
        Marked {
            at: left,
            bits: first,
        },
        Marked {
            at: right,
            bits: second,
        },
    )
}

fn need_compose(facts: &Facts, needs: &mut Marks, at: Spot, x: u32, wanted: u8) {
    let (first, second) = compose_needs(facts, at, x, wanted);
    needs.change(first.at, first.bits, 0);
    needs.change(second.at, second.bits, 0);
}

fn need_apart(facts: &Facts, needs: &mut Marks, at: Spot) {
    for dim in 0..facts.dims {
        if dim != at.dim {
            needs.change(at_place(dim, at.u, at.v), BEFORE | AFTER, 0);
        }
    }
}

fn need_cycle(needs: &mut Marks, at: Spot, a: u32, c: u32) {
    let ends = BEFORE | AFTER;
    needs.change(at_place(at.dim, a, at.u), ends, 0);
    needs.change(at_place(at.dim, at.u, c), ends, 0);
    needs.change(at_place(at.dim, c, at.v), ends, 0);
    needs.change(at_place(at.dim, at.v, a), ends, 0);
    needs.change(at_place(at.dim, a, c), OVERLAP, 0);
}

// A box of a chain is surely before the next; backwards the next is before it.
fn need_run(needs: &mut Marks, boxes: &[u32], dim: u32, from: usize, count: u32, bits: u8) {
    for k in 1..count {
        let at = from.wrapping_add(k as usize);
        let u = box_of(boxes, at.wrapping_sub(1));
        let v = box_of(boxes, at);
        needs.change(at_place(dim, u, v), bits, 0);
    }
}

/// Marks what an instance of a rule needs for what is wanted at its place.
pub(crate) fn need_reason(
    facts: &Facts,
    needs: &mut Marks,
    boxes: &[u32],
    reason: Reason,
    wanted: u8,
) {
    match reason {
        Reason::Pair { .. } => {}
        Reason::Apart { at } => need_apart(facts, needs, at),
        Reason::Triple { at, x } => {
            needs.change(at_place(at.dim, at.u, x), OVERLAP, 0);
            needs.change(at_place(at.dim, at.v, x), OVERLAP, 0);
        }
        Reason::Compose { at, x } => need_compose(facts, needs, at, x, wanted),
        Reason::Cycle { at, a, c } => need_cycle(needs, at, a, c),
        Reason::Order { at, a, d } => {
            needs.change(at_place(at.dim, a, at.v), OVERLAP | AFTER, 0);
            needs.change(at_place(at.dim, at.u, d), OVERLAP | AFTER, 0);
            needs.change(at_place(at.dim, a, d), BEFORE, 0);
        }
        Reason::Chain {
            dim,
            from,
            first,
            second,
        } => {
            need_run(needs, boxes, dim, from, first, OVERLAP | BEFORE);
            let middle = from.wrapping_add(first as usize);
            need_run(needs, boxes, dim, middle, second, OVERLAP | AFTER);
        }
    }
}
