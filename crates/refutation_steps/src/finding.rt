//! An instance of a rule that excludes what is wanted at a place.
use crate::facts::{Facts, are_apart, are_joined, at_both, container_of, is_sure, side_of};
use crate::heaviest::{Weights, find_chain};
use crate::marks::{
    AFTER, BEFORE, Marked, Marks, OVERLAP, Spot, at_place, has_all, lacking, turned_spot,
};
use crate::reasons::{Reason, compose_needs};
use box_instances::NoMemory;

/// What is wanted at a place, and what an instance may exclude there: what is there, and what came
/// with it.
#[derive(Clone, Copy)]
pub struct Sought {
    pub at: Spot,
    pub wanted: u8,
    pub allowed: u8,
}

/// An instance of a rule, and what it excludes at the place that was sought.
#[derive(Clone, Copy)]
pub struct Found {
    pub reason: Reason,
    pub bits: u8,
}

fn found_for(reason: Option<Reason>, bits: u8) -> Option<Found> {
    match reason {
        Some(reason) => Some(Found { reason, bits }),
        None => None,
    }
}

// The best instance so far, and how much it needs beside what is needed already.
#[derive(Clone, Copy)]
struct Best {
    found: Option<Found>,
    cost: u32,
}

// An instance that is taken where it needs less.
fn offer(best: &mut Best, reason: Reason, bits: u8, cost: u32) {
    if cost < best.cost {
        best.found = Some(Found { reason, bits });
        best.cost = cost;
    }
}

// Whether it is right that these are excluded.
fn serves(sought: Sought, bits: u8) -> bool {
    has_all(bits, sought.wanted) & has_all(sought.allowed, bits)
}

// Whether two boxes and what is more are longer than the container.
fn is_long(facts: &Facts, at: Spot, more: u64) -> bool {
    let sides = side_of(facts, at.dim, at.u).wrapping_add(side_of(facts, at.dim, at.v));
    container_of(facts, at.dim) < sides.wrapping_add(more)
}

// How much more is needed for TRIPLE with a third box.
fn triple_cost(needs: &Marks, at: Spot, x: u32) -> u32 {
    let first = Marked {
        at: at_place(at.dim, at.u, x),
        bits: OVERLAP,
    };
    let second = Marked {
        at: at_place(at.dim, at.v, x),
        bits: OVERLAP,
    };
    lacking(needs, first).wrapping_add(lacking(needs, second))
}

fn offer_triples(facts: &Facts, needs: &Marks, best: &mut Best, at: Spot) {
    for x in 0..facts.boxes {
        if are_apart(facts, at.dim, at.u, x)
            && are_apart(facts, at.dim, at.v, x)
            && is_long(facts, at, side_of(facts, at.dim, x))
        {
            let cost = triple_cost(needs, at, x);
            offer(best, Reason::Triple { at, x }, BEFORE | AFTER, cost);
        }
    }
}

fn find_chord(facts: &Facts, at: Spot, a: u32) -> Option<Reason> {
    for c in 0..facts.boxes {
        if are_joined(facts, at.dim, at.u, c)
            && are_joined(facts, at.dim, c, at.v)
            && are_apart(facts, at.dim, a, c)
        {
            return Some(Reason::Cycle { at, a, c });
        }
    }
    None
}

fn find_cycle(facts: &Facts, at: Spot) -> Option<Reason> {
    for a in 0..facts.boxes {
        if are_joined(facts, at.dim, a, at.u) && are_joined(facts, at.dim, at.v, a) {
            if let Some(reason) = find_chord(facts, at, a) {
                return Some(reason);
            }
        }
    }
    None
}

// APART.
fn find_apart(facts: &Facts, at: Spot) -> Option<Reason> {
    for dim in 0..facts.dims {
        if dim != at.dim && !are_joined(facts, dim, at.u, at.v) {
            return None;
        }
    }
    Some(Reason::Apart { at })
}

fn offer_composes(facts: &Facts, needs: &Marks, best: &mut Best, sought: Sought) {
    let at = sought.at;
    for x in 0..facts.boxes {
        let bits = at_both(facts, at, x);
        if x != at.u && x != at.v && serves(sought, bits) {
            let (first, second) = compose_needs(facts, at, x, sought.wanted);
            let cost = lacking(needs, first).wrapping_add(lacking(needs, second));
            offer(best, Reason::Compose { at, x }, bits, cost);
        }
    }
}

fn find_last(facts: &Facts, at: Spot, a: u32) -> Option<Reason> {
    for d in 0..facts.boxes {
        if d != a
            && is_sure(facts, at.dim, at.u, d)
            && facts.excluded.at(at_place(at.dim, a, d)) & BEFORE != 0
        {
            return Some(Reason::Order { at, a, d });
        }
    }
    None
}

// ORDER: its place is that of its third box and its second.
fn find_order(facts: &Facts, at: Spot) -> Option<Reason> {
    for a in 0..facts.boxes {
        if is_sure(facts, at.dim, a, at.v) {
            if let Some(reason) = find_last(facts, at, a) {
                return Some(reason);
            }
        }
    }
    None
}

// ORDER read from both boxes.
fn find_orders(facts: &Facts, sought: Sought) -> Option<Found> {
    if serves(sought, OVERLAP | AFTER) {
        if let Some(reason) = find_order(facts, sought.at) {
            return found_for(Some(reason), OVERLAP | AFTER);
        }
    }
    if serves(sought, OVERLAP | BEFORE) {
        return found_for(find_order(facts, turned_spot(sought.at)), OVERLAP | BEFORE);
    }
    None
}

// CYCLE and ORDER.
fn find_of_four(facts: &Facts, sought: Sought) -> Option<Found> {
    if serves(sought, BEFORE | AFTER) {
        if let Some(reason) = find_cycle(facts, sought.at) {
            return found_for(Some(reason), BEFORE | AFTER);
        }
    }
    find_orders(facts, sought)
}

/// An instance of a rule other than CHAIN for what is wanted. PAIR and APART come first; of TRIPLE
/// and COMPOSE one is taken that needs least beside what is needed already.
pub(crate) fn find_plain(facts: &Facts, needs: &Marks, sought: Sought) -> Option<Found> {
    let at = sought.at;
    let ends = serves(sought, BEFORE | AFTER);
    if ends && is_long(facts, at, 0) {
        return found_for(Some(Reason::Pair { at }), BEFORE | AFTER);
    }
    if serves(sought, OVERLAP) {
        if let Some(reason) = find_apart(facts, at) {
            return found_for(Some(reason), OVERLAP);
        }
    }
    let mut best = Best {
        found: None,
        cost: u32::MAX,
    };
    if ends {
        offer_triples(facts, needs, &mut best, at);
    }
    offer_composes(facts, needs, &mut best, sought);
    if best.found.is_some() {
        return best.found;
    }
    find_of_four(facts, sought)
}

/// CHAIN for what is wanted; its boxes come behind those of the list.
pub(crate) fn find_chains(
    facts: &Facts,
    weights: &mut Weights,
    boxes: &mut Vec<u32>,
    sought: Sought,
) -> Result<Option<Found>, NoMemory> {
    if sought.wanted == BEFORE {
        let reason = find_chain(facts, weights, boxes, sought.at)?;
        return Ok(found_for(reason, BEFORE));
    }
    if sought.wanted == AFTER {
        let reason = find_chain(facts, weights, boxes, turned_spot(sought.at))?;
        return Ok(found_for(reason, AFTER));
    }
    Ok(None)
}
