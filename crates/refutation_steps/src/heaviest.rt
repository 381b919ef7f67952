//! CHAIN at a place: two heavy chains, found along weights that may be those of another moment.
use crate::facts::{Facts, box_place, container_of, is_sure, number_at, side_of};
use crate::marks::Spot;
use crate::reasons::Reason;
use box_instances::NoMemory;
use std::alloc::Global;

/// By dimension and box, what the heaviest chains weighed when they were weighed last: of those
/// that end in the box, and of those that start there.
#[derive(Drop)]
pub struct Weights {
    heads: Vec<u64>,
    tails: Vec<u64>,
}

/// Two chains that are sought: their dimension, the boxes found so far, which stand in a list from
/// a position on, and what they weigh.
#[derive(Clone, Copy)]
struct Chains {
    dim: u32,
    last: u32,
    count: u32,
    weight: u64,
}

fn no_weights(alloc: Global, facts: &Facts) -> Result<Vec<u64>, NoMemory> {
    let count = (facts.dims as usize).wrapping_mul(facts.boxes as usize);
    let Ok(list) = vec![in alloc; 0u64; count] else {
        return Err(NoMemory);
    };
    Ok(list)
}

/// Weights before any weighing.
pub(crate) fn first_weights(alloc: Global, facts: &Facts) -> Result<Weights, NoMemory> {
    Ok(Weights {
        heads: no_weights(alloc, facts)?,
        tails: no_weights(alloc, facts)?,
    })
}

// Whether a chain goes on from v to w: backwards, or forwards.
fn goes_on(facts: &Facts, dim: u32, backwards: bool, v: u32, w: u32) -> bool {
    if backwards {
        is_sure(facts, dim, w, v)
    } else {
        is_sure(facts, dim, v, w)
    }
}

// The greatest weight of a successor of `v`.
fn heaviest_behind(facts: &Facts, weights: &[u64], dim: u32, backwards: bool, v: u32) -> u64 {
    let mut most = 0;
    for w in 0..facts.boxes {
        if goes_on(facts, dim, backwards, v, w) {
            most = most.max(number_at(weights, box_place(facts, dim, w)));
        }
    }
    most
}

// Weighs each box by those behind it. Answers whether a weight rose.
fn raise_all(facts: &Facts, weights: &mut [u64], dim: u32, backwards: bool) -> bool {
    let mut rose = false;
    for v in 0..facts.boxes {
        let behind = heaviest_behind(facts, weights, dim, backwards, v);
        let weight = behind.wrapping_add(side_of(facts, dim, v));
        if let Some(old) = weights.get_mut(box_place(facts, dim, v)) {
            rose = rose | (*old < weight);
            *old = weight;
        }
    }
    rose
}

// Weighs anew in a dimension. As many rounds as boxes are enough.
fn weigh(facts: &Facts, weights: &mut [u64], dim: u32, backwards: bool) {
    for v in 0..facts.boxes {
        if let Some(old) = weights.get_mut(box_place(facts, dim, v)) {
            *old = 0;
        }
    }
    for _ in 0..facts.boxes {
        if !raise_all(facts, weights, dim, backwards) {
            return;
        }
    }
}

// The heaviest of the successors of `v` that are lighter than it.
fn next_box(facts: &Facts, weights: &[u64], dim: u32, backwards: bool, v: u32) -> Option<u32> {
    let mut next = None;
    let mut most = 0;
    let bound = number_at(weights, box_place(facts, dim, v));
    for w in 0..facts.boxes {
        let weight = number_at(weights, box_place(facts, dim, w));
        if most < weight && weight < bound && goes_on(facts, dim, backwards, v, w) {
            most = weight;
            next = Some(w);
        }
    }
    next
}

// A box more.
fn push_box(boxes: &mut Vec<u32>, v: u32) -> Result<(), NoMemory> {
    let Ok(()) = boxes.push(v) else {
        return Err(NoMemory);
    };
    Ok(())
}

// Boxes of a chain that goes on from a box, until the weight is more than the container's side.
fn push_run(
    facts: &Facts,
    weights: &[u64],
    boxes: &mut Vec<u32>,
    backwards: bool,
    begun: Chains,
) -> Result<Chains, NoMemory> {
    let mut chain = begun;
    push_box(boxes, chain.last)?;
    for _ in 0..facts.boxes {
        if container_of(facts, chain.dim) < chain.weight {
            return Ok(chain);
        }
        let Some(next) = next_box(facts, weights, chain.dim, backwards, chain.last) else {
            return Ok(chain);
        };
        push_box(boxes, next)?;
        chain.last = next;
        chain.count = chain.count.wrapping_add(1);
        chain.weight = chain.weight.wrapping_add(side_of(facts, chain.dim, next));
    }
    Ok(chain)
}

// Two chains along the weights, where they are long enough.
fn follow(
    facts: &Facts,
    weights: &Weights,
    boxes: &mut Vec<u32>,
    at: Spot,
) -> Result<Option<Reason>, NoMemory> {
    let from = boxes.len();
    let both = side_of(facts, at.dim, at.u).wrapping_add(side_of(facts, at.dim, at.v));
    let to = Chains {
        dim: at.dim,
        last: at.u,
        count: 1,
        weight: both,
    };
    let to = push_run(facts, weights.heads.as_slice(), boxes, true, to)?;
    let on = Chains {
        dim: at.dim,
        last: at.v,
        count: 1,
        weight: to.weight,
    };
    let on = push_run(facts, weights.tails.as_slice(), boxes, false, on)?;
    if container_of(facts, at.dim) < on.weight {
        return Ok(Some(Reason::Chain {
            dim: at.dim,
            from,
            first: to.count,
            second: on.count,
        }));
    }
    boxes.truncate(from);
    Ok(None)
}

/// CHAIN at the place, by the weights that are there, or by new ones.
pub(crate) fn find_chain(
    facts: &Facts,
    weights: &mut Weights,
    boxes: &mut Vec<u32>,
    at: Spot,
) -> Result<Option<Reason>, NoMemory> {
    if let Some(reason) = follow(facts, weights, boxes, at)? {
        return Ok(Some(reason));
    }
    weigh(facts, weights.heads.as_mut_slice(), at.dim, true);
    weigh(facts, weights.tails.as_mut_slice(), at.dim, false);
    follow(facts, weights, boxes, at)
}
