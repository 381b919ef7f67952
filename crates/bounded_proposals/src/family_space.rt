//! The root: what closes it, or the pairs of boxes that are apart in every packing.
use crate::slots::bit;
use bounded_tokens::Token;
use box_instances::{Instance, NoMemory};
use class_search::first_too_large;
use edge_state::EdgeState;
use lenient_lists::pushed;
use packing_terms::Rel;
use rule_closure::{Closed, Closer};
use std::alloc::Global;

/// What the root comes to: the leaf that refutes it with no family, or its closure.
pub(crate) enum Root {
    Leaf(Token),
    Open(EdgeState),
}

// The closure of no exclusion.
fn closed_root(alloc: Global, instance: &Instance) -> Result<Root, NoMemory> {
    let dims = instance.dims();
    let count = instance.len();
    let mut state = EdgeState::new(alloc, dims, count)?;
    let mut closer = Closer::new(alloc, dims, count)?;
    match closer.close(instance, &mut state) {
        Closed::Conflict => Ok(Root::Leaf(Token::Rules)),
        Closed::Stable => Ok(Root::Open(state)),
    }
}

/// The root of an instance: a box that is longer than the container, else what its closure comes
/// to.
pub(crate) fn test_root(alloc: Global, instance: &Instance) -> Result<Root, NoMemory> {
    match first_too_large(instance) {
        Some((v, dim)) => Ok(Root::Leaf(Token::TooLarge {
            box_no: v + 1,
            dim: dim + 1,
        })),
        None => closed_root(alloc, instance),
    }
}

/// Of each box the bits of the boxes from which it is apart in a dimension, and none if the state
/// hasn't that dimension.
pub(crate) fn apart_rows(
    alloc: Global,
    state: &EdgeState,
    dim: u32,
) -> Result<Vec<u128>, NoMemory> {
    let mut rows = Vec::new(alloc);
    for u in 0..state.boxes() {
        let mut row = 0u128;
        for v in 0..state.boxes() {
            if is_apart(state, dim, u, v) {
                row |= bit(v);
            }
        }
        pushed(&mut rows, row)?;
    }
    Ok(rows)
}

// Whether two distinct boxes can't overlap in a dimension.
fn is_apart(state: &EdgeState, dim: u32, u: u32, v: u32) -> bool {
    if state.dims() <= dim || state.boxes() <= u || state.boxes() <= v || u == v {
        return false;
    }
    !state.mask(dim, u, v).has(Rel::Overlap)
}
