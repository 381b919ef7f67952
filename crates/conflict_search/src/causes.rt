//! Exclusions with their causes: the instance of a rule that led to each.

use crate::relations::{AFTER, ALL, BEFORE, EACH, ORDERS, OVERLAP, needed, turned};
use crate::state::State;
use crate::table::Edge;
use box_instances::NoMemory;
use lenient_lists::at;

/// What an exclusion at two boxes comes from. Numbers name other boxes.
#[derive(Clone, Copy)]
pub enum Cause<'a> {
    /// The root, or a split.
    Given,
    /// APART: they are joined in all other dimensions.
    Apart,
    /// TRIPLE: both are apart from this box, and the three are too wide together.
    Triple(u32),
    /// COMPOSE, over this box.
    Compose(u32),
    /// CYCLE: both are joined with these two, which are apart.
    Cycle(u32, u32),
    /// ORDER: with the numbers as a, b, c, d, a is surely before b, c surely before d, and a isn't
    /// before d.
    Order(u32, u32, u32, u32),
    /// CHAIN: the chains that end with the first and begin with the second are too long together.
    /// The lists have for each box the one ahead of it in its chain and the one behind it, counted
    /// from 1.
    Chain(&'a [u32], &'a [u32]),
}

// Adds that relations are excluded to the premises.
fn add_all(state: &mut State, dim: u32, u: u32, v: u32, bits: u8) -> Result<(), NoMemory> {
    for relation in EACH {
        if bits & relation != 0 {
            state.add_premise(dim, u, v, relation)?;
        }
    }
    Ok(())
}

fn add_apart(state: &mut State, edge: Edge) -> Result<(), NoMemory> {
    for dim in 0..state.table().dims() {
        if dim != edge.dim {
            add_all(state, dim, edge.u, edge.v, ORDERS)?;
        }
    }
    Ok(())
}

fn add_compose(state: &mut State, edge: Edge, relation: u8, x: u32) -> Result<(), NoMemory> {
    let gone = ALL & !state.table().mask(edge.dim, edge.u, x);
    let (first, second) = needed(relation, gone);
    add_all(state, edge.dim, edge.u, x, first)?;
    add_all(state, edge.dim, x, edge.v, second)
}

fn add_cycle(state: &mut State, edge: Edge, a: u32, c: u32) -> Result<(), NoMemory> {
    add_all(state, edge.dim, a, edge.u, ORDERS)?;
    add_all(state, edge.dim, edge.u, c, ORDERS)?;
    add_all(state, edge.dim, c, edge.v, ORDERS)?;
    add_all(state, edge.dim, edge.v, a, ORDERS)?;
    add_all(state, edge.dim, a, c, OVERLAP)
}

// Adds the orders along a chain, from a box on to those that a list names: to the one ahead, or to
// the one behind, as the excluded relations say.
fn add_chain(
    state: &mut State,
    dim: u32,
    start: u32,
    next: &[u32],
    bits: u8,
) -> Result<(), NoMemory> {
    let mut here = start;
    for _ in 0..next.len() {
        let other = at(next, here as usize);
        if other == 0 {
            return Ok(());
        }
        add_all(state, dim, here, other - 1, bits)?;
        here = other - 1;
    }
    Ok(())
}

// Adds the premises of an exclusion.
fn add_premises(
    state: &mut State,
    edge: Edge,
    relation: u8,
    cause: Cause<'_>,
) -> Result<(), NoMemory> {
    let (dim, u, v) = (edge.dim, edge.u, edge.v);
    match cause {
        Cause::Given => Ok(()),
        Cause::Apart => add_apart(state, edge),
        Cause::Triple(x) => {
            add_all(state, dim, u, x, OVERLAP)?;
            add_all(state, dim, v, x, OVERLAP)
        }
        Cause::Compose(x) => add_compose(state, edge, relation, x),
        Cause::Cycle(a, c) => add_cycle(state, edge, a, c),
        Cause::Order(a, b, c, d) => {
            add_all(state, dim, a, b, OVERLAP | AFTER)?;
            add_all(state, dim, c, d, OVERLAP | AFTER)?;
            add_all(state, dim, a, d, BEFORE)
        }
        Cause::Chain(ahead, behind) => {
            add_chain(state, dim, u, ahead, OVERLAP | BEFORE)?;
            add_chain(state, dim, v, behind, OVERLAP | AFTER)
        }
    }
}

/// Excludes relations of two boxes in a dimension, as far as they are left, with their cause.
#[inline]
pub(crate) fn exclude(
    state: &mut State,
    edge: Edge,
    bits: u8,
    cause: Cause<'_>,
) -> Result<(), NoMemory> {
    let mask = state.table().mask(edge.dim, edge.u, edge.v);
    if mask & bits == 0 {
        return Ok(());
    }
    exclude_left(state, edge, mask & bits, mask & !bits, cause)
}

// Excludes relations that are left, beside what will be left.
fn exclude_left(
    state: &mut State,
    edge: Edge,
    bits: u8,
    left: u8,
    cause: Cause<'_>,
) -> Result<(), NoMemory> {
    let flat = edge.u < edge.v;
    let kept = if flat { edge } else { edge.turned() };
    for relation in EACH {
        if bits & relation != 0 {
            let from = state.premise_count();
            add_premises(state, edge, relation, cause)?;
            let stored = if flat { relation } else { turned(relation) };
            state.add_entry(kept, stored, from)?;
        }
    }
    if flat {
        state.exclude(kept, bits, left)
    } else {
        state.exclude(kept, turned(bits), turned(left))
    }
}
