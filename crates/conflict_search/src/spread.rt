//! What follows from an edge that changed: which rules are looked at, and COMPOSE.

use crate::causes::{Cause, exclude};
use crate::cycles::{apart_elsewhere, cycles_with_chord, cycles_with_side, triples};
use crate::orders::{orders_across, orders_along};
use crate::relations::{AFTER, BEFORE, ORDERS, OVERLAP, bit, has, lowest, turned};
use crate::state::State;
use crate::table::{Edge, Rows};
use box_instances::NoMemory;

// What the near box of an edge may be to the others, by what it may be to the far one and what the
// far one may be to them.
#[inline]
fn reached(mask: u8, far: Rows) -> Rows {
    let any = far.overlap | far.before | far.after;
    let (low, high) = (far.before | far.overlap, far.overlap | far.after);
    let mut rows = Rows {
        overlap: 0,
        before: 0,
        after: 0,
    };
    if mask & BEFORE != 0 {
        rows.before |= any;
        rows.overlap |= high;
        rows.after |= far.after;
    }
    if mask & OVERLAP != 0 {
        rows.before |= low;
        rows.overlap |= any;
        rows.after |= high;
    }
    if mask & AFTER != 0 {
        rows.before |= far.before;
        rows.overlap |= low;
        rows.after |= any;
    }
    rows
}

// COMPOSE over the edge from `u` to `v`.
fn compose(state: &mut State, dim: u32, u: u32, v: u32, mask: u8) -> Result<(), NoMemory> {
    if state.conflict().is_some() {
        return Ok(());
    }
    let table = state.table();
    let reach = reached(mask, table.rows(dim, v));
    let near = table.rows(dim, u);
    let rest = !bit(u) & !bit(v);
    let overlap = near.overlap & !reach.overlap & rest;
    let before = near.before & !reach.before & rest;
    let after = near.after & !reach.after & rest;
    let mut left = overlap | before | after;
    for _ in 0..left.count_ones() {
        let x = lowest(left);
        left &= !bit(x);
        let bits = u8::from(has(overlap, x))
            | (u8::from(has(before, x)) << 1)
            | (u8::from(has(after, x)) << 2);
        let edge = Edge { dim, u, v: x };
        exclude(state, edge, bits, Cause::Compose(v))?;
    }
    Ok(())
}

// What follows where two boxes became apart.
fn spread_apart(state: &mut State, edge: Edge) -> Result<(), NoMemory> {
    triples(state, edge.dim, edge.u, edge.v)?;
    triples(state, edge.dim, edge.v, edge.u)?;
    cycles_with_chord(state, edge.dim, edge.u, edge.v)
}

// What follows where two boxes became joined.
fn spread_joined(state: &mut State, edge: Edge) -> Result<(), NoMemory> {
    apart_elsewhere(state, edge)?;
    cycles_with_side(state, edge.dim, edge.u, edge.v)?;
    cycles_with_side(state, edge.dim, edge.v, edge.u)
}

// What follows where an order became sure, or was excluded.
fn spread_order(state: &mut State, edge: Edge, mask: u8, gone: u8) -> Result<(), NoMemory> {
    let (dim, u, v) = (edge.dim, edge.u, edge.v);
    if mask == BEFORE {
        orders_along(state, dim, u, v)?;
    }
    if mask == AFTER {
        orders_along(state, dim, v, u)?;
    }
    if gone & BEFORE != 0 {
        orders_across(state, dim, u, v)?;
    }
    if gone & AFTER != 0 {
        orders_across(state, dim, v, u)?;
    }
    Ok(())
}

/// Excludes what follows from an edge at which relations went, as long as there is no conflict.
pub(crate) fn spread(state: &mut State, edge: Edge, gone: u8) -> Result<(), NoMemory> {
    let mask = state.table().mask(edge.dim, edge.u, edge.v);
    compose(state, edge.dim, edge.u, edge.v, mask)?;
    compose(state, edge.dim, edge.v, edge.u, turned(mask))?;
    if state.conflict().is_some() {
        return Ok(());
    }
    if gone & OVERLAP != 0 {
        spread_apart(state, edge)?;
    }
    if gone & ORDERS != 0 && mask & ORDERS == 0 {
        spread_joined(state, edge)?;
    }
    if state.conflict().is_some() {
        return Ok(());
    }
    spread_order(state, edge, mask, gone)
}
