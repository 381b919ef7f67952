//! APART, TRIPLE and CYCLE at an edge that changed.

use crate::causes::{Cause, exclude};
use crate::relations::{ORDERS, OVERLAP, Row, bit, lowest};
use crate::state::State;
use crate::table::Edge;
use box_instances::NoMemory;

/// APART where two boxes became joined in a dimension: in the last that is left they are apart.
pub(crate) fn apart_elsewhere(state: &mut State, edge: Edge) -> Result<(), NoMemory> {
    let dims = state.table().dims();
    let (mut open, mut last) = (0u32, 0);
    for dim in 0..dims {
        if state.table().mask(dim, edge.u, edge.v) & ORDERS != 0 {
            open = open.saturating_add(1);
            last = dim;
        }
    }
    if open > 1 {
        return Ok(());
    }
    let first = if open == 1 { last } else { 0 };
    let end = if open == 1 {
        last.saturating_add(1)
    } else {
        dims
    };
    for dim in first..end {
        exclude(state, Edge { dim, ..edge }, OVERLAP, Cause::Apart)?;
    }
    Ok(())
}

/// TRIPLE where `u` and `v` became apart: what is apart from `v` too, and too wide beside both, is
/// joined with `u`.
pub(crate) fn triples(state: &mut State, dim: u32, u: u32, v: u32) -> Result<(), NoMemory> {
    let table = state.table();
    let both = table.side(dim, u).saturating_add(table.side(dim, v));
    let wide = table.container_side(dim);
    let mut left = table.apart(dim, v) & !table.joined(dim, u) & !bit(u);
    for _ in 0..left.count_ones() {
        let x = lowest(left);
        left &= !bit(x);
        if both.saturating_add(state.table().side(dim, x)) > wide {
            exclude(state, Edge { dim, u, v: x }, ORDERS, Cause::Triple(v))?;
        }
    }
    Ok(())
}

// Joins a box with each of a set, opposite one another in rings with `a` and `c`.
fn join_opposite(
    state: &mut State,
    dim: u32,
    b: u32,
    set: Row,
    a: u32,
    c: u32,
) -> Result<(), NoMemory> {
    let mut left = set;
    for _ in 0..left.count_ones() {
        let x = lowest(left);
        left &= !bit(x);
        exclude(state, Edge { dim, u: b, v: x }, ORDERS, Cause::Cycle(a, c))?;
    }
    Ok(())
}

/// CYCLE where `a` and `c` became apart: boxes that are joined with both are joined.
pub(crate) fn cycles_with_chord(
    state: &mut State,
    dim: u32,
    a: u32,
    c: u32,
) -> Result<(), NoMemory> {
    let common = state.table().joined(dim, a) & state.table().joined(dim, c);
    let mut left = common;
    for _ in 0..left.count_ones() {
        let b = lowest(left);
        left &= !bit(b);
        let open = common & !bit(b) & !state.table().joined(dim, b);
        join_opposite(state, dim, b, open, a, c)?;
    }
    Ok(())
}

/// CYCLE where `a` and `b` became joined: `b` is joined with what is opposite in a ring.
pub(crate) fn cycles_with_side(
    state: &mut State,
    dim: u32,
    a: u32,
    b: u32,
) -> Result<(), NoMemory> {
    let mut left = state.table().apart(dim, a) & state.table().joined(dim, b);
    for _ in 0..left.count_ones() {
        let c = lowest(left);
        left &= !bit(c);
        let table = state.table();
        let both = table.joined(dim, a) & table.joined(dim, c);
        let open = both & !table.joined(dim, b) & !bit(b);
        join_opposite(state, dim, b, open, a, c)?;
    }
    Ok(())
}
