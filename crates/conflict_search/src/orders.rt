//! ORDER at an edge that changed: where a is surely before b, c surely before d and a not before d,
//! c is surely before b.

use crate::causes::{Cause, exclude};
use crate::relations::{AFTER, OVERLAP, Row, bit, lowest};
use crate::state::State;
use crate::table::Edge;
use box_instances::NoMemory;

// Excludes that `c` isn't before each `b` of a set.
fn order_behind(
    state: &mut State,
    dim: u32,
    a: u32,
    set: Row,
    c: u32,
    d: u32,
) -> Result<(), NoMemory> {
    let mut left = set;
    for _ in 0..left.count_ones() {
        let b = lowest(left);
        left &= !bit(b);
        let edge = Edge { dim, u: c, v: b };
        exclude(state, edge, OVERLAP | AFTER, Cause::Order(a, b, c, d))?;
    }
    Ok(())
}

// Excludes that each `c` of a set isn't before `b`.
fn order_ahead(
    state: &mut State,
    dim: u32,
    a: u32,
    b: u32,
    set: Row,
    d: u32,
) -> Result<(), NoMemory> {
    let mut left = set;
    for _ in 0..left.count_ones() {
        let c = lowest(left);
        left &= !bit(c);
        let edge = Edge { dim, u: c, v: b };
        exclude(state, edge, OVERLAP | AFTER, Cause::Order(a, b, c, d))?;
    }
    Ok(())
}

// The new order `a` before `b` as the first of the two.
fn orders_from(state: &mut State, dim: u32, a: u32, b: u32) -> Result<(), NoMemory> {
    let pair = bit(a) | bit(b);
    let table = state.table();
    let mut left = table.others(a) & !table.rows(dim, a).before & !pair;
    for _ in 0..left.count_ones() {
        let d = lowest(left);
        left &= !bit(d);
        let table = state.table();
        let set = table.ahead(dim, d) & !pair & !table.ahead(dim, b);
        order_ahead(state, dim, a, b, set, d)?;
    }
    Ok(())
}

// The new order `c` before `d` as the second of the two.
fn orders_to(state: &mut State, dim: u32, c: u32, d: u32) -> Result<(), NoMemory> {
    let pair = bit(c) | bit(d);
    let table = state.table();
    let mut left = table.others(d) & !table.rows(dim, d).after & !pair;
    for _ in 0..left.count_ones() {
        let a = lowest(left);
        left &= !bit(a);
        let table = state.table();
        let set = table.behind(dim, a) & !pair & !table.behind(dim, c);
        order_behind(state, dim, a, set, c, d)?;
    }
    Ok(())
}

/// What follows where `u` became surely before `v`.
pub(crate) fn orders_along(state: &mut State, dim: u32, u: u32, v: u32) -> Result<(), NoMemory> {
    orders_from(state, dim, u, v)?;
    orders_to(state, dim, u, v)
}

/// What follows where it was excluded that `a` is before `d`.
pub(crate) fn orders_across(state: &mut State, dim: u32, a: u32, d: u32) -> Result<(), NoMemory> {
    let behind = state.table().behind(dim, a) & !bit(d);
    if behind == 0 {
        return Ok(());
    }
    let mut left = state.table().ahead(dim, d) & !bit(a);
    for _ in 0..left.count_ones() {
        let c = lowest(left);
        left &= !bit(c);
        let set = behind & !bit(c) & !state.table().behind(dim, c);
        order_behind(state, dim, a, set, c, d)?;
    }
    Ok(())
}
