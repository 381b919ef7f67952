//! The search for a family that refutes an instance.

use crate::family_growing::{JoinOrder, grown, sorted_boxes};
use crate::family_lines::family_lines;
use crate::family_space::{Root, apart_rows, test_root};
use bounded_tokens::{FamilyToken, Token};
use box_instances::{Instance, NoMemory};
use edge_state::EdgeState;
use std::alloc::Global;

// A family in one dimension that is longer than the container: begun with each box in turn, and
// grown in this order.
fn long_family(
    alloc: Global,
    instance: &Instance,
    dim: u32,
    rows: &[u128],
    order: JoinOrder,
) -> Result<Option<Vec<u32>>, NoMemory> {
    let boxes = sorted_boxes(alloc, instance, dim, rows, order)?;
    for first in 0..instance.len() {
        let found = grown(alloc, instance, dim, rows, &boxes, first)?;
        if found.is_some() {
            return Ok(found);
        }
    }
    Ok(None)
}

// The lines of such a family, by either order.
fn family_in(
    alloc: Global,
    instance: &Instance,
    dim: u32,
    rows: &[u128],
) -> Result<Option<Vec<FamilyToken>>, NoMemory> {
    for order in [JoinOrder::Degree, JoinOrder::Side] {
        if let Some(family) = long_family(alloc, instance, dim, rows, order)? {
            return Ok(Some(family_lines(alloc, dim, &family)?));
        }
    }
    Ok(None)
}

// The lines of such a family in the first dimension that has one.
fn family_of(
    alloc: Global,
    instance: &Instance,
    state: &EdgeState,
) -> Result<Option<Vec<FamilyToken>>, NoMemory> {
    for dim in 0..instance.dims() {
        let rows = apart_rows(alloc, state, dim)?;
        let lines = family_in(alloc, instance, dim, &rows)?;
        if lines.is_some() {
            return Ok(lines);
        }
    }
    Ok(None)
}

// A tree of one leaf.
fn leaf_alone(alloc: Global, leaf: Token) -> Result<Vec<FamilyToken>, NoMemory> {
    let mut lines = Vec::new(alloc);
    match lines.push(FamilyToken::Plain(leaf)) {
        Ok(()) => Ok(lines),
        Err(_) => Err(NoMemory),
    }
}

/// A refutation of an instance at its root: the leaf of a box that is longer than the container or
/// of a conflict of the closure, else one family of boxes side by side, which are apart two by two
/// in one dimension and together longer than the container there. `None` if the search finds none.
///
/// It closes the root once, and grows at most two families from each box in each dimension: some
/// `2 d n^2` steps behind the closure, for n boxes in d dimensions. The lines are proposed alone:
/// the caller tests them.
pub fn propose_family(
    alloc: Global,
    instance: &Instance,
) -> Result<Option<Vec<FamilyToken>>, NoMemory> {
    match test_root(alloc, instance)? {
        Root::Leaf(leaf) => Ok(Some(leaf_alone(alloc, leaf)?)),
        Root::Open(state) => family_of(alloc, instance, &state),
    }
}
