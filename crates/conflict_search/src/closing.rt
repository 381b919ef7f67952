//! Closings: all rules, until none adds anything or all is excluded somewhere.

use crate::causes::{Cause, exclude};
use crate::chains::{Chains, propagate_chain_rule};
use crate::relations::{AFTER, BEFORE, ORDERS, OVERLAP};
use crate::splits::{Child, Choice, Split};
use crate::spread::spread;
use crate::state::State;
use crate::table::Edge;
use box_instances::NoMemory;

// More than the steps of any closing: each takes an edge at which something went, and each
// relation of each pair goes once in each dimension.
const MOST_STEPS: u64 = 100_000;

// Goes through the edges that changed, as long as there is no conflict.
fn close_edges(state: &mut State) -> Result<(), NoMemory> {
    for _ in 0..MOST_STEPS {
        let Some((edge, gone)) = state.next_changed() else {
            return Ok(());
        };
        if state.conflict().is_some() {
            state.forget_changed();
            return Ok(());
        }
        spread(state, edge, gone)?;
    }
    Ok(())
}

// Raises chains along the orders that became sure. It answers whether there were any.
fn raise_chains(state: &mut State, chains: &mut Chains) -> Result<bool, NoMemory> {
    let mut any = false;
    for _ in 0..MOST_STEPS {
        let Some(edge) = state.next_order() else {
            break;
        };
        chains.add_order(state.table(), edge)?;
        any = true;
    }
    Ok(any)
}

/// Closes a state. It answers whether there is no conflict.
pub(crate) fn close(state: &mut State, chains: &mut Chains) -> Result<bool, NoMemory> {
    for _ in 0..MOST_STEPS {
        close_edges(state)?;
        if state.conflict().is_some() {
            return Ok(false);
        }
        if !raise_chains(state, chains)? {
            return Ok(true);
        }
        propagate_chain_rule(state, chains)?;
    }
    Ok(true)
}

// Joins each two boxes that are too wide together in a dimension.
fn join_wide(state: &mut State, dim: u32) -> Result<(), NoMemory> {
    for v in 0..state.table().boxes() {
        for u in 0..v {
            let table = state.table();
            let both = table.side(dim, u).saturating_add(table.side(dim, v));
            if both > table.container_side(dim) {
                exclude(state, Edge { dim, u, v }, ORDERS, Cause::Given)?;
            }
        }
    }
    Ok(())
}

/// Closes the root. It answers whether there is no conflict.
pub(crate) fn close_root(state: &mut State, chains: &mut Chains) -> Result<bool, NoMemory> {
    for dim in 0..state.table().dims() {
        join_wide(state, dim)?;
    }
    close(state, chains)
}

/// Goes to a child of a closed node, with one split more above, and closes it. It answers whether
/// there is no conflict.
pub(crate) fn enter(
    state: &mut State,
    chains: &mut Chains,
    split: Split,
    child: Child,
) -> Result<bool, NoMemory> {
    let bits = match (split.choice, child) {
        (Choice::Apart, Child::First) => OVERLAP,
        (Choice::Apart, Child::Second) => ORDERS,
        (Choice::Order, Child::First) => AFTER,
        (Choice::Order, Child::Second) => BEFORE,
    };
    let level = state.level().saturating_add(1);
    state.set_level(level);
    exclude(state, split.edge, bits, Cause::Given)?;
    close(state, chains)
}

/// A node to go back to.
#[derive(Clone, Copy, Debug, PartialEq, Eq)]
pub struct Mark {
    exclusions: usize,
    rises: usize,
    level: usize,
}

/// The node at which state and chains are.
pub(crate) fn here(state: &State, chains: &Chains) -> Mark {
    Mark {
        exclusions: state.mark(),
        rises: chains.mark(),
        level: state.level(),
    }
}

/// Goes back to a node.
pub(crate) fn leave(state: &mut State, chains: &mut Chains, to: Mark) {
    state.undo(to.exclusions);
    state.set_level(to.level);
    chains.undo(to.rises);
}
