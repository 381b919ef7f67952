//! The heaviest chains of boxes that are surely before one another, and CHAIN.
//!
//! Sums of chains are raised along the orders that became sure, and taken back with the state. To
//! weigh all chains of a dimension anew took a third of the search.
ghost use Rattle.std.specs.Prelude.{◌<◌};

use crate::causes::{Cause, exclude};
use crate::relations::{BEFORE, MAX_BOXES, Row, bit, lowest};
use crate::state::State;
use crate::table::{Edge, Table};
use box_instances::NoMemory;
use lenient_lists::pushed;
use std::alloc::Global;

// The most boxes, and the most dimensions, as the lengths of lists.
const ROOM: usize = MAX_BOXES as usize;

const DIMS: usize = 4;

// More than the rises from one order: a rise is along an order to a box whose chain was shorter.
const MOST_RISES: u64 = 100_000;

// The place of a box in the lists.
#[inline]
fn slot(v: u32) -> usize
    ensures { result < 64 }
{
    (v % MAX_BOXES) as usize
}

// The place of a dimension in the lists.
#[inline]
fn place(dim: u32) -> usize
    ensures { result < 4 }
{
    (dim % 4) as usize
}

/// The heaviest chains of a dimension that end with each box, or that begin with each: the sums of
/// their sides, and the box beside it there, counted from 1. `risen` are the boxes whose sum grew.
#[derive(Clone, Copy)]
struct Sums {
    sums: [u32; ROOM],
    beside: [u32; ROOM],
    risen: Row,
}

const NO_SUMS: Sums = Sums {
    sums: [0; ROOM],
    beside: [0; ROOM],
    risen: 0,
};

// What a sum was before it grew, and whether it is one of the chains that end with the box.
#[derive(Clone, Copy)]
struct Rise {
    dim: u32,
    v: u32,
    ends: bool,
    sum: u32,
    beside: u32,
}

/// The heaviest chains of all dimensions.
#[derive(Drop)]
pub struct Chains {
    heads: [Sums; DIMS],
    tails: [Sums; DIMS],
    rises: Vec<Rise>,
    waiting: Vec<u32>,
}

impl Chains {
    /// Each box is a chain by itself.
    pub fn new(alloc: Global, table: &Table) -> Chains {
        let mut chains = Chains {
            heads: [NO_SUMS; DIMS],
            tails: [NO_SUMS; DIMS],
            rises: Vec::new(alloc),
            waiting: Vec::new(alloc),
        };
        for dim in 0..table.dims() {
            for v in 0..table.boxes() {
                let side = table.side(dim, v);
                chains.heads[place(dim)].sums[slot(v)] = side;
                chains.tails[place(dim)].sums[slot(v)] = side;
            }
        }
        chains
    }

    #[inline]
    fn of(&mut self, dim: u32, ends: bool) -> &mut Sums {
        if ends {
            &mut self.heads[place(dim)]
        } else {
            &mut self.tails[place(dim)]
        }
    }

    // Raises the chain of a box to the one that goes on from another box beside it, where that is
    // longer. Then the boxes beyond it wait.
    #[inline]
    fn raise(
        &mut self,
        table: &Table,
        dim: u32,
        ends: bool,
        from: u32,
        v: u32,
    ) -> Result<(), NoMemory> {
        let side = table.side(dim, v);
        let of = self.of(dim, ends);
        let sum = of.sums[slot(from)].saturating_add(side);
        let rise = Rise {
            dim,
            v,
            ends,
            sum: of.sums[slot(v)],
            beside: of.beside[slot(v)],
        };
        if sum <= rise.sum {
            return Ok(());
        }
        of.sums[slot(v)] = sum;
        of.beside[slot(v)] = from.wrapping_add(1);
        of.risen |= bit(v);
        pushed(&mut self.rises, rise)?;
        pushed(&mut self.waiting, v)
    }

    // Raises the chains of all boxes that stand beyond one whose chain grew.
    fn raise_beyond(
        &mut self,
        table: &Table,
        dim: u32,
        ends: bool,
        v: u32,
    ) -> Result<(), NoMemory> {
        let mut left = if ends {
            table.behind(dim, v)
        } else {
            table.ahead(dim, v)
        };
        for _ in 0..left.count_ones() {
            let x = lowest(left);
            left &= !bit(x);
            self.raise(table, dim, ends, v, x)?;
        }
        Ok(())
    }

    // Raises chains from a box to one beside it, and onwards.
    fn raise_from(
        &mut self,
        table: &Table,
        dim: u32,
        ends: bool,
        from: u32,
        v: u32,
    ) -> Result<(), NoMemory> {
        self.raise(table, dim, ends, from, v)?;
        for _ in 0..MOST_RISES {
            let Some(x) = self.waiting.pop() else {
                break;
            };
            self.raise_beyond(table, dim, ends, x)?;
        }
        Ok(())
    }

    /// Raises chains along an order that became sure, from `u` to `v`.
    pub fn add_order(&mut self, table: &Table, edge: Edge) -> Result<(), NoMemory> {
        self.raise_from(table, edge.dim, true, edge.u, edge.v)?;
        self.raise_from(table, edge.dim, false, edge.v, edge.u)
    }

    /// How many rises there were: a mark to go back to.
    #[inline]
    pub fn mark(&self) -> usize {
        self.rises.len()
    }

    /// Goes back to a mark.
    pub fn undo(&mut self, mark: usize) {
        for _ in mark..self.rises.len() {
            if let Some(rise) = self.rises.pop() {
                let of = self.of(rise.dim, rise.ends);
                of.sums[slot(rise.v)] = rise.sum;
                of.beside[slot(rise.v)] = rise.beside;
            }
        }
        self.forget_risen();
    }

    // No sum is known to have grown.
    fn forget_risen(&mut self) {
        for k in 0..DIMS {
            self.heads[k].risen = 0;
            self.tails[k].risen = 0;
        }
    }

    /// Where a box begins that stands right behind the chain before it.
    pub fn start(&self, table: &Table, dim: u32, v: u32) -> u32 {
        let end = self.heads[place(dim)].sums[slot(v)];
        end.saturating_sub(table.side(dim, v))
    }
}

// CHAIN at two boxes: the first isn't before the second where the chains that end and begin there
// are longer together than the container.
#[inline]
fn exclude_if_long(state: &mut State, chains: &Chains, edge: Edge) -> Result<(), NoMemory> {
    let heads = &chains.heads[place(edge.dim)];
    let tails = &chains.tails[place(edge.dim)];
    let sum = heads.sums[slot(edge.u)].saturating_add(tails.sums[slot(edge.v)]);
    if sum <= state.table().container_side(edge.dim) {
        return Ok(());
    }
    exclude(
        state,
        edge,
        BEFORE,
        Cause::Chain(&heads.beside, &tails.beside),
    )
}

// CHAIN at the boxes of a dimension whose chains grew.
fn exclude_risen(state: &mut State, chains: &Chains, dim: u32) -> Result<(), NoMemory> {
    let mut heads = chains.heads[place(dim)].risen;
    for _ in 0..heads.count_ones() {
        let u = lowest(heads);
        heads &= !bit(u);
        let mut left = state.table().rows(dim, u).before;
        for _ in 0..left.count_ones() {
            let v = lowest(left);
            left &= !bit(v);
            exclude_if_long(state, chains, Edge { dim, u, v })?;
        }
    }
    let mut tails = chains.tails[place(dim)].risen;
    for _ in 0..tails.count_ones() {
        let v = lowest(tails);
        tails &= !bit(v);
        let mut left = state.table().rows(dim, v).after;
        for _ in 0..left.count_ones() {
            let u = lowest(left);
            left &= !bit(u);
            exclude_if_long(state, chains, Edge { dim, u, v })?;
        }
    }
    Ok(())
}

/// CHAIN in all dimensions, at the boxes whose chains grew since it was last gone through.
pub(crate) fn propagate_chain_rule(state: &mut State, chains: &mut Chains) -> Result<(), NoMemory> {
    for dim in 0..state.table().dims() {
        exclude_risen(state, chains, dim)?;
    }
    chains.forget_risen();
    Ok(())
}
