//! Weights of pairs: how often and how lately they led to a conflict.
//!
//! Source: the weighted degree of Boussemart, Hemery, Lecoutre and Sais (2004), with decay as in
//! the solvers of satisfiability.

use crate::table::{Edge, Table};
use box_instances::NoMemory;
use std::alloc::Global;

// The weight that a pair begins with in a dimension, and what the first conflict adds to it.
const UNIT: u64 = 1024;

// A weight is never more than about `MOST` times the least one, before all become smaller.
const MOST: u64 = 1 << 44;

/// The weight of each two boxes in each dimension.
#[derive(Drop)]
pub struct Weights {
    each: Vec<u64>,
    bump: u64,
}

impl Weights {
    /// All weights as at the beginning, for the pairs of a table.
    pub fn new(alloc: Global, table: &Table) -> Result<Weights, NoMemory> {
        let (d, n) = (table.dims() as usize, table.boxes() as usize);
        let count = d.wrapping_mul(n).wrapping_mul(n);
        let Ok(each) = vec![in alloc; UNIT / 4; count] else {
            return Err(NoMemory);
        };
        Ok(Weights { each, bump: UNIT })
    }

    /// The weight of a pair in a dimension, with the lower number first.
    #[inline]
    pub fn of(&self, table: &Table, edge: Edge) -> u64 {
        let index = table.edge_index(edge);
        if index < self.each.len() {
            self.each[index]
        } else {
            0
        }
    }

    /// A pair led to the conflict that is met.
    #[inline]
    pub fn add(&mut self, table: &Table, edge: Edge) {
        let index = table.edge_index(edge);
        if index < self.each.len() {
            self.each[index] = self.each[index].saturating_add(self.bump);
        }
    }

    /// The next conflict counts a twentieth more than this one.
    pub fn age(&mut self) {
        self.bump = self.bump.saturating_add(self.bump / 19);
        if self.bump > MOST {
            for k in 0..self.each.len() {
                self.each[k] >>= 30;
            }
            self.bump >>= 30;
        }
    }
}
