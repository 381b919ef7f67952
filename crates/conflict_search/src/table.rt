//! What each two boxes may still be in each dimension.
//!
//! Boxes have their numbers by rank here.

use crate::relations::{AFTER, BEFORE, OVERLAP, Row, below, bit, has, turned};
use box_instances::{Instance, NoMemory};
use lenient_lists::{at, put, zeros};
use std::alloc::Global;

/// Two boxes in a dimension. Wherever an edge is kept, `u` is the lower number.
#[derive(Clone, Copy, Debug, PartialEq, Eq)]
pub struct Edge {
    pub dim: u32,
    pub u: u32,
    pub v: u32,
}

impl Edge {
    /// The same, seen from the other box.
    #[inline]
    pub fn turned(self) -> Edge {
        Edge {
            dim: self.dim,
            u: self.v,
            v: self.u,
        }
    }
}

/// The rows of a box in a dimension: which boxes it may still overlap, be before, and be after.
#[derive(Clone, Copy)]
pub struct Rows {
    pub overlap: Row,
    pub before: Row,
    pub after: Row,
}

const NO_ROWS: Rows = Rows {
    overlap: 0,
    before: 0,
    after: 0,
};

/// The rows of all boxes, and the sides.
#[derive(Drop)]
pub struct Table {
    dims: u32,
    boxes: u32,
    sides: Vec<u32>,
    container: Vec<u32>,
    rows: Vec<Rows>,
}

// Takes relations with another box out of rows.
#[inline]
fn take_out(rows: &mut Rows, other: Row, bits: u8) {
    if bits & OVERLAP != 0 {
        rows.overlap &= !other;
    }
    if bits & BEFORE != 0 {
        rows.before &= !other;
    }
    if bits & AFTER != 0 {
        rows.after &= !other;
    }
}

// Puts relations with another box back into rows.
#[inline]
fn put_back(rows: &mut Rows, other: Row, bits: u8) {
    if bits & OVERLAP != 0 {
        rows.overlap |= other;
    }
    if bits & BEFORE != 0 {
        rows.before |= other;
    }
    if bits & AFTER != 0 {
        rows.after |= other;
    }
}

impl Table {
    /// All relations are left. `rank` has the boxes by rank.
    pub fn new(alloc: Global, instance: &Instance, rank: &[u32]) -> Result<Table, NoMemory> {
        let (d, n) = (instance.dims() as usize, instance.len() as usize);
        let count = d.wrapping_mul(n);
        let Ok(rows) = vec![in alloc; NO_ROWS; count] else {
            return Err(NoMemory);
        };
        let mut table = Table {
            dims: instance.dims(),
            boxes: instance.len(),
            sides: zeros(alloc, count)?,
            container: zeros(alloc, d)?,
            rows,
        };
        for dim in 0..instance.dims() {
            let wide = instance.container_side(dim);
            put(&mut table.container, dim as usize, wide);
            table.fill(instance, rank, dim);
        }
        Ok(table)
    }

    // The sides and the rows of a dimension in which nothing is excluded.
    fn fill(&mut self, instance: &Instance, rank: &[u32], dim: u32) {
        for k in 0..self.boxes {
            let index = self.index(dim, k);
            let v = at(rank, k as usize);
            if v < instance.len() && dim < instance.dims() {
                put(&mut self.sides, index, instance.side(v, dim));
            }
            let all = self.others(k);
            if index < self.rows.len() {
                self.rows[index] = Rows {
                    overlap: all,
                    before: all,
                    after: all,
                };
            }
        }
    }

    #[inline]
    pub fn dims(&self) -> u32 {
        self.dims
    }

    #[inline]
    pub fn boxes(&self) -> u32 {
        self.boxes
    }

    #[inline]
    fn index(&self, dim: u32, u: u32) -> usize {
        let first = (dim as usize).wrapping_mul(self.boxes as usize);
        first.wrapping_add(u as usize)
    }

    /// The place of an edge in a list of all pairs in all dimensions.
    #[inline]
    pub fn edge_index(&self, edge: Edge) -> usize {
        let first = self.index(edge.dim, edge.u);
        let row = first.wrapping_mul(self.boxes as usize);
        row.wrapping_add(edge.v as usize)
    }

    /// All boxes but one.
    #[inline]
    pub fn others(&self, u: u32) -> Row {
        below(self.boxes) & !bit(u)
    }

    /// The rows of a box in a dimension.
    #[inline]
    pub fn rows(&self, dim: u32, u: u32) -> Rows {
        let index = self.index(dim, u);
        if index < self.rows.len() {
            self.rows[index]
        } else {
            NO_ROWS
        }
    }

    /// The working side of a box.
    #[inline]
    pub fn side(&self, dim: u32, u: u32) -> u32 {
        at(&self.sides, self.index(dim, u))
    }

    /// The working side of the container.
    #[inline]
    pub fn container_side(&self, dim: u32) -> u32 {
        at(&self.container, dim as usize)
    }

    /// What two boxes may still be in a dimension.
    #[inline]
    pub fn mask(&self, dim: u32, u: u32, v: u32) -> u8 {
        let rows = self.rows(dim, u);
        let overlap = u8::from(has(rows.overlap, v));
        let before = u8::from(has(rows.before, v));
        let after = u8::from(has(rows.after, v));
        overlap | (before << 1) | (after << 2)
    }

    /// The boxes that are apart from a box.
    #[inline]
    pub fn apart(&self, dim: u32, u: u32) -> Row {
        self.others(u) & !self.rows(dim, u).overlap
    }

    /// The boxes that can only overlap a box.
    #[inline]
    pub fn joined(&self, dim: u32, u: u32) -> Row {
        let rows = self.rows(dim, u);
        self.others(u) & !(rows.before | rows.after)
    }

    /// The boxes that a box is surely before.
    #[inline]
    pub fn behind(&self, dim: u32, u: u32) -> Row {
        let rows = self.rows(dim, u);
        self.others(u) & !(rows.overlap | rows.after)
    }

    /// The boxes that are surely before a box.
    #[inline]
    pub fn ahead(&self, dim: u32, u: u32) -> Row {
        let rows = self.rows(dim, u);
        self.others(u) & !(rows.overlap | rows.before)
    }

    /// Excludes relations at an edge.
    #[inline]
    pub fn exclude(&mut self, edge: Edge, bits: u8) {
        let (first, second) = (self.index(edge.dim, edge.u), self.index(edge.dim, edge.v));
        if first < self.rows.len() {
            take_out(&mut self.rows[first], bit(edge.v), bits);
        }
        if second < self.rows.len() {
            take_out(&mut self.rows[second], bit(edge.u), turned(bits));
        }
    }

    /// Takes exclusions at an edge back.
    #[inline]
    pub fn restore(&mut self, edge: Edge, bits: u8) {
        let (first, second) = (self.index(edge.dim, edge.u), self.index(edge.dim, edge.v));
        if first < self.rows.len() {
            put_back(&mut self.rows[first], bit(edge.v), bits);
        }
        if second < self.rows.len() {
            put_back(&mut self.rows[second], bit(edge.u), turned(bits));
        }
    }
}
