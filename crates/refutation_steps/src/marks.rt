//! Sets of relations at places, a bit for each relation.
use box_instances::NoMemory;
use edge_state::{Exclusion, Rel};
use std::alloc::Global;

pub(crate) const OVERLAP: u8 = 1;

pub(crate) const BEFORE: u8 = 2;

pub(crate) const AFTER: u8 = 4;

pub(crate) const ALL: u8 = 7;

/// A dimension and two boxes, counted from 0.
#[derive(Clone, Copy, Debug, PartialEq, Eq)]
pub struct Spot {
    pub dim: u32,
    pub u: u32,
    pub v: u32,
}

/// The place of these numbers.
pub(crate) fn at_place(dim: u32, u: u32, v: u32) -> Spot {
    Spot { dim, u, v }
}

/// The place, read from the other box.
pub(crate) fn turned_spot(at: Spot) -> Spot {
    at_place(at.dim, at.v, at.u)
}

/// The relations, read from the other box.
pub(crate) fn turned_bits(bits: u8) -> u8 {
    (bits & OVERLAP) | ((bits & BEFORE) << 1) | ((bits & AFTER) >> 1)
}

/// Whether the first set has all of the second.
pub(crate) fn has_all(bits: u8, wanted: u8) -> bool {
    wanted & !bits == 0
}

fn bit_of(rel: Rel) -> u8 {
    match rel {
        Rel::Overlap => OVERLAP,
        Rel::Before => BEFORE,
        Rel::After => AFTER,
    }
}

/// Relations at a place.
#[derive(Clone, Copy)]
pub struct Marked {
    pub at: Spot,
    pub bits: u8,
}

/// An exclusion as such a set.
pub(crate) fn as_marked(e: Exclusion) -> Marked {
    Marked {
        at: at_place(e.dim, e.u, e.v),
        bits: bit_of(e.rel),
    }
}

/// What the second has at the place of the first, read in its direction; nothing at another place.
pub(crate) fn bits_there(at: Spot, other: Marked) -> u8 {
    if at == other.at {
        return other.bits;
    }
    if at == turned_spot(other.at) {
        return turned_bits(other.bits);
    }
    0
}

/// A set of relations for each place.
#[derive(Drop)]
pub struct Marks {
    boxes: usize,
    bits: Vec<u8>,
}

// Where a place stands in the list.
fn place(boxes: usize, at: Spot) -> usize {
    let row = (at.dim as usize)
        .wrapping_mul(boxes)
        .wrapping_add(at.u as usize);
    row.wrapping_mul(boxes).wrapping_add(at.v as usize)
}

// One set gets relations and loses others.
fn change(bits: &mut [u8], at: usize, more: u8, less: u8) {
    if let Some(entry) = bits.get_mut(at) {
        *entry = (*entry | more) & !less;
    }
}

impl Marks {
    /// Empty sets, for `dims` dimensions and `boxes` boxes.
    pub fn new(alloc: Global, dims: u32, boxes: u32) -> Result<Marks, NoMemory> {
        let boxes = boxes as usize;
        let count = (dims as usize).wrapping_mul(boxes).wrapping_mul(boxes);
        let Ok(bits) = vec![in alloc; 0u8; count] else {
            return Err(NoMemory);
        };
        Ok(Marks { boxes, bits })
    }

    /// The set at a place.
    pub fn at(&self, at: Spot) -> u8 {
        match self.bits.as_slice().get(place(self.boxes, at)) {
            Some(bits) => *bits,
            None => 0,
        }
    }

    /// The set at a place, read from either box, gets relations and loses others.
    pub fn change(&mut self, at: Spot, more: u8, less: u8) {
        let here = place(self.boxes, at);
        let there = place(self.boxes, turned_spot(at));
        let bits = self.bits.as_mut_slice();
        change(bits, here, more, less);
        change(bits, there, turned_bits(more), turned_bits(less));
    }
}

/// How many of these relations a list of sets doesn't have at their place.
pub(crate) fn lacking(marks: &Marks, marked: Marked) -> u32 {
    let bits = marked.bits & !marks.at(marked.at);
    (u32::from(bits & OVERLAP != 0))
        .wrapping_add(u32::from(bits & BEFORE != 0))
        .wrapping_add(u32::from(bits & AFTER != 0))
}
