//! The one token that closes a set of boxes.

use crate::order::large_dim;
use crate::pairs::exclusion_rows;
use crate::slots::{bit, entry, write};
use crate::tuples::{Tuple, tuples};
use box_instances::{Instance, NoMemory};
use lenient_lists::{at, pushed};
use proof_tree::Token;
use std::alloc::Global;

/// Why a set doesn't fit with one box more: that box is longer than the container in a dimension,
/// counted from 1; it excludes a box of the set; or the tuple at this index exceeds.
#[derive(Clone, Copy)]
pub enum Reason {
    TooLarge(u32),
    Pair,
    Exceeds(usize),
}

/// A set of boxes that grows and shrinks, with the sums of their images by each tuple.
#[derive(Drop)]
pub struct OpenSet {
    tuples: Vec<Tuple>,
    large: Vec<u32>,
    rows: Vec<u128>,
    // Of each box in order its image by each tuple.
    images: Vec<u128>,
    wholes: Vec<u128>,
    members: u128,
    sums: Vec<u128>,
}

// The image of each box by each tuple, the images of box 0 first.
fn images_of(alloc: Global, instance: &Instance, tuples: &[Tuple]) -> Result<Vec<u128>, NoMemory> {
    let mut images = Vec::new(alloc);
    for v in 0..instance.len() {
        for tuple in tuples {
            pushed(&mut images, tuple.image(instance, v))?;
        }
    }
    Ok(images)
}

// The whole of each tuple.
fn wholes_of(alloc: Global, instance: &Instance, tuples: &[Tuple]) -> Result<Vec<u128>, NoMemory> {
    let mut wholes = Vec::new(alloc);
    for tuple in tuples {
        pushed(&mut wholes, tuple.whole(instance))?;
    }
    Ok(wholes)
}

// The dimension in which each box is longer than the container, or 0.
fn large_dims(alloc: Global, instance: &Instance) -> Result<Vec<u32>, NoMemory> {
    let mut large = Vec::new(alloc);
    for v in 0..instance.len() {
        pushed(&mut large, large_dim(instance, v))?;
    }
    Ok(large)
}

impl OpenSet {
    /// No box, of this instance. It takes all memory of the set.
    pub(crate) fn new(alloc: Global, instance: &Instance) -> Result<OpenSet, NoMemory> {
        let tuples = tuples(alloc, instance.dims())?;
        let images = images_of(alloc, instance, &tuples)?;
        let wholes = wholes_of(alloc, instance, &tuples)?;
        let Ok(sums) = vec![in alloc; 0u128; tuples.len()] else {
            return Err(NoMemory);
        };
        Ok(OpenSet {
            tuples,
            large: large_dims(alloc, instance)?,
            rows: exclusion_rows(alloc, instance)?,
            images,
            wholes,
            members: 0,
            sums,
        })
    }

    // Where the images of a box begin.
    fn start(&self, v: u32) -> usize {
        (v as usize).saturating_mul(self.tuples.len())
    }

    /// Why the set doesn't fit with a box more, if one token says so.
    pub(crate) fn reason(&self, v: u32) -> Option<Reason> {
        let dim = at(&self.large, v as usize);
        if dim > 0 {
            return Some(Reason::TooLarge(dim));
        }
        if self.members & entry(&self.rows, v as usize) != 0 {
            return Some(Reason::Pair);
        }
        let start = self.start(v);
        for k in 0..self.wholes.len() {
            let image = entry(&self.images, start.saturating_add(k));
            if entry(&self.sums, k).saturating_add(image) > self.wholes[k] {
                return Some(Reason::Exceeds(k));
            }
        }
        None
    }

    /// Adds a box.
    pub(crate) fn add(&mut self, v: u32) {
        self.members |= bit(v);
        let start = self.start(v);
        for k in 0..self.sums.len() {
            let image = entry(&self.images, start.saturating_add(k));
            let sum = entry(&self.sums, k).saturating_add(image);
            write(&mut self.sums, k, sum);
        }
    }

    /// Takes out a box.
    pub(crate) fn remove(&mut self, v: u32) {
        self.members &= !bit(v);
        let start = self.start(v);
        for k in 0..self.sums.len() {
            let image = entry(&self.images, start.saturating_add(k));
            let sum = entry(&self.sums, k).saturating_sub(image);
            write(&mut self.sums, k, sum);
        }
    }

    /// The token of a reason. A box that is longer than the container is the first of its set.
    pub(crate) fn token(
        &self,
        alloc: Global,
        dims: u32,
        reason: Reason,
    ) -> Result<Token, NoMemory> {
        match reason {
            Reason::TooLarge(dim) => Ok(Token::TooLarge { box_no: 1, dim }),
            Reason::Pair => Ok(Token::Rules),
            Reason::Exceeds(k) => {
                if k >= self.tuples.len() {
                    return Ok(Token::Rules);
                }
                Ok(Token::Scales(self.tuples[k].functions(alloc, dims)?))
            }
        }
    }
}
