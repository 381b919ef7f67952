//! The tuples that closed nodes last.

use box_instances::NoMemory;
use lenient_lists::{at, pushed, put};
use std::alloc::Global;

// The most tuples. Most nodes are closed by one of the last few; a node that none of them closes
// costs a scan of the whole pool.
const MAX_RECENT: usize = 24;

/// Indices of tuples, the one that closed last first.
#[derive(Drop)]
pub(crate) struct Recent {
    tuples: Vec<u32>,
}

impl Recent {
    pub(crate) fn new(alloc: Global) -> Recent {
        Recent {
            tuples: Vec::new(alloc),
        }
    }

    pub(crate) fn len(&self) -> usize {
        self.tuples.len()
    }

    /// The tuple at a position.
    pub(crate) fn tuple(&self, position: usize) -> u32 {
        at(&self.tuples, position)
    }

    /// Moves the tuple at a position to the front.
    pub(crate) fn raise(&mut self, position: usize) {
        let mut carried = self.tuple(position);
        for k in 0..self.tuples.len() {
            if k <= position {
                let next = at(&self.tuples, k);
                put(&mut self.tuples, k, carried);
                carried = next;
            }
        }
    }

    /// Adds a tuple in front, in place of the last one if the list is full.
    pub(crate) fn add(&mut self, tuple: u32) -> Result<(), NoMemory> {
        if self.tuples.len() < MAX_RECENT {
            pushed(&mut self.tuples, tuple)?;
        }
        let last = self.tuples.len().saturating_sub(1);
        put(&mut self.tuples, last, tuple);
        self.raise(last);
        Ok(())
    }
}
