//! The path of a choice tree: the boxes that are in, and those that are undecided.

use crate::boxes::decision_order;
use crate::fill::OpenNode;
use crate::slots::{bit, entry};
use box_instances::{Instance, NoMemory};
use lenient_lists::pushed;
use std::alloc::Global;

// The most boxes of an instance.
const MAX_BOXES: u32 = 128;

/// A box that is in: with the box that it has to be in with, which is itself if it was chosen; and
/// of the node before it the position in the order, the undecided boxes and their value.
#[derive(Clone, Copy)]
pub(crate) struct TakenBox {
    pub(crate) box_no: u32,
    pub(crate) with: u32,
    depth: usize,
    open: u128,
    open_worth: u64,
}

/// The path to a node.
#[derive(Drop)]
pub(crate) struct Path {
    order: Vec<u32>,
    // The value of each box, and the bits and the value of the boxes of the order.
    values: Vec<u64>,
    all: u128,
    all_worth: u64,
    // The boxes before this position of the order are decided.
    depth: usize,
    open: u128,
    open_worth: u64,
    taken: Vec<TakenBox>,
    worth: u64,
    members: u128,
}

// The values of all boxes.
fn values_of(alloc: Global, instance: &Instance) -> Result<Vec<u64>, NoMemory> {
    let mut values = Vec::new(alloc);
    for v in 0..instance.len() {
        pushed(&mut values, instance.value(v))?;
    }
    Ok(values)
}

// The value of the boxes of a row.
fn worth_of(values: &[u64], row: u128) -> u64 {
    let mut sum = 0u64;
    for v in 0..MAX_BOXES {
        if row & bit(v) != 0 {
            sum = sum.saturating_add(entry(values, v as usize, 0));
        }
    }
    sum
}

impl Path {
    /// The path to the root of a tree over the boxes of a row.
    pub(crate) fn new(alloc: Global, instance: &Instance, row: u128) -> Result<Path, NoMemory> {
        let order = decision_order(alloc, instance, row)?;
        let values = values_of(alloc, instance)?;
        let all_worth = worth_of(&values, row);
        Ok(Path {
            order,
            values,
            all: row,
            all_worth,
            depth: 0,
            open: row,
            open_worth: all_worth,
            taken: Vec::new(alloc),
            worth: 0,
            members: 0,
        })
    }

    /// Goes back to the root.
    pub(crate) fn clear(&mut self) {
        self.depth = 0;
        self.open = self.all;
        self.open_worth = self.all_worth;
        self.taken.clear();
        self.worth = 0;
        self.members = 0;
    }

    /// The bits of the boxes that are in.
    pub(crate) fn members(&self) -> u128 {
        self.members
    }

    /// The bits of the undecided boxes.
    pub(crate) fn open(&self) -> u128 {
        self.open
    }

    /// The number of boxes that are in.
    pub(crate) fn set_size(&self) -> usize {
        self.taken.len()
    }

    /// The bits of the first `count` boxes that went in.
    pub(crate) fn first_members(&self, count: usize) -> u128 {
        let mut row = 0u128;
        for k in 0..self.taken.len() {
            if k < count {
                row |= bit(self.taken[k].box_no);
            }
        }
        row
    }

    /// The value of the boxes that are in.
    pub(crate) fn worth(&self) -> u64 {
        self.worth
    }

    /// The value of what is in and what is undecided.
    pub(crate) fn most(&self) -> u64 {
        self.worth.saturating_add(self.open_worth)
    }

    /// The node at the end of the path, for a goal.
    pub(crate) fn node(&self, goal: u64) -> OpenNode {
        OpenNode {
            open: self.open,
            worth: self.worth,
            goal,
        }
    }

    /// The first undecided box of the order.
    pub(crate) fn next_box(&mut self) -> Option<u32> {
        for position in self.depth..self.order.len() {
            let v = self.order[position];
            if self.open & bit(v) != 0 {
                self.depth = position;
                return Some(v);
            }
        }
        None
    }

    /// Decides that a box is out.
    pub(crate) fn leave_out(&mut self, v: u32) {
        self.open &= !bit(v);
        let value = entry(&self.values, v as usize, 0);
        self.open_worth = self.open_worth.saturating_sub(value);
    }

    /// Decides that a box is in, as it has to be with box `with`.
    pub(crate) fn take(&mut self, v: u32, with: u32) -> Result<(), NoMemory> {
        let taken = TakenBox {
            box_no: v,
            with,
            depth: self.depth,
            open: self.open,
            open_worth: self.open_worth,
        };
        pushed(&mut self.taken, taken)?;
        self.leave_out(v);
        self.members |= bit(v);
        let value = entry(&self.values, v as usize, 0);
        self.worth = self.worth.saturating_add(value);
        Ok(())
    }

    /// Goes back to the node before the last box that is in, and returns that box, or `None` if no
    /// box is in.
    pub(crate) fn take_back(&mut self) -> Option<TakenBox> {
        let last = self.taken.pop()?;
        self.members &= !bit(last.box_no);
        let value = entry(&self.values, last.box_no as usize, 0);
        self.worth = self.worth.saturating_sub(value);
        self.depth = last.depth;
        self.open = last.open;
        self.open_worth = last.open_worth;
        Some(last)
    }
}
