//! The state of a node: what is excluded, and which exclusions each of them came from.
//!
//! It is a closing of its own beside that of the class tree, for the sake of the premises. Nothing
//! of it is proved but that it is safe and ends: what it leads to is tested by the caller.

use crate::relations::{AFTER, ALL, BEFORE, OVERLAP, turned};
use crate::table::{Edge, Table};
use box_instances::{Instance, NoMemory};
use lenient_lists::pushed;
use std::alloc::Global;

/// An exclusion on the trail, of one relation. Its premises begin at `from` and end where those of
/// the next one begin. The level is how many splits are above it.
#[derive(Clone, Copy)]
pub struct Entry {
    pub fact: u32,
    pub edge: Edge,
    pub relation: u8,
    pub from: usize,
    pub level: usize,
}

/// The state of a node.
#[derive(Drop)]
pub struct State {
    table: Table,
    trail: Vec<Entry>,
    // The facts that the exclusions came from, in the order of the trail.
    premises: Vec<u32>,
    // Where each fact stands on the trail, counted from 1, and 0 where it isn't excluded.
    places: Vec<usize>,
    level: usize,
    // What went at each edge since it was last gone through, and the edges where something did.
    gone: Vec<u8>,
    changed: Vec<Edge>,
    conflict: Option<Edge>,
    // The orders that became sure since chains were last raised, the first box before the second.
    orders: Vec<Edge>,
}

impl State {
    /// Nothing is excluded yet. `rank` has the boxes by rank.
    pub fn new(alloc: Global, instance: &Instance, rank: &[u32]) -> Result<State, NoMemory> {
        let (d, n) = (instance.dims() as usize, instance.len() as usize);
        let edges = d.wrapping_mul(n).wrapping_mul(n);
        let Ok(places) = vec![in alloc; 0usize; edges.wrapping_mul(3)] else {
            return Err(NoMemory);
        };
        let Ok(gone) = vec![in alloc; 0u8; edges] else {
            return Err(NoMemory);
        };
        Ok(State {
            table: Table::new(alloc, instance, rank)?,
            trail: Vec::new(alloc),
            premises: Vec::new(alloc),
            places,
            level: 0,
            gone,
            changed: Vec::new(alloc),
            conflict: None,
            orders: Vec::new(alloc),
        })
    }

    /// What each two boxes may still be.
    #[inline]
    pub fn table(&self) -> &Table {
        &self.table
    }

    /// How many facts there are.
    pub fn fact_count(&self) -> usize {
        self.places.len()
    }

    /// The number of the fact that a relation of two boxes is excluded in a dimension: one for both
    /// orders of the boxes.
    #[inline]
    pub fn fact(&self, dim: u32, u: u32, v: u32, relation: u8) -> u32 {
        let (low, high) = (u.min(v), u.max(v));
        let kept = if u < v { relation } else { turned(relation) };
        let slot = match kept {
            OVERLAP => 0u32,
            BEFORE => 1,
            _ => 2,
        };
        let boxes = self.table.boxes();
        let row = dim.wrapping_mul(boxes).wrapping_add(low);
        let pair = row.wrapping_mul(boxes).wrapping_add(high);
        pair.wrapping_mul(3).wrapping_add(slot)
    }

    /// Adds the fact that a relation of two boxes is excluded to the premises of the next entry.
    #[inline]
    pub fn add_premise(&mut self, dim: u32, u: u32, v: u32, relation: u8) -> Result<(), NoMemory> {
        let fact = self.fact(dim, u, v, relation);
        pushed(&mut self.premises, fact)
    }

    /// How many premises there are.
    #[inline]
    pub fn premise_count(&self) -> usize {
        self.premises.len()
    }

    /// Puts an exclusion on the trail, whose premises are those from `from` on.
    #[inline]
    pub fn add_entry(&mut self, edge: Edge, relation: u8, from: usize) -> Result<(), NoMemory> {
        let fact = self.fact(edge.dim, edge.u, edge.v, relation);
        let entry = Entry {
            fact,
            edge,
            relation,
            from,
            level: self.level,
        };
        pushed(&mut self.trail, entry)?;
        let index = fact as usize;
        if index < self.places.len() {
            self.places[index] = self.trail.len();
        }
        Ok(())
    }

    /// Excludes relations whose entries are on the trail, and notes the edge as changed. `left` is
    /// what the two boxes may still be there.
    #[inline]
    pub fn exclude(&mut self, edge: Edge, bits: u8, left: u8) -> Result<(), NoMemory> {
        self.table.exclude(edge, bits);
        let index = self.table.edge_index(edge);
        if index < self.gone.len() {
            if self.gone[index] == 0 {
                pushed(&mut self.changed, edge)?;
            }
            self.gone[index] |= bits;
        }
        if left == 0 && self.conflict.is_none() {
            self.conflict = Some(edge);
        }
        match left {
            BEFORE => pushed(&mut self.orders, edge),
            AFTER => pushed(&mut self.orders, edge.turned()),
            _ => Ok(()),
        }
    }

    /// The edge that changed last, and what went there. It isn't noted any more.
    #[inline]
    pub fn next_changed(&mut self) -> Option<(Edge, u8)> {
        let edge = self.changed.pop()?;
        let index = self.table.edge_index(edge);
        if index < self.gone.len() {
            let bits = self.gone[index];
            self.gone[index] = 0;
            Some((edge, bits))
        } else {
            Some((edge, ALL))
        }
    }

    /// No edge is noted as changed any more.
    pub fn forget_changed(&mut self) {
        for _ in 0..self.changed.len() {
            let _changed = self.next_changed();
        }
    }

    /// An order that became sure, of the first box before the second. It isn't noted any more.
    #[inline]
    pub fn next_order(&mut self) -> Option<Edge> {
        self.orders.pop()
    }

    /// The edge at which all is excluded, if there is one.
    #[inline]
    pub fn conflict(&self) -> Option<Edge> {
        self.conflict
    }

    /// How many exclusions there are: a mark to go back to.
    #[inline]
    pub fn mark(&self) -> usize {
        self.trail.len()
    }

    /// How many splits are above.
    #[inline]
    pub fn level(&self) -> usize {
        self.level
    }

    /// From now on `level` splits are above.
    #[inline]
    pub fn set_level(&mut self, level: usize) {
        self.level = level;
    }

    /// Goes back to a mark.
    pub fn undo(&mut self, mark: usize) {
        for _ in mark..self.trail.len() {
            if let Some(entry) = self.trail.pop() {
                self.premises.truncate(entry.from);
                self.table.restore(entry.edge, entry.relation);
                let index = entry.fact as usize;
                if index < self.places.len() {
                    self.places[index] = 0;
                }
            }
        }
        self.forget_changed();
        self.orders.clear();
        self.conflict = None;
    }

    /// Where a fact stands on the trail, if it is there.
    #[inline]
    pub fn place_of(&self, fact: u32) -> Option<usize> {
        let index = fact as usize;
        if index < self.places.len() {
            self.places[index].checked_sub(1)
        } else {
            None
        }
    }

    /// An exclusion of the trail.
    #[inline]
    pub fn entry(&self, place: usize) -> Option<Entry> {
        if place < self.trail.len() {
            Some(self.trail[place])
        } else {
            None
        }
    }

    /// The facts that the exclusion at a place came from. A split has none.
    #[inline]
    pub fn premises_of(&self, place: usize) -> &[u32] {
        let last = self.premises.len();
        let from = match self.entry(place) {
            Some(entry) => entry.from.min(last),
            None => last,
        };
        let to = match self.entry(place.wrapping_add(1)) {
            Some(next) => next.from.max(from).min(last),
            None => last,
        };
        &self.premises[from..to]
    }
}
