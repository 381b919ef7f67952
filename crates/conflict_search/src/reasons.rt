//! What a conflict rests on: the splits above it that led to it, and the pairs on the way there.

use crate::depths::DecisionSet;
use crate::relations::{EACH, OVERLAP};
use crate::state::State;
use crate::table::Edge;
use crate::weights::Weights;
use box_instances::NoMemory;
use lenient_lists::{at, pushed, put, zeros};
use std::alloc::Global;

/// The room for going back along premises.
#[derive(Drop)]
pub struct ConflictAnalyzer {
    // For each fact the number of the trace that met it last.
    met: Vec<u32>,
    trace: u32,
    waiting: Vec<usize>,
}

impl ConflictAnalyzer {
    /// Room for `fact_count` facts.
    pub fn new(alloc: Global, fact_count: usize) -> Result<ConflictAnalyzer, NoMemory> {
        Ok(ConflictAnalyzer {
            met: zeros(alloc, fact_count)?,
            trace: 0,
            waiting: Vec::new(alloc),
        })
    }

    // Meets a fact. Its exclusion waits, where it is met for the first time and isn't one of the
    // root.
    #[inline]
    fn meet(&mut self, state: &State, fact: u32) -> Result<(), NoMemory> {
        if at(&self.met, fact as usize) == self.trace {
            return Ok(());
        }
        put(&mut self.met, fact as usize, self.trace);
        let Some(place) = state.place_of(fact) else {
            return Ok(());
        };
        match state.entry(place) {
            Some(entry) if entry.level > 0 => pushed(&mut self.waiting, place),
            _ => Ok(()),
        }
    }

    // Meets the premises of an exclusion, or adds its split where it has none.
    #[inline]
    fn look(
        &mut self,
        state: &State,
        place: usize,
        into: &mut DecisionSet,
    ) -> Result<(), NoMemory> {
        let premises = state.premises_of(place);
        if premises.len() == 0 {
            if let Some(entry) = state.entry(place) {
                into.add(entry.level.saturating_sub(1));
            }
        }
        for k in 0..premises.len() {
            self.meet(state, premises[k])?;
        }
        Ok(())
    }

    // Goes back from what waits to splits.
    fn go_back(&mut self, state: &State, into: &mut DecisionSet) -> Result<(), NoMemory> {
        for _ in 0..self.met.len() {
            let Some(place) = self.waiting.pop() else {
                return Ok(());
            };
            self.look(state, place, into)?;
        }
        Ok(())
    }

    // The same, and each pair on the way weighs more.
    fn trace_and_bump(
        &mut self,
        state: &State,
        into: &mut DecisionSet,
        weights: &mut Weights,
    ) -> Result<(), NoMemory> {
        for _ in 0..self.met.len() {
            let Some(place) = self.waiting.pop() else {
                return Ok(());
            };
            if let Some(entry) = state.entry(place) {
                weights.add(state.table(), entry.edge);
            }
            self.look(state, place, into)?;
        }
        Ok(())
    }

    /// Adds the splits that the conflict of a state rests on. The pairs that led to it weigh more.
    pub fn conflict(
        &mut self,
        state: &State,
        into: &mut DecisionSet,
        weights: &mut Weights,
    ) -> Result<(), NoMemory> {
        let Some(edge) = state.conflict() else {
            return Ok(());
        };
        self.trace = self.trace.wrapping_add(1);
        for relation in EACH {
            self.meet(state, state.fact(edge.dim, edge.u, edge.v, relation))?;
        }
        self.trace_and_bump(state, into, weights)
    }

    /// Adds the splits on which it rests that two boxes are apart in a dimension.
    pub fn apart(
        &mut self,
        state: &State,
        edge: Edge,
        into: &mut DecisionSet,
    ) -> Result<(), NoMemory> {
        self.trace = self.trace.wrapping_add(1);
        self.meet(state, state.fact(edge.dim, edge.u, edge.v, OVERLAP))?;
        self.go_back(state, into)
    }
}
