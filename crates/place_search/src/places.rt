//! The search for places: rounds in each direction, with more and more steps.

use crate::corners::CornerSearch;
use crate::gaps::{Ended, GapSearch};
use crate::luby::Luby;
use crate::rounds::{find_equal_predecessors, order_round};
use box_instances::{Instance, NoMemory};
use fill_search::{Draws, OrientedInstance, turns_of};
use lenient_lists::zeros;
use std::alloc::Global;

// The steps of a round whose number of Luby's row is 1. With 20,000 steps in each direction 27 of
// 69 public instances are placed in 0.5 s together, with 400,000 steps 32 in 4.9 s.
const UNIT: u64 = 4000;

// The rooms of both searches; the one that isn't for these dimensions is small.
#[derive(Drop)]
struct Searches {
    flat: bool,
    gaps: GapSearch,
    corners: CornerSearch,
}

impl Searches {
    fn new(alloc: Global, dims: u32, count: u32) -> Result<Searches, NoMemory> {
        let flat = dims == 2;
        let gaps = GapSearch::new(alloc, if flat { count } else { 0 })?;
        let corners = CornerSearch::new(alloc, dims, if flat { 0 } else { count })?;
        Ok(Searches {
            flat,
            gaps,
            corners,
        })
    }

    fn run(
        &mut self,
        turned: &OrientedInstance,
        order: &[u32],
        twins: &[u32],
        steps: u64,
    ) -> Ended {
        if self.flat {
            self.gaps.run(turned, order, twins, steps)
        } else {
            self.corners.run(turned, order, twins, steps)
        }
    }

    // The coordinates that were found, box after box.
    fn places(&self) -> &[u32] {
        if self.flat {
            &self.gaps.places
        } else {
            &self.corners.places
        }
    }
}

// What a round of one direction is given: the number of the round, its steps, and the drawn
// numbers.
#[derive(Clone, Copy)]
struct Round {
    number: u64,
    steps: u64,
    draws: Draws,
}

// The order of a round, and the equal boxes in it.
#[derive(Drop)]
struct Orders {
    order: Vec<u32>,
    twins: Vec<u32>,
}

impl Orders {
    fn new(alloc: Global, count: u32) -> Result<Orders, NoMemory> {
        Ok(Orders {
            order: zeros(alloc, count as usize)?,
            twins: zeros(alloc, count as usize)?,
        })
    }

    // Runs one round in each direction. It answers how the last search ended, whose places stand in
    // its room, the direction, and the drawn numbers behind the round.
    fn run(
        &mut self,
        rank: &[u32],
        turns: &[OrientedInstance],
        searches: &mut Searches,
        round: Round,
    ) -> (Ended, usize, Draws) {
        let mut draws = round.draws;
        for k in 0..turns.len() {
            let turned = &turns[k];
            let count = (turned.count as usize).min(self.order.len());
            let order = &mut self.order[..count];
            draws = order_round(turned, rank, round.number, draws, order);
            find_equal_predecessors(turned, order, &mut self.twins);
            match searches.run(turned, order, &self.twins, round.steps) {
                Ended::Spent => {}
                ended => return (ended, k, draws),
            }
        }
        (Ended::Spent, 0, draws)
    }
}

/// The memory of a search for places of all boxes of an instance.
#[derive(Drop)]
pub struct PlaceSearch {
    turns: Vec<OrientedInstance>,
    orders: Orders,
    searches: Searches,
}

impl PlaceSearch {
    /// Memory for the boxes of an instance, or `NoMemory`.
    pub fn new(alloc: Global, instance: &Instance) -> Result<PlaceSearch, NoMemory> {
        Ok(PlaceSearch {
            turns: turns_of(alloc, instance)?,
            orders: Orders::new(alloc, instance.len())?,
            searches: Searches::new(alloc, instance.dims(), instance.len())?,
        })
    }

    // Searches round after round. It answers the direction in which places were found.
    fn search(&mut self, rank: &[u32], nodes: u64) -> Option<usize> {
        let mut luby = Luby::new();
        let mut draws = Draws::new();
        let mut left = nodes;
        for number in 0..nodes {
            if left == 0 {
                return None;
            }
            let (factor, behind) = luby.next();
            luby = behind;
            let steps = factor.saturating_mul(UNIT).min(left);
            let round = Round {
                number,
                steps,
                draws,
            };
            let (ended, direction, after) = self
                .orders
                .run(rank, &self.turns, &mut self.searches, round);
            draws = after;
            match ended {
                Ended::Found => return Some(direction),
                Ended::Exhausted => return None,
                Ended::Spent => {}
            }
            left -= steps;
        }
        None
    }

    /// Searches places by up to `nodes` steps in each direction, first with the boxes in the order
    /// `rank`. It answers whether it found any, and writes their coordinates into `into` then, box
    /// after box.
    pub fn place(&mut self, rank: &[u32], nodes: u64, into: &mut [u32]) -> bool {
        let Some(direction) = self.search(rank, nodes) else {
            return false;
        };
        if direction < self.turns.len() {
            self.turns[direction].turn_back(self.searches.places(), into);
        }
        true
    }
}
