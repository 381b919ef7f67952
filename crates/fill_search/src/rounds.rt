//! One round of swaps, with a memory of its own, so that several can run at once.

use crate::orders::Draws;
use crate::oriented::{OrientedInstance, all_turns_of};
use crate::slots::side;
use crate::swaps::{Aim, Incumbent, Style, Swaps};
use box_instances::{Instance, NoMemory};
use lenient_lists::at;
use std::alloc::Global;

/// The number of rounds of a batch.
pub(crate) const ROUNDS: usize = 8;

// A window that all boxes stand in, and a narrow one.
pub(crate) const WIDE: u32 = 1_000;

const NARROW: u32 = 3;

// The number of rounds of a batch that stack boxes, in two dimensions and in more. Some strips are
// packed lower by the other rounds.
const FLAT_STACKS: u64 = 5;

const DEEP_STACKS: u64 = 4;

/// What the rounds of a batch make small.
#[derive(Clone, Copy)]
pub(crate) enum Goal {
    /// The height of all boxes.
    Height,
    /// The weight that is left out of the container. It may be that of volumes.
    Weight { are_volumes: bool },
}

/// What the rounds of a batch have in common: its number, the fills of a round, and the cost that
/// is low enough.
#[derive(Clone, Copy)]
pub(crate) struct Plan {
    pub batch: u64,
    pub fills: u64,
    pub enough: u64,
    pub goal: Goal,
}

/// The memory of a round.
#[derive(Drop)]
pub(crate) struct Round {
    turns: Vec<OrientedInstance>,
    swaps: Swaps,
    /// The best packing that the round found, or where it began.
    pub found: Incumbent,
}

impl Round {
    /// Memory for a round with one weight for each box, or `NoMemory`.
    pub(crate) fn new(
        alloc: Global,
        instance: &Instance,
        weights: Vec<u64>,
    ) -> Result<Round, NoMemory> {
        let (dims, count) = (instance.dims(), instance.len());
        Ok(Round {
            turns: all_turns_of(alloc, instance)?,
            swaps: Swaps::new(alloc, dims, weights)?,
            found: Incumbent::new(alloc, dims, count)?,
        })
    }

    // Begins a round: an even one behind the first batch at the best packing before it, changed a
    // little, any other at an order by sizes, changed more behind the first batch.
    fn begin(&mut self, from: &Incumbent, starts: &[Vec<u32>], batch: u64, kind: u64) {
        let number = batch.saturating_mul(ROUNDS as u64).saturating_add(kind);
        self.swaps.draws = Draws::numbered(number);
        let count = from.order.len().min(128) as u32;
        if batch > 0 && kind % 2 == 0 {
            self.swaps.begin(&from.order, count / 12 + 1);
            return;
        }
        let orders = starts.len() as u64;
        let index = (batch.saturating_mul(4).saturating_add(kind) % orders.max(1)) as usize;
        if index < starts.len() {
            let swaps = if batch > 0 { count / 4 } else { 0 };
            self.swaps.begin(&starts[index], swaps);
        }
    }

    // Swaps in a direction until the found packing costs no more than `enough`. It answers how many
    // fills are left.
    fn swap(&mut self, direction: usize, style: Style, fills: u64, enough: u64) -> u64 {
        if direction >= self.turns.len() {
            return 0;
        }
        let turned = &self.turns[direction];
        self.swaps
            .run(turned, style, fills, enough, &mut self.found)
    }

    // How high the found packing reaches in the last dimension.
    fn reach(&self, instance: &Instance) -> u64 {
        let (dims, up) = (instance.dims() as usize, instance.dims() - 1);
        let mut reach = 0u64;
        for v in 0..instance.len() {
            let index = (v as usize)
                .saturating_mul(dims)
                .saturating_add(up as usize);
            let start = u64::from(at(&self.found.places, index));
            let end = start.saturating_add(u64::from(side(instance, v, up)));
            reach = reach.max(end);
        }
        reach
    }

    // Makes the weight small that is left out.
    fn leave_out(&mut self, plan: Plan, kind: u64, are_volumes: bool) {
        let style = Style {
            aim: Aim::Weight,
            window: if kind % 4 == 3 { NARROW } else { WIDE },
            are_volumes,
        };
        let turns = (self.turns.len() as u64).max(1);
        let direction = plan.batch.saturating_mul(4).saturating_add(kind) / 2 % turns;
        self.swap(direction as usize, style, plan.fills, plan.enough);
    }

    // Fills the container below the found height, as often as that becomes less.
    fn lower(&mut self, instance: &Instance, direction: usize, window: u32, plan: Plan) {
        let up = instance.dims() - 1;
        let style = Style {
            aim: Aim::Weight,
            window,
            are_volumes: true,
        };
        let mut height = self.found.cost;
        let mut left = plan.fills;
        for _ in 0..plan.fills {
            if left == 0 || height <= plan.enough {
                break;
            }
            if direction < self.turns.len() {
                let side = height.saturating_sub(1).min(u64::from(u32::MAX)) as u32;
                self.turns[direction].limit(up, side);
            }
            self.found.cost = 1;
            left = self.swap(direction, style, left, 0);
            if self.found.cost > 0 {
                break;
            }
            height = self.reach(instance);
        }
        self.found.cost = height;
    }

    // Makes the height small. Most rounds in two dimensions, and half of them in more, stack the
    // boxes without a limit; the others fill the container in each direction in turn.
    fn make_low(&mut self, instance: &Instance, plan: Plan, kind: u64) {
        let (stacks, ways) = if instance.dims() == 2 {
            (FLAT_STACKS, 1)
        } else {
            (DEEP_STACKS, 2)
        };
        if kind < stacks {
            let style = Style {
                aim: Aim::Height,
                window: WIDE,
                are_volumes: false,
            };
            let direction = (kind % ways) as usize;
            self.swap(direction, style, plan.fills, plan.enough);
            return;
        }
        let turns = (self.turns.len() as u64).max(1);
        let turn = plan.batch.saturating_mul(ROUNDS as u64 - stacks);
        let turn = turn.saturating_add(kind);
        let window = if instance.dims() == 2 && turn / turns % 2 == 1 {
            NARROW
        } else {
            WIDE
        };
        self.lower(instance, (turn % turns) as usize, window, plan);
    }

    /// Runs a round of a batch, of this kind below `ROUNDS`, that begins behind the packing `from`.
    pub(crate) fn run(
        &mut self,
        instance: &Instance,
        from: &Incumbent,
        starts: &[Vec<u32>],
        plan: Plan,
        kind: u64,
    ) {
        self.begin(from, starts, plan.batch, kind);
        self.found.copy(from);
        match plan.goal {
            Goal::Height => self.make_low(instance, plan, kind),
            Goal::Weight { are_volumes } => self.leave_out(plan, kind, are_volumes),
        }
    }

    /// Makes one fill from an order, without regard to the last side.
    pub(crate) fn fill_once(
        &mut self,
        from: &Incumbent,
        order: &[u32],
        direction: usize,
        window: u32,
    ) {
        let style = Style {
            aim: Aim::Height,
            window,
            are_volumes: false,
        };
        self.swaps.begin(order, 0);
        self.found.copy(from);
        self.swap(direction, style, 1, 0);
    }
}
