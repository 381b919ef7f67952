//! Packings by beams of growing width, in two dimensions.

use crate::beam::Beam;
use crate::beam_guides::{Guides, Kind};
use box_instances::{Instance, NoMemory};
use fill_search::{
    Incumbent, OrientedInstance, clear, copy_into, order_by_value, side, size, turns_of, volumes,
};
use lenient_lists::{at, zeros};
use std::alloc::Global;

// The width of the first beams. Now and then a narrow beam finds what wider ones miss.
const FIRST_WIDTH: usize = 4;

// The most doublings of a width, and the most beams that each make a packing lower.
const MOST_DOUBLINGS: u32 = 8;

const MOST_STEPS: u32 = 128;

// What a unit of the area is worth in the guides of beams for values, in hundredths of what it is
// worth in a good choice. Over 14 texts of 20 to 100 boxes no value is less than with 100, 90 and
// 110, and those of 40, 80 and 100 boxes are 0.2, 0.2 and 1.0 % more.
const UNIT_WORTHS: [u64; 4] = [100, 97, 105, 90];

/// The memory of beams in both directions.
#[derive(Drop)]
pub struct Beams {
    turns: Vec<OrientedInstance>,
    beam: Beam,
    widest: usize,
    volumes: Vec<u64>,
    places: Vec<u32>,
    lies: Vec<u32>,
}

impl Beams {
    /// Memory for beams of up to `widest` nodes in a level, over boxes of these values, or
    /// `NoMemory`.
    pub fn new(
        alloc: Global,
        instance: &Instance,
        values: Vec<u64>,
        widest: usize,
    ) -> Result<Beams, NoMemory> {
        let count = instance.len() as usize;
        Ok(Beams {
            turns: turns_of(alloc, instance)?,
            beam: Beam::new(alloc, widest, values)?,
            widest,
            volumes: volumes(alloc, instance)?,
            places: zeros(alloc, 2 * count)?,
            lies: zeros(alloc, count)?,
        })
    }

    // The boxes by falling value, then by a kind of sizes: those with the same sides stand by
    // value.
    fn order(
        &mut self,
        alloc: Global,
        instance: &Instance,
        direction: usize,
        kind: u32,
    ) -> Result<(), NoMemory> {
        if direction >= self.turns.len() {
            return Ok(());
        }
        let turned = &self.turns[direction];
        let mut order = order_by_value(alloc, instance)?;
        if order
            .sort_by_key(|v| u128::MAX - size(turned, kind, *v))
            .is_err()
        {
            return Err(NoMemory);
        }
        copy_into(&order, &mut self.beam.order);
        Ok(())
    }

    // Runs a beam. It answers what its boxes are worth, if that is more than `most`.
    fn run(
        &mut self,
        direction: usize,
        guides: &Guides,
        most: u64,
    ) -> Result<Option<u64>, NoMemory> {
        if direction >= self.turns.len() {
            return Ok(None);
        }
        clear(&mut self.lies);
        let turned = &self.turns[direction];
        let worth = self
            .beam
            .run(turned, guides, most, &mut self.places, &mut self.lies)?;
        Ok(if worth > most { Some(worth) } else { None })
    }

    // Takes the places of the last beam for the best ones.
    fn keep(&self, direction: usize, cost: u64, best: &mut Incumbent) {
        if direction < self.turns.len() {
            self.turns[direction].turn_back(&self.places, &mut best.places);
            copy_into(&self.lies, &mut best.lies);
            best.cost = cost;
        }
    }

    // How high the boxes at some places reach in the last dimension.
    fn reach(&self, instance: &Instance, places: &[u32]) -> u64 {
        let mut reach = 0u64;
        for v in 0..instance.len() {
            let start = u64::from(at(places, 2 * v as usize + 1));
            reach = reach.max(start.saturating_add(u64::from(side(instance, v, 1))));
        }
        reach
    }

    // Whether a beam packs all boxes, which are worth `total`, below a height.
    fn lower_to(
        &mut self,
        instance: &Instance,
        direction: usize,
        kind: Kind,
        height: u64,
        best: &mut Incumbent,
    ) -> Result<bool, NoMemory> {
        if direction >= self.turns.len() {
            return Ok(false);
        }
        let top = height.min(u64::from(u32::MAX)) as u32;
        self.turns[direction].limit(1, top);
        let mut total = 0u64;
        for volume in self.volumes.iter() {
            total = total.saturating_add(*volume);
        }
        let guides = Guides::for_all(&self.turns[direction], kind);
        if self
            .run(direction, &guides, total.saturating_sub(1))?
            .is_none()
        {
            return Ok(false);
        }
        self.keep(direction, height, best);
        best.cost = self.reach(instance, &best.places);
        Ok(true)
    }

    // Beams of one width and one guide: halfway down to `enough` as long as that is far and they
    // find a packing, and then right below the best height.
    fn lower_by(
        &mut self,
        instance: &Instance,
        direction: usize,
        kind: Kind,
        enough: u64,
        best: &mut Incumbent,
    ) -> Result<(), NoMemory> {
        let mut is_far = true;
        for _ in 0..MOST_STEPS {
            let gap = best.cost.saturating_sub(enough);
            if gap == 0 {
                return Ok(());
            }
            is_far = is_far && gap > 4;
            let height = best.cost.saturating_sub(if is_far { gap / 2 } else { 1 });
            let is_lower = self.lower_to(instance, direction, kind, height, best)?;
            if !is_lower && !is_far {
                return Ok(());
            }
            is_far = is_far && is_lower;
        }
        Ok(())
    }

    /// Makes the packing `best` of all boxes lower, until its height is no more than `enough`, or
    /// answers `NoMemory`. The boxes are worth their volumes: a beam has packed all boxes once it
    /// is worth the sum of these.
    pub fn lower(
        &mut self,
        alloc: Global,
        instance: &Instance,
        enough: u64,
        best: &mut Incumbent,
    ) -> Result<(), NoMemory> {
        let mut width = FIRST_WIDTH;
        for _ in 0..MOST_DOUBLINGS {
            if width > self.widest {
                return Ok(());
            }
            self.beam.width = width;
            for direction in 0..2 {
                self.order(alloc, instance, direction, 0)?;
                self.lower_by(instance, direction, Kind::LostByMean, enough, best)?;
                self.lower_by(instance, direction, Kind::LostByArea, enough, best)?;
            }
            width = width.saturating_mul(2);
        }
        Ok(())
    }

    // A beam for a great value, where a unit of the area is worth this fraction.
    fn add_by(
        &mut self,
        direction: usize,
        worth: u64,
        unit: u64,
        total: u64,
        best: &mut Incumbent,
    ) -> Result<(), NoMemory> {
        if direction >= self.turns.len() {
            return Ok(());
        }
        let guides = Guides::for_values(&self.turns[direction], worth, unit);
        let most = total.saturating_sub(best.cost);
        if let Some(worth) = self.run(direction, &guides, most)? {
            self.keep(direction, total.saturating_sub(worth), best);
        }
        Ok(())
    }

    /// Replaces `best` by a choice of boxes of greater value if a beam finds one, or answers
    /// `NoMemory`. The cost of `best` is the value that it leaves out. `worth / unit` is about the
    /// value of a unit of area in a good choice, and `total` the value of all boxes.
    pub fn add_value(
        &mut self,
        alloc: Global,
        instance: &Instance,
        worth: u64,
        unit: u64,
        total: u64,
        best: &mut Incumbent,
    ) -> Result<(), NoMemory> {
        let mut width = FIRST_WIDTH;
        for _ in 0..MOST_DOUBLINGS {
            if width > self.widest || best.cost == 0 {
                return Ok(());
            }
            self.beam.width = width;
            for direction in 0..2 {
                self.order(alloc, instance, direction, 2)?;
                for part in UNIT_WORTHS {
                    let worth = worth.saturating_mul(part);
                    self.add_by(direction, worth, unit.saturating_mul(100), total, best)?;
                }
            }
            width = width.saturating_mul(2);
        }
        Ok(())
    }
}
