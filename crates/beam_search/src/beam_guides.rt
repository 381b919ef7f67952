//! What orders the nodes of a beam: the less the better.

use fill_search::OrientedInstance;

/// What a node is judged by: its boxes, their area and value, the lost area, on how many sides the
/// last box is flush, and the segments before it.
#[derive(Clone, Copy)]
pub struct Grown {
    pub count: u32,
    pub area: u64,
    pub value: u64,
    pub lost: u64,
    pub flat: u32,
    pub segments: u64,
}

/// A guide, of three kinds: two for packings of all boxes, one for boxes of a great value.
#[derive(Clone, Copy, Debug, PartialEq, Eq)]
pub enum Kind {
    LostByMean,
    LostByArea,
    Value,
}

/// The numbers that guides need.
#[derive(Clone, Copy)]
pub struct Guides {
    pub kind: Kind,
    /// No node loses more than this.
    pub most_lost: u64,
    // The area of all boxes and of the container, and what a unit of it may be worth, as a
    // fraction.
    total: u64,
    room: u64,
    worth: u64,
    unit: u64,
}

impl Guides {
    /// For packings of all boxes: no more is lost than the container has to spare.
    pub fn for_all(turned: &OrientedInstance, kind: Kind) -> Guides {
        let total = turned.volume_of_all().min(u128::from(u64::MAX)) as u64;
        let room = turned.room().min(u128::from(u64::MAX)) as u64;
        Guides {
            kind,
            most_lost: room.saturating_sub(total),
            total,
            room,
            worth: 0,
            unit: 1,
        }
    }

    /// For boxes of a great value, where a unit of the area may be worth this fraction.
    pub fn for_values(turned: &OrientedInstance, worth: u64, unit: u64) -> Guides {
        Guides {
            most_lost: u64::MAX,
            worth,
            unit,
            ..Guides::for_all(turned, Kind::Value)
        }
    }

    // What is lost and a fiftieth of the area, for each area that is laid, over the mean area of
    // the boxes; a tenth less for each side that is flush.
    fn lost_by_mean(&self, grown: &Grown) -> u128 {
        let area = u128::from(grown.area.max(1));
        let lost = u128::from(grown.lost)
            .saturating_mul(50)
            .saturating_add(area);
        let flush = u128::from(10 - grown.flat.min(9));
        let scaled = lost
            .saturating_mul(u128::from(self.total))
            .saturating_mul(u128::from(grown.count) * flush);
        scaled.saturating_mul(1 << 10) / area.saturating_mul(area).max(1)
    }

    // What is lost and a twentieth of all boxes, for each area that is laid; more for many
    // segments.
    fn lost_by_area(&self, grown: &Grown) -> u128 {
        let area = u128::from(grown.area.max(1));
        let lost = u128::from(grown.lost)
            .saturating_mul(20)
            .saturating_add(u128::from(self.total));
        let many = u128::from(grown.segments.saturating_add(50));
        lost.saturating_mul(many).saturating_mul(1 << 30) / area
    }

    // How far what the node may still be worth is below a number that none reaches: its value, and
    // what is left of the area at the fraction; a little more for flush sides, less for segments.
    fn missing_value(&self, grown: &Grown) -> u128 {
        let used = grown.area.saturating_add(grown.lost);
        let left = u128::from(self.room.saturating_sub(used));
        let unit = u128::from(self.unit);
        let worth = u128::from(self.worth);
        let bound = u128::from(grown.value)
            .saturating_mul(unit)
            .saturating_add(worth.saturating_mul(left));
        let thousandth = worth.saturating_mul(u128::from(self.room)) / 1000;
        let bound = bound
            .saturating_add(thousandth.saturating_mul(u128::from(grown.flat) * 2))
            .saturating_sub(thousandth.saturating_mul(u128::from(grown.segments)));
        u128::MAX / 2 - bound.min(u128::MAX / 2)
    }

    /// The guide of a node.
    pub fn guide(&self, grown: &Grown) -> u128 {
        match self.kind {
            Kind::LostByMean => self.lost_by_mean(grown),
            Kind::LostByArea => self.lost_by_area(grown),
            Kind::Value => self.missing_value(grown),
        }
    }
}
