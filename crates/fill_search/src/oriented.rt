//! An instance as it is seen with one of its dimensions upwards.

use crate::slots::{container_side, side};
use box_instances::{Instance, NoMemory};
use lenient_lists::{at, put, zeros};
use std::alloc::Global;

/// An instance with its dimensions in another order, of which the last one goes up.
#[derive(Drop)]
pub struct OrientedInstance {
    /// The number of dimensions.
    pub dims: u32,
    /// The number of boxes.
    pub count: u32,
    // The dimension of the instance at each place of the order.
    original: Vec<u32>,
    // The working sides of the container and of the boxes, box after box, in this order.
    container: Vec<u32>,
    sides: Vec<u32>,
}

// The dimensions in their order, or the last one first, but that one goes up and is last.
fn order_of(alloc: Global, dims: u32, up: u32, is_reversed: bool) -> Result<Vec<u32>, NoMemory> {
    let mut order = zeros(alloc, dims as usize)?;
    let mut filled = 0usize;
    for k in 0..dims {
        let dim = if is_reversed { dims - 1 - k } else { k };
        if dim != up {
            put(&mut order, filled, dim);
            filled = filled.saturating_add(1);
        }
    }
    put(&mut order, filled, up);
    Ok(order)
}

// The sides of the boxes in an order of the dimensions, box after box.
fn sides_of(alloc: Global, instance: &Instance, original: &[u32]) -> Result<Vec<u32>, NoMemory> {
    let (dims, count) = (instance.dims(), instance.len());
    let mut sides = zeros(alloc, (dims * count) as usize)?;
    for v in 0..count {
        for k in 0..dims {
            let index = (v as usize * dims as usize).saturating_add(k as usize);
            put(
                &mut sides,
                index,
                side(instance, v, at(original, k as usize)),
            );
        }
    }
    Ok(sides)
}

impl OrientedInstance {
    /// The instance with dimension `up` last, or `NoMemory`. The other dimensions stand in their
    /// order, or in the opposite one if `is_reversed`.
    pub fn new(
        alloc: Global,
        instance: &Instance,
        up: u32,
        is_reversed: bool,
    ) -> Result<OrientedInstance, NoMemory> {
        let dims = instance.dims();
        let original = order_of(alloc, dims, up, is_reversed)?;
        let mut container = zeros(alloc, dims as usize)?;
        for k in 0..dims as usize {
            put(
                &mut container,
                k,
                container_side(instance, at(&original, k)),
            );
        }
        Ok(OrientedInstance {
            dims,
            count: instance.len(),
            sides: sides_of(alloc, instance, &original)?,
            original,
            container,
        })
    }

    /// The side of a box at a place of the order of dimensions.
    #[inline]
    pub fn side(&self, box_no: u32, place: u32) -> u32 {
        at(
            &self.sides,
            box_no as usize * self.dims as usize + place as usize,
        )
    }

    /// The container's side at a place of the order of dimensions, or 0 past the last.
    #[inline]
    pub fn container(&self, place: u32) -> u32 {
        at(&self.container, place as usize)
    }

    /// Whether two boxes have the same sides.
    pub fn are_equal(&self, u: u32, v: u32) -> bool {
        for place in 0..self.dims {
            if self.side(u, place) != self.side(v, place) {
                return false;
            }
        }
        true
    }

    /// The volume of box `v`, at most `u128::MAX`.
    pub fn volume(&self, v: u32) -> u128 {
        let mut volume = 1u128;
        for place in 0..self.dims {
            volume = volume.saturating_mul(u128::from(self.side(v, place)));
        }
        volume
    }

    /// The volume of the container, at most `u128::MAX`.
    pub fn room(&self) -> u128 {
        let mut room = 1u128;
        for place in 0..self.dims {
            room = room.saturating_mul(u128::from(self.container(place)));
        }
        room
    }

    /// The container's side in the upward dimension.
    pub fn top(&self) -> u32 {
        self.container(self.dims.saturating_sub(1))
    }

    /// The volume of all boxes together, at most `u128::MAX`.
    pub fn volume_of_all(&self) -> u128 {
        let mut volume = 0u128;
        for v in 0..self.count {
            volume = volume.saturating_add(self.volume(v));
        }
        volume
    }

    /// Sets the container's side in a dimension of the instance to `side`.
    pub fn limit(&mut self, dim: u32, side: u32) {
        for k in 0..self.dims as usize {
            if at(&self.original, k) == dim {
                put(&mut self.container, k, side);
            }
        }
    }

    /// The coordinate of box `v` in a dimension of the instance. `places` are coordinates in the
    /// order of dimensions here, box after box.
    pub fn coordinate(&self, places: &[u32], v: u32, dim: u32) -> u32 {
        let dims = self.dims as usize;
        for k in 0..dims {
            if at(&self.original, k) == dim {
                return at(places, (v as usize).saturating_mul(dims).saturating_add(k));
            }
        }
        0
    }

    /// Writes `places`, coordinates in the order of dimensions here, into `into` in the order of
    /// the instance's dimensions, both box after box.
    pub fn turn_back(&self, places: &[u32], into: &mut [u32]) {
        let dims = self.dims as usize;
        for v in 0..self.count as usize {
            let first = v.saturating_mul(dims);
            for k in 0..dims {
                let to = first.saturating_add(at(&self.original, k) as usize);
                put(into, to, at(places, first.saturating_add(k)));
            }
        }
    }
}

/// The instance with each dimension upwards in turn, the last one first, or `NoMemory`.
pub fn turns_of(alloc: Global, instance: &Instance) -> Result<Vec<OrientedInstance>, NoMemory> {
    let mut turns = Vec::new(alloc);
    let dims = instance.dims();
    for k in 0..dims {
        let turned = OrientedInstance::new(alloc, instance, dims - 1 - k, false)?;
        let Ok(()) = turns.push(turned) else {
            return Err(NoMemory);
        };
    }
    Ok(turns)
}

/// Like `turns_of`, but in three dimensions and more each turn comes twice: with the other
/// dimensions in their order, and in the opposite one.
pub fn all_turns_of(alloc: Global, instance: &Instance) -> Result<Vec<OrientedInstance>, NoMemory> {
    let mut turns = Vec::new(alloc);
    let dims = instance.dims();
    let ways = if dims > 2 { 2 } else { 1 };
    for k in 0..dims {
        for way in 0..ways {
            let turned = OrientedInstance::new(alloc, instance, dims - 1 - k, way == 1)?;
            let Ok(()) = turns.push(turned) else {
                return Err(NoMemory);
            };
        }
    }
    Ok(turns)
}
