//! The generator of instances.
ghost use Rattle.std.specs.Prelude.{ℕ, ◌≡◌, ◌+◌, ◌*◌, ◌/◌, List, [], ◌∷◌, IfOk, OnOk};
ghost use Rattle.packing_terms.specs.Limits.{IsInstance};
ghost use Rattle.packing_terms.specs.Generator.{next_seed, seed, made_box, made_instance};
ghost use Rattle.box_instances.specs.Plain.{plain_box};

use crate::{BoxItem, Instance, NoMemory, Sides};
use std::alloc::Global;

// Each side of the container.
const MADE_CONTAINER_SIDE: u32 = 1000;

// The greatest number of boxes.
const MOST_MADE_BOXES: u32 = 64;

// The greatest side of a box.
const MOST_MADE_SIDE: u32 = 250;

// The draws of a number, from draw 1 on.
#[derive(Drop)]
struct Draws {
    seed: u32,
}

impl Draws {
    // The next draw: the next seed without its low 16 bits.
    fn next(&mut self) -> u32
        ensures seed { self.new.seed ≡ next_seed self.old.seed }
        ensures draw { result ≡ next_seed self.old.seed / 65536 }
    {
        let seed = (1_103_515_245 * u64::from(self.seed) + 12_345) % (1 << 31);
        self.seed = seed as u32;
        self.seed / 65_536
    }
}

// Two sides, held inline.
fn two_sides(alloc: Global, first: u32, second: u32) -> Sides
    ensures { result.items ≡ first ∷ second ∷ [] }
{
    let mut sides = Sides::new(alloc);
    sides.push_reserved(first);
    sides.push_reserved(second);
    sides
}

// The next box, by two draws.
fn next_box(alloc: Global, draws: &mut Draws) -> BoxItem
    ensures seed { draws.new.seed ≡ next_seed (next_seed draws.old.seed) }
    ensures item { (number v : ℕ) → draws.old.seed ≡ seed number (2 * v + 1)
        → plain_box result ≡ made_box number v }
{
    let first = 1 + draws.next() % MOST_MADE_SIDE;
    let second = 1 + draws.next() % MOST_MADE_SIDE;
    BoxItem {
        sides: two_sides(alloc, first, second),
        value: 1,
    }
}

/// The generated instance of a number: 1 to 64 boxes of value 1 with sides from 1 to 250, in the
/// container 1000 by 1000 with kerf 0. It is the same on every machine, and within the limits of a
/// written instance.
pub fn make(alloc: Global, number: u32) -> Result<Instance, NoMemory>
    ensures ok { IfOk result (λ i. i ≡ made_instance number) }
    ensures limits { OnOk result (IsInstance (made_instance number)) }
{
    let mut draws = Draws { seed: number };
    let count = 1 + draws.next() % MOST_MADE_BOXES;
    let mut boxes = Vec::new(alloc);
    for v in 0..count {
        let item = next_box(alloc, &mut draws);
        let Ok(()) = boxes.push(item) else {
            return Err(NoMemory);
        };
    }
    let container = two_sides(alloc, MADE_CONTAINER_SIDE, MADE_CONTAINER_SIDE);
    let kerf = two_sides(alloc, 0, 0);
    Ok(Instance::of_parts(container, kerf, boxes))
}
