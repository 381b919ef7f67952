//! Sets of boxes as they are looked for in a memory.
ghost use Rattle.std.specs.Prelude.{◌≡◌, ◌<◌, ◌||◌, ◌==◌, ℕ};
ghost use Rattle.std.specs.List.{All};
ghost use Rattle.edge_state.specs.BitRows.{row_has};
ghost use Rattle.set_search.specs.Memories.{HasBoxes};

use crate::cache::SHARDS;
use edge_state::BitRow;

/// A set of boxes as bits, with a number that is the same for the same set.
#[derive(Clone, Copy)]
pub struct SetKey {
    pub boxes: BitRow<2>,
    hash: u64,
}

const FACTOR: u64 = 0x9E37_79B9_7F4A_7C15;

// What a box adds to the number of a set. The sum doesn't hang on the order of the boxes, so that a
// set with one box more is one addition away; two products, since one alone would give sets the
// same number whose boxes have the same sum.
fn bits_of(v: u32) -> u64 {
    let bits = (u64::from(v) + 1).wrapping_mul(FACTOR);
    (bits ^ (bits >> 32)).wrapping_mul(FACTOR)
}

impl SetKey {
    /// The key of some boxes.
    pub fn of(keep: &[u32]) -> SetKey
        requires { All (λ v. v < 128) keep.now }
        ensures { HasBoxes result.boxes keep.now }
    {
        let mut key = SetKey {
            boxes: BitRow::empty(),
            hash: 0,
        };
        for v in keep {
            key = key.with(*v);
        }
        key
    }

    /// The key of the boxes of a row.
    pub fn of_row(row: BitRow<2>) -> SetKey
        ensures { result.boxes ≡ row }
    {
        let mut hash: u64 = 0;
        let mut rest = row;
        for _ in 0..128 {
            let Some(v) = rest.first() else {
                break;
            };
            rest = rest.without(v);
            hash = hash.wrapping_add(bits_of(v));
        }
        SetKey { boxes: row, hash }
    }

    /// The key with one box more.
    pub fn with(self, v: u32) -> SetKey
        requires { v < 128 }
        ensures { (x : ℕ) → row_has result.boxes x ≡ row_has self.boxes x || x == v }
    {
        SetKey {
            boxes: self.boxes.with(v),
            hash: self.hash.wrapping_add(bits_of(v)),
        }
    }

    /// A number below 65,536: the highest bits, which hang on all boxes.
    pub fn place(&self) -> usize
        ensures { result < 65536 }
    {
        (self.hash >> 48) as usize
    }

    // The number of the shard that the set belongs to: the bits below those of its place.
    pub(crate) fn shard(&self) -> usize {
        (self.hash >> 43) as usize % SHARDS
    }
}
