//! Sets of splits on the way down, each named by its depth.

// From this depth on the splits share the last bit, which is never taken out: so deep a way is gone
// back one by one.
const DEEP: usize = 255;

/// A set of splits of the way down.
#[derive(Clone, Copy)]
pub struct DecisionSet {
    words: [u64; 4],
}

// The bit of a depth in its word.
#[inline]
fn bit_of(depth: usize) -> u64 {
    1u64 << (depth % 64)
}

impl DecisionSet {
    /// No split.
    pub const NONE: DecisionSet = DecisionSet { words: [0; 4] };

    /// Adds the split of a depth.
    #[inline]
    pub fn add(&mut self, depth: usize) {
        let known = depth.min(DEEP);
        self.words[known / 64] |= bit_of(known);
    }

    /// Takes out the split of a depth.
    #[inline]
    pub fn remove(&mut self, depth: usize) {
        if depth < DEEP {
            self.words[depth / 64] &= !bit_of(depth);
        }
    }

    /// Whether the split of a depth is in the set. Very deep ones always are.
    #[inline]
    pub fn has(&self, depth: usize) -> bool {
        depth >= DEEP || self.words[depth / 64] & bit_of(depth) != 0
    }

    /// Adds all splits of another set.
    #[inline]
    pub fn join(&mut self, other: &DecisionSet) {
        for k in 0..4 {
            self.words[k] |= other.words[k];
        }
    }
}
