//! What is answered for bins.
use proof_tree::CompactTokens;

/// What is answered for bins. The numbers are, of each box in order, its bin, counted from 0, and
/// its coordinates, such that the boxes of each bin are a packing.
///
/// `Least`: the least number of bins, with such numbers, and tokens that refute one bin less.
/// `Between`: a decision was past the budget; the least number lies above `refuted`, which the
/// tokens refute, and is at most `bins`, which the numbers show. `NoneFits`: this is the first box
/// that is longer than the container, and its first such dimension, both counted from 0.
#[derive(Drop)]
pub enum Bins {
    Least {
        bins: u32,
        numbers: Vec<u32>,
        tokens: CompactTokens,
    },
    Between {
        refuted: u32,
        tokens: CompactTokens,
        bins: u32,
        numbers: Vec<u32>,
    },
    NoneFits {
        box_no: u32,
        dim: u32,
    },
}
