//! What is answered for a value.
use proof_tree::CompactTokens;

/// What is answered for the greatest value of boxes that fit together. The numbers are, of each
/// taken box by rising number, that number, counted from 0, and its coordinates, which are a
/// packing of the taken boxes.
///
/// `Greatest`: the greatest value, with such numbers, and tokens that refute one more. `Between`: a
/// decision was past the budget; the greatest value is at least `placed`, which the numbers show,
/// and lies below `refuted`, which the tokens refute.
#[derive(Drop)]
pub enum Choice {
    Greatest {
        value: u64,
        numbers: Vec<u32>,
        tokens: CompactTokens,
    },
    Between {
        placed: u64,
        numbers: Vec<u32>,
        refuted: u64,
        tokens: CompactTokens,
    },
}
