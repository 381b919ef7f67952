//! The tokens of a bounded refutation.
use conservative_scales::ScaleTuple;
use proof_tree::Token;

/// A token of a bounded refutation: of a choice tree that may have priced leaves and exchanges. A
/// refutation is a flat list of tokens in prefix order.
///
/// `Plain`: a token of a plain refutation for a value. `PricedOut`: a leaf, the boxes that are in
/// and the undecided ones that fit beside them don't reach the goal by a surrogate bound.
/// `value_weight` is the weight of a unit of value, `share_weight` that of a billionth of the
/// container, and `tuple` has the scale functions that measure the shares, one for each dimension.
/// `Exchange`: a leaf, box `left_no` of the text is out and box `taken_no` is in, though the first
/// could take the place of the second.
#[derive(Drop)]
pub enum BoundedToken {
    Plain(Token),
    PricedOut {
        value_weight: u32,
        share_weight: u32,
        tuple: ScaleTuple,
    },
    Exchange {
        left_no: u32,
        taken_no: u32,
    },
}
