//! The tokens of a refutation with families.
use arrayvec::ArrayVec;
use proof_tree::Token;

/// The boxes of one line of a family, by their numbers in the text.
pub type JoiningBoxes = ArrayVec<u32, 9>;

/// A token of a refutation with families: of an inner tree that may have leaves by families of
/// boxes side by side. A refutation is a flat list of tokens in prefix order.
///
/// `Plain`: a token of a plain refutation. `Family`: boxes that are apart two by two in dimension
/// `dim`, counted from 1. They begin a family or go on with the one that is begun, which is a leaf
/// once its boxes are together longer than the container.
#[derive(Drop)]
pub enum FamilyToken {
    Plain(Token),
    Family { dim: u32, boxes: JoiningBoxes },
}
