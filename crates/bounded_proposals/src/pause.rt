//! What a search may use up, and where it pauses.

/// Where a search pauses.
///
/// `Whole`: the tree is whole. `Spent`: the steps or the tokens are used up. `Reached`: the boxes
/// that are in are worth the goal, so their node is closed only if they don't fit. `Grown`: a box
/// went in, and no leaf closes the node.
#[derive(Clone, Copy, Debug, PartialEq, Eq)]
pub enum Pause {
    Whole,
    Spent,
    Reached,
    Grown,
}

/// What a search may use up in all: steps, one for each node and each tuple that is tried at it,
/// and tokens of its tree.
#[derive(Clone, Copy)]
pub struct TreeLimits {
    pub steps: u64,
    pub tokens: u64,
}
