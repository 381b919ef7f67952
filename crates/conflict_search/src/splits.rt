//! Splits of pairs.

use crate::table::Edge;
use lenient_lists::at;
use proof_tree::Token;

/// How a pair is split: into apart and joined, or (once it is apart) into one order and the other.
#[derive(Clone, Copy, Debug, PartialEq, Eq)]
pub enum Choice {
    Apart,
    Order,
}

/// A child of a split, in the order of the tokens.
#[derive(Clone, Copy, Debug, PartialEq, Eq)]
pub enum Child {
    First,
    Second,
}

impl Child {
    /// The other child.
    pub fn other(self) -> Child {
        match self {
            Child::First => Child::Second,
            Child::Second => Child::First,
        }
    }
}

/// A split of a pair in a dimension. The first box is the one with the lower number in the
/// instance.
#[derive(Clone, Copy, Debug, PartialEq, Eq)]
pub struct Split {
    pub choice: Choice,
    pub edge: Edge,
}

impl Split {
    /// Its token. `rank` has the boxes by rank.
    pub fn token(self, rank: &[u32]) -> Token {
        let dim = self.edge.dim.saturating_add(1);
        let u = at(rank, self.edge.u as usize).saturating_add(1);
        let v = at(rank, self.edge.v as usize).saturating_add(1);
        match self.choice {
            Choice::Apart => Token::Apart { dim, u, v },
            Choice::Order => Token::Order { dim, u, v },
        }
    }
}
