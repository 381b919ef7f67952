//! The splits of unsettled pairs, and their children.
ghost use Rattle.std.specs.Prelude.{◌≡◌, ◌<◌};
ghost use Rattle.packing_terms.specs.Exclusions.{excludes};
ghost use Rattle.tree_terms.specs.InnerTree.{is_apart_somewhere, order_dim, apart_dim, chosen_split};
ghost use Rattle.proof_tree.specs.Plain.{plain_token};
ghost use Rattle.class_search.specs.Splits.{plain_split, added, child_numbered, with_all, IsSplitAmong, MaySplit};

use crate::pairs::{apart_dim, is_apart, order_dim};
use edge_state::EdgeState;
use proof_tree::Token;
use relation_table::Rel;

/// How a pair is split: into apart and joined, or (once it is apart) into one order and the other.
#[derive(Clone, Copy, Debug, PartialEq, Eq)]
pub(crate) enum Choice {
    Apart,
    Order,
}

/// A child of a split. The first is visited first.
#[derive(Clone, Copy, Debug, PartialEq, Eq)]
pub(crate) enum Child {
    First,
    Second,
}

impl Child {
    // The child of a number, counted from 0.
    pub fn numbered(number: u32) -> Child
        ensures { result ≡ child_numbered number }
    {
        match number {
            0 => Child::First,
            _ => Child::Second,
        }
    }
}

/// A split of a pair in a dimension. `u` is the lower number.
#[derive(Clone, Copy, Debug, PartialEq, Eq)]
pub(crate) struct Split {
    pub choice: Choice,
    pub dim: u32,
    pub u: u32,
    pub v: u32,
}

impl Split {
    // The split of an unsettled pair.
    pub fn of_pair(state: &EdgeState, u: u32, v: u32) -> Split
        requires rising { u < v }
        requires there { v < state.now.boxes }
        requires divided { MaySplit (excludes state.now.trail) state.now.dims (u, v) }
        ensures among { IsSplitAmong state.now.dims state.now.boxes result }
        ensures value { plain_split result
            ≡ chosen_split (u, v) (is_apart_somewhere (excludes state.now.trail) state.now.dims
            (u, v))
            (order_dim (excludes state.now.trail) state.now.dims (u, v))
            (apart_dim (excludes state.now.trail) state.now.dims (u, v)) }
    {
        if is_apart(state, u, v) {
            let Some(dim) = order_dim(state, u, v) else {
                unreachable!();
            };
            return Split {
                choice: Choice::Order,
                dim,
                u,
                v,
            };
        }
        let Some(dim) = apart_dim(state, u, v) else {
            unreachable!();
        };
        Split {
            choice: Choice::Apart,
            dim,
            u,
            v,
        }
    }

    // Its token.
    pub fn token(&self) -> Token
        requires { IsSplitAmong 4 128 self.now }
        ensures { plain_token result ≡ (plain_split self.now).token }
    {
        let (dim, u, v) = (self.dim + 1, self.u + 1, self.v + 1);
        match self.choice {
            Choice::Apart => Token::Apart { dim, u, v },
            Choice::Order => Token::Order { dim, u, v },
        }
    }

    // Adds what the child excludes.
    pub fn enter(&self, state: &mut EdgeState, child: Child)
        requires { IsSplitAmong state.old.dims state.old.boxes self.now }
        ensures { state.new ≡ record state.old {
          trail = with_all (added self.now child) state.old.trail;
        } }
    {
        match (self.choice, child) {
            (Choice::Apart, Child::First) => {
                state.exclude(self.dim, self.u, self.v, Rel::Overlap);
            }
            (Choice::Apart, Child::Second) => {
                state.exclude(self.dim, self.u, self.v, Rel::After);
                state.exclude(self.dim, self.u, self.v, Rel::Before);
            }
            (Choice::Order, Child::First) => {
                state.exclude(self.dim, self.u, self.v, Rel::After);
            }
            (Choice::Order, Child::Second) => {
                state.exclude(self.dim, self.u, self.v, Rel::Before);
            }
        }
    }
}
