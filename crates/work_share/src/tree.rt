//! The search trees that are explored.
ghost use Rattle.std.specs.Prelude.{◌≡◌, IfOk, IfSome, MatchBool, Some};
ghost use Rattle.tree_terms.specs.Trees.{SearchTree, under_budget, node_at};
ghost use Rattle.tree_terms.specs.Paths.{node_view, outcome_at, IsReachable};
ghost use Rattle.work_share.specs.Outcomes.{plain_outcome};
ghost use Rattle.work_share.specs.Nodes.{plain_node};

use box_instances::NoMemory;
use proof_tree::{Outcome, Token};
use std::alloc::Global;

/// A node of a search tree: a leaf, or a split with its token, its own count and the number of its
/// children.
///
/// A split whose own count is greater than 10,000,000 is reported as a leaf, because no budget
/// reaches its children.
#[derive(Drop)]
pub enum Node {
    Leaf,
    Split {
        token: Token,
        own: u64,
        children: u32,
    },
}

/// A finite search tree whose nodes are settled, refuted or split, each with its own count. A node
/// is named by its path: the number of the child that is taken at each split, from the root on,
/// counted from 0.
pub trait Tree {
    /// The tree of the definitions that this one stands for.
    ghost shape: { Self → SearchTree };

    /// The two were made from equal parts.
    ghost AreSame: { Self → Self → Type 0 };

    /// What the tree below the node at a path gives under a cap: its outcome where that has a count
    /// of at most `cap`, and `Past` exactly where its count is greater.
    ///
    /// The path names a node, and no node above it has an own count greater than 10,000,000.
    fn explore(&self, alloc: Global, path: &[u32], cap: u64) -> Result<Outcome, NoMemory>
        requires { IsReachable (shape self.now) path.now }
        ensures { IfOk result (λ r. IfSome (outcome_at (shape self.now) path.now)
            (λ v. plain_outcome r ≡ under_budget cap v)) };

    /// Whether the node at a path is a split, with its token, its own count and the number of its
    /// children, or a leaf: it is settled, refuted, or its own count is greater than 10,000,000.
    /// The path is as for `explore`.
    fn node(&self, alloc: Global, path: &[u32]) -> Result<Node, NoMemory>
        requires { IsReachable (shape self.now) path.now }
        ensures { IfOk result (λ r. IfSome (node_at (Some (shape self.now)) path.now)
            (λ node. plain_node r ≡ node_view node)) };

    /// Whether both trees were made from equal parts.
    fn same(&self, other: &Self) -> bool
        ensures { MatchBool result (AreSame self.now other.now) (¬ AreSame self.now other.now) };

    /// Trees made from equal parts have the same nodes and outcomes.
    ghost same_shape: { (t u : Self) → AreSame t u → shape t ≡ shape u };
}
