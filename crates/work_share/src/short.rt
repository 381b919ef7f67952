//! A search tree with a place where memory is short.
ghost use Rattle.std.specs.Prelude.{◌≡◌, ◌++◌, ℕ, List, IfOk, IfSome, IsErr, MatchBool, Some};
ghost use Rattle.tree_terms.specs.Trees.{node_at, under_budget};
ghost use Rattle.tree_terms.specs.Paths.{node_view, outcome_at, IsReachable};
ghost use Rattle.work_share.specs.Outcomes.{plain_outcome};
ghost use Rattle.work_share.specs.Nodes.{plain_node};

use crate::tree::{Node, Tree};
use box_instances::NoMemory;
use proof_tree::Outcome;
use std::alloc::Global;
use std::marker::Model;

/// A search tree over another one, with the same nodes and outcomes, in which memory is short at
/// one node and below it. It is seen as the tree below and the path of that node.
///
/// A test or a caller sees with it what becomes of a search when a worker is short of memory.
#[derive(Drop)]
pub struct ShortTree<'a, T: Tree> {
    tree: &'a T,
    path: Vec<u32>,
}

impl<'a, T: Tree> Model for ShortTree<'a, T> {
    ghost use Rattle.work_share.specs.Short.{PlainShortTree};

    ghost Value = { PlainShortTree T };

    ghost view = { λ t. record { tree = t.tree.now; path = t.path.items } };
}

impl<'a, T: Tree> ShortTree<'a, T> {
    /// The tree in which memory is short at the node of this path and below it. The empty path is
    /// that of the root.
    pub fn new(tree: &'a T, path: Vec<u32>) -> ShortTree<'a, T>
        ensures { result ≡ record { tree = tree.entry.now; path = path.items } }
    {
        ShortTree { tree, path }
    }
}

impl<'a, T: Tree> Tree for ShortTree<'a, T> {
    ghost shape = { λ t. T.shape t.tree };

    ghost AreSame = { λ t u. T.AreSame t.tree u.tree × (t.path ≡ u.path) };

    /// What the tree below gives at the path under the cap, but `NoMemory` at each path that begins
    /// with the path of this tree.
    fn explore(&self, alloc: Global, path: &[u32], cap: u64) -> Result<Outcome, NoMemory>
        requires { IsReachable (T.shape self.now.tree) path.now }
        ensures outcome { IfOk result
            (λ r. IfSome (outcome_at (T.shape self.now.tree) path.now)
            (λ v. plain_outcome r ≡ under_budget cap v)) }
        ensures short { (rest : List ℕ) → path.now ≡ self.now.path ++ rest
            → IsErr result }
    {
        if path.starts_with(self.path.as_slice()) {
            return Err(NoMemory);
        }
        self.tree.explore(alloc, path, cap)
    }

    fn node(&self, alloc: Global, path: &[u32]) -> Result<Node, NoMemory>
        requires { IsReachable (T.shape self.now.tree) path.now }
        ensures { IfOk result (λ r. IfSome (node_at (Some (T.shape self.now.tree)) path.now)
            (λ node. plain_node r ≡ node_view node)) }
    {
        self.tree.node(alloc, path)
    }

    /// Whether the trees below were made from equal parts, and the paths are equal.
    fn same(&self, other: &Self) -> bool
        ensures { MatchBool result
            (T.AreSame self.now.tree other.now.tree × (self.now.path ≡ other.now.path))
            (¬ (T.AreSame self.now.tree other.now.tree × (self.now.path ≡ other.now.path))) }
    {
        self.path.as_slice() == other.path.as_slice() && self.tree.same(other.tree)
    }

    ghost same_shape = { λ t u same. T.same_shape t.tree u.tree same.0 };
}
