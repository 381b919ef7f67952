//! The bin tree, explored by several workers.
ghost use Rattle.std.specs.Prelude.{◌≡◌, IfOk, IfSome, MatchBool, Some};
ghost use Rattle.tree_terms.specs.Trees.{outcome, under_budget, node_at};
ghost use Rattle.tree_terms.specs.Paths.{node_view, outcome_at, IsReachable};
ghost use Rattle.work_share.specs.Outcomes.{plain_outcome};
ghost use Rattle.work_share.specs.Nodes.{plain_node};
ghost use Rattle.bin_search.specs.Trees.{shape, same_trees};

use crate::BinTree;
use box_instances::NoMemory;
use proof_tree::Outcome;
use set_search::{SetSearch, TASK_SET_BUDGET};
use std::alloc::Global;
use std::marker::Model;
use std::sync::Wait;
use std::thread::Threads;
use work_share::{Gate, Node, Settings, Tree, solve_shared};

// The most boxes that several workers serve. With more boxes nearly every set of a bin comes again,
// and one cache answers it in less time than a lock on it takes: 40 boxes took 0.06 s by one worker
// and 0.9 s by four.
const MOST_SHARED_BOXES: u32 = 16;

// The bin tree, with the search from whose pool each task takes one. It is seen as that tree.
#[derive(Drop)]
pub(crate) struct PooledTree<'a, 'b> {
    tree: &'a BinTree<'a>,
    search: &'a SetSearch<'b>,
}

impl<'a, 'b> Model for PooledTree<'a, 'b> {
    ghost use Rattle.std.specs.Prelude.{◌≡◌};
    ghost use Rattle.bin_search.specs.Trees.{PlainBinTree};

    ghost Value = { PlainBinTree };

    ghost view = { λ t. t.tree.now };

    ghost invariant = { λ t. t.search.now ≡ record {
      instance = t.tree.now.instance;
      scales = t.tree.now.scales;
    } };
}

impl<'a, 'b> Tree for PooledTree<'a, 'b> {
    ghost shape = { shape };

    ghost AreSame = { λ t u. t ≡ u };

    fn explore(&self, alloc: Global, path: &[u32], cap: u64) -> Result<Outcome, NoMemory>
        requires { IsReachable (shape self.now) path.now }
        ensures { IfOk result (λ r. IfSome (outcome_at (shape self.now) path.now)
            (λ v. plain_outcome r ≡ under_budget cap v)) }
    {
        let mut search = self.search.take(alloc, TASK_SET_BUDGET)?;
        let outcome = self.tree.explore_node(alloc, &mut search, path, cap)?;
        self.search.give(search);
        Ok(outcome)
    }

    fn node(&self, alloc: Global, path: &[u32]) -> Result<Node, NoMemory>
        requires { IsReachable (shape self.now) path.now }
        ensures { IfOk result (λ r. IfSome (node_at (Some (shape self.now)) path.now)
            (λ node. plain_node r ≡ node_view node)) }
    {
        let mut search = self.search.take(alloc, TASK_SET_BUDGET)?;
        let node = self.tree.tell_node(alloc, &mut search, path)?;
        self.search.give(search);
        Ok(node)
    }

    fn same(&self, other: &Self) -> bool
        ensures { MatchBool result (self.now ≡ other.now) (¬ (self.now ≡ other.now)) }
    {
        self.tree.same(other.tree)
    }

    ghost same_shape = { same_trees };
}

impl<'a> BinTree<'a> {
    /// What the tree gives under the budget of the settings, by as many workers as these say: what
    /// `solve_shared` answers of it, for every number of workers and every gate.
    ///
    /// One worker decides sets with `search`, as `explore_with` does. More than one serve up to 16
    /// boxes: each task takes a search from the pool of `search` and gives it back, and these
    /// searches share what they decide, for the trees of other numbers of bins too. Trees of more
    /// boxes are explored by the calling thread alone.
    pub fn solve_with<R: Threads + Wait + Sync, G: Gate + Sync>(
        &self,
        rt: &R,
        alloc: Global,
        search: &mut SetSearch<'_>,
        settings: &Settings,
        gate: &G,
    ) -> Result<Outcome, NoMemory>
        requires { search.old ≡ record {
          instance = self.now.instance;
          scales = self.now.scales;
        } }
        ensures same { search.new ≡ search.old }
        ensures outcome { IfOk result
            (λ r. plain_outcome r ≡ under_budget settings.now.budget (outcome (shape self.now))) }
    {
        if settings.workers <= 1 || self.box_count() > MOST_SHARED_BOXES {
            return self.explore_with(alloc, search, settings.budget);
        }
        let pooled = PooledTree { tree: self, search };
        solve_shared(rt, alloc, &pooled, settings, gate)
    }
}
