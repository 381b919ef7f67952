//! The choice tree, explored by several workers.
ghost use Rattle.std.specs.Prelude.{◌≡◌, IfOk, IfSome, MatchBool, Some};
ghost use Rattle.tree_terms.specs.Trees.{outcome, under_budget, node_at};
ghost use Rattle.tree_terms.specs.Paths.{node_view, outcome_at, IsReachable};
ghost use Rattle.work_share.specs.Outcomes.{plain_outcome};
ghost use Rattle.work_share.specs.Nodes.{plain_node};
ghost use Rattle.choice_search.specs.Choices.{shape, same_trees};

use crate::ChoiceTree;
use box_instances::NoMemory;
use proof_tree::Outcome;
use set_search::{SetSearch, TASK_SET_BUDGET};
use std::alloc::Global;
use std::marker::Model;
use std::sync::Wait;
use std::thread::Threads;
use work_share::{Gate, Node, Settings, Tree, solve_shared};

// One worker explores a tree alone to the end if the budget of its level is at most this many
// branchings. Under so small a budget several workers decide many sets again. With 4 workers and a
// budget of 50,000 for a level, `knapsack` took 1.27 (36 boxes) and 1.20 (48 boxes) of one worker's
// wall time, and with 130,000 it took 0.61 and 0.76.
const SOLE_WORKER_BUDGET: u64 = 65_536;

// Under a larger budget one worker explores a tree up to this many branchings first. Most levels
// end within it, in less time than several workers take to start, and what it decided they find in
// the sets that all share. Without it, and with one lock for these sets, four workers took 1.3 to
// 1.7 times as long as one for knapsacks of 36 to 100 boxes with proposals and budgets of 10,000
// and 50,000.
const ALONE_BUDGET: u64 = 16_384;

// The choice tree, with the search from whose pool each task takes one. It is seen as that tree.
#[derive(Drop)]
pub(crate) struct PooledTree<'a, 'b> {
    tree: &'a ChoiceTree<'a>,
    search: &'a SetSearch<'b>,
}

impl<'a, 'b> Model for PooledTree<'a, 'b> {
    ghost use Rattle.std.specs.Prelude.{◌≡◌};
    ghost use Rattle.choice_search.specs.Choices.{PlainChoiceTree};

    ghost Value = { PlainChoiceTree };

    ghost view = { λ t. t.tree.now };

    ghost invariant = { λ t. t.search.now ≡ record {
      instance = t.tree.now.instance;
      scales = t.tree.now.scales;
    } };
}

impl<'a, 'b> Tree for PooledTree<'a, 'b> {
    ghost shape = { shape };

    ghost AreSame = { λ t u. t ≡ u };

    fn explore(&self, alloc: Global, path: &[u32], cap: u64) -> Result<Outcome, NoMemory>
        requires { IsReachable (shape self.now) path.now }
        ensures { IfOk result (λ r. IfSome (outcome_at (shape self.now) path.now)
            (λ v. plain_outcome r ≡ under_budget cap v)) }
    {
        let mut search = self.search.take(alloc, TASK_SET_BUDGET)?;
        let outcome = self.tree.explore_node(alloc, &mut search, path, cap)?;
        self.search.give(search);
        Ok(outcome)
    }

    fn node(&self, alloc: Global, path: &[u32]) -> Result<Node, NoMemory>
        requires { IsReachable (shape self.now) path.now }
        ensures { IfOk result (λ r. IfSome (node_at (Some (shape self.now)) path.now)
            (λ node. plain_node r ≡ node_view node)) }
    {
        let mut search = self.search.take(alloc, TASK_SET_BUDGET)?;
        let node = self.tree.tell_node(alloc, &mut search, path)?;
        self.search.give(search);
        Ok(node)
    }

    fn same(&self, other: &Self) -> bool
        ensures { MatchBool result (self.now ≡ other.now) (¬ (self.now ≡ other.now)) }
    {
        self.tree.same(other.tree)
    }

    ghost same_shape = { same_trees };
}

impl<'a, 'b> PooledTree<'a, 'b> {
    // What the tree gives under a cap, explored by the calling thread with a search of the pool.
    fn explore_alone(&self, alloc: Global, cap: u64) -> Result<Outcome, NoMemory>
        ensures { IfOk result
            (λ r. plain_outcome r ≡ under_budget cap (outcome (shape self.now))) }
    {
        let mut search = self.search.take(alloc, 0)?;
        let outcome = self.tree.explore_with(alloc, &mut search, cap)?;
        self.search.give(search);
        Ok(outcome)
    }
}

impl<'a> ChoiceTree<'a> {
    /// What the tree gives under the budget of the settings, by as many workers as these say: what
    /// `solve_shared` answers of it, for every number of workers and every gate.
    ///
    /// One worker decides sets with `search`, as `explore_with` does. Under a budget of at most
    /// 65,536 branchings the calling thread alone does so, for every number of workers. Under a
    /// larger one, each task of several workers takes a search from the pool of `search` and gives
    /// it back. These searches share what they decide, so a later task, also one of the trees of
    /// other values, finds the sets of earlier ones. A tree of at most 16,384 branchings is
    /// explored by the calling thread alone.
    pub fn solve_with<R: Threads + Wait + Sync, G: Gate + Sync>(
        &self,
        rt: &R,
        alloc: Global,
        search: &mut SetSearch<'_>,
        settings: &Settings,
        gate: &G,
    ) -> Result<Outcome, NoMemory>
        requires { search.old ≡ record {
          instance = self.now.instance;
          scales = self.now.scales;
        } }
        ensures same { search.new ≡ search.old }
        ensures outcome { IfOk result
            (λ r. plain_outcome r ≡ under_budget settings.now.budget (outcome (shape self.now))) }
    {
        if settings.workers <= 1 || settings.budget <= SOLE_WORKER_BUDGET {
            return self.explore_with(alloc, search, settings.budget);
        }
        let pooled = PooledTree { tree: self, search };
        let outcome = pooled.explore_alone(alloc, ALONE_BUDGET)?;
        if matches!(outcome, Outcome::Past) {
            return solve_shared(rt, alloc, &pooled, settings, gate);
        }
        Ok(outcome)
    }
}
