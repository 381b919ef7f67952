//! The bin tree.
ghost use Rattle.std.specs.Prelude.{◌≡◌, ◌+◌, ◌-◌, ◌*◌, ◌/◌, ◌^◌, ◌≤◌, IfOk, IfSome, MatchBool, Some, [], length};
ghost use Rattle.packing_terms.specs.Packing.{dims, box_count};
ghost use Rattle.packing_terms.specs.Scales.{SidesFit};
ghost use Rattle.packing_terms.specs.Sums.{sum_below};
ghost use Rattle.tree_terms.specs.Trees.{outcome, under_budget, node_at};
ghost use Rattle.tree_terms.specs.Paths.{bins_at, node_view, outcome_at, IsReachable};
ghost use Rattle.work_share.specs.Outcomes.{plain_outcome};
ghost use Rattle.work_share.specs.Nodes.{plain_node};
ghost use Rattle.class_search.specs.Right.{IsYesOrNo};
ghost use Rattle.bin_search.specs.Lists.{lists_of};
ghost use Rattle.bin_search.specs.Paths.{IsChildStep};
ghost use Rattle.bin_search.specs.Trees.{shape, same_trees};
ghost use Rattle.bin_search.specs.Rights.{IsRight, Decides};

use crate::node::Placed;
use crate::path::{Step, enter, explore_step, last_step, tell, tell_step};
use crate::root::scales_token;
use box_instances::{Instance, NoMemory};
use class_search::are_same_instances;
use proof_tree::{CompactTokens, Outcome};
use set_search::SetSearch;
use std::alloc::Global;
use std::marker::Model;
use work_share::{Node, Tree};

/// The search tree for a packing in a given number of bins: the boxes get bins by falling volume,
/// first each used bin and then a new one, and the changed bin is decided by its class tree. It is
/// seen as these parts, and stands for the tree of the definition.
#[derive(Drop)]
pub struct BinTree<'a> {
    instance: &'a Instance,
    bins: u32,
    scales: bool,
    order: Vec<u32>,
}

impl<'a> Model for BinTree<'a> {
    ghost use Rattle.bin_search.specs.Trees.{PlainBinTree, IsReady};

    ghost Value = { PlainBinTree };

    ghost view = { λ t. record { instance = t.instance.now; bins = t.bins; scales = t.scales } };

    ghost invariant = { λ t. IsReady
        (record { instance = t.instance.now; bins = t.bins; scales = t.scales }) t.order.items };
}

impl<'a> BinTree<'a> {
    // The number of boxes of the instance.
    pub(crate) fn box_count(&self) -> u32 {
        self.instance.len()
    }

    /// The tree for `bins` bins, with conservative scales or without. No box is longer than the
    /// container, and there are no more bins than boxes.
    pub fn new(
        alloc: Global,
        instance: &'a Instance,
        bins: u32,
        scales: bool,
    ) -> Result<BinTree<'a>, NoMemory>
        requires fit { SidesFit instance.now }
        requires few { bins ≤ box_count instance.now }
        ensures { IfOk result (λ t. t ≡ record {
          instance = instance.now;
          bins = bins;
          scales = scales;
        }) }
    {
        let order = instance.rank_order(alloc)?;
        Ok(BinTree {
            instance,
            bins,
            scales,
            order,
        })
    }

    /// What the tree gives under a cap, by decisions of sets of the same instance with the same
    /// choice of scales: its outcome where that has a count of at most `cap`, and `Past` exactly
    /// where its count is greater. What these decisions keep serves the trees of other numbers of
    /// bins too.
    pub fn explore_with(
        &self,
        alloc: Global,
        search: &mut SetSearch<'_>,
        cap: u64,
    ) -> Result<Outcome, NoMemory>
        requires { search.old ≡ record {
          instance = self.now.instance;
          scales = self.now.scales;
        } }
        ensures same { search.new ≡ search.old }
        ensures outcome { IfOk result
            (λ r. plain_outcome r ≡ under_budget cap (outcome (shape self.now))) }
    {
        // For the proof alone: states the limits of the instance.
        let _limits = self.instance.len();
        if let Some(token) = scales_token(alloc, self.instance, self.bins, self.scales) {
            let tokens = CompactTokens::of_one(alloc, token)?;
            return Ok(Outcome::No { tokens, count: 0 });
        }
        let root = Placed {
            placed: 0,
            bins: Vec::new(alloc),
            answers: Vec::new(alloc),
            visited: 0,
        };
        let order = self.order.as_slice();
        enter(alloc, search, self.instance, order, self.bins, root, 0, cap)
    }

    // The last step of a path that isn't empty.
    fn step_to(&self, alloc: Global, path: &[u32]) -> Result<Step, NoMemory>
        requires path { 1 ≤ length path.now }
        requires reached { IsReachable (shape self.now) path.now }
        ensures { IfOk result (λ step. IsChildStep self.now step.placed (lists_of step.bins.items)
            step.child (node_at (Some (shape self.now)) path.now)) }
    {
        // For the proof alone: states the limits of the instance.
        let _limits = self.instance.len();
        last_step(alloc, self.order.as_slice(), path)
    }

    // What the tree below the child at the end of a path gives under a cap.
    fn explore_child(
        &self,
        alloc: Global,
        search: &mut SetSearch<'_>,
        path: &[u32],
        cap: u64,
    ) -> Result<Outcome, NoMemory>
        requires search { search.old ≡ record {
          instance = self.now.instance;
          scales = self.now.scales;
        } }
        requires path { 1 ≤ length path.now }
        requires reached { IsReachable (shape self.now) path.now }
        ensures { IfOk result (λ r. IfSome (node_at (Some (shape self.now)) path.now)
            (λ node. plain_outcome r ≡ under_budget cap (outcome node))) }
    {
        // For the proof alone: states the limits of the instance.
        let _limits = self.instance.len();
        let step = self.step_to(alloc, path)?;
        let order = self.order.as_slice();
        explore_step(alloc, search, self.instance, order, self.bins, step, cap)
    }

    // What the tree below the node at a path gives under a cap.
    pub(crate) fn explore_node(
        &self,
        alloc: Global,
        search: &mut SetSearch<'_>,
        path: &[u32],
        cap: u64,
    ) -> Result<Outcome, NoMemory>
        requires search { search.old ≡ record {
          instance = self.now.instance;
          scales = self.now.scales;
        } }
        requires reached { IsReachable (shape self.now) path.now }
        ensures { IfOk result (λ r. IfSome (node_at (Some (shape self.now)) path.now)
            (λ node. plain_outcome r ≡ under_budget cap (outcome node))) }
    {
        if path.is_empty() {
            self.explore_with(alloc, search, cap)
        } else {
            self.explore_child(alloc, search, path, cap)
        }
    }

    // What is reported of the root.
    fn tell_root(&self, alloc: Global) -> Node
        ensures { plain_node result ≡ node_view (shape self.now) }
    {
        // For the proof alone: states the limits of the instance.
        let _limits = self.instance.len();
        match scales_token(alloc, self.instance, self.bins, self.scales) {
            Some(_token) => Node::Leaf,
            None => {
                let order = self.order.as_slice();
                tell(self.instance, order, self.bins, 0, &[], 0)
            }
        }
    }

    // What is reported of the child at the end of a path.
    fn tell_child(
        &self,
        alloc: Global,
        search: &mut SetSearch<'_>,
        path: &[u32],
    ) -> Result<Node, NoMemory>
        requires search { search.old ≡ record {
          instance = self.now.instance;
          scales = self.now.scales;
        } }
        requires path { 1 ≤ length path.now }
        requires reached { IsReachable (shape self.now) path.now }
        ensures { IfOk result (λ r. IfSome (node_at (Some (shape self.now)) path.now)
            (λ node. plain_node r ≡ node_view node)) }
    {
        // For the proof alone: states the limits of the instance.
        let _limits = self.instance.len();
        let step = self.step_to(alloc, path)?;
        let order = self.order.as_slice();
        tell_step(alloc, search, self.instance, order, self.bins, step)
    }

    // What is reported of the node at a path.
    pub(crate) fn tell_node(
        &self,
        alloc: Global,
        search: &mut SetSearch<'_>,
        path: &[u32],
    ) -> Result<Node, NoMemory>
        requires search { search.old ≡ record {
          instance = self.now.instance;
          scales = self.now.scales;
        } }
        requires reached { IsReachable (shape self.now) path.now }
        ensures { IfOk result (λ r. IfSome (node_at (Some (shape self.now)) path.now)
            (λ node. plain_node r ≡ node_view node)) }
    {
        if path.is_empty() {
            Ok(self.tell_root(alloc))
        } else {
            self.tell_child(alloc, search, path)
        }
    }
}

impl<'a> Tree for BinTree<'a> {
    ghost shape = { shape };

    ghost AreSame = { λ t u. t ≡ u };

    /// What the tree below the node at a path gives under a cap: its outcome where that has a count
    /// of at most `cap`, and `Past` exactly where its count is greater.
    ///
    /// A yes has of each box its bin and its place, which are a packing in the bins, and a no
    /// refutes the packings in which two of the boxes placed at the path share a bin exactly where
    /// they share one there. At the root a yes comes only where the instance fits in the bins, and
    /// a no only where it doesn't; and with m the number of pairs in all dimensions, the count is
    /// within a cap of at least 3 to the m times k + k^2 + .. + k^n for k bins.
    fn explore(&self, alloc: Global, path: &[u32], cap: u64) -> Result<Outcome, NoMemory>
        requires { IsReachable (shape self.now) path.now }
        ensures outcome { IfOk result (λ r. IfSome (outcome_at (shape self.now) path.now)
            (λ v. plain_outcome r ≡ under_budget cap v)) }
        ensures right { IfOk result (λ r. IsRight self.now
            (bins_at self.now.bins [] (shape self.now) path.now) (plain_outcome r)) }
        ensures decides { path.now ≡ [] → IfOk result (λ r. Decides self.now (plain_outcome r)) }
        ensures enough { path.now ≡ [] → 3 ^ (dims self.now.instance
            * box_count self.now.instance * (box_count self.now.instance - 1) / 2)
            * sum_below (box_count self.now.instance) (λ j. self.now.bins ^ (j + 1)) ≤ cap
            → IfOk result (λ r. IsYesOrNo (plain_outcome r)) }
    {
        // For the proof alone: states the limits of the instance.
        let _limits = self.instance.len();
        let mut search = SetSearch::new(alloc, self.instance, self.scales)?;
        self.explore_node(alloc, &mut search, path, cap)
    }

    /// Whether the node at a path is a split, with its token, its own count and the number of its
    /// children; or a leaf.
    fn node(&self, alloc: Global, path: &[u32]) -> Result<Node, NoMemory>
        requires { IsReachable (shape self.now) path.now }
        ensures { IfOk result (λ r. IfSome (node_at (Some (shape self.now)) path.now)
            (λ node. plain_node r ≡ node_view node)) }
    {
        let mut search = SetSearch::new(alloc, self.instance, self.scales)?;
        self.tell_node(alloc, &mut search, path)
    }

    /// Whether both trees have the same instance, as many bins and the same choice of scales.
    fn same(&self, other: &Self) -> bool
        ensures { MatchBool result (self.now ≡ other.now) (¬ (self.now ≡ other.now)) }
    {
        self.bins == other.bins
            && self.scales == other.scales
            && are_same_instances(self.instance, other.instance)
    }

    ghost same_shape = { same_trees };
}
