//! The choice tree.
ghost use Rattle.std.specs.Prelude.{◌≡◌, ◌+◌, ◌-◌, ◌*◌, ◌/◌, ◌^◌, ◌≤◌, IfOk, IfSome, MatchBool, Some, [], length};
ghost use Rattle.packing_terms.specs.Packing.{dims, box_count};
ghost use Rattle.packing_terms.specs.OuterRefutation.{no_choice};
ghost use Rattle.tree_terms.specs.Trees.{outcome, under_budget, node_at};
ghost use Rattle.tree_terms.specs.Paths.{choice_at, node_view, outcome_at, IsReachable};
ghost use Rattle.work_share.specs.Outcomes.{plain_outcome};
ghost use Rattle.work_share.specs.Nodes.{plain_node};
ghost use Rattle.class_search.specs.Right.{IsYesOrNo};
ghost use Rattle.choice_search.specs.Choices.{shape, same_trees};
ghost use Rattle.choice_search.specs.Rights.{IsRight, Decides};

use crate::node::{Chosen, meet, tell};
use crate::path::{come_to, explore_first, explore_second, tell_first, tell_second};
use crate::walk::walk;
use box_instances::{Instance, NoMemory};
use class_search::are_same_instances;
use proof_tree::Outcome;
use set_search::SetSearch;
use std::alloc::Global;
use std::marker::Model;
use work_share::{Node, Tree};

/// The search tree for a set of boxes of at least a value that fits: the boxes are taken in or left
/// out by falling volume, and the boxes that are in are decided by their class tree wherever one
/// more is taken in. It is seen as these parts, and stands for the tree of the definition.
#[derive(Drop)]
pub struct ChoiceTree<'a> {
    instance: &'a Instance,
    value: u64,
    scales: bool,
    order: Vec<u32>,
}

impl<'a> Model for ChoiceTree<'a> {
    ghost use Rattle.std.specs.Prelude.{◌≡◌};
    ghost use Rattle.packing_terms.specs.Rank.{ranked};
    ghost use Rattle.choice_search.specs.Choices.{PlainChoiceTree};

    ghost Value = { PlainChoiceTree };

    ghost view = { λ t. record { instance = t.instance.now; goal = t.value; scales = t.scales } };

    ghost invariant = { λ t. t.order.items ≡ ranked t.instance.now };
}

impl<'a> ChoiceTree<'a> {
    /// The tree for a value, with conservative scales or without.
    pub fn new(
        alloc: Global,
        instance: &'a Instance,
        value: u64,
        scales: bool,
    ) -> Result<ChoiceTree<'a>, NoMemory>
        ensures { IfOk result (λ t. t ≡ record {
          instance = instance.now;
          goal = value;
          scales = scales;
        }) }
    {
        let order = instance.rank_order(alloc)?;
        Ok(ChoiceTree {
            instance,
            value,
            scales,
            order,
        })
    }

    /// What the tree gives under a cap, by decisions of sets of the same instance with the same
    /// choice of scales: its outcome where that has a count of at most `cap`, and `Past` exactly
    /// where its count is greater. What these decisions keep serves the trees of other values too.
    pub fn explore_with(
        &self,
        alloc: Global,
        search: &mut SetSearch<'_>,
        cap: u64,
    ) -> Result<Outcome, NoMemory>
        requires { search.old ≡ record {
          instance = self.now.instance;
          scales = self.now.scales;
        } }
        ensures same { search.new ≡ search.old }
        ensures outcome { IfOk result
            (λ r. plain_outcome r ≡ under_budget cap (outcome (shape self.now))) }
    {
        // For the proof alone: states the limits of the instance.
        let _limits = self.instance.len();
        let root = Chosen {
            decided: 0,
            taken: Vec::new(alloc),
            numbers: Vec::new(alloc),
        };
        let order = self.order.as_slice();
        walk(
            alloc,
            search,
            self.instance,
            order,
            self.value,
            root,
            0,
            cap,
        )
    }

    // What the tree below the child at the end of a path gives under a cap.
    fn explore_child(
        &self,
        alloc: Global,
        search: &mut SetSearch<'_>,
        path: &[u32],
        cap: u64,
    ) -> Result<Outcome, NoMemory>
        requires search { search.old ≡ record {
          instance = self.now.instance;
          scales = self.now.scales;
        } }
        requires path { 1 ≤ length path.now }
        requires reached { IsReachable (shape self.now) path.now }
        ensures { IfOk result (λ r. IfSome (node_at (Some (shape self.now)) path.now)
            (λ node. plain_outcome r ≡ under_budget cap (outcome node))) }
    {
        // For the proof alone: states the limits of the instance.
        let _limits = self.instance.len();
        let last = path.len() - 1;
        let order = self.order.as_slice();
        let above = come_to(alloc, order, &path[..last])?;
        if path[last] == 0 {
            explore_first(alloc, search, self.instance, order, self.value, above, cap)
        } else {
            explore_second(alloc, search, self.instance, order, self.value, above, cap)
        }
    }

    // What the tree below the node at a path gives under a cap.
    pub(crate) fn explore_node(
        &self,
        alloc: Global,
        search: &mut SetSearch<'_>,
        path: &[u32],
        cap: u64,
    ) -> Result<Outcome, NoMemory>
        requires search { search.old ≡ record {
          instance = self.now.instance;
          scales = self.now.scales;
        } }
        requires reached { IsReachable (shape self.now) path.now }
        ensures { IfOk result (λ r. IfSome (node_at (Some (shape self.now)) path.now)
            (λ node. plain_outcome r ≡ under_budget cap (outcome node))) }
    {
        if path.is_empty() {
            self.explore_with(alloc, search, cap)
        } else {
            self.explore_child(alloc, search, path, cap)
        }
    }

    // What is reported of the root.
    fn tell_root(&self) -> Node
        ensures { plain_node result ≡ node_view (shape self.now) }
    {
        // For the proof alone: states the limits of the instance.
        let _limits = self.instance.len();
        let order = self.order.as_slice();
        let kind = meet(self.instance, order, self.value, 0, &[]);
        tell(self.instance, self.value, 0, &[], kind, 0)
    }

    // What is reported of the child at the end of a path.
    fn tell_child(
        &self,
        alloc: Global,
        search: &mut SetSearch<'_>,
        path: &[u32],
    ) -> Result<Node, NoMemory>
        requires search { search.old ≡ record {
          instance = self.now.instance;
          scales = self.now.scales;
        } }
        requires path { 1 ≤ length path.now }
        requires reached { IsReachable (shape self.now) path.now }
        ensures { IfOk result (λ r. IfSome (node_at (Some (shape self.now)) path.now)
            (λ node. plain_node r ≡ node_view node)) }
    {
        // For the proof alone: states the limits of the instance.
        let _limits = self.instance.len();
        let last = path.len() - 1;
        let order = self.order.as_slice();
        let above = come_to(alloc, order, &path[..last])?;
        if path[last] == 0 {
            tell_first(alloc, search, self.instance, order, self.value, above)
        } else {
            Ok(tell_second(self.instance, order, self.value, above))
        }
    }

    // What is reported of the node at a path.
    pub(crate) fn tell_node(
        &self,
        alloc: Global,
        search: &mut SetSearch<'_>,
        path: &[u32],
    ) -> Result<Node, NoMemory>
        requires search { search.old ≡ record {
          instance = self.now.instance;
          scales = self.now.scales;
        } }
        requires reached { IsReachable (shape self.now) path.now }
        ensures { IfOk result (λ r. IfSome (node_at (Some (shape self.now)) path.now)
            (λ node. plain_node r ≡ node_view node)) }
    {
        if path.is_empty() {
            Ok(self.tell_root())
        } else {
            self.tell_child(alloc, search, path)
        }
    }
}

impl<'a> Tree for ChoiceTree<'a> {
    ghost shape = { shape };

    ghost AreSame = { λ t u. t ≡ u };

    /// What the tree below the node at a path gives under a cap: its outcome where that has a count
    /// of at most `cap`, and `Past` exactly where its count is greater.
    ///
    /// A yes has the numbers and places of a set of boxes of at least the value that fits, and a no
    /// refutes the value for the sets that hold the boxes that are in at the path and miss those
    /// that are out. At the root a yes comes only where the instance reaches the value, and a no
    /// only where it doesn't; and with m the number of pairs in all dimensions, the count is within
    /// a cap of at least 3 to the m times 2^(n + 1) - 2.
    fn explore(&self, alloc: Global, path: &[u32], cap: u64) -> Result<Outcome, NoMemory>
        requires { IsReachable (shape self.now) path.now }
        ensures outcome { IfOk result (λ r. IfSome (outcome_at (shape self.now) path.now)
            (λ v. plain_outcome r ≡ under_budget cap v)) }
        ensures right { IfOk result (λ r. IsRight self.now
            (choice_at no_choice (shape self.now) path.now) (plain_outcome r)) }
        ensures decides { path.now ≡ [] → IfOk result (λ r. Decides self.now (plain_outcome r)) }
        ensures enough { path.now ≡ [] → 3 ^ (dims self.now.instance
            * box_count self.now.instance * (box_count self.now.instance - 1) / 2)
            * (2 ^ (box_count self.now.instance + 1) - 2) ≤ cap
            → IfOk result (λ r. IsYesOrNo (plain_outcome r)) }
    {
        // For the proof alone: states the limits of the instance.
        let _limits = self.instance.len();
        let mut search = SetSearch::new(alloc, self.instance, self.scales)?;
        self.explore_node(alloc, &mut search, path, cap)
    }

    /// Whether the node at a path is a split, with its token, its own count and its 2 children; or
    /// a leaf.
    fn node(&self, alloc: Global, path: &[u32]) -> Result<Node, NoMemory>
        requires { IsReachable (shape self.now) path.now }
        ensures { IfOk result (λ r. IfSome (node_at (Some (shape self.now)) path.now)
            (λ node. plain_node r ≡ node_view node)) }
    {
        let mut search = SetSearch::new(alloc, self.instance, self.scales)?;
        self.tell_node(alloc, &mut search, path)
    }

    /// Whether both trees have the same instance, the same value and the same choice of scales.
    fn same(&self, other: &Self) -> bool
        ensures { MatchBool result (self.now ≡ other.now) (¬ (self.now ≡ other.now)) }
    {
        self.value == other.value
            && self.scales == other.scales
            && are_same_instances(self.instance, other.instance)
    }

    ghost same_shape = { same_trees };
}
