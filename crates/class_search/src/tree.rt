//! The class tree.
ghost use Rattle.std.specs.Prelude.{◌≡◌, ◌+◌, ◌-◌, ◌*◌, ◌/◌, ◌^◌, ◌≤◌, IfOk, IfSome, IsSome, MatchBool, Some, []};
ghost use Rattle.packing_terms.specs.Packing.{dims, box_count};
ghost use Rattle.packing_terms.specs.Exclusions.{AreAtEdges};
ghost use Rattle.tree_terms.specs.Trees.{outcome, under_budget, node_at};
ghost use Rattle.tree_terms.specs.Paths.{exclusions_at, node_view, outcome_at, IsReachable};
ghost use Rattle.work_share.specs.Outcomes.{plain_outcome};
ghost use Rattle.work_share.specs.Nodes.{plain_node};
ghost use Rattle.class_search.specs.Splits.{with_all};
ghost use Rattle.class_search.specs.Right.{IsRight, Decides, IsYesOrNo};
ghost use Rattle.class_search.specs.Rooted.{IsArrival};
ghost use Rattle.class_search.specs.Tree.{shape, same_trees};
ghost use Rattle.class_search.specs.Kept.{IsKeptAt, IsExplored};

use crate::exploring::explored;
use crate::kept::{Explored, Kept, PausedWalk, Refuted};
use crate::rank::ranked_pairs;
use crate::root::{Arrival, visit_class_root};
use crate::same::{are_same_exclusions, are_same_instances};
use crate::search::Search;
use crate::visit::visit_root;
use crate::walk::{Walk, descend, to_node};
use box_instances::{Instance, NoMemory};
use edge_state::{EdgeState, Exclusion};
use proof_tree::{CompactTokens, Outcome};
use rule_closure::Closer;
use std::alloc::Global;
use std::marker::Model;
use work_share::{Node, Tree};

/// The search tree of an instance over its component graphs and their partial orientations, from a
/// state on that already excludes some relations. It is seen as these parts, and stands for the
/// tree of the definition.
///
/// Source: the search over packing classes of Fekete, Schepers and van der Veen (2007).
#[derive(Drop)]
pub struct ClassTree<'a> {
    instance: &'a Instance,
    start: Vec<Exclusion>,
    scales: bool,
    pairs: Vec<(u32, u32)>,
}

impl<'a> Model for ClassTree<'a> {
    ghost use Rattle.class_search.specs.Tree.{PlainClassTree, IsReady};

    ghost Value = { PlainClassTree };

    ghost view = { λ t. record {
      instance = t.instance.now;
      start = t.start.items;
      scales = t.scales;
    } };

    ghost invariant = { λ t. IsReady
        (record { instance = t.instance.now; start = t.start.items; scales = t.scales })
        t.pairs.items };
}

impl<'a> ClassTree<'a> {
    /// The tree whose root holds the exclusions of `start`, which are at edges of the instance.
    pub fn starting(
        alloc: Global,
        instance: &'a Instance,
        start: &[Exclusion],
        scales: bool,
    ) -> Result<ClassTree<'a>, NoMemory>
        requires { AreAtEdges instance.now start.now }
        ensures { IfOk result (λ t. t ≡ record {
          instance = instance.now;
          start = start.now;
          scales = scales;
        }) }
    {
        let pairs = ranked_pairs(alloc, instance)?;
        let Ok(start) = Vec::from_slice(alloc, start) else {
            return Err(NoMemory);
        };
        Ok(ClassTree {
            instance,
            start,
            scales,
            pairs,
        })
    }

    /// The tree whose root holds no exclusion.
    pub fn new(
        alloc: Global,
        instance: &'a Instance,
        scales: bool,
    ) -> Result<ClassTree<'a>, NoMemory>
        ensures { IfOk result (λ t. t ≡ record {
          instance = instance.now;
          start = [];
          scales = scales;
        }) }
    {
        ClassTree::starting(alloc, instance, &[], scales)
    }

    // The state of the root.
    fn start_state(&self, alloc: Global) -> Result<EdgeState, NoMemory>
        ensures { IfOk result (λ state. state ≡ record {
          dims = dims self.now.instance;
          boxes = box_count self.now.instance;
          room = box_count self.now.instance;
          trail = with_all self.now.start [];
        }) }
    {
        let mut state = EdgeState::new(alloc, self.instance.dims(), self.instance.len())?;
        let count = self.start.len();
        for k in 0..count {
            let e = self.start[count - 1 - k];
            state.exclude(e.dim, e.u, e.v, e.rel);
        }
        Ok(state)
    }

    // Brings the state of the root to the node at a path.
    fn come_to(
        &self,
        alloc: Global,
        state: &mut EdgeState,
        closer: &mut Closer,
        path: &[u32],
    ) -> Arrival
        requires state { state.old ≡ record {
          dims = dims self.now.instance;
          boxes = box_count self.now.instance;
          room = box_count self.now.instance;
          trail = with_all self.now.start [];
        } }
        requires room { closer.old ≡ record { dims = state.old.dims; boxes = state.old.boxes } }
        requires there { IsSome (node_at (Some (shape self.now)) path.now) }
        ensures sizes { state.new ≡ record state.old { trail = state.new.trail } }
        ensures closer { closer.new ≡ closer.old }
        ensures node { IsArrival self.now.instance (node_at (Some (shape self.now)) path.now)
            state.new.trail result }
    {
        // For the proof alone: states the limits of the instance.
        let _limits = self.instance.len();
        let search = Search {
            alloc,
            instance: self.instance,
            pairs: self.pairs.as_slice(),
        };
        if path.is_empty() {
            return visit_class_root(&search, self.scales, state, closer);
        }
        let root = visit_root(&search, state, closer);
        Arrival::Inner(descend(&search, state, closer, root, path))
    }

    // A walk that begins at the node of a path, or what the root gives that its own tests refute.
    pub(crate) fn begun(&self, alloc: Global, path: &[u32]) -> Result<Kept<'a>, NoMemory>
        requires { IsSome (node_at (Some (shape self.now)) path.now) }
        ensures { IfOk result (IsKeptAt self.now path.now) }
    {
        let mut state = self.start_state(alloc)?;
        let mut closer = Closer::new(alloc, self.instance.dims(), self.instance.len())?;
        match self.come_to(alloc, &mut state, &mut closer, path) {
            Arrival::RefutedRoot(token) => {
                let tokens = CompactTokens::of_one(alloc, token)?;
                Ok(Kept::Refuted(Refuted { tokens, count: 0 }))
            }
            Arrival::Inner(node) => Ok(Kept::PausedWalk(PausedWalk {
                instance: self.instance,
                state,
                closer,
                walk: Walk::at(alloc, node),
            })),
        }
    }

    // Goes on with what is kept of the node at a path.
    pub(crate) fn explored_on(
        &self,
        alloc: Global,
        path: &[u32],
        kept: Kept<'a>,
        cap: u64,
    ) -> Result<Explored<'a>, NoMemory>
        requires { IsKeptAt self.now path.now kept }
        ensures { IfOk result (λ e. IfSome (node_at (Some (shape self.now)) path.now)
            (λ node. IsExplored self.now.instance node cap e)) }
    {
        let search = Search {
            alloc,
            instance: self.instance,
            pairs: self.pairs.as_slice(),
        };
        kept.explored(&search, cap)
    }

    // What the tree below the node at a path gives under a cap.
    fn explore_node(&self, alloc: Global, path: &[u32], cap: u64) -> Result<Outcome, NoMemory>
        requires { IsSome (node_at (Some (shape self.now)) path.now) }
        ensures { IfOk result (λ r. IfSome (node_at (Some (shape self.now)) path.now)
            (λ node. plain_outcome r ≡ under_budget cap (outcome node))) }
    {
        let mut state = self.start_state(alloc)?;
        let mut closer = Closer::new(alloc, self.instance.dims(), self.instance.len())?;
        let arrival = self.come_to(alloc, &mut state, &mut closer, path);
        let search = Search {
            alloc,
            instance: self.instance,
            pairs: self.pairs.as_slice(),
        };
        explored(&search, &mut state, &mut closer, arrival, cap)
    }
}

impl<'a> Tree for ClassTree<'a> {
    ghost shape = { shape };

    ghost AreSame = { λ t u. t ≡ u };

    /// What the tree below the node at a path gives under a cap: its outcome where that has a count
    /// of at most `cap`, and `Past` exactly where its count is greater.
    ///
    /// A yes has places that are a packing, and a no refutes the instance under the exclusions of
    /// the path: those of the root, and what each split on the way adds. At the root of a tree
    /// without starting exclusions a yes comes only where the instance fits, and a no only where it
    /// doesn't. At every root the count is within a cap of at least 3 to the number of pairs in all
    /// dimensions, less 1.
    fn explore(&self, alloc: Global, path: &[u32], cap: u64) -> Result<Outcome, NoMemory>
        requires { IsReachable (shape self.now) path.now }
        ensures outcome { IfOk result
            (λ r. IfSome (outcome_at (shape self.now) path.now)
            (λ v. plain_outcome r ≡ under_budget cap v)) }
        ensures right { IfOk result
            (λ r. IsRight self.now.instance (exclusions_at self.now.start (shape self.now) path.now)
            (plain_outcome r)) }
        ensures decides { path.now ≡ [] → self.now.start ≡ []
            → IfOk result (λ r. Decides self.now.instance (plain_outcome r)) }
        ensures enough { path.now ≡ []
            → 3 ^ (dims self.now.instance * box_count self.now.instance
            * (box_count self.now.instance - 1) / 2) ≤ cap + 1
            → IfOk result (λ r. IsYesOrNo (plain_outcome r)) }
    {
        // For the proof alone: states the limits of the instance.
        let _limits = self.instance.len();
        self.explore_node(alloc, path, cap)
    }

    /// Whether the node at a path is a split, with its token, its own count 1 and its 2 children;
    /// or a leaf.
    fn node(&self, alloc: Global, path: &[u32]) -> Result<Node, NoMemory>
        requires { IsReachable (shape self.now) path.now }
        ensures { IfOk result (λ r. IfSome (node_at (Some (shape self.now)) path.now)
            (λ node. plain_node r ≡ node_view node)) }
    {
        let mut state = self.start_state(alloc)?;
        let mut closer = Closer::new(alloc, self.instance.dims(), self.instance.len())?;
        match self.come_to(alloc, &mut state, &mut closer, path) {
            Arrival::RefutedRoot(_) => Ok(Node::Leaf),
            Arrival::Inner(node) => Ok(to_node(node)),
        }
    }

    /// Whether both trees have the same instance, the same exclusions at the root and the same
    /// choice of scales.
    fn same(&self, other: &Self) -> bool
        ensures { MatchBool result (self.now ≡ other.now) (¬ (self.now ≡ other.now)) }
    {
        self.scales == other.scales
            && are_same_instances(self.instance, other.instance)
            && are_same_exclusions(self.start.as_slice(), other.start.as_slice())
    }

    ghost same_shape = { same_trees };
}
