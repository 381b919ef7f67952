//! The class tree with walks that were left where their cap was spent, and with their splits.
ghost use Rattle.std.specs.Prelude.{◌≡◌, ◌++◌, ◌∷◌, [], IfOk, IfSome, IsSome, MatchBool, Some};
ghost use Rattle.tree_terms.specs.Trees.{node_at, outcome, under_budget};
ghost use Rattle.tree_terms.specs.Paths.{node_view, outcome_at, IsReachable};
ghost use Rattle.work_share.specs.Outcomes.{plain_outcome};
ghost use Rattle.work_share.specs.Nodes.{plain_node};
ghost use Rattle.class_search.specs.Kept.{IsKeptAt, ArePartsOf, IsWalkOf};
ghost use Rattle.class_search.specs.Pieces.{IsSplitAt};
ghost use Rattle.class_search.specs.Tree.{shape, same_trees};

use crate::ClassTree;
use crate::kept::{Division, Explored, Kept, PausedWalk, WalkSplit};
use box_instances::NoMemory;
use proof_tree::Outcome;
use std::alloc::{AllocError, Global};
use std::hint::spin_loop;
use std::marker::Model;
use std::sync::{Mutex, MutexGuard, Wait};
use std::thread::Threads;
use work_share::{Gate, Node, Settings, Tree, solve_shared};

// What is kept of the node at a path of a class tree.
#[derive(Drop)]
pub(crate) struct Piece<'a> {
    tree: &'a ClassTree<'a>,
    path: Vec<u32>,
    kept: Kept<'a>,
}

impl<'a> Model for Piece<'a> {
    ghost use Rattle.class_search.specs.Pieces.{PlainPiece};
    ghost use Rattle.class_search.specs.Kept.{IsKeptAt};

    ghost Value = { PlainPiece };

    ghost view = { λ p. record { tree = p.tree.now; path = p.path.items; kept = p.kept } };

    ghost invariant = { λ p. IsKeptAt p.tree.now p.path.items p.kept };
}

impl<'a> Piece<'a> {
    // Whether it is of the node at this path.
    fn is_at(&self, path: &[u32]) -> bool
        ensures { MatchBool result (self.now.path ≡ path.now) (¬ (self.now.path ≡ path.now)) }
    {
        self.path.as_slice() == path
    }

    // What is kept, if it is of the node at this path of this tree.
    fn kept_of(self, tree: &ClassTree<'_>, path: &[u32]) -> Option<Kept<'a>>
        ensures { IfSome result (IsKeptAt tree.now path.now) }
    {
        let is_here = self.path.as_slice() == path && self.tree.same(tree);
        if !is_here {
            return None;
        }
        Some(self.kept)
    }

    // What is kept of a child of the node at this path.
    fn of_child(
        alloc: Global,
        tree: &'a ClassTree<'a>,
        path: &[u32],
        child: u32,
        kept: Kept<'a>,
    ) -> Result<Piece<'a>, AllocError>
        requires { IsKeptAt tree.now (path.now ++ child ∷ []) kept }
    {
        let mut longer = Vec::with_capacity(alloc, path.len() + 1)?;
        longer.extend_from_slice(path)?;
        longer.push(child)?;
        Ok(Piece {
            tree,
            path: longer,
            kept,
        })
    }
}

// The split of the node at a path of a class tree, whose walk was left.
#[derive(Drop)]
pub(crate) struct KnownSplit<'a> {
    tree: &'a ClassTree<'a>,
    path: Vec<u32>,
    node: Node,
}

impl<'a> Model for KnownSplit<'a> {
    ghost use Rattle.class_search.specs.Pieces.{PlainSplit, IsSplitAt};

    ghost Value = { PlainSplit };

    ghost view = { λ k. record { tree = k.tree.now; path = k.path.items; node = k.node } };

    ghost invariant = { λ k. IsSplitAt k.tree.now k.path.items k.node };
}

impl<'a> KnownSplit<'a> {
    // Whether it is of the node at this path.
    fn is_at(&self, path: &[u32]) -> bool
        ensures { MatchBool result (self.now.path ≡ path.now) (¬ (self.now.path ≡ path.now)) }
    {
        self.path.as_slice() == path
    }

    // The split, if it is of the node at this path of this tree.
    fn node_of(self, tree: &ClassTree<'_>, path: &[u32]) -> Option<Node>
        ensures { IfSome result (IsSplitAt tree.now path.now) }
    {
        if !self.is_at(path) {
            return None;
        }
        if !self.tree.same(tree) {
            return None;
        }
        Some(self.node)
    }

    // The split of the node at a path.
    fn of_node(
        alloc: Global,
        tree: &'a ClassTree<'a>,
        path: &[u32],
        node: Node,
    ) -> Result<KnownSplit<'a>, AllocError>
        requires { IsSplitAt tree.now path.now node }
    {
        let path = Vec::from_slice(alloc, path)?;
        Ok(KnownSplit { tree, path, node })
    }
}

// The class tree, with what is kept of nodes whose cap was spent and of their children. It is seen
// as that tree.
//
// A worker that explores the node of a kept walk resumes it, and one that splits the node of a walk
// takes the split from there: from the root on, that would take a closure for each step of the
// path. Nothing depends on what the lists hold: each entry is right for its node. If a list stays
// in use by another thread, or there is no memory for an entry, the walk is lost and its node is
// begun anew.
#[derive(Drop)]
pub(crate) struct ResumableTree<'a> {
    tree: &'a ClassTree<'a>,
    room: Mutex<Vec<Piece<'a>>>,
    splits: Mutex<Vec<KnownSplit<'a>>>,
}

impl<'a> Model for ResumableTree<'a> {
    ghost use Rattle.class_search.specs.Tree.{PlainClassTree};

    ghost Value = { PlainClassTree };

    ghost view = { λ t. t.tree.now };
}

// Lock attempts before giving up. A holder only scans the pieces, which takes less time than this
// many attempts.
const MAX_LOCK_TRIES: u32 = 10_000;

// Tries to lock a list, at most `MAX_LOCK_TRIES` times. It never blocks, because `Tree::explore`
// has no runtime handle with `Wait`.
fn try_lock_pieces<'b, T>(room: &'b Mutex<Vec<T>>) -> Option<MutexGuard<'b, Vec<T>>> {
    for _ in 0..MAX_LOCK_TRIES {
        if let Some(guard) = room.try_lock() {
            return Some(guard);
        }
        spin_loop();
    }
    None
}

// Takes a piece of the node at this path out of the room, if one is there.
fn taken<'a>(room: &Mutex<Vec<Piece<'a>>>, path: &[u32]) -> Option<Piece<'a>> {
    let mut room = try_lock_pieces(room)?;
    let pieces = &mut *room;
    let position = pieces.iter().position(|piece| piece.is_at(path))?;
    Some(pieces.swap_remove(position))
}

// Takes the split of the node at this path out of the list, if it is there.
fn taken_split<'a>(splits: &Mutex<Vec<KnownSplit<'a>>>, path: &[u32]) -> Option<KnownSplit<'a>> {
    let mut splits = try_lock_pieces(splits)?;
    let known = &mut *splits;
    let position = known.iter().position(|split| split.is_at(path))?;
    Some(known.swap_remove(position))
}

// Puts a split into the list, unless that is in use.
fn put_split<'a>(
    splits: &Mutex<Vec<KnownSplit<'a>>>,
    split: KnownSplit<'a>,
) -> Result<(), AllocError> {
    match try_lock_pieces(splits) {
        Some(mut splits) => {
            let known = &mut *splits;
            known.push(split)?;
            Ok(())
        }
        None => Ok(()),
    }
}

// Puts pieces into the room, unless it is in use.
fn put<'a>(room: &Mutex<Vec<Piece<'a>>>, mut pieces: Vec<Piece<'a>>) -> Result<(), AllocError> {
    match try_lock_pieces(room) {
        Some(mut room) => {
            let kept = &mut *room;
            kept.append(&mut pieces)
        }
        None => Ok(()),
    }
}

// The pieces of what is left to the children of the node at a path.
fn pieces_of<'a>(
    alloc: Global,
    tree: &'a ClassTree<'a>,
    path: &[u32],
    parts: WalkSplit<'a>,
) -> Result<Vec<Piece<'a>>, AllocError>
    requires known { IfSome (node_at (Some (shape tree.now)) path.now)
        (λ node. ArePartsOf tree.now.instance node parts) }
    requires there { IsSome (node_at (Some (shape tree.now)) path.now) }
{
    let mut pieces = Vec::with_capacity(alloc, 2)?;
    match parts {
        WalkSplit::First(standing) => {
            pieces.push(Piece::of_child(alloc, tree, path, 0, Kept::PausedWalk(standing))?)?;
        }
        WalkSplit::Second(refuted, standing) => {
            pieces.push(Piece::of_child(alloc, tree, path, 0, Kept::Refuted(refuted))?)?;
            pieces.push(Piece::of_child(alloc, tree, path, 1, Kept::PausedWalk(standing))?)?;
        }
    }
    Ok(pieces)
}

impl<'a> ResumableTree<'a> {
    // The tree with an empty room.
    pub fn new(alloc: Global, tree: &'a ClassTree<'a>) -> ResumableTree<'a>
        ensures { result ≡ tree.entry.now }
    {
        ResumableTree {
            tree,
            room: Mutex::new(Vec::new(alloc)),
            splits: Mutex::new(Vec::new(alloc)),
        }
    }

    // Keeps the walk that was left at the node of this path, if there is one, for its children.
    fn keep(
        &self,
        alloc: Global,
        path: &[u32],
        left: Option<PausedWalk<'a>>,
    ) -> Result<(), AllocError>
        requires there { IsSome (node_at (Some (shape self.now)) path.now) }
        requires known { IfSome (node_at (Some (shape self.now)) path.now)
            (λ node. IfSome left (IsWalkOf self.now.instance node)) }
    {
        let Some(standing) = left else {
            return Ok(());
        };
        let Some(Division { node, parts }) = standing.division()? else {
            return Ok(());
        };
        put(&self.room, pieces_of(alloc, self.tree, path, parts)?)?;
        put_split(
            &self.splits,
            KnownSplit::of_node(alloc, self.tree, path, node)?,
        )
    }

    // What was kept of the node at a path, or the walk that begins there.
    fn kept_at(&self, alloc: Global, path: &[u32]) -> Result<Kept<'a>, NoMemory>
        requires { IsSome (node_at (Some (shape self.now)) path.now) }
        ensures { IfOk result (IsKeptAt self.now path.now) }
    {
        if let Some(piece) = taken(&self.room, path) {
            if let Some(kept) = piece.kept_of(self.tree, path) {
                return Ok(kept);
            }
        }
        self.tree.begun(alloc, path)
    }
}

impl<'a> Tree for ResumableTree<'a> {
    ghost shape = { shape };

    ghost AreSame = { λ t u. t ≡ u };

    fn explore(&self, alloc: Global, path: &[u32], cap: u64) -> Result<Outcome, NoMemory>
        requires { IsReachable (shape self.now) path.now }
        ensures { IfOk result (λ r. IfSome (outcome_at (shape self.now) path.now)
            (λ v. plain_outcome r ≡ under_budget cap v)) }
    {
        let kept = self.kept_at(alloc, path)?;
        let Explored { outcome, left } = self.tree.explored_on(alloc, path, kept, cap)?;
        // Without memory the walk is lost, and nothing else.
        let _is_kept = self.keep(alloc, path, left).is_ok();
        Ok(outcome)
    }

    fn node(&self, alloc: Global, path: &[u32]) -> Result<Node, NoMemory>
        requires { IsReachable (shape self.now) path.now }
        ensures { IfOk result (λ r. IfSome (node_at (Some (shape self.now)) path.now)
            (λ node. plain_node r ≡ node_view node)) }
    {
        if let Some(split) = taken_split(&self.splits, path) {
            if let Some(node) = split.node_of(self.tree, path) {
                return Ok(node);
            }
        }
        self.tree.node(alloc, path)
    }

    fn same(&self, other: &Self) -> bool
        ensures { MatchBool result (self.now ≡ other.now) (¬ (self.now ≡ other.now)) }
    {
        self.tree.same(other.tree)
    }

    ghost same_shape = { same_trees };
}

impl<'a> ClassTree<'a> {
    /// What the tree gives under the budget of the settings, by as many workers as these say: what
    /// `solve_shared` answers of it, for every number of workers and every gate.
    ///
    /// With more than one worker, a walk that has spent the cap of its task is kept: its state, the
    /// splits on its way and what it has met. As the task is split, what it has finished of the
    /// first child stands ready for the worker that takes that child. The walk waits for the worker
    /// that takes the child in which it stands, and goes on there. So at most one state waits for
    /// each task that waits or was given up. Without memory to keep a walk, or where others are in
    /// the room of the walks for long, its node is begun anew, and nothing else is lost.
    pub fn solve<R: Threads + Wait + Sync, G: Gate + Sync>(
        &self,
        rt: &R,
        alloc: Global,
        settings: &Settings,
        gate: &G,
    ) -> Result<Outcome, NoMemory>
        ensures { IfOk result
            (λ r. plain_outcome r ≡ under_budget settings.now.budget (outcome (shape self.now))) }
    {
        if settings.workers <= 1 {
            return solve_shared(rt, alloc, self, settings, gate);
        }
        let keeping = ResumableTree::new(alloc, self);
        solve_shared(rt, alloc, &keeping, settings, gate)
    }
}
