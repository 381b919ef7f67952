//! The search for a choice tree that refutes a value, node by node.
//!
//! A node is closed if what is in and undecided is worth less than the goal, or if a tuple prices
//! it out. Else its next box is in, then out. With a box that is in all boxes are in that come
//! before it, and with a box that is out all are out that it comes before: what is left over of
//! these splits is closed by exchanges. The search pauses at sets of boxes that the caller decides,
//! and closes a node whose set is refuted.
//!
//! Exchanges take 0.7 of the nodes of 9 instances without equal boxes, and 0.03 to 0.3 of those of
//! instances with many copies.

use crate::boxes::{exclusion_rows, fitting_boxes, members_of, worth_outside};
use crate::exchanges::Exchanges;
use crate::fill::{OpenNode, Weights};
use crate::path::{Path, TakenBox};
use crate::pause::{Pause, TreeLimits};
use crate::pool::Pool;
use crate::recent::Recent;
use crate::slots::{bit, entry};
use bounded_tokens::BoundedToken;
use box_instances::{Instance, NoMemory};
use lenient_lists::pushed;
use proof_tree::Token;
use std::alloc::Global;
use std::mem::replace;

// The most sets that are kept as placed.
const MAX_PLACED: usize = 256;

/// The search for one goal after another: the tuples of an instance, and the tree of the last goal
/// up to the node at which the search stands.
#[derive(Drop)]
pub struct BoundedSearch {
    goal: u64,
    boxes: u32,
    // The value of the boxes that don't fit alone.
    large_worth: u64,
    exclusions: Vec<u128>,
    exchanges: Exchanges,
    pool: Pool,
    recent: Recent,
    path: Path,
    placed: Vec<u128>,
    tokens: Vec<BoundedToken>,
    // Of each box that is in the number of tokens before the node at which it has just gone in.
    starts: Vec<usize>,
    steps: u64,
    is_whole: bool,
    // Whether the last decision took a box in, and whether the node was bounded without closing.
    has_grown: bool,
    is_bounded: bool,
}

impl BoundedSearch {
    /// A search without a goal: its tree is whole. It takes all memory but that of tokens.
    pub fn new(alloc: Global, instance: &Instance) -> Result<BoundedSearch, NoMemory> {
        let fitting = fitting_boxes(instance);
        Ok(BoundedSearch {
            goal: u64::MAX,
            boxes: instance.len(),
            large_worth: worth_outside(instance, fitting),
            exclusions: exclusion_rows(alloc, instance)?,
            exchanges: Exchanges::new(alloc, instance)?,
            pool: Pool::new(alloc, instance, fitting)?,
            recent: Recent::new(alloc),
            path: Path::new(alloc, instance, fitting)?,
            placed: Vec::new(alloc),
            tokens: Vec::new(alloc),
            starts: Vec::new(alloc),
            steps: 0,
            is_whole: true,
            has_grown: false,
            is_bounded: false,
        })
    }

    /// The least goal that one priced leaf at the root refutes.
    pub fn root_goal(&self) -> u64 {
        self.pool.root_goal()
    }

    /// Begins the tree that refutes that boxes of value `goal` fit in the container, in place of
    /// the one before. Tuples that closed nodes, and sets that fit, are remembered.
    pub fn begin(&mut self, alloc: Global, goal: u64) {
        self.goal = goal;
        self.pool.clear();
        self.path.clear();
        self.tokens = Vec::new(alloc);
        self.starts.clear();
        self.steps = 0;
        self.is_whole = false;
        self.has_grown = false;
        self.is_bounded = false;
    }

    /// The number of boxes that are in where the search stands.
    pub fn set_size(&self) -> usize {
        self.path.set_size()
    }

    /// The first `count` boxes that went in, by rising number.
    pub fn set(
        &self,
        alloc: Global,
        instance: &Instance,
        count: usize,
    ) -> Result<Vec<u32>, NoMemory> {
        members_of(alloc, instance, self.path.first_members(count))
    }

    /// The value of the boxes that are in where the search stands.
    pub fn worth(&self) -> u64 {
        self.path.worth()
    }

    /// Hands out the tokens of the tree.
    pub fn take_tokens(&mut self, alloc: Global) -> Vec<BoundedToken> {
        replace(&mut self.tokens, Vec::new(alloc))
    }

    // Appends a token.
    fn push(&mut self, token: BoundedToken) -> Result<(), NoMemory> {
        match self.tokens.push(token) {
            Ok(()) => Ok(()),
            Err(_) => Err(NoMemory),
        }
    }

    // Appends the token of a split by a box.
    fn push_split(&mut self, v: u32) -> Result<(), NoMemory> {
        self.push(BoundedToken::Plain(Token::Choose {
            box_no: v.saturating_add(1),
        }))
    }

    // Appends the leaf at which box `u` is out and box `v` is in, though `u` comes before `v`.
    fn push_exchange(&mut self, u: u32, v: u32) -> Result<(), NoMemory> {
        self.push(BoundedToken::Exchange {
            left_no: u.saturating_add(1),
            taken_no: v.saturating_add(1),
        })
    }

    // Appends the refutation of a set with two boxes that exclude each other.
    fn push_excluded(&mut self) -> Result<(), NoMemory> {
        self.push(BoundedToken::Plain(Token::SetRefuted { bin: None }))?;
        self.push(BoundedToken::Plain(Token::Rules))
    }

    // Whether a box that is in excludes another one.
    fn is_excluded(&self, v: u32) -> bool {
        self.path.members() & entry(&self.exclusions, v as usize, 0) != 0
    }

    // Takes out the box that went in last, and returns it.
    fn take_out(&mut self) -> Option<TakenBox> {
        let _start = self.starts.pop();
        let last = self.path.take_back()?;
        self.pool.remove(last.box_no);
        Some(last)
    }

    // Moves from a closed node to the next open one: the last box that was chosen to be in is out.
    fn leave(&mut self) -> Result<(), NoMemory> {
        self.has_grown = false;
        self.is_bounded = false;
        for _ in 0..self.path.set_size() {
            let Some(last) = self.take_out() else {
                break;
            };
            if last.with == last.box_no {
                return self.leave_out(last.box_no);
            }
            self.push_exchange(last.box_no, last.with)?;
        }
        self.is_whole = true;
        Ok(())
    }

    // Decides that a box is out, and with it each undecided box that it comes before.
    fn leave_out(&mut self, v: u32) -> Result<(), NoMemory> {
        self.path.leave_out(v);
        let row = entry(&self.exchanges.behind, v as usize, 0) & self.path.open();
        if row == 0 {
            return Ok(());
        }
        for w in 0..self.boxes {
            if row & bit(w) != 0 {
                self.push_split(w)?;
                self.push_exchange(v, w)?;
                self.path.leave_out(w);
            }
        }
        Ok(())
    }

    // Decides that a box is in, as it has to be with box `with`.
    fn take_one(&mut self, v: u32, with: u32) -> Result<(), NoMemory> {
        self.path.take(v, with)?;
        self.pool.add(v);
        pushed(&mut self.starts, self.tokens.len())
    }

    // Decides that a box is in, and with it each undecided box that comes before it. If one of
    // these is excluded, the node is closed. Returns whether it is open.
    fn take_in(&mut self, v: u32) -> Result<bool, NoMemory> {
        self.take_one(v, v)?;
        let row = entry(&self.exchanges.before, v as usize, 0) & self.path.open();
        if row == 0 {
            return Ok(true);
        }
        for u in 0..self.boxes {
            if row & bit(u) != 0 {
                self.push_split(u)?;
                if self.is_excluded(u) {
                    self.push_excluded()?;
                    self.push_exchange(u, v)?;
                    self.leave()?;
                    return Ok(false);
                }
                self.take_one(u, v)?;
            }
        }
        Ok(true)
    }

    // Goes back to the node at which only the first `count` boxes are in and the last of them has
    // just gone in. What was below that node is dropped.
    fn go_back(&mut self, count: usize) {
        for _ in count..self.path.set_size() {
            let _taken = self.take_out();
        }
        if count > 0 && count <= self.starts.len() {
            self.tokens.truncate(self.starts[count - 1]);
        }
    }

    /// Closes the node at which the first `count` boxes have gone in, by a refutation of their set
    /// as tokens of an inner refutation. `count` is at least 1. What was below that node is
    /// dropped.
    pub fn close_set(&mut self, count: usize, tokens: Vec<Token>) -> Result<(), NoMemory> {
        self.go_back(count);
        self.push(BoundedToken::Plain(Token::SetRefuted { bin: None }))?;
        for token in tokens {
            self.push(BoundedToken::Plain(token))?;
        }
        self.leave()
    }

    /// Remembers that the first `count` boxes fit, so the search doesn't pause at a part of them.
    pub fn keep_placed(&mut self, count: usize) -> Result<(), NoMemory> {
        if self.placed.len() >= MAX_PLACED {
            self.placed.clear();
        }
        pushed(&mut self.placed, self.path.first_members(count))
    }

    // Whether the set is part of one that fits.
    fn is_placed(&self) -> bool {
        let members = self.path.members();
        self.placed.iter().any(|set| members & !*set == 0)
    }

    /// The steps that were made for the goal.
    pub fn steps(&self) -> u64 {
        self.steps
    }

    /// Adds steps that were made outside the search, as those by which a set was decided.
    pub fn charge(&mut self, steps: u64) {
        self.steps = self.steps.saturating_add(steps);
    }

    // Closes the node by weights of a tuple that price it out.
    fn close_by(&mut self, alloc: Global, tuple: u32, weights: Weights) -> Result<(), NoMemory> {
        let functions = self.pool.tuple(alloc, tuple as usize)?;
        self.push(BoundedToken::PricedOut {
            value_weight: weights.value,
            share_weight: weights.share,
            tuple: functions,
        })?;
        self.leave()
    }

    // The first of the tuples that closed last that prices the node out, by its position.
    fn recent_weights(&self, node: &OpenNode) -> Option<(usize, Weights)> {
        for position in 0..self.recent.len() {
            let tuple = self.recent.tuple(position) as usize;
            if let Some(weights) = self.pool.closing_weights(tuple, node) {
                return Some((position, weights));
            }
        }
        None
    }

    // Closes the node if a tuple prices it out, and returns whether one does. The tuples that
    // closed last are tried before the whole pool.
    fn close_priced(&mut self, alloc: Global) -> Result<bool, NoMemory> {
        let node = self.path.node(self.goal);
        let recent = self.recent.len();
        self.charge(recent as u64);
        if let Some((position, weights)) = self.recent_weights(&node) {
            self.recent.raise(position);
            let tuple = self.recent.tuple(0);
            self.close_by(alloc, tuple, weights)?;
            return Ok(true);
        }
        let tuples = self.pool.len();
        self.charge(tuples as u64);
        let Some((tuple, weights)) = self.pool.first_closing(&node) else {
            return Ok(false);
        };
        self.recent.add(tuple)?;
        self.close_by(alloc, tuple, weights)?;
        Ok(true)
    }

    // Closes the node if what is in and undecided is worth too little, or if a tuple prices it out.
    fn close(&mut self, alloc: Global) -> Result<bool, NoMemory> {
        if self.path.most().saturating_add(self.large_worth) < self.goal {
            self.push(BoundedToken::Plain(Token::ValueShort))?;
            self.leave()?;
            return Ok(true);
        }
        self.close_priced(alloc)
    }

    // Splits the node by a box, and closes the child with the box in if another box that is in
    // excludes it.
    fn split(&mut self, v: u32) -> Result<(), NoMemory> {
        self.push_split(v)?;
        self.is_bounded = false;
        if self.is_excluded(v) {
            self.has_grown = false;
            self.push_excluded()?;
            return self.leave_out(v);
        }
        self.has_grown = self.take_in(v)?;
        Ok(())
    }

    // Whether the search pauses at a node that isn't closed.
    fn pause(&self) -> Option<Pause> {
        if self.path.worth() >= self.goal {
            return Some(Pause::Reached);
        }
        if self.has_grown && !self.is_bounded && !self.is_placed() {
            return Some(Pause::Grown);
        }
        None
    }

    // Visits the node at which the search stands, unless it pauses there.
    fn visit(&mut self, alloc: Global) -> Result<Option<Pause>, NoMemory> {
        self.charge(1);
        if !self.is_bounded && self.close(alloc)? {
            return Ok(None);
        }
        let pause = self.pause();
        self.is_bounded = true;
        if pause.is_some() {
            return Ok(pause);
        }
        let Some(v) = self.path.next_box() else {
            return Ok(Some(Pause::Spent));
        };
        self.split(v)?;
        Ok(None)
    }

    /// Visits nodes until the search pauses. After `Grown` and `Reached` it goes on with the same
    /// node; if its set is still open then, `Reached` comes again.
    pub fn run(&mut self, alloc: Global, limits: TreeLimits) -> Result<Pause, NoMemory> {
        for _ in 0..limits.steps {
            if self.is_whole {
                return Ok(Pause::Whole);
            }
            if self.steps >= limits.steps || self.tokens.len() as u64 >= limits.tokens {
                return Ok(Pause::Spent);
            }
            if let Some(pause) = self.visit(alloc)? {
                return Ok(pause);
            }
        }
        Ok(Pause::Spent)
    }
}
