//! The decision of sets of the boxes of one instance.
ghost use Rattle.std.specs.Prelude.{◌≡◌, ◌≤◌, ℕ, List, length, IfOk, IfSome, OnOk, OnErr, []};
ghost use Rattle.packing_terms.specs.Goals.{subset, IsBoxSet};
ghost use Rattle.packing_terms.specs.Limits.{IsDimCount, max_boxes};
ghost use Rattle.set_search.specs.Searches.{AreClosers};
ghost use Rattle.proof_tree.specs.Shorts.{AreLonger};
ghost use Rattle.set_search.specs.Memories.{HasBoxes, IsAppendedNo};
ghost use Rattle.packing_terms.specs.OuterRefutation.{insert_box};
ghost use Rattle.tree_terms.specs.Trees.{under_budget};
ghost use Rattle.tree_terms.specs.OuterTrees.{set_verdict};
ghost use Rattle.work_share.specs.Outcomes.{plain_outcome};
ghost use Rattle.class_search.specs.Right.{IsRight};

use crate::kept::capped_outcome;
use crate::key::SetKey;
use crate::known::KnownSets;
use crate::pool::{IdleSearch, SearchPool};
use crate::shared::SharedSets;
use box_instances::{BoxSet, Instance, NoMemory};
use class_search::decide_in;
use edge_state::EdgeState;
use proof_tree::{CompactTokens, Outcome};
use rule_closure::Closer;
use std::alloc::Global;
use std::marker::Model;
use std::mem;
use std::sync::Arc;

/// The greatest budget.
pub const MAX_BUDGET: u64 = 10_000_000;

/// The least budget under which a task of several workers decides a set, even if it has less left:
/// its children come to the set again, and would begin it anew. Of the refuted sets of two
/// knapsacks of 30 and 36 boxes, one of 5,000 has more branchings. With eight times what the task
/// had left in its place, four workers took 1.8 in place of 1.5 times the processor time of one.
pub const TASK_SET_BUDGET: u64 = 8_192;

// Where a set is kept: among the sets of a search, among those that it shares, or nowhere.
#[derive(Clone, Copy)]
pub(crate) enum Source {
    Own,
    Shared,
    Nowhere,
}

/// Decides sets of the boxes of one instance, one after another, each by its class tree.
///
/// It is seen as the instance and the choice of scales. An outer search makes thousands of small
/// decisions; so the instance of a set and its state are taken once, for all of them, and the room
/// of a closing once for each number of boxes, up to the greatest that came. And most of its sets
/// come again and again, in one tree for bins, and in the trees of many values: what was found of a
/// set is kept, and returned again without a search, at most 65,536 sets with at most 4,194,304
/// numbers and tokens. Sets for which there is no memory aren't kept.
///
/// Of several workers, each takes a search for a task (`take`) and gives it back (`give`). It waits
/// in the pool of this search, which outlives the task. What any of these searches has decided, all
/// of them know: they keep sets in one memory with the same bounds. Each also keeps up to 1,024
/// sets of its own, with 65,536 numbers and tokens, since a task comes to the sets of the task
/// before it, and a lock takes longer than most answers.
#[derive(Drop)]
pub struct SetSearch<'a> {
    whole: &'a Instance,
    scales: bool,
    set: BoxSet<'a>,
    state: EdgeState,
    closers: Vec<Closer>,
    // What this search has decided, and of a task also what it found among the shared sets.
    own: KnownSets<'a>,
    // What the searches of tasks have decided.
    shared: Arc<SharedSets<'a>, Global>,
    is_of_task: bool,
    // Each set is decided under at least this budget.
    set_budget: u64,
    // Room for a set with one box more, which goes out with a set that fits.
    spare: Vec<u32>,
    // The searches of tasks that are done.
    pool: SearchPool<'a>,
}

impl<'a> Model for SetSearch<'a> {
    ghost use Rattle.std.specs.Prelude.{◌≡◌};
    ghost use Rattle.set_search.specs.Searches.{PlainSetSearch, HasRoom};

    ghost Value = { PlainSetSearch };

    ghost view = { λ s. record { instance = s.whole.now; scales = s.scales } };

    ghost invariant = { λ s. HasRoom s.whole.now s.set.whole s.state s.closers.items
        × (s.own ≡ record { instance = s.whole.now; scales = s.scales }) };
}

// Makes the room of a closing, for each number of boxes up to this one that has none.
fn ensure_closers(
    alloc: Global,
    dims: u32,
    boxes: u32,
    closers: &mut Vec<Closer>,
) -> Result<(), NoMemory>
    requires dims { IsDimCount dims }
    requires few { boxes ≤ max_boxes }
    requires rooms { AreClosers dims closers.old.items }
    ensures rooms { AreClosers dims closers.new.items }
    ensures enough { OnOk result (boxes ≤ length closers.new.items) }
{
    while closers.len() < boxes as usize {
        let closer = Closer::new(alloc, dims, closers.len() as u32 + 1)?;
        let Ok(()) = closers.push(closer) else {
            return Err(NoMemory);
        };
    }
    Ok(())
}

impl<'a> SetSearch<'a> {
    /// The decisions of sets of the boxes of an instance, with conservative scales or without.
    pub fn new(
        alloc: Global,
        instance: &'a Instance,
        scales: bool,
    ) -> Result<SetSearch<'a>, NoMemory>
        ensures { IfOk result (λ s. s ≡ record { instance = instance.now; scales = scales }) }
    {
        let known = SharedSets::new(alloc, instance, scales)?;
        let Ok(shared) = Arc::new(alloc, known) else {
            return Err(NoMemory);
        };
        let own = KnownSets::new(alloc, instance, scales);
        let idle = IdleSearch::new(alloc, instance, scales, own, shared)?;
        let mut search = SetSearch::of_idle(alloc, idle, 0);
        search.is_of_task = false;
        Ok(search)
    }

    // The search of a task, which goes on with these parts. Its own pool is empty.
    fn of_idle(alloc: Global, idle: IdleSearch<'a>, set_budget: u64) -> SetSearch<'a>
        ensures { result ≡ idle.entry }
    {
        SetSearch {
            own: idle.own,
            whole: idle.whole,
            scales: idle.scales,
            set: idle.set,
            state: idle.state,
            closers: idle.closers,
            shared: idle.shared,
            is_of_task: true,
            set_budget,
            spare: idle.spare,
            pool: SearchPool::new(alloc),
        }
    }

    // The parts of a search whose task is done.
    fn into_idle(self) -> IdleSearch<'a> {
        IdleSearch {
            whole: self.whole,
            scales: self.scales,
            set: self.set,
            state: self.state,
            closers: self.closers,
            own: self.own,
            shared: self.shared,
            spare: self.spare,
        }
    }

    /// Returns a search of the same sets for a task: one of the pool, or else a new one. It knows
    /// what the searches of other tasks have decided, and it decides each set under at least
    /// `set_budget`, so that more is known of it when it comes again.
    pub fn take(&self, alloc: Global, set_budget: u64) -> Result<SetSearch<'a>, NoMemory>
        ensures { IfOk result (λ s. s ≡ self.now) }
    {
        if let Some(idle) = self.pool.take(self.whole, self.scales) {
            return Ok(SetSearch::of_idle(alloc, idle, set_budget));
        }
        let Ok(shared) = Arc::try_clone(&self.shared) else {
            return Err(NoMemory);
        };
        let own = KnownSets::small(alloc, self.whole, self.scales);
        let idle = IdleSearch::new(alloc, self.whole, self.scales, own, shared)?;
        Ok(SetSearch::of_idle(alloc, idle, set_budget))
    }

    /// Puts the search of a task into the pool, where at most 64 of them wait. It is dropped
    /// instead if the pool is full or in use, or out of memory. Nothing is promised of what the
    /// pool holds.
    pub fn give(&self, search: SetSearch<'a>) {
        self.pool.put(search.into_idle());
    }

    // Room for a set, which holds anything.
    pub(crate) fn take_spare(&mut self, alloc: Global) -> Vec<u32>
        ensures { self.new ≡ self.old }
    {
        mem::replace(&mut self.spare, Vec::new(alloc))
    }

    // Keeps the room of a set that isn't needed any more.
    pub(crate) fn put_spare(&mut self, set: Vec<u32>)
        ensures { self.new ≡ self.old }
    {
        self.spare = set;
    }

    // Decides a set by a search.
    fn decide_anew(&mut self, alloc: Global, keep: &[u32], budget: u64) -> Result<Outcome, NoMemory>
        requires some { 1 ≤ length keep.now }
        requires set { IsBoxSet self.old.instance keep.now }
        ensures same { self.new ≡ self.old }
        ensures outcome { IfOk result (λ r. plain_outcome r
            ≡ under_budget budget (set_verdict self.old.instance self.old.scales keep.now)) }
    {
        // For the proof alone: states the limits of the instance.
        let _limits = self.whole.len();
        let boxes = keep.len() as u32;
        ensure_closers(alloc, self.whole.dims(), boxes, &mut self.closers)?;
        self.set.set_to(keep);
        self.state.resize(boxes);
        let closer = &mut self.closers[keep.len() - 1];
        let instance = self.set.instance();
        decide_in(
            alloc,
            instance,
            &mut self.state,
            closer,
            budget,
            self.scales,
        )
    }

    // The budget under which a set is decided that is asked for under this one.
    fn reach_of(&self, budget: u64) -> u64
        ensures { budget ≤ result }
    {
        budget.max(self.set_budget)
    }

    // Where the set of a key is kept. The search of a task copies it to its own sets first.
    pub(crate) fn locate(&mut self, alloc: Global, key: &SetKey) -> Source
        ensures { self.new ≡ self.old }
    {
        if !self.is_of_task || self.own.has(key) {
            return Source::Own;
        }
        if !self.shared.copy_to(alloc, key, &mut self.own) {
            return Source::Nowhere;
        }
        if self.own.has(key) {
            Source::Own
        } else {
            Source::Shared
        }
    }

    // Keeps what was found of a set under a budget.
    fn keep_found(
        &mut self,
        alloc: Global,
        keep: &[u32],
        key: &SetKey,
        budget: u64,
        found: &Outcome,
    )
        requires boxes { HasBoxes key.now.boxes keep.now }
        requires set { IsBoxSet self.old.instance keep.now }
        requires found { plain_outcome found.now
            ≡ under_budget budget (set_verdict self.old.instance self.old.scales keep.now) }
        ensures { self.new ≡ self.old }
    {
        self.own.keep(alloc, keep, key, budget, found);
        if self.is_of_task {
            self.shared
                .keep(self.whole, self.scales, alloc, keep, key, budget, found);
        }
    }

    // The outcome of a set of this key under a budget, if it is kept where it says.
    fn recall(
        &self,
        alloc: Global,
        source: Source,
        key: &SetKey,
        budget: u64,
    ) -> Result<Option<Outcome>, NoMemory>
        ensures { IfOk result (λ found. IfSome found (λ r. (keep : List ℕ)
            → HasBoxes key.now.boxes keep → IsBoxSet self.now.instance keep
            → plain_outcome r
            ≡ under_budget budget (set_verdict self.now.instance self.now.scales keep))) }
    {
        match source {
            Source::Own => self.own.recall(alloc, key, budget),
            Source::Shared => self
                .shared
                .recall(self.whole, self.scales, alloc, key, budget),
            Source::Nowhere => Ok(None),
        }
    }

    // The key of a set with one box more.
    pub(crate) fn key_with(&self, keep: &[u32], v: u32) -> SetKey
        requires { IsBoxSet self.now.instance (insert_box v keep.now) }
        ensures { HasBoxes result.boxes (insert_box v keep.now) }
    {
        // For the proof alone: states the limits of the instance.
        let _limits = self.whole.len();
        SetKey::of(keep).with(v)
    }

    // The count of a set of this key that is kept as refuted where it says, within the budget: that
    // is appended to the tokens, and what refutes it. Else the tokens are as before.
    pub(crate) fn recall_refuted(
        &self,
        alloc: Global,
        source: Source,
        key: &SetKey,
        budget: u64,
        bin: Option<u32>,
        tokens: &mut CompactTokens,
    ) -> Result<Option<u64>, NoMemory>
        ensures appended { IfOk result (λ found. (keep : List ℕ) → HasBoxes key.now.boxes keep
            → IsBoxSet self.now.instance keep
            → IsAppendedNo (set_verdict self.now.instance self.now.scales keep) budget bin
            tokens.old tokens.new found) }
        ensures front { OnErr result (AreLonger tokens.old tokens.new) }
    {
        match source {
            Source::Own => self.own.recall_refuted(alloc, key, budget, bin, tokens),
            Source::Shared => self
                .shared
                .recall_refuted(self.whole, self.scales, alloc, key, budget, bin, tokens),
            Source::Nowhere => Ok(None),
        }
    }

    /// Whether the boxes of a set, by rising number, fit: the outcome of the set's class tree where
    /// its count is at most the budget, and `Past` exactly where it is greater. There is at least
    /// one box.
    pub fn decide(&mut self, alloc: Global, keep: &[u32], budget: u64) -> Result<Outcome, NoMemory>
        requires some { 1 ≤ length keep.now }
        requires set { IsBoxSet self.old.instance keep.now }
        ensures same { self.new ≡ self.old }
        ensures outcome { IfOk result (λ r. plain_outcome r
            ≡ under_budget budget (set_verdict self.old.instance self.old.scales keep.now)) }
        ensures right { IfOk result (λ r.
            IsRight (subset self.old.instance keep.now) [] (plain_outcome r)) }
    {
        // For the proof alone: states the limits of the instance.
        let _limits = self.whole.len();
        let key = SetKey::of(keep);
        let source = self.locate(alloc, &key);
        self.decide_by(alloc, source, keep, &key, budget)
    }

    // The same of a set whose key is given, and where it is kept.
    pub(crate) fn decide_by(
        &mut self,
        alloc: Global,
        source: Source,
        keep: &[u32],
        key: &SetKey,
        budget: u64,
    ) -> Result<Outcome, NoMemory>
        requires some { 1 ≤ length keep.now }
        requires boxes { HasBoxes key.now.boxes keep.now }
        requires set { IsBoxSet self.old.instance keep.now }
        ensures same { self.new ≡ self.old }
        ensures outcome { IfOk result (λ r. plain_outcome r
            ≡ under_budget budget (set_verdict self.old.instance self.old.scales keep.now)) }
        ensures right { IfOk result (λ r.
            IsRight (subset self.old.instance keep.now) [] (plain_outcome r)) }
    {
        // For the proof alone: states the limits of the instance.
        let _limits = self.whole.len();
        if let Some(outcome) = self.recall(alloc, source, key, budget)? {
            return Ok(outcome);
        }
        let reach = self.reach_of(budget);
        let outcome = self.decide_anew(alloc, keep, reach)?;
        self.keep_found(alloc, keep, key, reach, &outcome);
        Ok(capped_outcome(outcome, budget))
    }
}
