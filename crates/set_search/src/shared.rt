//! The decided sets that the workers of a job share.
ghost use Rattle.std.specs.Prelude.{◌≡◌, List, ℕ, IfOk, IfSome, OnErr};
ghost use Rattle.packing_terms.specs.Goals.{IsBoxSet};
ghost use Rattle.proof_tree.specs.Shorts.{AreLonger};
ghost use Rattle.set_search.specs.Memories.{HasBoxes, IsAppendedNo};
ghost use Rattle.tree_terms.specs.Trees.{under_budget};
ghost use Rattle.tree_terms.specs.OuterTrees.{set_verdict};
ghost use Rattle.work_share.specs.Outcomes.{plain_outcome};

use crate::cache::SHARDS;
use crate::key::SetKey;
use crate::known::KnownSets;
use box_instances::{Instance, NoMemory};
use proof_tree::{CompactTokens, Outcome};
use std::alloc::Global;
use std::hint::spin_loop;
use std::sync::{Mutex, MutexGuard};

// Lock attempts before giving up. A holder looks up or copies one outcome, which mostly takes less
// time than this many attempts.
const MAX_LOCK_TRIES: u32 = 10_000;

// Decided sets in shards, each behind a lock of its own: with one lock for all of them, four
// workers spent a quarter of their processor time waiting for it. Nothing is known of what another
// worker left there, so a shard is tested for its instance at each call. No call blocks: while
// another worker stays in the shard, a set counts as not decided, and what is found of one isn't
// kept.
#[derive(Drop)]
pub(crate) struct SharedSets<'a> {
    shards: Vec<Mutex<KnownSets<'a>>>,
}

impl<'a> SharedSets<'a> {
    // No set of an instance.
    pub(crate) fn new(
        alloc: Global,
        whole: &'a Instance,
        scales: bool,
    ) -> Result<SharedSets<'a>, NoMemory> {
        let mut shards = Vec::new(alloc);
        for _ in 0..SHARDS {
            let shard = Mutex::new(KnownSets::shard(alloc, whole, scales));
            let Ok(()) = shards.push(shard) else {
                return Err(NoMemory);
            };
        }
        Ok(SharedSets { shards })
    }

    // Locks the shard of a set, unless another worker stays in it.
    fn enter(&self, key: &SetKey) -> Option<MutexGuard<'_, KnownSets<'a>>> {
        let shard = self.shards.get(key.shard())?;
        for _ in 0..MAX_LOCK_TRIES {
            if let Some(guard) = shard.try_lock() {
                return Some(guard);
            }
            spin_loop();
        }
        None
    }

    // The count of a set of this key that is kept as refuted, within the budget: that is appended
    // to the tokens, and what refutes it. Else the tokens are as before.
    pub(crate) fn recall_refuted(
        &self,
        instance: &Instance,
        scales: bool,
        alloc: Global,
        key: &SetKey,
        budget: u64,
        bin: Option<u32>,
        tokens: &mut CompactTokens,
    ) -> Result<Option<u64>, NoMemory>
        ensures appended { IfOk result (λ found. (keep : List ℕ) → HasBoxes key.now.boxes keep
            → IsBoxSet instance.now keep
            → IsAppendedNo (set_verdict instance.now scales keep) budget bin
            tokens.old tokens.new found) }
        ensures front { OnErr result (AreLonger tokens.old tokens.new) }
    {
        let Some(guard) = self.enter(key) else {
            return Ok(None);
        };
        let known = &*guard;
        if !known.are_of(instance, scales) {
            return Ok(None);
        }
        known.recall_refuted(alloc, key, budget, bin, tokens)
    }

    // The outcome of a set of this key under a budget, if it is kept.
    pub(crate) fn recall(
        &self,
        instance: &Instance,
        scales: bool,
        alloc: Global,
        key: &SetKey,
        budget: u64,
    ) -> Result<Option<Outcome>, NoMemory>
        ensures { IfOk result (λ found. IfSome found (λ r. (keep : List ℕ)
            → HasBoxes key.now.boxes keep → IsBoxSet instance.now keep
            → plain_outcome r ≡ under_budget budget (set_verdict instance.now scales keep))) }
    {
        let Some(guard) = self.enter(key) else {
            return Ok(None);
        };
        let known = &*guard;
        if !known.are_of(instance, scales) {
            return Ok(None);
        }
        known.recall(alloc, key, budget)
    }

    // Copies what is kept of the set of a key to the sets of one worker. Answers whether there is
    // anything, which the worker's own memory may have been too small for.
    pub(crate) fn copy_to(&self, alloc: Global, key: &SetKey, own: &mut KnownSets<'_>) -> bool
        ensures { own.new ≡ own.old }
    {
        let Some(guard) = self.enter(key) else {
            return false;
        };
        let known = &*guard;
        // Most sets that are looked for here are new: the test of the instance takes longer.
        if !known.has(key) || !known.are_same_as(own) {
            return false;
        }
        known.copy_to(alloc, key, own)
    }

    // Keeps what was found of a set under a budget.
    pub(crate) fn keep(
        &self,
        instance: &Instance,
        scales: bool,
        alloc: Global,
        keep: &[u32],
        key: &SetKey,
        budget: u64,
        found: &Outcome,
    )
        requires boxes { HasBoxes key.now.boxes keep.now }
        requires set { IsBoxSet instance.now keep.now }
        requires found { plain_outcome found.now
            ≡ under_budget budget (set_verdict instance.now scales keep.now) }
    {
        let Some(mut guard) = self.enter(key) else {
            return;
        };
        let known = &mut *guard;
        if known.are_of(instance, scales) {
            known.keep(alloc, keep, key, budget, found);
        }
    }
}
