//! Decided sets of one instance.
ghost use Rattle.std.specs.Prelude.{◌≡◌, true, List, ℕ, IfOk, IfSome, OnErr};
ghost use Rattle.packing_terms.specs.Goals.{IsBoxSet};
ghost use Rattle.proof_tree.specs.Shorts.{AreLonger};
ghost use Rattle.set_search.specs.Memories.{HasBoxes, IsAppendedNo};
ghost use Rattle.tree_terms.specs.Trees.{under_budget};
ghost use Rattle.tree_terms.specs.OuterTrees.{set_verdict};
ghost use Rattle.work_share.specs.Outcomes.{plain_outcome};

use crate::cache::SetCache;
use crate::key::SetKey;
use box_instances::{Instance, NoMemory};
use class_search::are_same_instances;
use proof_tree::{CompactTokens, Outcome};
use std::alloc::Global;
use std::marker::Model;

// Decided sets of one instance. They are seen as the instance and the choice of scales.
#[derive(Drop)]
pub(crate) struct KnownSets<'a> {
    whole: &'a Instance,
    scales: bool,
    memory: SetCache,
}

impl<'a> Model for KnownSets<'a> {
    ghost use Rattle.set_search.specs.Searches.{PlainSetSearch};
    ghost use Rattle.set_search.specs.Memories.{AreVerdicts};

    ghost Value = { PlainSetSearch };

    ghost view = { λ s. record { instance = s.whole.now; scales = s.scales } };

    ghost invariant = { λ s. AreVerdicts s.whole.now s.scales s.memory };
}

impl<'a> KnownSets<'a> {
    // No set of an instance.
    pub(crate) fn new(alloc: Global, whole: &'a Instance, scales: bool) -> KnownSets<'a>
        ensures { result ≡ record { instance = whole.now; scales = scales } }
    {
        KnownSets {
            whole,
            scales,
            memory: SetCache::new(alloc),
        }
    }

    // No set of an instance, in a shard of the sets that workers share.
    pub(crate) fn shard(alloc: Global, whole: &'a Instance, scales: bool) -> KnownSets<'a>
        ensures { result ≡ record { instance = whole.now; scales = scales } }
    {
        KnownSets {
            whole,
            scales,
            memory: SetCache::shard(alloc),
        }
    }

    // No set of an instance, with a small memory, which forgets its sets when it is full.
    pub(crate) fn small(alloc: Global, whole: &'a Instance, scales: bool) -> KnownSets<'a>
        ensures { result ≡ record { instance = whole.now; scales = scales } }
    {
        KnownSets {
            whole,
            scales,
            memory: SetCache::small(alloc),
        }
    }

    // Whether they are of this instance and choice of scales.
    pub(crate) fn are_of(&self, instance: &Instance, scales: bool) -> bool
        ensures { result ≡ true
            → self.now ≡ record { instance = instance.now; scales = scales } }
    {
        self.scales == scales && are_same_instances(self.whole, instance)
    }

    // Whether other sets are of the same instance and choice of scales.
    pub(crate) fn are_same_as(&self, other: &KnownSets<'_>) -> bool
        ensures { result ≡ true → self.now ≡ other.now }
    {
        self.are_of(other.whole, other.scales)
    }

    // The count of a set of this key that is kept as refuted, within the budget: that is appended
    // to the tokens, and what refutes it. Else the tokens are as before.
    pub(crate) fn recall_refuted(
        &self,
        alloc: Global,
        key: &SetKey,
        budget: u64,
        bin: Option<u32>,
        tokens: &mut CompactTokens,
    ) -> Result<Option<u64>, NoMemory>
        ensures appended { IfOk result (λ found. (keep : List ℕ) → HasBoxes key.now.boxes keep
            → IsBoxSet self.now.instance keep
            → IsAppendedNo (set_verdict self.now.instance self.now.scales keep) budget bin
            tokens.old tokens.new found) }
        ensures front { OnErr result (AreLonger tokens.old tokens.new) }
    {
        self.memory.recall_refuted(alloc, key, budget, bin, tokens)
    }

    // The outcome of a set of this key under a budget, if it is kept.
    pub(crate) fn recall(
        &self,
        alloc: Global,
        key: &SetKey,
        budget: u64,
    ) -> Result<Option<Outcome>, NoMemory>
        ensures { IfOk result (λ found. IfSome found (λ r. (keep : List ℕ)
            → HasBoxes key.now.boxes keep → IsBoxSet self.now.instance keep
            → plain_outcome r
            ≡ under_budget budget (set_verdict self.now.instance self.now.scales keep))) }
    {
        self.memory.recall(alloc, key, budget)
    }

    // Whether the set of a key is kept, decided or cut off.
    pub(crate) fn has(&self, key: &SetKey) -> bool {
        self.memory.has(key)
    }

    // Keeps what was found of a set under a budget.
    pub(crate) fn keep(
        &mut self,
        alloc: Global,
        keep: &[u32],
        key: &SetKey,
        budget: u64,
        found: &Outcome,
    )
        requires boxes { HasBoxes key.now.boxes keep.now }
        requires set { IsBoxSet self.old.instance keep.now }
        requires found { plain_outcome found.now
            ≡ under_budget budget (set_verdict self.old.instance self.old.scales keep.now) }
        ensures { self.new ≡ self.old }
    {
        self.memory.keep(alloc, key, budget, found);
    }

    // Keeps elsewhere what is kept of the set of a key. Answers whether there is anything.
    pub(crate) fn copy_to(&self, alloc: Global, key: &SetKey, other: &mut KnownSets<'_>) -> bool
        requires { other.old ≡ self.now }
        ensures { other.new ≡ other.old }
    {
        self.memory.copy_to(alloc, key, &mut other.memory)
    }
}
