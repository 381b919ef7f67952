//! The memory of decided sets.
ghost use Rattle.std.specs.Prelude.{◌≡◌, ◌⊎◌, [], map, IfOk, IfSome, OnErr};
ghost use Rattle.std.specs.List.{All, Contains};
ghost use Rattle.work_share.specs.Outcomes.{plain_outcome};
ghost use Rattle.proof_tree.specs.Shorts.{AreLonger};
ghost use Rattle.set_search.specs.Entries.{plain_entry};
ghost use Rattle.set_search.specs.Memories.{IsEntryOf, IsPut, IsCopied, IsRecalled, IsRecalledNo, plain_size};

use crate::kept::{copy_of, count_of, is_cut_off, push_refuted, serves, size_of};
use crate::key::SetKey;
use box_instances::NoMemory;
use edge_state::BitRow;
use proof_tree::{CompactTokens, Outcome};
use std::alloc::Global;
use std::marker::Model;
use std::mem;

// At most `MAX_SETS` sets are kept, each at a place of its own.
const MAX_SETS: usize = 65_536;

// The number of places at first. There are eight times as many where half of them have a set, so a
// run of few sets touches little memory. A small memory has no more: it serves one worker, and all
// 64 together hold as many sets as those that they share.
const FIRST_PLACES: usize = 1_024;

// A shard is one of this many parts of the sets that workers share: together they hold `MAX_SETS`.
pub(crate) const SHARDS: usize = 32;

// A set stands at the place of its key, or at one of the next ones, `PROBE_LIMIT` places in all.
// With one place for each key, sets whose keys agree would drive one another out, at each level
// anew.
const PROBE_LIMIT: usize = 8;

// At most `KEPT_A_PLACE` numbers and tokens are kept for each place, 4,194,304 in all.
const KEPT_A_PLACE: usize = 64;

// A decided set: its outcome under a budget, which is past if its search was cut off there.
#[derive(Drop)]
pub struct Entry {
    boxes: BitRow<2>,
    budget: u64,
    kept: Outcome,
}

/// Decided sets with their outcomes. It is seen as its entries, in no order.
///
/// A set has eight places by its key. Where other sets have all of them, it takes the first from an
/// older one. So at most 65,536 sets are held, with at most 4,194,304 numbers and tokens together;
/// in a shard 2,048 sets with 131,072; and in a small memory 1,024 sets with 65,536. The last two
/// forget all of them when they are full: a task that is begun anew by its children asks for the
/// sets that were decided last. What would be more, and for what there is no memory, isn't kept. It
/// takes no memory before the first set is kept.
#[derive(Drop)]
pub struct SetCache {
    // The number of the entry at each place, from 1 on, and 0 where there is none.
    places: Vec<u32>,
    entries: Vec<Entry>,
    kept: usize,
    most_places: usize,
    forgets: bool,
}

impl Model for SetCache {
    ghost use Rattle.std.specs.Prelude.{List, map};
    ghost use Rattle.set_search.specs.Memories.{PlainEntry};
    ghost use Rattle.set_search.specs.Entries.{plain_entry};

    ghost Value = { List PlainEntry };

    ghost view = { λ m. map plain_entry m.entries.items };
}

impl Entry {
    // How many numbers and tokens it held, which are given up.
    fn size_given_up(self) -> usize
        ensures { result ≡ plain_size (plain_outcome self.kept) }
    {
        size_of(&self.kept)
    }
}

impl SetCache {
    // A memory of no set, with this many places at most.
    fn of_places(alloc: Global, most_places: usize, forgets: bool) -> SetCache
        ensures { result ≡ [] }
    {
        SetCache {
            places: Vec::new(alloc),
            entries: Vec::new(alloc),
            kept: 0,
            most_places,
            forgets,
        }
    }

    /// A memory of no set.
    pub fn new(alloc: Global) -> SetCache
        ensures { result ≡ [] }
    {
        SetCache::of_places(alloc, MAX_SETS, false)
    }

    /// A shard of no set.
    pub fn shard(alloc: Global) -> SetCache
        ensures { result ≡ [] }
    {
        SetCache::of_places(alloc, MAX_SETS / SHARDS, true)
    }

    /// A small memory of no set.
    pub fn small(alloc: Global) -> SetCache
        ensures { result ≡ [] }
    {
        SetCache::of_places(alloc, FIRST_PLACES, true)
    }

    /// Whether an outcome would be more than the memory holds.
    pub(crate) fn is_full_for(&self, outcome: &Outcome) -> bool {
        let most = self.most_places.saturating_mul(KEPT_A_PLACE);
        self.kept.saturating_add(size_of(outcome)) > most
    }

    /// Whether the set of a key is kept, decided or cut off.
    pub(crate) fn has(&self, key: &SetKey) -> bool {
        self.entry_of(key).is_some()
    }

    // The number that stands at a place.
    fn number_at(&self, place: usize) -> usize {
        if place < self.places.len() {
            self.places[place] as usize
        } else {
            0
        }
    }

    // Whether an entry's number is that of a set.
    fn is_number_of(&self, number: usize, key: &SetKey) -> bool {
        number > 0 && number <= self.entries.len() && self.entries[number - 1].boxes == key.boxes
    }

    // The place of a set that is kept, or else the place for it: the first that is free among those
    // of its key, or, where none is, the first of them.
    fn probe(&self, key: &SetKey) -> usize {
        // The number of places is a power of two.
        let last = self.places.len().saturating_sub(1);
        let first = key.place();
        for k in 0..PROBE_LIMIT {
            let place = first.wrapping_add(k) & last;
            let number = self.number_at(place);
            if number == 0 || self.is_number_of(number, key) {
                return place;
            }
        }
        first & last
    }

    // The entry of a set, if it is kept.
    fn entry_of(&self, key: &SetKey) -> Option<&Entry>
        ensures { IfSome result (λ e. IsEntryOf self.now key.now.boxes (plain_entry e.now)) }
    {
        let number = self.number_at(self.probe(key));
        if number == 0 || number > self.entries.len() {
            return None;
        }
        let entry = &self.entries[number - 1];
        if entry.boxes != key.boxes {
            return None;
        }
        Some(entry)
    }

    /// The count of a set that is kept as refuted, with a count of at most the budget: to the
    /// tokens is appended that the set of a bin, or of the boxes that are in, is refuted, and what
    /// refutes it. Else the tokens are as before.
    pub fn recall_refuted(
        &self,
        alloc: Global,
        key: &SetKey,
        budget: u64,
        bin: Option<u32>,
        tokens: &mut CompactTokens,
    ) -> Result<Option<u64>, NoMemory>
        ensures found { IfOk result (λ found. IsRecalledNo self.now key.now.boxes budget bin
            tokens.old tokens.new found) }
        ensures front { OnErr result (AreLonger tokens.old tokens.new) }
    {
        let Some(entry) = self.entry_of(key) else {
            return Ok(None);
        };
        push_refuted(&entry.kept, alloc, budget, bin, tokens)
    }

    /// The outcome of a set under a budget, if the set is kept. One whose search was cut off is
    /// past up to the budget of that search, and unknown under a greater one.
    pub fn recall(
        &self,
        alloc: Global,
        key: &SetKey,
        budget: u64,
    ) -> Result<Option<Outcome>, NoMemory>
        ensures { IfOk result (λ found. IfSome found
            (λ r. IsRecalled self.now key.now.boxes budget (plain_outcome r))) }
    {
        let Some(entry) = self.entry_of(key) else {
            return Ok(None);
        };
        if !serves(&entry.kept, entry.budget, budget) {
            return Ok(None);
        }
        if count_of(&entry.kept) > budget {
            return Ok(Some(Outcome::Past));
        }
        let outcome = copy_of(alloc, &entry.kept)?;
        Ok(Some(outcome))
    }

    // Puts the entry of a number at a place of its key.
    fn place_entry(&mut self, number: usize)
        ensures { self.new ≡ self.old }
    {
        if number == 0 || number > self.entries.len() {
            return;
        }
        let key = SetKey::of_row(self.entries[number - 1].boxes);
        let place = self.probe(&key);
        if place < self.places.len() && number <= MAX_SETS {
            self.places[place] = number as u32;
        }
    }

    // Puts each entry at a place of its key.
    fn place_entries(&mut self)
        ensures { self.new ≡ self.old }
    {
        for number in 1..=self.entries.len() {
            self.place_entry(number);
        }
    }

    // Takes places, or more of them where half of them have an entry. Answers whether there are
    // any.
    fn grow_table(&mut self, alloc: Global) -> bool
        ensures { self.new ≡ self.old }
    {
        let count = self.places.len();
        if count >= self.most_places || self.entries.len() < count / 2 {
            return true;
        }
        let wanted = count
            .saturating_mul(8)
            .max(FIRST_PLACES)
            .min(self.most_places);
        let Ok(places) = vec![in alloc; 0; wanted] else {
            return count > 0;
        };
        self.places = places;
        self.place_entries();
        true
    }

    // Counts an entry in the place of another one, or of none.
    fn count_in(&mut self, size: usize, gone: usize)
        ensures { self.new ≡ self.old }
    {
        self.kept = self.kept.saturating_sub(gone).saturating_add(size);
    }

    // Puts an entry in the place of another one.
    fn replace(&mut self, index: usize, entry: Entry)
        ensures { All (IsPut self.old (plain_entry entry)) self.new }
    {
        if index < self.entries.len() {
            let size = size_of(&entry.kept);
            let gone = mem::replace(&mut self.entries[index], entry);
            self.count_in(size, gone.size_given_up());
        }
    }

    // Puts an entry at a place that has none.
    fn add(&mut self, place: usize, entry: Entry)
        ensures { All (IsPut self.old (plain_entry entry)) self.new }
    {
        let size = size_of(&entry.kept);
        let number = self.entries.len() + 1;
        if number > MAX_SETS || place >= self.places.len() {
            return;
        }
        let Ok(()) = self.entries.push(entry) else {
            return;
        };
        self.places[place] = number as u32;
        self.kept = self.kept.saturating_add(size);
    }

    // Whether an outcome says less of its set than what is kept: its search was cut off, and the
    // set is decided.
    fn knows_more(&self, key: &SetKey, outcome: &Outcome) -> bool {
        if !is_cut_off(outcome) {
            return false;
        }
        match self.entry_of(key) {
            Some(entry) => !is_cut_off(&entry.kept),
            None => false,
        }
    }

    // Puts an entry at a place of its key.
    fn put(&mut self, key: &SetKey, entry: Entry)
        ensures { All (IsPut self.old (plain_entry entry)) self.new }
    {
        let place = self.probe(key);
        let number = self.number_at(place);
        if number > 0 {
            self.replace(number - 1, entry);
        } else {
            self.add(place, entry);
        }
    }

    // Forgets all sets of a small memory or a shard that is full for an outcome.
    fn make_room(&mut self, alloc: Global, outcome: &Outcome)
        ensures { (self.new ≡ self.old) ⊎ (self.new ≡ []) }
    {
        if self.forgets && self.is_full_for(outcome) {
            *self = SetCache::of_places(alloc, self.most_places, true);
        }
    }

    /// Keeps the outcome of a set under a budget, which may take the place of another set.
    pub fn keep(&mut self, alloc: Global, key: &SetKey, budget: u64, outcome: &Outcome)
        ensures { All (IsPut self.old (record {
          boxes = key.now.boxes;
          budget = budget;
          outcome = plain_outcome outcome.now;
        })) self.new }
    {
        self.make_room(alloc, outcome);
        self.keep_within(alloc, key, budget, outcome);
    }

    // Like `keep`, without room being made.
    fn keep_within(&mut self, alloc: Global, key: &SetKey, budget: u64, outcome: &Outcome)
        ensures { All (IsPut self.old (record {
          boxes = key.now.boxes;
          budget = budget;
          outcome = plain_outcome outcome.now;
        })) self.new }
    {
        if self.is_full_for(outcome) || self.knows_more(key, outcome) || !self.grow_table(alloc) {
            return;
        }
        let Ok(kept) = copy_of(alloc, outcome) else {
            return;
        };
        let entry = Entry {
            boxes: key.boxes,
            budget,
            kept,
        };
        self.put(key, entry);
    }

    /// Keeps in another memory what is kept of the set of a key. Answers whether there is anything.
    pub(crate) fn copy_to(&self, alloc: Global, key: &SetKey, other: &mut SetCache) -> bool
        ensures { All (IsCopied self.now other.old) other.new }
    {
        let Some(entry) = self.entry_of(key) else {
            return false;
        };
        other.keep(alloc, key, entry.budget, &entry.kept);
        true
    }
}
