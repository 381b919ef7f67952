//! Sets that were refuted, and sets that stayed undecided.
//!
//! Where boxes are equal the same set comes again and again: of 2,233 sets that are worth the goal
//! in a run on 30 boxes of 12 kinds 9 are different.

use box_instances::NoMemory;
use lenient_lists::pushed;
use proof_tree::{Token, copy_token};
use std::alloc::Global;

// The most sets, and the most tokens of their refutations in all, which take some 10 megabytes.
// Past either all are forgotten.
const MAX_SETS: usize = 2048;

const MAX_TOKENS: usize = 200_000;

/// A set that was explored: its key, where its kinds and its tokens begin and how many there are,
/// and the splits under which it stayed undecided, if there is no token.
#[derive(Clone, Copy)]
pub(crate) struct KnownSet {
    key: u64,
    first_kind: usize,
    kinds: usize,
    first_token: usize,
    tokens: usize,
    splits: u64,
}

impl KnownSet {
    /// Whether the set is refuted.
    pub(crate) fn is_refuted(&self) -> bool {
        self.tokens > 0
    }

    /// The splits under which the set stayed undecided.
    pub(crate) fn splits(&self) -> u64 {
        self.splits
    }
}

/// Sets by the kinds of their boxes.
#[derive(Drop)]
pub(crate) struct SetCache {
    sets: Vec<KnownSet>,
    kinds: Vec<u32>,
    tokens: Vec<Token>,
}

// The key of a row of kinds.
fn key_of(kinds: &[u32]) -> u64 {
    let mut key = kinds.len() as u64;
    for kind in kinds {
        key = (key ^ u64::from(*kind)).wrapping_mul(0x9e37_79b9_7f4a_7c15);
        key ^= key >> 29;
    }
    key
}

// Whether a row stands in a list from a position on.
fn stands_at(list: &[u32], first: usize, row: &[u32]) -> bool {
    for k in 0..row.len() {
        let position = first.saturating_add(k);
        if position >= list.len() || list[position] != row[k] {
            return false;
        }
    }
    true
}

impl SetCache {
    pub(crate) fn new(alloc: Global) -> SetCache {
        SetCache {
            sets: Vec::new(alloc),
            kinds: Vec::new(alloc),
            tokens: Vec::new(alloc),
        }
    }

    /// What is known of the set of these kinds, by the last time that it was explored.
    pub(crate) fn find(&self, kinds: &[u32]) -> Option<KnownSet> {
        let key = key_of(kinds);
        let count = self.sets.len();
        for behind in 0..count {
            let set = self.sets[count - 1 - behind];
            if set.key == key
                && set.kinds == kinds.len()
                && stands_at(&self.kinds, set.first_kind, kinds)
            {
                return Some(set);
            }
        }
        None
    }

    /// The refutation of a set.
    pub(crate) fn refutation(&self, alloc: Global, set: KnownSet) -> Result<Vec<Token>, NoMemory> {
        let mut tokens = Vec::new(alloc);
        for k in 0..set.tokens {
            let position = set.first_token.saturating_add(k);
            if position < self.tokens.len() {
                let Ok(()) = tokens.push(copy_token(alloc, &self.tokens[position])?) else {
                    return Err(NoMemory);
                };
            }
        }
        Ok(tokens)
    }

    // Forgets all sets if a further one with `tokens` tokens is over a limit.
    fn make_room(&mut self, tokens: usize) {
        if self.sets.len() >= MAX_SETS || self.tokens.len().saturating_add(tokens) > MAX_TOKENS {
            self.sets.clear();
            self.kinds.clear();
            self.tokens.clear();
        }
    }

    /// Remembers that a set is refuted by `tokens`, or if there are none, that it stayed undecided
    /// under `splits` splits.
    pub(crate) fn remember(
        &mut self,
        alloc: Global,
        kinds: &[u32],
        tokens: &[Token],
        splits: u64,
    ) -> Result<(), NoMemory> {
        self.make_room(tokens.len());
        let set = KnownSet {
            key: key_of(kinds),
            first_kind: self.kinds.len(),
            kinds: kinds.len(),
            first_token: self.tokens.len(),
            tokens: tokens.len(),
            splits,
        };
        for kind in kinds {
            pushed(&mut self.kinds, *kind)?;
        }
        for token in tokens {
            let Ok(()) = self.tokens.push(copy_token(alloc, token)?) else {
                return Err(NoMemory);
            };
        }
        pushed(&mut self.sets, set)
    }
}
