//! Rows of bits in as many words as their numbers need.
ghost use Rattle.std.specs.Prelude.{◌≡◌, ◌<◌, ◌≤◌, ◌*◌, ◌&&◌, ◌||◌, ◌==◌, not, false, true, ℕ, [], IfOk, length, replicate, set, slice_index, slice_index_or, if◌then◌else◌};
ghost use Rattle.edge_state.specs.BitRows.{IsRowWidth, row_has};
ghost use Rattle.edge_state.specs.RowTables.{filled_table, IsRowSet};

use crate::BitRow;
use crate::bit_row::word_of;
use box_instances::NoMemory;
use std::alloc::Global;
use std::marker::Model;

/// A list of rows, each a set of numbers below 64, or below 128 where the rows have a second word:
/// all have one, or none.
///
/// It is seen as the rows in two words, with the count of second words that are kept; a word that
/// isn't kept is 0.
#[derive(Drop)]
pub struct RowTable {
    first: Vec<u64>,
    second: Vec<u64>,
}

impl Model for RowTable {
    ghost use Rattle.std.specs.Prelude.{length};
    ghost use Rattle.edge_state.specs.RowTables.{PlainTable, paired_words};

    ghost Value = { PlainTable };

    ghost view = { λ t. record {
      rows = paired_words t.first.items t.second.items;
      seconds = length t.second.items;
    } };
}

// How many of `count` rows are kept with a second word.
fn seconds_of(count: usize, wide: bool) -> usize
    ensures { result ≡ (if wide then count else 0) }
{
    if wide { count } else { 0 }
}

impl RowTable {
    /// `count` times the same row, with a second word only where that is wanted.
    pub fn new(
        alloc: Global,
        count: usize,
        row: BitRow<2>,
        wide: bool,
    ) -> Result<RowTable, NoMemory>
        ensures { IfOk result (λ table. table ≡ filled_table count row wide) }
    {
        let Ok(first) = vec![in alloc; row.word(0); count] else {
            return Err(NoMemory);
        };
        let Ok(second) = vec![in alloc; row.word(1); seconds_of(count, wide)] else {
            return Err(NoMemory);
        };
        Ok(RowTable { first, second })
    }

    /// Makes one row this one, in the words that are kept.
    #[inline]
    pub fn write(&mut self, at: usize, row: BitRow<2>)
        requires at { at < length self.old.rows }
        requires kept { (x : ℕ) → 64 ≤ x → row_has row x ≡ true
            → (x < 128) × (at < self.old.seconds) }
        ensures { IsRowSet self.old self.new at (row_has row) }
    {
        self.first[at] = row.word(0);
        if at < self.second.len() {
            self.second[at] = row.word(1);
        }
    }

    /// How many rows there are.
    #[inline]
    pub fn len(&self) -> usize
        ensures { result ≡ length self.now.rows }
    {
        self.first.len()
    }

    // A word of a row, 0 where it isn't kept.
    #[inline]
    fn word(&self, at: usize, part: usize) -> u64
        requires { at < length self.now.rows }
        ensures value { result ≡ slice_index (slice_index_or self.now.rows at []) part }
        ensures words { length (slice_index_or self.now.rows at []) ≡ 2 }
    {
        if part == 0 {
            return self.first[at];
        }
        if part == 1 && at < self.second.len() {
            return self.second[at];
        }
        0
    }

    // Writes a word of a row that is kept.
    #[inline]
    fn put(&mut self, at: usize, part: usize, word: u64)
        requires at { at < length self.old.rows }
        requires part { part < 2 }
        requires kept { 0 < part → at < self.old.seconds }
        ensures { self.new ≡ record self.old {
          rows = set self.old.rows at
              (set (slice_index_or self.old.rows at []) part word);
        } }
    {
        if part == 0 {
            self.first[at] = word;
        } else {
            self.second[at] = word;
        }
    }

    /// The row in `K` words, which hold all of it or its first numbers.
    #[inline]
    pub fn row<const K: usize>(&self, at: usize) -> BitRow<K>
        requires width { IsRowWidth K }
        requires at { at < length self.now.rows }
        ensures within { (x : ℕ) → x < 64 * K
            → row_has result x ≡ row_has (slice_index_or self.now.rows at []) x }
        ensures beyond { (x : ℕ) → 64 * K ≤ x → row_has result x ≡ false }
    {
        BitRow::of_words(self.word(at, 0), self.word(at, 1))
    }

    /// Whether the number is in the row, read in rows of `K` words.
    #[inline]
    pub fn has<const K: usize>(&self, at: usize, number: u32) -> bool
        requires width { IsRowWidth K }
        requires at { at < length self.now.rows }
        requires number { number < 64 * K }
        ensures { result ≡ row_has (slice_index_or self.now.rows at []) number }
    {
        let part = word_of::<K>(number);
        let word = self.word(at, part);
        word >> (number % 64) & 1 == 1
    }

    /// Puts the number into the row, in rows of `K` words. Its word is kept.
    #[inline]
    pub fn insert<const K: usize>(&mut self, at: usize, number: u32)
        requires width { IsRowWidth K }
        requires at { at < length self.old.rows }
        requires number { number < 64 * K }
        requires most { number < 128 }
        requires kept { 64 ≤ number → at < self.old.seconds }
        ensures { IsRowSet self.old self.new at
            (λ x. row_has (slice_index_or self.old.rows at []) x || x == number) }
    {
        let part = word_of::<K>(number);
        let word = self.word(at, part);
        self.put(at, part, word | 1 << (number % 64));
    }

    /// Takes the number out of the row, in rows of `K` words. Its word is kept.
    #[inline]
    pub fn remove<const K: usize>(&mut self, at: usize, number: u32)
        requires width { IsRowWidth K }
        requires at { at < length self.old.rows }
        requires number { number < 64 * K }
        requires most { number < 128 }
        requires kept { 64 ≤ number → at < self.old.seconds }
        ensures { IsRowSet self.old self.new at
            (λ x. row_has (slice_index_or self.old.rows at []) x && not (x == number)) }
    {
        let part = word_of::<K>(number);
        let word = self.word(at, part);
        self.put(at, part, word & !(1 << (number % 64)));
    }
}
