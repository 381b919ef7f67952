//! A set of numbers below 64 * K, in K words.
ghost use Rattle.std.specs.Prelude.{◌≡◌, ◌==◌, ◌<◌, ◌≤◌, ◌*◌, ◌/◌, ◌&&◌, ◌||◌, not, true, false, ℕ, [], ◌∷◌, slice_index, MatchOption};
ghost use Rattle.edge_state.specs.BitRows.{IsRowWidth, row_has, members_below, IsLeastMember};

use std::marker::Model;

/// A set of numbers below 64 * K. Its calls go over the words by fixed indices, so that a set of
/// few words stays in registers.
///
/// It is seen as its words: number x is in it where bit x % 64 of word x / 64 is set.
#[derive(Clone, Copy, Debug, PartialEq, Eq)]
pub struct BitRow<const K: usize> {
    words: [u64; K],
}

impl<const K: usize> Model for BitRow<K> {
    ghost use Rattle.std.specs.Prelude.{ℕ, List};

    ghost Value = { List ℕ };

    ghost view = { λ r. r.words };

    ghost inverse = { λ ws. record { words = ws } };
}

// The word in which a number stands. Where there is only one word, the number isn't looked at.
#[inline]
pub(crate) fn word_of<const K: usize>(number: u32) -> usize
    requires width { IsRowWidth K }
    requires number { number < 64 * K }
    ensures { result ≡ number / 64 }
{
    if K == 1 {
        return 0;
    }
    (number / 64) as usize
}

impl<const K: usize> BitRow<K> {
    /// The set with no member.
    #[inline]
    pub fn empty() -> Self
        requires { IsRowWidth K }
        ensures { (x : ℕ) → row_has result x ≡ false }
    {
        BitRow { words: [0; K] }
    }

    // The set whose first words are these, or its first numbers where it has one word.
    #[inline]
    pub(crate) fn of_words(first: u64, second: u64) -> Self
        requires { IsRowWidth K }
        ensures within { (x : ℕ) → x < 64 * K → row_has result x ≡ row_has (first ∷ second ∷ []) x }
        ensures beyond { (x : ℕ) → 64 * K ≤ x → row_has result x ≡ false }
    {
        let mut words = [0; K];
        words[0] = first;
        if K > 1 {
            words[1] = second;
        }
        BitRow { words }
    }

    // One of its words.
    #[inline]
    pub(crate) fn word(&self, at: usize) -> u64
        requires { at < K }
        ensures { result ≡ slice_index self.now at }
    {
        self.words[at]
    }

    /// Whether the number is in the set.
    #[inline]
    pub fn has(&self, number: u32) -> bool
        requires width { IsRowWidth K }
        requires number { number < 64 * K }
        ensures { result ≡ row_has self.now number }
    {
        self.words[word_of::<K>(number)] >> (number % 64) & 1 == 1
    }

    /// The set with the number in it.
    #[inline]
    pub fn with(self, number: u32) -> Self
        requires width { IsRowWidth K }
        requires number { number < 64 * K }
        ensures { (x : ℕ) → row_has result x ≡ row_has self.entry x || x == number }
    {
        let at = word_of::<K>(number);
        let mut words = self.words;
        for i in 0..K {
            if i == at {
                words[i] = words[i] | 1 << (number % 64);
            }
        }
        BitRow { words }
    }

    /// The set without the number.
    #[inline]
    pub fn without(self, number: u32) -> Self
        requires width { IsRowWidth K }
        requires number { number < 64 * K }
        ensures { (x : ℕ) → row_has result x ≡ row_has self.entry x && not (x == number) }
    {
        let at = word_of::<K>(number);
        let mut words = self.words;
        for i in 0..K {
            if i == at {
                words[i] = words[i] & !(1 << (number % 64));
            }
        }
        BitRow { words }
    }

    /// What is in both sets.
    #[inline]
    pub fn and(self, other: Self) -> Self
        requires { IsRowWidth K }
        ensures { (x : ℕ) → row_has result x ≡ row_has self.entry x && row_has other.entry x }
    {
        let mut words = self.words;
        for i in 0..K {
            words[i] = words[i] & other.words[i];
        }
        BitRow { words }
    }

    /// What is in one of the sets or in both.
    #[inline]
    pub fn or(self, other: Self) -> Self
        requires { IsRowWidth K }
        ensures { (x : ℕ) → row_has result x ≡ row_has self.entry x || row_has other.entry x }
    {
        let mut words = self.words;
        for i in 0..K {
            words[i] = words[i] | other.words[i];
        }
        BitRow { words }
    }

    /// What is in the first set and not in the other.
    #[inline]
    pub fn minus(self, other: Self) -> Self
        requires { IsRowWidth K }
        ensures { (x : ℕ) → row_has result x ≡ row_has self.entry x && not (row_has other.entry x) }
    {
        let mut words = self.words;
        for i in 0..K {
            words[i] = words[i] ^ words[i] & other.words[i];
        }
        BitRow { words }
    }

    /// Whether no number is in the set. The words are joined, so that no branch is taken for each.
    #[inline]
    pub fn is_empty(&self) -> bool
        requires { IsRowWidth K }
        ensures none { result ≡ true → (x : ℕ) → row_has self.now x ≡ false }
        ensures some { result ≡ false → (x : ℕ) × (row_has self.now x ≡ true) }
    {
        let mut all = 0;
        for i in 0..K {
            all = all | self.words[i];
        }
        all == 0
    }

    /// How many numbers are in the set.
    #[inline]
    pub fn count(&self) -> u32
        requires { IsRowWidth K }
        ensures { result ≡ members_below (row_has self.now) (64 * K) }
    {
        let mut count = 0;
        for i in 0..K {
            let word = self.words[i];
            count += word.count_ones();
        }
        count
    }

    /// The least number of the set, and `None` exactly where there is none.
    #[inline]
    pub fn first(&self) -> Option<u32>
        requires { IsRowWidth K }
        ensures least { MatchOption result ((x : ℕ) → row_has self.now x ≡ false)
            (IsLeastMember self.now) }
        ensures limit { MatchOption result (Unit {0}) (λ x. x < 64 * K) }
    {
        for i in 0..K {
            let word = self.words[i];
            if word != 0 {
                return Some(64 * i as u32 + word.trailing_zeros());
            }
        }
        None
    }
}
