//! A refuted level and a greater one that is placed, and what was asked between them.
ghost use Rattle.std.specs.Prelude.{◌≡◌, ◌<◌, suc, pred, MatchOption};
ghost use Rattle.level_search.specs.Runs.{plain_level};
ghost use Rattle.level_search.specs.Bounds.{plain_bounds, first_bounds, narrowed, without_attempts, middle, gap_of, updated_misses, IsAsked, IsAskedNext, IsAdjacentLevel, IsLevelAfterMisses, HasNoLevelLeft, IsInside, AreNeighbours};

use crate::Level;
use proof_tree::CompactTokens;

// After this number of undecided levels in a row, the levels right beside the ends are asked.
const MAX_MISSES: u32 = 3;

/// A level that the tokens refute, and a greater one that the numbers show.
///
/// Between the two, levels may have been asked of which neither was found. `lowest` is the least
/// level above the refuted one that was asked and not refuted, and `highest` the greatest one below
/// the placed one that was asked and not placed; where there are none these are the placed level
/// and the refuted one.
#[derive(Drop)]
pub struct Bounds {
    pub refuted: u64,
    pub tokens: CompactTokens,
    pub placed: u64,
    pub numbers: Vec<u32>,
    pub lowest: u64,
    pub highest: u64,
}

// The level halfway between two that aren't neighbours.
fn halfway(below: u64, above: u64) -> Option<u64>
    ensures inside { MatchOption result (AreNeighbours below above)
        (λ level. IsInside below above level) }
    ensures halfway { MatchOption result (Unit {0})
        (λ level. (suc below < above) × (level ≡ middle below above)) }
{
    let gap = above.saturating_sub(below);
    if gap < 2 {
        return None;
    }
    Some(below + gap / 2)
}

impl Bounds {
    /// A refuted level and a greater one that is placed, with nothing asked between them.
    pub fn new(refuted: u64, tokens: CompactTokens, placed: u64, numbers: Vec<u32>) -> Bounds
        ensures { plain_bounds result
            ≡ first_bounds refuted tokens placed numbers.items }
    {
        Bounds {
            refuted,
            tokens,
            placed,
            numbers,
            lowest: placed,
            highest: refuted,
        }
    }

    /// The same two levels, with nothing asked between them.
    pub fn without_attempts(self) -> Bounds
        ensures { plain_bounds result ≡ without_attempts (plain_bounds self) }
    {
        Bounds::new(self.refuted, self.tokens, self.placed, self.numbers)
    }

    /// The level that is asked next: the one halfway between the refuted level and the lowest, or,
    /// where these are neighbours, between the highest and the placed one. None comes exactly where
    /// these are neighbours too.
    pub fn next_level(&self) -> Option<u64>
        ensures asked { MatchOption result (HasNoLevelLeft (plain_bounds self.now))
            (IsAsked (plain_bounds self.now)) }
        ensures next { MatchOption result (Unit {0}) (IsAskedNext (plain_bounds self.now)) }
    {
        match halfway(self.refuted, self.lowest) {
            Some(level) => Some(level),
            None => halfway(self.highest, self.placed),
        }
    }

    /// The level right beside an end: the one above the refuted level, or, where that is the
    /// lowest, the one below the placed level. None comes exactly where that is the highest too.
    pub fn adjacent_level(&self) -> Option<u64>
        ensures asked { MatchOption result (HasNoLevelLeft (plain_bounds self.now))
            (IsAsked (plain_bounds self.now)) }
        ensures beside { MatchOption result (Unit {0}) (IsAdjacentLevel (plain_bounds self.now)) }
    {
        if self.lowest.saturating_sub(self.refuted) > 1 {
            return Some(self.refuted + 1);
        }
        if self.placed.saturating_sub(self.highest) > 1 {
            return Some(self.placed - 1);
        }
        None
    }

    /// The level that is asked after `misses` undecided levels in a row: that of `next_level`, and
    /// after three and more that of `adjacent_level`.
    ///
    /// An undecided level costs the whole budget. So where nothing can be decided it comes soon to
    /// the two levels beside the ends, and a wide gap costs no more than a narrow one; halved from
    /// both ends it cost twice as many levels as it has bits. Where the level beside an end is
    /// decided, more is, and it goes on halfway.
    pub fn next_level_after_misses(&self, misses: u32) -> Option<u64>
        ensures asked { MatchOption result (HasNoLevelLeft (plain_bounds self.now))
            (IsAsked (plain_bounds self.now)) }
        ensures next { MatchOption result (Unit {0})
            (IsLevelAfterMisses misses (plain_bounds self.now)) }
    {
        if misses < MAX_MISSES {
            self.next_level()
        } else {
            self.adjacent_level()
        }
    }

    /// How far the two levels are from one another.
    pub fn gap(&self) -> u64
        ensures { result ≡ gap_of (plain_bounds self.now) }
    {
        self.placed.saturating_sub(self.refuted)
    }

    /// The bounds after the answer at a level: it is the next placed one, the next refuted one, or
    /// one of which neither was found.
    pub fn after(self, level: u64, answer: Level) -> Bounds
        ensures { plain_bounds result ≡ narrowed (plain_bounds self) level (plain_level answer) }
    {
        let mut bounds = self;
        let is_low = level < bounds.lowest;
        let is_high = bounds.highest < level;
        match answer {
            Level::Fits(numbers) => {
                bounds.placed = level;
                bounds.numbers = numbers;
                bounds.lowest = if is_low { level } else { bounds.lowest };
                bounds.highest = if is_high {
                    bounds.highest
                } else {
                    bounds.refuted
                };
            }
            Level::Refuted(tokens) => {
                bounds.refuted = level;
                bounds.tokens = tokens;
                bounds.lowest = if is_low { bounds.lowest } else { bounds.placed };
                bounds.highest = if is_high { level } else { bounds.highest };
            }
            Level::Spent => {
                bounds.lowest = if is_low { level } else { bounds.lowest };
                bounds.highest = if is_high { level } else { bounds.highest };
            }
        }
        bounds
    }
}

/// How many levels in a row were undecided, after one more: none where that one narrowed the gap.
pub fn updated_misses(misses: u32, is_narrower: bool) -> u32
    ensures { result ≡ updated_misses misses is_narrower }
{
    if is_narrower {
        0
    } else {
        misses.saturating_add(1)
    }
}
