//! A run of levels, followed decision by decision.
ghost use Rattle.std.specs.Prelude.{◌≡◌, true, MatchOption};
ghost use Rattle.tree_terms.specs.Levels.{is_run_over, halfway, moved};
ghost use Rattle.level_search.specs.Runs.{plain_level, plain_reached, first_two, IsNext};

use crate::{Level, Reached};
use proof_tree::CompactTokens;

impl Reached {
    /// The first two levels of a run: the tokens refute the one, and the numbers show the other.
    pub fn starting(refuted: u64, tokens: CompactTokens, placed: u64, numbers: Vec<u32>) -> Reached
        ensures { plain_reached result
            ≡ first_two refuted tokens placed numbers.items }
    {
        Reached {
            refuted,
            tokens,
            placed,
            numbers,
            spent: false,
        }
    }

    // Whether the run ends here.
    fn is_over(&self) -> bool
        ensures { result ≡ is_run_over (plain_reached self.now) }
    {
        self.spent || self.refuted.abs_diff(self.placed) < 2
    }

    /// The level that is decided next: the one halfway between the two, rounded down. None comes
    /// exactly where the run is over: a decision was spent, or the two levels are neighbours.
    pub fn next_level(&self) -> Option<u64>
        ensures { MatchOption result (is_run_over (plain_reached self.now) ≡ true)
            (IsNext (plain_reached self.now)) }
    {
        if self.is_over() {
            return None;
        }
        Some(self.refuted.min(self.placed) + self.refuted.abs_diff(self.placed) / 2)
    }

    /// Where the run stands after the answer at a level: a level that is reached is the next placed
    /// one, and one that isn't the next refuted one.
    pub fn after(self, level: u64, answer: Level) -> Reached
        ensures { plain_reached result ≡ moved (plain_reached self) level (plain_level answer) }
    {
        let mut reached = self;
        match answer {
            Level::Fits(numbers) => {
                reached.placed = level;
                reached.numbers = numbers;
            }
            Level::Refuted(tokens) => {
                reached.refuted = level;
                reached.tokens = tokens;
            }
            Level::Spent => reached.spent = true,
        }
        reached
    }
}
