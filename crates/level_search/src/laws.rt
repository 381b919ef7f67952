//! What the steps of a run promise, the contract of a function with an empty body.
ghost use Rattle.std.specs.Prelude.{◌≡◌, ℕ, true};
ghost use Rattle.tree_terms.specs.Levels.{PlainLevel, PlainReached, moved, is_run_over, bisect_levels};
ghost use Rattle.level_search.specs.Runs.{IsNext};

/// A search that goes on by the answers at the levels that are next, until none is, comes to where
/// the run of levels over these answers ends: a step doesn't change where the run ends, and where
/// no level is next it has ended.
pub fn followed_runs_are_runs()
    ensures step { (answer : ℕ → PlainLevel) (r : PlainReached) (level : ℕ) → IsNext r level
        → bisect_levels answer (moved r level (answer level)) ≡ bisect_levels answer r }
    ensures end { (answer : ℕ → PlainLevel) (r : PlainReached) → is_run_over r ≡ true
        → bisect_levels answer r ≡ r }
{}
