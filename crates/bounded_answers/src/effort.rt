//! The effort of proposed trees under a budget.

use bounded_proposals::{BoundedEffort, TreeLimits};

// Steps of proposed trees for each branching of the budget: the default budget of 1,000,000 allows
// 200,000,000 steps of 30 to 60 nanoseconds, some 8 s. With 250 for each branching the same 33 of
// 62 instances were closed, and the longest run took half as much time again.
const STEPS_PER_BRANCHING: u64 = 200;

// The fewest steps, which take 2 ms, and the most.
const MIN_STEPS: u64 = 20_000;

const MAX_STEPS: u64 = 2_000_000_000;

// The most tokens of a tree, a bound of its memory. Most are tokens of sets, of some 8 bytes; a
// priced leaf takes up to 150 in four dimensions.
const MAX_TOKENS: u64 = 660_000;

// The most splits for a set that grew.
const GROWN_SPLITS: u64 = 60;

// The most splits for a set that is worth the goal. Such a set decides the goal, so the steps of
// the goal alone bound them: with at most 20,000, five of 62 instances stay open whose trees have
// 50,000 to 300,000 tokens.
const REACHED_SPLITS: u64 = 1_000_000;

/// The steps of all proposed trees of a run.
pub(crate) fn step_limit(budget: u64) -> u64 {
    budget
        .saturating_mul(STEPS_PER_BRANCHING)
        .clamp(MIN_STEPS, MAX_STEPS)
}

/// The effort for one goal.
pub(crate) fn effort_of(steps: u64) -> BoundedEffort {
    BoundedEffort {
        tree: TreeLimits {
            steps,
            tokens: MAX_TOKENS,
        },
        grown_splits: GROWN_SPLITS,
        reached_splits: REACHED_SPLITS,
    }
}
