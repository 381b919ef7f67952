//! The share of a budget that a level is worth.
ghost use Rattle.std.specs.Prelude.{◌≡◌};
ghost use Rattle.proposed_answers.specs.Shares.{level_share};

// A tree with 2,000 branchings takes some milliseconds up to a third of a second, by the number of
// boxes. Two levels beside the ends are asked in any case.
const LEAST_SHARE: u64 = 2_000;

// A run leaves some ten levels undecided, each with more branchings than the share if the budget
// allows them.
const SHARES: u64 = 500;

/// The branchings that the tree of a level has at least, where a run decides several levels under
/// one budget: all of a budget up to 2,000, else 2,000, or a 500th of the budget where that is
/// more.
#[inline]
pub fn level_share(budget: u64) -> u64
    ensures { result ≡ level_share budget }
{
    budget.min(LEAST_SHARE).max(budget / SHARES)
}
