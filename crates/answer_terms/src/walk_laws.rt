//! The laws over walks, each the contract of a function with an empty body.
ghost use Rattle.answer_terms.specs.WalkLaws.{WalksAreGood, WalksAreFronts, FrontsAreNamed, WalksAreSpentExactly};

/// The lines of a walk are good, and name its points. So these are the front, or, where a decision
/// was spent, its part up to the last of them.
pub fn walks_are_fronts()
    ensures good { WalksAreGood }
    ensures named { FrontsAreNamed }
    ensures fronts { WalksAreFronts }
{}

/// A walk isn't complete exactly where it decides a container that has more branchings than the
/// budget. So a budget of 3 to the number of pairs in both dimensions, less 1, is always enough.
pub fn walks_are_spent_exactly()
    ensures { WalksAreSpentExactly }
{}
