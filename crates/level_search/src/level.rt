//! What is answered at a level, and how far a run of levels comes.
ghost use Rattle.std.specs.Prelude.{◌≡◌};
ghost use Rattle.tree_terms.specs.Levels.{level_by};
ghost use Rattle.work_share.specs.Outcomes.{plain_outcome};
ghost use Rattle.level_search.specs.Runs.{plain_level};

use proof_tree::{CompactTokens, Outcome};

/// What is answered at a level: numbers that show it, tokens that refute it, or that its tree is
/// past the budget.
#[derive(Drop)]
pub enum Level {
    Fits(Vec<u32>),
    Refuted(CompactTokens),
    Spent,
}

/// How far a run of levels came: its refuted level with the tokens that refute it, its placed level
/// with the numbers that show it, and whether a decision was spent.
#[derive(Drop)]
pub struct Reached {
    pub refuted: u64,
    pub tokens: CompactTokens,
    pub placed: u64,
    pub numbers: Vec<u32>,
    pub spent: bool,
}

/// The answer at a level by the outcome of its tree: a yes shows it, a no refutes it, and past the
/// budget it is spent.
pub fn level_of(outcome: Outcome) -> Level
    ensures { plain_level result ≡ level_by (plain_outcome outcome) }
{
    match outcome {
        Outcome::Yes { numbers, count: _ } => Level::Fits(numbers),
        Outcome::No { tokens, count: _ } => Level::Refuted(tokens),
        Outcome::Past => Level::Spent,
    }
}
