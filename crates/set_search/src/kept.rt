//! Outcomes as a memory keeps them.
ghost use Rattle.std.specs.Prelude.{◌≡◌, true, IfOk, OnErr};
ghost use Rattle.proof_tree.specs.Shorts.{AreLonger};
ghost use Rattle.work_share.specs.Outcomes.{plain_outcome};
ghost use Rattle.set_search.specs.Memories.{plain_count, plain_size, capped_under, Serves, IsAppendedOutcome};

use box_instances::NoMemory;
use proof_tree::{CompactTokens, Outcome, Token};
use std::alloc::Global;

// How many numbers and tokens an outcome holds.
pub(crate) fn size_of(outcome: &Outcome) -> usize
    ensures { result ≡ plain_size (plain_outcome outcome.now) }
{
    match outcome {
        Outcome::Yes { numbers, count: _ } => numbers.len(),
        Outcome::No { tokens, count: _ } => tokens.len(),
        Outcome::Past => 0,
    }
}

// The count of an outcome, and 0 of one that is past.
pub(crate) fn count_of(outcome: &Outcome) -> u64
    ensures { result ≡ plain_count (plain_outcome outcome.now) }
{
    match outcome {
        Outcome::Yes { numbers: _, count } => *count,
        Outcome::No { tokens: _, count } => *count,
        Outcome::Past => 0,
    }
}

// Whether the search of a set was cut off.
pub(crate) fn is_cut_off(outcome: &Outcome) -> bool {
    match outcome {
        Outcome::Yes { .. } => false,
        Outcome::No { .. } => false,
        Outcome::Past => true,
    }
}

// Whether an outcome that was found under one budget gives the outcome under another one: a search
// that was cut off says nothing of greater budgets.
pub(crate) fn serves(outcome: &Outcome, found_under: u64, budget: u64) -> bool
    ensures { result ≡ true → Serves (plain_outcome outcome.now) found_under budget }
{
    match outcome {
        Outcome::Yes { .. } => true,
        Outcome::No { .. } => true,
        Outcome::Past => budget <= found_under,
    }
}

// The outcome under this budget, from one that was found under a greater budget or the same.
pub(crate) fn capped_outcome(outcome: Outcome, budget: u64) -> Outcome
    ensures { plain_outcome result ≡ capped_under budget (plain_outcome outcome) }
{
    if count_of(&outcome) > budget {
        return Outcome::Past;
    }
    outcome
}

// The same outcome once more.
pub(crate) fn copy_of(alloc: Global, outcome: &Outcome) -> Result<Outcome, NoMemory>
    ensures { IfOk result (λ r. plain_outcome r ≡ plain_outcome outcome.now) }
{
    match outcome {
        Outcome::Yes { numbers, count } => {
            let Ok(numbers) = Vec::from_slice(alloc, numbers.as_slice()) else {
                return Err(NoMemory);
            };
            Ok(Outcome::Yes {
                numbers,
                count: *count,
            })
        }
        Outcome::No { tokens, count } => {
            let tokens = tokens.copy(alloc)?;
            Ok(Outcome::No {
                tokens,
                count: *count,
            })
        }
        Outcome::Past => Ok(Outcome::Past),
    }
}

// The count of an outcome that is no, with a count of at most the budget: to the tokens is appended
// that the set of a bin, or of the boxes that are in, is refuted, and what refutes it. Else the
// tokens are as before.
pub(crate) fn push_refuted(
    outcome: &Outcome,
    alloc: Global,
    budget: u64,
    bin: Option<u32>,
    tokens: &mut CompactTokens,
) -> Result<Option<u64>, NoMemory>
    ensures appended { IfOk result (λ found. IsAppendedOutcome (plain_outcome outcome.now) budget bin
        tokens.old tokens.new found) }
    ensures front { OnErr result (AreLonger tokens.old tokens.new) }
{
    match outcome {
        Outcome::No {
            tokens: inner,
            count,
        } if *count <= budget => {
            tokens.push(Token::SetRefuted { bin })?;
            tokens.extend_from_list(alloc, inner)?;
            Ok(Some(*count))
        }
        _ => Ok(None),
    }
}
