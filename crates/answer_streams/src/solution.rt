//! What a job finds for an instance.
ghost use Rattle.std.specs.Prelude.{◌≡◌};
ghost use Rattle.answer_terms.specs.Answers.{status_of};
ghost use Rattle.answer_streams.specs.Solutions.{answer_found};

use bin_knapsack::{Bins, Choice};
use proof_tree::Outcome;
use strip_solver::Strip;

/// What a job that answers with a document found.
#[derive(Drop)]
pub enum Solution {
    Fit(Outcome),
    Strip(Strip),
    Bins(Bins),
    Knapsack(Choice),
    /// Of `fit`, from the symmetry facts on.
    Reduced(Outcome),
    /// Of `strip`, from the symmetry facts on.
    ReducedStrip(Strip),
}

impl Solution {
    /// The status of the answer: 0 for yes, least and greatest, 1 for no and none, 3 for undecided
    /// and between.
    pub fn status(&self) -> u8
        ensures { result ≡ status_of (answer_found self.now) }
    {
        match self {
            Solution::Fit(outcome) => fit_status(outcome),
            Solution::Strip(strip) => strip_status(strip),
            Solution::Bins(bins) => bins_status(bins),
            Solution::Knapsack(choice) => choice_status(choice),
            Solution::Reduced(outcome) => fit_status(outcome),
            Solution::ReducedStrip(strip) => strip_status(strip),
        }
    }
}

/// The status of an answer of `fit`.
pub fn fit_status(outcome: &Outcome) -> u8
    ensures { result ≡ status_of (answer_found (Solution.Fit outcome.now)) }
{
    match outcome {
        Outcome::Yes {
            numbers: _,
            count: _,
        } => 0,
        Outcome::No {
            tokens: _,
            count: _,
        } => 1,
        Outcome::Past => 3,
    }
}

// The status of an answer of `strip`.
fn strip_status(strip: &Strip) -> u8
    ensures { result ≡ status_of (answer_found (Solution.Strip strip.now)) }
{
    match strip {
        Strip::Least {
            height: _,
            places: _,
            tokens: _,
        } => 0,
        Strip::NoneFits { box_no: _, dim: _ } => 1,
        Strip::Between {
            refuted: _,
            tokens: _,
            height: _,
            places: _,
        } => 3,
    }
}

// The status of an answer of `bins`.
fn bins_status(bins: &Bins) -> u8
    ensures { result ≡ status_of (answer_found (Solution.Bins bins.now)) }
{
    match bins {
        Bins::Least {
            bins: _,
            numbers: _,
            tokens: _,
        } => 0,
        Bins::NoneFits { box_no: _, dim: _ } => 1,
        Bins::Between {
            refuted: _,
            tokens: _,
            bins: _,
            numbers: _,
        } => 3,
    }
}

// The status of an answer of `knapsack`.
fn choice_status(choice: &Choice) -> u8
    ensures { result ≡ status_of (answer_found (Solution.Knapsack choice.now)) }
{
    match choice {
        Choice::Greatest {
            value: _,
            numbers: _,
            tokens: _,
        } => 0,
        Choice::Between {
            placed: _,
            numbers: _,
            refuted: _,
            tokens: _,
        } => 3,
    }
}
