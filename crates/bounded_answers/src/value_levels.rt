//! A placed and a refuted value, with their certificates.
ghost use Rattle.std.specs.Prelude.{◌≡◌, ◌==◌, ◌<◌, suc};
ghost use Rattle.packing_terms.specs.Packing.{PlainInstance};
ghost use Rattle.bounded_answers.specs.ValueLevels.{AreLevels, IsWithin, IsPlacedValue, AreRefutedBy};

use crate::placed_values::PlacedValue;
use bounded_tokens::BoundedToken;
use proof_tree::CompactTokens;

/// The refutation of a value: the tokens of a choice tree, or of one whose leaves may be priced.
#[derive(Drop)]
pub enum ValueProof {
    Plain(CompactTokens),
    Priced(Vec<BoundedToken>),
}

/// A placed value and a greater refuted one.
///
/// `numbers` are, of each taken box by rising number, that number, counted from 0, and its
/// coordinates: a packing of boxes that are worth `placed` or more. `proof` refutes `refuted`.
#[derive(Drop)]
pub struct ValueLevels {
    pub placed: u64,
    pub numbers: Vec<u32>,
    pub refuted: u64,
    pub proof: ValueProof,
}

impl ValueLevels {
    /// Whether the placed value is the greatest one: the refuted value is one more.
    pub fn are_closed(&self) -> bool
        requires { self.now.placed < self.now.refuted }
        ensures { result ≡ (suc self.now.placed == self.now.refuted) }
    {
        self.refuted - self.placed == 1
    }

    /// The levels with a lower refuted value, if it lies above the placed one.
    pub(crate) fn lowered(self, goal: u64, tokens: Vec<BoundedToken>) -> ValueLevels
        ensures levels { (instance : PlainInstance) → AreLevels instance self
            → AreRefutedBy instance goal tokens.items → AreLevels instance result }
        ensures within { IsWithin self result }
    {
        if goal <= self.placed || self.refuted <= goal {
            return self;
        }
        ValueLevels {
            placed: self.placed,
            numbers: self.numbers,
            refuted: goal,
            proof: ValueProof::Priced(tokens),
        }
    }

    /// The levels with a greater placed value, if it lies below the refuted one.
    pub(crate) fn raised(self, found: PlacedValue) -> ValueLevels
        ensures levels { (instance : PlainInstance) → AreLevels instance self
            → IsPlacedValue instance found → AreLevels instance result }
        ensures within { IsWithin self result }
    {
        if found.worth <= self.placed || self.refuted <= found.worth {
            return self;
        }
        ValueLevels {
            placed: found.worth,
            numbers: found.numbers,
            refuted: self.refuted,
            proof: self.proof,
        }
    }
}
