//! A refuted and a placed height, with their certificates.
ghost use Rattle.std.specs.Prelude.{◌≡◌, ◌==◌, ◌<◌, suc};
ghost use Rattle.packing_terms.specs.Packing.{PlainInstance};
ghost use Rattle.bounded_answers.specs.Heights.{AreLevels, IsWithin, AreRefutedBy};

use bounded_tokens::FamilyToken;
use proof_tree::CompactTokens;

/// The refutation of a height: the tokens of a class tree, or of one with families.
#[derive(Drop)]
pub enum HeightProof {
    Plain(CompactTokens),
    Families(Vec<FamilyToken>),
}

/// A refuted height and a greater placed one.
///
/// `proof` refutes `refuted`. `places` are the coordinates of a packing at `placed`, flat and
/// box-major: all coordinates of box 0 first.
#[derive(Drop)]
pub struct HeightLevels {
    pub refuted: u32,
    pub proof: HeightProof,
    pub placed: u32,
    pub places: Vec<u32>,
}

/// What is answered for a strip, whose container's last side isn't read.
///
/// `Levels`: the least height lies above the refuted one and is at most the placed one. `NoneFits`:
/// the first box that is longer than the container in a dimension other than the last, and its
/// first such dimension, both counted from 0.
#[derive(Drop)]
pub enum BoundedStrip {
    Levels(HeightLevels),
    NoneFits { box_no: u32, dim: u32 },
}

impl HeightLevels {
    /// Whether the placed height is the least one: it is one more than the refuted height.
    pub fn are_closed(&self) -> bool
        requires { self.now.refuted < self.now.placed }
        ensures { result ≡ (suc self.now.refuted == self.now.placed) }
    {
        self.placed - self.refuted == 1
    }

    /// The levels with a greater refuted height, if it lies below the placed one.
    pub(crate) fn raised(self, height: u32, tokens: Vec<FamilyToken>) -> HeightLevels
        ensures levels { (instance : PlainInstance) → AreLevels instance self
            → AreRefutedBy instance height tokens.items → AreLevels instance result }
        ensures within { IsWithin self result }
    {
        if height <= self.refuted || self.placed <= height {
            return self;
        }
        HeightLevels {
            refuted: height,
            proof: HeightProof::Families(tokens),
            placed: self.placed,
            places: self.places,
        }
    }
}
