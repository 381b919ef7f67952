//! The job of a command line.

use text_terms::{Settings, SolvingJob};
use thiserror::Error;

/// What is to be done.
#[derive(Clone, Copy, Debug, PartialEq, Eq)]
pub enum Job {
    /// Whether the boxes fit the container.
    Fit,
    /// The least height of a strip that holds the boxes.
    Strip,
    /// The least number of bins that hold the boxes.
    Bins,
    /// The greatest value of boxes that fit the container.
    Knapsack,
    /// Whether a document is right.
    Check,
    /// Whether a generated instance fits.
    Make,
    /// Whether a document of another kind is right.
    Audit,
    /// The refutation in a document, explained step by step.
    Explain,
    /// Whether the boxes fit the container, decided from symmetry facts.
    Reduced,
    /// All least widths and heights of a container that holds the boxes.
    Front,
    /// The least height of a strip that holds the boxes, decided from symmetry facts.
    ReducedStrip,
    /// A solving job that decides by proposals first.
    Proposed(SolvingJob),
    /// The greatest value of boxes that fit the container. The choice trees of its upper bounds may
    /// have priced leaves. `proposals` says whether it decides by proposals first.
    Bounded { proposals: bool },
    /// The least height of a strip that holds the boxes. The tree of its lower bound may have
    /// leaves by families of boxes side by side. `proposals` says whether it decides by proposals
    /// first.
    BoundedStrip { proposals: bool },
}

/// A job with its settings, and the number that `make` generates from. Where the words don't give
/// one, the workers are 1, the budget is 1,000,000, scales are used, the number is 0, and there are
/// no proposals, no symmetry facts, no priced leaves and no families.
#[derive(Clone, Copy, Debug, PartialEq, Eq)]
pub struct JobWords {
    pub job: Job,
    pub settings: Settings,
    pub number: u32,
}

/// Why words gave no job: they name none, or memory was refused.
#[derive(Clone, Copy, Debug, PartialEq, Eq, Error)]
pub enum WordsError {
    #[error("the words name no job")]
    Refused,
    #[error("out of memory")]
    NoMemory,
}
