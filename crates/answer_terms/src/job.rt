//! The jobs that answer an instance with a document.

use text_terms::SolvingJob;

/// A job whose trees can begin with the symmetry facts of the instance.
#[derive(Clone, Copy, Debug, PartialEq, Eq)]
pub enum ReducedJob {
    /// Whether the boxes fit the container.
    Fit,
    /// The least height of a strip that holds the boxes.
    Strip,
}

/// A job whose answer for an instance is a document.
#[derive(Clone, Copy, Debug, PartialEq, Eq)]
pub enum DocumentJob {
    /// A solving job: its document begins with `answer`.
    Solving(SolvingJob),
    /// A job that is decided from the symmetry facts on: its document begins with `reduced`.
    Reduced(ReducedJob),
}
