//! What the trees of a document begin with.

/// What the tree of a document of `fit` or of `strip` begins with, as the heading says.
#[derive(Clone, Copy, Debug, PartialEq, Eq)]
pub enum TreeStart {
    /// No exclusion: the document is an `answer`.
    Nothing,
    /// The symmetry facts of the instance: the document is a `reduced` one.
    Facts,
}
