//! The first line of a document.

/// What the first line of a document says.
#[derive(Clone, Copy, Debug, PartialEq, Eq)]
pub enum Heading {
    /// `answer`, and one of the four solving jobs.
    Answer,
    /// `reduced`, and `fit` or `strip`: the tree of an instance begins with its symmetry facts.
    Reduced,
    /// `bounded`, and `knapsack` or `strip`: leaves of the tree for a value may be priced out, or
    /// exchanges, and leaves of the tree for a height may be families of boxes side by side.
    Bounded,
}
