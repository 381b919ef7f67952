//! The kinds of documents that are audited.

/// What the first line that isn't blank says.
#[derive(Clone, Copy, Debug, PartialEq, Eq)]
pub enum DocumentKind {
    /// `explained fit`.
    Explained,
    /// `front`.
    Front,
    /// `bounded knapsack` or `bounded strip`.
    Bounded,
    /// `reduced fit` or `reduced strip`, or no line of these kinds: then it is refused as a reduced
    /// document is.
    Reduced,
}
