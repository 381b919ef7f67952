//! The goal of an outer tree.

/// What an outer tree is to refute: that the boxes fit in a number of bins, or that they reach a
/// value.
#[derive(Clone, Copy, Debug, PartialEq, Eq)]
pub enum Goal {
    Bins(u32),
    Value(u64),
}
