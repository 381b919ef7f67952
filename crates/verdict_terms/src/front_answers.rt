//! What is answered to the lines of a front.
use crate::{PlaceVerdict, RefuseCode};

/// Why a line isn't allowed: by its kind or a number, by its tree, or by the places that end with
/// it.
#[derive(Clone, Copy, Debug, PartialEq, Eq)]
pub enum FrontReason {
    Tree(RefuseCode),
    Places(PlaceVerdict),
}

/// What lines are found to be.
#[derive(Clone, Copy, Debug, PartialEq, Eq)]
pub enum FrontVerdict {
    /// They are those of a front.
    Good,
    /// All of them are allowed, and more are missing.
    Short,
    /// This is the first line that isn't allowed, counted from 0.
    Refused { index: u64, reason: FrontReason },
}
