//! The job that a document answers, and what its result line says.

/// A job that is answered by a document.
#[derive(Clone, Copy, Debug, PartialEq, Eq)]
pub enum SolvingJob {
    Fit,
    Strip,
    Bins,
    Knapsack,
}

/// The claim of a result line. Heights are written last sides. Of `HeightBetween` and `BinsBetween`
/// the first number is refuted and the second placed; of `ValueBetween` the first is placed.
#[derive(Clone, Copy, Debug, PartialEq, Eq)]
pub enum Claim {
    Fitting,
    NotFitting,
    LeastHeight { height: u32 },
    HeightBetween { refuted: u32, placed: u32 },
    NoHeight,
    LeastBins { bins: u32 },
    BinsBetween { refuted: u32, placed: u32 },
    NoBins,
    GreatestValue { value: u64 },
    ValueBetween { placed: u64, refuted: u64 },
}
