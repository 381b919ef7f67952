//! Whether places are a packing, and else the first place that keeps them from being one. It
//! stands on no solver.
#![tactic(auto)]

mod verdict;

pub use verdict::check_places;
pub use verdict_terms::PlaceVerdict;
