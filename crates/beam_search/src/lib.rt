//! Beams over skylines, in two dimensions: low packings of all boxes, and choices of great value.
//!
//! Nothing is promised of what a beam lays, so the code guards each access and has no invariant.
#![tactic(auto)]

mod beam;
mod beam_growth;
mod beam_guides;
mod beam_levels;
mod beams;

pub use beams::Beams;
