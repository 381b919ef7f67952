//! Sets of the relations that two boxes may have in one dimension, and their composition.
#![tactic(auto)]

mod laws;
mod mask;

pub use laws::{composition_is_sound, table_is_exact};
pub use mask::{COMPOSE, Mask, compose, flip};
pub use packing_terms::Rel;
