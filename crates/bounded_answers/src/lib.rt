//! The greatest value and the least height of a strip with bounded refutations: the levels of the
//! run without them, narrowed by proposed trees, sets of boxes and families of boxes side by side
//! that pass their tests.
#![tactic(auto)]

mod asking;
mod effort;
mod first_values;
mod greatest;
mod height_base;
mod height_levels;
mod height_refuting;
mod least;
mod narrowed_heights;
mod placed_values;
mod value_base;
mod value_levels;
mod value_refuting;

pub use greatest::greatest_value_bounded;
pub use height_levels::{BoundedStrip, HeightLevels, HeightProof};
pub use least::least_height_bounded;
pub use value_levels::{ValueLevels, ValueProof};
pub use value_refuting::is_bounded_refutation;
