//! Fills of one container, and rounds of swaps in the order of a fill.
//!
//! Nothing is promised of what a fill lays, so the code guards each access and has no invariant.
#![tactic(auto)]

mod batches;
mod blocks;
mod corner_fill;
mod fill_steps;
mod fills;
mod orders;
mod oriented;
mod rounds;
mod skyline;
mod skyline_fill;
mod slots;
mod swaps;

pub use batches::Batches;
pub use fills::Fills;
pub use orders::{Draws, order_by_value, size, start_orders};
pub use oriented::{OrientedInstance, all_turns_of, turns_of};
pub use skyline::{Gap, NOTHING, Segment, Skyline, lowest, segment_at};
pub use skyline_fill::Limits;
pub use slots::{clear, container_side, copy_into, first_numbers, side, value, volumes, weight};
pub use swaps::Incumbent;
