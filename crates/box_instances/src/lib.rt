//! Instances of orthogonal packing, within their limits.
#![tactic(auto)]

mod copies;
mod fault;
mod instance;
mod making;
mod rank;
mod sets;
mod sides;
mod working;

pub use fault::{InstanceFault, NoMemory};
pub use instance::{BoxItem, Instance, MAX_BOXES, MAX_KERF, MAX_SIDE, MAX_VALUE, Sides};
pub use making::make;
pub use sets::BoxSet;
