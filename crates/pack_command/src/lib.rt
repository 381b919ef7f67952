//! The jobs of `pack`, from bytes to bytes.
#![tactic(auto)]

mod auditing;
mod bounding;
mod bounding_heights;
mod checking;
mod explaining;
mod front_job;
mod input;
mod make_job;
mod proposal_job;
mod solving;
mod stop;
mod top;
mod words;

pub use checking::check_stream;
pub use top::run;
