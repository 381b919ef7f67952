//! Explained refutations, line by line: their steps, and an auditor that accepts exactly the
//! explained refutations of an instance, without any closure.
#![tactic(auto)]

mod auditor;
mod boxes;
mod chain;
mod chain_lines;
mod judging;
mod lines;
mod masks;
mod naming;
mod reading;
mod rules;
mod short_step;
mod step;
mod step_list;
mod tuples;
mod waiting;
mod writing;

pub use auditor::Auditor;
pub use reading::read_step;
pub use rules::{take_apart, take_compose, take_cycle, take_order, take_pair, take_triple};
pub use short_step::HeldStep;
pub use step::Step;
pub use step_list::StepList;
pub use verdict_terms::{AuditCode, AuditVerdict};
pub use waiting::{Waiting, enter};
pub use writing::write_step;
