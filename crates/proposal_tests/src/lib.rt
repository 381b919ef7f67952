//! Tests of proposals, and of the decisions that test them, on instances worked out by hand.
#![tactic(auto)]

#[cfg(test)]
mod bins;
#[cfg(test)]
mod choices;
#[cfg(test)]
mod decisions;
#[cfg(test)]
mod faults;
#[cfg(test)]
mod generated;
#[cfg(test)]
mod instances;
#[cfg(test)]
mod levels;
#[cfg(test)]
mod low_packings;
#[cfg(test)]
mod outer_trees;
#[cfg(test)]
mod searches;
