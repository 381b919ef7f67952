//! Tests of the checkers of refutations, with ample memory. What the search finds is accepted, each
//! refusal has its cause, sets are checked one after another, and trees that the search wouldn't
//! write are taken too. Further modules test the lines and trees of families of boxes side by side,
//! and the lines, trees and documents of explained refutations.
#![tactic(auto)]

#[cfg(test)]
mod bounded;
#[cfg(test)]
mod codes;
#[cfg(test)]
mod documents;
#[cfg(test)]
mod explained_trees;
#[cfg(test)]
mod family_lines;
#[cfg(test)]
mod family_trees;
#[cfg(test)]
mod instances;
#[cfg(test)]
mod outer;
#[cfg(test)]
mod sets;
#[cfg(test)]
mod step_lines;
#[cfg(test)]
mod step_lists;
#[cfg(test)]
mod trees;
#[cfg(test)]
mod verdicts;
#[cfg(test)]
mod written;
