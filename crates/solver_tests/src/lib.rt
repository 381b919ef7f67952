//! Tests of solvers and of documents of what they find, on rows and instances worked out by hand:
//! symmetry facts with the decisions and least heights that begin with them, fronts with the
//! verdicts on their lines, upper values by trees with priced leaves, and lower heights by
//! families.
#![tactic(auto)]

#[cfg(test)]
mod bounded_strips;
#[cfg(test)]
mod choices;
#[cfg(test)]
mod decisions;
#[cfg(test)]
mod documents;
#[cfg(test)]
mod front_audits;
#[cfg(test)]
mod instances;
#[cfg(test)]
mod reduced_audits;
#[cfg(test)]
mod reduced_strips;
#[cfg(test)]
mod trees;
#[cfg(test)]
mod walks;
