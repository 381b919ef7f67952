//! Tests of the whole program over memory: words and a text in, an answer and a status out;
//! documents that are checked, what is refused, and faults. The modules `runs`, `asked`, `rows` and
//! `texts` have no test: they run the program, and ask what it answered and wrote.
#![tactic(auto)]

mod asked;
#[cfg(test)]
mod bins;
#[cfg(test)]
mod bounded_strips;
#[cfg(test)]
mod bounding;
#[cfg(test)]
mod bounding_heights;
#[cfg(test)]
mod check_faults;
#[cfg(test)]
mod cut_documents;
#[cfg(test)]
mod explanations;
#[cfg(test)]
mod fits;
#[cfg(test)]
mod fronts;
#[cfg(test)]
mod gates;
#[cfg(test)]
mod knapsacks;
#[cfg(test)]
mod limits;
#[cfg(test)]
mod makes;
#[cfg(test)]
mod proposing;
#[cfg(test)]
mod reductions;
#[cfg(test)]
mod refusals;
#[cfg(test)]
mod refused_claims;
#[cfg(test)]
mod refused_forms;
mod rows;
mod runs;
#[cfg(test)]
mod stream_faults;
#[cfg(test)]
mod strips;
mod texts;
#[cfg(test)]
mod verified_documents;
#[cfg(test)]
mod workers;
