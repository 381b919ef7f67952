//! Tests of single calls with ample memory: words, numbers, streams, lines of tokens, instances,
//! their texts, and places in them. Rows worked out by hand, printed texts, and refusals one by
//! one.
#![tactic(auto)]

#[cfg(test)]
mod instances;
#[cfg(test)]
mod numbers;
#[cfg(test)]
mod placements;
#[cfg(test)]
mod streams;
#[cfg(test)]
mod texts;
#[cfg(test)]
mod tokens;
#[cfg(test)]
mod words;
