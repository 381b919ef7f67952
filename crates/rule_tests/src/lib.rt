//! Tests of rules and of what they stand on. Relations, states, and the rules on states written out
//! by hand; the closure against its definition on generated states, closing only what changed, and
//! the places that it leads to; the tables of conservative scales, and the search for the first
//! tuple against a plain scan of the list.
#![tactic(auto)]

#[cfg(test)]
mod closure_rows;
#[cfg(test)]
mod closure_states;
#[cfg(test)]
mod cycles;
#[cfg(test)]
mod descents;
#[cfg(test)]
mod given;
#[cfg(test)]
mod many_boxes;
#[cfg(test)]
mod pair_states;
#[cfg(test)]
mod plain_closure;
#[cfg(test)]
mod random;
#[cfg(test)]
mod relations;
#[cfg(test)]
mod room;
#[cfg(test)]
mod rules;
#[cfg(test)]
mod scan;
#[cfg(test)]
mod tables;
