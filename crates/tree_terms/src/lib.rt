//! The search trees that `pack` explores, as definitions, and the laws over them.
//!
//! The definitions stand in specs/, one topic a file. Each law is the contract of a function with
//! an empty body in `laws` or `level_laws`.
#![tactic(auto)]

mod laws;
mod level_laws;
mod reduced_laws;

pub use laws::{
    class_tree_decides, class_tree_is_a_search, closures_are_stable, counts_are_bounded,
    joining_verdicts, nodes_show_their_children, outcomes_under_a_budget,
    outer_answers_are_of_their_sets, outer_searches_are_right, outer_trees_are_searches,
    outer_trees_decide, searches_are_right, settled_places_are_a_packing, subtrees_are_at_paths,
    trees_depend_on_the_closure,
};
pub use level_laws::{
    first_levels_are_right, optima_are_there_exactly, run_of_levels, runs_are_spent_exactly,
    runs_find_the_optimum, runs_keep_both_certificates,
};
pub use reduced_laws::{
    first_heights_are_right_from, heights_are_decided_from, reduced_levels_decide,
    runs_from_exclusions,
};
