//! The answers of all jobs: which status and which document an instance has under a job and its
//! settings, that each of these documents is verified with its claim, and the walk along the front
//! of least sizes.
#![tactic(auto)]

mod bounded_laws;
mod front_laws;
mod height_laws;
mod job;
mod laws;
mod own_laws;
mod walk_laws;

pub use bounded_laws::{bounded_answers_are_true, own_bounded_documents_are_verified};
pub use front_laws::{own_fronts_are_fronts, own_fronts_are_verified};
pub use height_laws::{bounded_strips_are_true, own_bounded_strips_are_verified};
pub use job::{DocumentJob, ReducedJob};
pub use laws::{
    answers_are_shown, answers_are_true, reduced_answers_are_shown, reduced_answers_are_true,
    reduced_undecided_exactly_past, undecided_exactly_past,
};
pub use own_laws::{
    only_fit_is_undecided, only_reduced_fit_is_undecided, own_documents_are_verified,
    own_explanations_are_verified, own_reduced_documents_are_verified,
    reduced_undecided_is_refused, shown_claims_have_documents, undecided_is_refused,
};
pub use walk_laws::{walks_are_fronts, walks_are_spent_exactly};
