//! Documents: which texts are verified, with which claim, and at which line and for which reason
//! the others are refused.
#![tactic(auto)]

mod bounded_laws;
mod check_answers;
mod check_laws;
mod explained_answers;
mod explained_document_laws;
mod explained_laws;
mod explained_reason;
mod family_laws;
mod front_answers;
mod front_document_laws;
mod front_laws;
mod heading;
mod kind;
mod laws;
mod reason;

pub use bounded_laws::{
    bounded_feeding_is_refuting, bounded_lines_are_read_back, bounded_nodes_are_on_paths,
    bounded_refutations_are_sound, bounded_tokens_are_judged, priced_out_reaches_nothing,
    shares_fit_the_whole, some_best_set_is_complete,
};
pub use check_answers::{FeedVerdict, PlaceVerdict, RefuseCode};
pub use check_laws::{
    checking_is_refuting, fed_trees_are_refutations, places_are_tested, tokens_are_judged,
};
pub use explained_answers::{AuditCode, AuditVerdict};
pub use explained_document_laws::{
    explained_documents_are_fed, explained_documents_are_true, explained_documents_have_form,
    reduced_documents_are_of_their_kind,
};
pub use explained_laws::{
    auditing_is_explaining, explanations_are_sound, fed_lines_are_explanations, lines_are_judged,
    refutations_can_be_explained, steps_apply_their_rules, steps_are_lines,
};
pub use explained_reason::ExplainedReason;
pub use family_laws::{
    families_are_side_by_side, families_fit_the_side, families_in_trees_are_refutations,
    family_feeding_is_refuting, family_lines_are_read_back, family_refutations_are_sound,
    family_tokens_are_judged,
};
pub use front_answers::{FrontReason, FrontVerdict};
pub use front_document_laws::{fronts_are_fed, fronts_have_form, verified_fronts_are_true};
pub use front_laws::{good_lines_are_true, sizes_are_monotone};
pub use heading::Heading;
pub use kind::DocumentKind;
pub use laws::{documents_are_fed, documents_are_true, documents_have_form, refusals_stay};
pub use reason::Reason;
