//! What the definitions promise, each the contract of a function with an empty body.
ghost use Rattle.answer_terms.specs.Own.{ShownClaimsHaveDocuments, OwnDocumentsAreVerified, OnlyFitIsUndecided, UndecidedIsRefused, OwnReducedDocumentsAreVerified, OnlyReducedFitIsUndecided, ReducedUndecidedIsRefused, OwnExplanationsAreVerified};

/// Where numbers and tokens show a claim about an instance, the text with them is a document of the
/// claim, and the instance in it is that one, no matter who found them.
pub fn shown_claims_have_documents()
    ensures { ShownClaimsHaveDocuments }
{}

/// A document that answers a job with a claim is verified with that claim, which is one of the job,
/// and the instance in it is the one that was asked.
pub fn own_documents_are_verified()
    ensures { OwnDocumentsAreVerified }
{}

/// No job but `fit` is answered by undecided.
pub fn only_fit_is_undecided()
    ensures { OnlyFitIsUndecided }
{}

/// The document that says undecided is verified with no claim.
pub fn undecided_is_refused()
    ensures { UndecidedIsRefused }
{}

/// A document with which something is claimed from the symmetry facts on is of the kind of reduced
/// documents, and verified as one with that claim, which is one of the job, and the instance in it
/// is the asked one.
pub fn own_reduced_documents_are_verified()
    ensures { OwnReducedDocumentsAreVerified }
{}

/// Of the jobs that are decided from the symmetry facts on, none but `fit` is answered by
/// undecided.
pub fn only_reduced_fit_is_undecided()
    ensures { OnlyReducedFitIsUndecided }
{}

/// The document that says undecided under `reduced` is of the kind of reduced documents, and
/// refused as one.
pub fn reduced_undecided_is_refused()
    ensures { ReducedUndecidedIsRefused }
{}

/// The document that explains a refutation step by step is verified as an explained document, and
/// the instance in it is the asked one, no matter who found the steps.
pub fn own_explanations_are_verified()
    ensures { OwnExplanationsAreVerified }
{}
