//! The laws over these documents, each the contract of a function with an empty body.
ghost use Rattle.answer_terms.specs.BoundedLaws.{BoundedAnswersAreTrue, BoundedClaimsAreTold, OwnBoundedDocumentsAreVerified};

/// The document of a placed and a refuted value, with their certificates, is verified with its
/// claim, by its first line it is a bounded document, and the instance in it is the asked one.
pub fn own_bounded_documents_are_verified()
    ensures { OwnBoundedDocumentsAreVerified }
{}

/// The placed value is the greatest one if the refuted value is one more; else the greatest one
/// lies between the two. This is the claim of the answer.
pub fn bounded_answers_are_true()
    ensures values { BoundedAnswersAreTrue }
    ensures claims { BoundedClaimsAreTold }
{}
