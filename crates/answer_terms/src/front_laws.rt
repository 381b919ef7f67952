//! The laws over the documents of walks, each the contract of a function with an empty body.
ghost use Rattle.answer_terms.specs.FrontLaws.{OwnFrontsAreVerified, OwnFrontsAreFronts};

/// The document that is written of a walk is verified, with the instance, whether all points were
/// found, and their number.
pub fn own_fronts_are_verified()
    ensures { OwnFrontsAreVerified }
{}

/// By its first line it is a document of a front.
pub fn own_fronts_are_fronts()
    ensures { OwnFrontsAreFronts }
{}
