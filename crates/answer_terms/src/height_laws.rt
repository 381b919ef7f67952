//! The laws over documents of `bounded strip`, each the contract of a function with an empty body.
ghost use Rattle.answer_terms.specs.HeightLaws.{BoundedHeightsAreTold, BoundedStripsAreTrue, OwnBoundedStripsAreVerified};

/// The document of a refuted and a placed height, with their certificates, or of a box that is too
/// wide, is verified with its claim, by its first line it is a bounded document, and the instance
/// in it is the asked one.
pub fn own_bounded_strips_are_verified()
    ensures { OwnBoundedStripsAreVerified }
{}

/// The placed height is the least one over all packings if it is one more than the refuted height;
/// else the least one lies between the two. This is the claim of the answer. If a box is too wide,
/// the boxes fit at no height.
pub fn bounded_strips_are_true()
    ensures heights { BoundedStripsAreTrue }
    ensures claims { BoundedHeightsAreTold }
{}
