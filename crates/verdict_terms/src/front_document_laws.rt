//! The laws over the verdict, each the contract of a function with an empty body.
ghost use Rattle.verdict_terms.specs.FrontDocumentLaws.{VerifiedFrontsAreTrue};
ghost use Rattle.verdict_terms.specs.FrontDocumentFed.{FrontsAreFed};
ghost use Rattle.verdict_terms.specs.FrontDocumentForm.{FrontsHaveForm};

/// Whatever text is verified, what it claims is true of the instance in it, which is within the
/// limits of instances and has two dimensions: the points that its lines `point A B` name are as
/// many as it says, and are the front of the instance, or all of it up to the last of them.
pub fn verified_fronts_are_true()
    ensures { VerifiedFrontsAreTrue }
{}

/// The bytes of a text, fed from its start to a lexer with each line taken as it ends, give its
/// verdict. A line is cut to its first 12 words, each to its first 21 bytes.
pub fn fronts_are_fed()
    ensures { FrontsAreFed }
{}

/// A text that is verified has no bad byte, and its lines that aren't blank are, in this order,
/// `front`, the lines of the instance, which has two dimensions, the result line of the claim, good
/// lines of corners and points, and `end`.
pub fn fronts_have_form()
    ensures { FrontsHaveForm }
{}
