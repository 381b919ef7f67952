//! What the definitions promise, each the contract of a function with an empty body.
ghost use Rattle.verdict_terms.specs.ExplainedDocuments.{DocumentsAreFed, DocumentsAreTrue};
ghost use Rattle.verdict_terms.specs.ExplainedForm.{DocumentsHaveForm};
ghost use Rattle.verdict_terms.specs.Kinds.{KindsAreTold, ReducedDocumentsAreOfTheirKind, BoundedDocumentsAreOfTheirKind};

/// The bytes of a text, fed from its start to a lexer with each line taken as it ends, give its
/// verdict and its kind. A line is cut to its first 12 words, each to its first 21 bytes.
pub fn explained_documents_are_fed()
    ensures verdict { DocumentsAreFed }
    ensures kind { KindsAreTold }
{}

/// The instance of a document that is verified is within the limits and has no packing, no matter
/// who wrote the document.
pub fn explained_documents_are_true()
    ensures { DocumentsAreTrue }
{}

/// A text that is verified has no bad byte, and its lines that aren't blank are, in this order,
/// `explained fit`, the lines of the instance, `result no`, lines of steps that explain why it has
/// no packing, and `end`.
pub fn explained_documents_have_form()
    ensures { DocumentsHaveForm }
{}

/// A text that is verified as a reduced document is of that kind, so that an audit of it gives that
/// verdict; and so it is with a bounded one.
pub fn reduced_documents_are_of_their_kind()
    ensures reduced { ReducedDocumentsAreOfTheirKind }
    ensures bounded { BoundedDocumentsAreOfTheirKind }
{}
