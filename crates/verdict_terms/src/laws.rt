//! What the definitions promise, each the contract of a function with an empty body.
ghost use Rattle.verdict_terms.specs.Fed.{DocumentsAreFed, RefusalsStay};
ghost use Rattle.verdict_terms.specs.Form.{DocumentsHaveForm, DocumentsAreTrue};

/// A text is verified with a claim under a heading exactly where it is such a document of it: no
/// line has a bad byte, and the lines that aren't blank are, in this order, `answer JOB`,
/// `reduced JOB` or `bounded JOB` as the heading says, the lines of an instance, the result line of
/// the claim, what backs it, and `end`. Reduced documents are of `fit` and `strip`, and refute an
/// instance, or a height of it, under the instance's symmetry facts. Bounded documents are of
/// `knapsack` and `strip`, and refute a value by a bounded refutation, a height by a refutation
/// with families.
pub fn documents_have_form()
    ensures { DocumentsHaveForm }
{}

/// The claim of a document is true of the instance in it, no matter who wrote the document.
pub fn documents_are_true()
    ensures { DocumentsAreTrue }
{}

/// The refusal of a line that a line feed ends is that of every text which begins with the bytes up
/// to there. So the reader needn't read on.
pub fn refusals_stay()
    ensures { RefusalsStay }
{}

/// The bytes of a document, fed from its start to a lexer with each line taken as it ends, give its
/// verdict. A line is represented by its first 12 words of at most 21 bytes, and nothing else of it
/// is kept.
pub fn documents_are_fed()
    ensures { DocumentsAreFed }
{}
