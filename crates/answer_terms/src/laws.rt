//! What the definitions promise, each the contract of a function with an empty body.
ghost use Rattle.answer_terms.specs.Shown.{AnswersAreShown, AnswersAreTrue, UndecidedExactlyPast};
ghost use Rattle.answer_terms.specs.Reduced.{ReducedAnswersAreShown, ReducedAnswersAreTrue, ReducedUndecidedExactlyPast};

/// The claim of an answer is one of its job, and its numbers and tokens show it: the numbers are
/// places of what it claims to be placed, and the tokens refute what it claims to be refuted.
pub fn answers_are_shown()
    ensures { AnswersAreShown }
{}

/// The claim of an answer is true: the instance fits, or it doesn't; the height or the number of
/// bins is the least one, and the value the greatest; between two numbers the best one lies; or
/// there is none.
pub fn answers_are_true()
    ensures { AnswersAreTrue }
{}

/// The answer of `fit` is undecided exactly where its class tree has more branchings than the
/// budget.
pub fn undecided_exactly_past()
    ensures { UndecidedExactlyPast }
{}

/// The claim of an answer from the symmetry facts on is one of its job, and its numbers and tokens
/// show it: the tokens refute what it claims to be refuted under the facts of the instance.
pub fn reduced_answers_are_shown()
    ensures { ReducedAnswersAreShown }
{}

/// The claim of such an answer is true: the instance fits, or it doesn't; the height is the least
/// one; between two heights the least one lies; or there is none.
pub fn reduced_answers_are_true()
    ensures { ReducedAnswersAreTrue }
{}

/// The answer of `fit` from the symmetry facts on is undecided exactly where the class tree that
/// begins with them has more branchings than the budget.
pub fn reduced_undecided_exactly_past()
    ensures { ReducedUndecidedExactlyPast }
{}
