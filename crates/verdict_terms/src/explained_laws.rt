//! The laws over explained refutations, each the contract of a function with an empty body.
ghost use Rattle.std.specs.Prelude.{◌≡◌, ◌↔◌, ◌≤◌, ℕ, List, [], ◌∷◌, ◌++◌, length, true, false, None, Ok, Err};
ghost use Rattle.packing_terms.specs.declared.Exclusion.{Exclusion as PlainExclusion};
ghost use Rattle.packing_terms.specs.declared.Rel.{Rel as PlainRel};
ghost use Rattle.packing_terms.specs.Packing.{PlainInstance, IsPacking, Fits, HasPositiveSides};
ghost use Rattle.packing_terms.specs.Exclusions.{Exclusions, Respects, excludes};
ghost use Rattle.packing_terms.specs.Rules.{Rule, IsRuleInstance, Premises, Concludes};
ghost use Rattle.packing_terms.specs.Applied.{IsApplied};
ghost use Rattle.verdict_terms.specs.Steps.{PlainStep};
ghost use Rattle.verdict_terms.specs.Explaining.{leaves, after_rule, Explains};
ghost use Rattle.verdict_terms.specs.StepLines.{StepsAreReadBack, StepsAreFedBack, StepLinesAreTold};
ghost use Rattle.verdict_terms.specs.Stepping.{StepsTo, lines_of_all, IsExplained};
ghost use Rattle.packing_terms.specs.Closure.{AreDerived, IsSubset};
ghost use Rattle.packing_terms.specs.Tokens.{PlainToken};
ghost use Rattle.packing_terms.specs.Refutation.{Refutes};
ghost use Rattle.verdict_terms.specs.ExplainedJudging.{AuditNode, at_rest, is_change, audit_refusal};
ghost use Rattle.verdict_terms.specs.Accepting.{AcceptsLine};
ghost use Rattle.verdict_terms.specs.Auditing.{audited_after_all, most_open_nodes};
ghost use Rattle.verdict_terms.specs.Auditing.{starting, audited_with_all, is_whole, answered, LeavesOpen};
ghost use Rattle.verdict_terms.specs.declared.explained_answers.AuditCode.{AuditCode as PlainCode};
ghost use Rattle.verdict_terms.specs.declared.explained_answers.AuditCode.TheVariants.{After};
ghost use Rattle.verdict_terms.specs.declared.explained_answers.AuditVerdict.TheVariants.{More, Done, Refused};

/// What a rule leaves at its edge is what it doesn't conclude; and with its premises, a step adds
/// exactly the whole conclusion of its rule.
pub fn steps_apply_their_rules()
    ensures leaves { (X : Exclusions) (rule : Rule) (r : PlainRel)
        → (leaves X rule r ≡ false) ↔ Concludes X rule r }
    ensures applied { (instance : PlainInstance) (es : List PlainExclusion) (rule : Rule)
        → IsRuleInstance instance rule → Premises instance (excludes es) rule
        → IsApplied instance rule es (after_rule es rule) (is_change es rule) }
{}

/// No packing respects exclusions under which the instance is explained not to fit; so an instance
/// that has an explained refutation doesn't fit. Nothing is said of any closure.
pub fn explanations_are_sound()
    ensures under { (instance : PlainInstance) (places : List ℕ) (es : List PlainExclusion)
        (lines : List PlainStep) → HasPositiveSides instance → IsPacking instance places
        → Explains instance es lines → ¬ Respects instance places (excludes es) }
    ensures fits { (instance : PlainInstance) (lines : List PlainStep) → HasPositiveSides instance
        → Explains instance [] lines → ¬ Fits instance }
{}

/// Lines that are audited one by one leave no open node exactly where they are an explained
/// refutation. The number of nodes that are open at once is at most one more than the number of
/// relations.
pub fn auditing_is_explaining()
    ensures whole { (instance : PlainInstance) (es : List PlainExclusion) (lines : List PlainStep)
        → (audited_after_all instance (at_rest es ∷ []) lines ≡ Ok []) ↔ Explains instance es lines }
    ensures few { (instance : PlainInstance) (es : List PlainExclusion) (lines : List PlainStep)
        (left : List AuditNode) → audited_after_all instance (at_rest es ∷ []) lines ≡ Ok left
        → length left ≤ most_open_nodes instance }
{}

/// A line isn't refused exactly where its node accepts it.
pub fn lines_are_judged()
    ensures { (instance : PlainInstance) (node : AuditNode) (line : PlainStep)
        → (audit_refusal instance node line ≡ None) ↔ AcceptsLine instance node line }
{}

/// An auditor is whole after lines that were fed from its start exactly where they explain the
/// instance, and so is the answer to the last of them `Done`. It is `More` exactly where every line
/// was accepted and a node is open, and `Refused` exactly where one wasn't: then with the code of
/// the first such line, also to each further line. Behind a whole tree every line is refused with
/// `After`.
pub fn fed_lines_are_explanations()
    ensures whole { (instance : PlainInstance) (lines : List PlainStep)
        → (is_whole (audited_with_all instance starting lines) ≡ true)
        ↔ Explains instance [] lines }
    ensures done { (instance : PlainInstance) (lines : List PlainStep)
        → (answered (audited_with_all instance starting lines) ≡ Done)
        ↔ Explains instance [] lines }
    ensures more { (instance : PlainInstance) (lines : List PlainStep)
        → (answered (audited_with_all instance starting lines) ≡ More)
        ↔ LeavesOpen instance lines }
    ensures refused { (instance : PlainInstance) (lines : List PlainStep) (code : PlainCode)
        → (answered (audited_with_all instance starting lines) ≡ Refused code)
        ↔ (audited_after_all instance (at_rest [] ∷ []) lines ≡ Err code) }
    ensures stays { (instance : PlainInstance) (lines more : List PlainStep)
        (code : PlainCode) → answered (audited_with_all instance starting lines) ≡ Refused code
        → answered (audited_with_all instance starting (lines ++ more)) ≡ Refused code }
    ensures past { (instance : PlainInstance) (lines more : List PlainStep) (line : PlainStep)
        → Explains instance [] lines
        → answered (audited_with_all instance starting (lines ++ line ∷ more)) ≡ Refused After }
{}

/// Every refutation can be explained: steps can be put between its tokens. And so of each list of
/// exclusions that holds those under which the tokens refute, and of which each is derived from
/// them. Steps that lead from one list to another come before what explains the second.
pub fn refutations_can_be_explained()
    ensures whole { (instance : PlainInstance) (tokens : List PlainToken)
        → Refutes instance [] tokens → IsExplained instance [] tokens }
    ensures under { (instance : PlainInstance) (es held : List PlainExclusion)
        (tokens : List PlainToken) → Refutes instance es tokens
        → IsSubset (excludes es) (excludes held)
        → AreDerived instance (excludes es) (excludes held)
        → IsExplained instance held tokens }
    ensures steps { (instance : PlainInstance) (rules : List Rule) (old new : List PlainExclusion)
        (lines : List PlainStep) → StepsTo instance old rules new → Explains instance new lines
        → Explains instance old (lines_of_all rules ++ lines) }
{}

/// The words of a step are read back as the step, where its parameters are at most 4,294,967,295
/// and its tuple has a function for each dimension; and so are the bytes of its line, fed to a
/// lexer. A line that is cut to its first 12 words, each to its first 21 bytes, is the same step,
/// or none, as the line itself.
pub fn steps_are_lines()
    ensures read_back { StepsAreReadBack }
    ensures fed_back { StepsAreFedBack }
    ensures told { StepLinesAreTold }
{}
