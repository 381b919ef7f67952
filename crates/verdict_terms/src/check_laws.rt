//! What the checkers' answers say, each the contract of a function with an empty body.
ghost use Rattle.std.specs.Prelude.{◌≡◌, ◌↔◌, ◌*◌, ℕ, true, List, [], ◌∷◌, length, Option, None, Ok};
ghost use Rattle.packing_terms.specs.Packing.{PlainInstance, dims, box_count, IsPacking};
ghost use Rattle.packing_terms.specs.Tokens.{PlainToken};
ghost use Rattle.packing_terms.specs.Feeding.{Accepts};
ghost use Rattle.packing_terms.specs.Refutation.{Refutes};
ghost use Rattle.packing_terms.specs.OuterRefutation.{Bins, Choice as BoxChoice, no_choice, IsBinRefutation, IsValueRefutation};
ghost use Rattle.packing_terms.specs.OuterFeeding.{OpenNode, Outer, AcceptsBins, AcceptsValue};
ghost use Rattle.packing_terms.specs.declared.Exclusion.{Exclusion as PlainExclusion};
ghost use Rattle.verdict_terms.specs.Placing.{place_verdict};
ghost use Rattle.verdict_terms.specs.Tested.{TellsOfPlaces};
ghost use Rattle.verdict_terms.specs.declared.check_answers.PlaceVerdict.{PlaceVerdict as Verdict};
ghost use Rattle.verdict_terms.specs.Judging.{refusal};
ghost use Rattle.verdict_terms.specs.OuterJudging.{bin_refusal, value_refusal};
ghost use Rattle.verdict_terms.specs.Checking.{nodes_after_all, inner_after, bins_after, value_after, starting, checked_after_all, is_whole};

/// Of one coordinate for each box and dimension, the verdict is the one that says what the places
/// are: a packing, or the first box and dimension that leaves the container, or else the first pair
/// that isn't disjoint.
pub fn places_are_tested()
    ensures { (instance : PlainInstance) (places : List ℕ) (verdict : Verdict)
        → length places ≡ box_count instance * dims instance
        → (place_verdict instance places ≡ verdict) ↔ TellsOfPlaces instance places verdict }
{}

/// A token isn't refused exactly where the node accepts it.
pub fn tokens_are_judged()
    ensures inner { (instance : PlainInstance) (es : List PlainExclusion) (t : PlainToken)
        → (refusal instance es t ≡ None) ↔ Accepts instance es t }
    ensures bins { (instance : PlainInstance) (k : ℕ) (node : OpenNode Bins) (t : PlainToken)
        → (bin_refusal instance k node t ≡ None) ↔ AcceptsBins instance k node t }
    ensures value { (instance : PlainInstance) (goal : ℕ) (node : OpenNode BoxChoice)
        (t : PlainToken)
        → (value_refusal instance goal node t ≡ None) ↔ AcceptsValue instance goal node t }
{}

/// Tokens are taken one by one, and leave no node open, exactly where they are a refutation, of the
/// instance under the exclusions of the root.
pub fn checking_is_refuting()
    ensures inner { (instance : PlainInstance) (es : List PlainExclusion)
        (tokens : List PlainToken)
        → (nodes_after_all (inner_after instance) (es ∷ []) tokens ≡ Ok [])
        ↔ Refutes instance es tokens }
    ensures bins { (instance : PlainInstance) (k : ℕ) (tokens : List PlainToken)
        → (nodes_after_all (bins_after instance k) (Outer [] ∷ []) tokens ≡ Ok [])
        ↔ IsBinRefutation instance k tokens }
    ensures value { (instance : PlainInstance) (goal : ℕ) (tokens : List PlainToken)
        → (nodes_after_all (value_after instance goal) (Outer no_choice ∷ []) tokens ≡ Ok [])
        ↔ IsValueRefutation instance goal tokens }
{}

/// A tree to which tokens were fed is whole exactly where they are a refutation.
pub fn fed_trees_are_refutations()
    ensures inner { (instance : PlainInstance) (es : List PlainExclusion)
        (tokens : List PlainToken)
        → (is_whole (checked_after_all (inner_after instance) (starting es) tokens) ≡ true)
        ↔ Refutes instance es tokens }
    ensures bins { (instance : PlainInstance) (k : ℕ) (tokens : List PlainToken)
        → (is_whole (checked_after_all (bins_after instance k) (starting (Outer [])) tokens)
        ≡ true) ↔ IsBinRefutation instance k tokens }
    ensures value { (instance : PlainInstance) (goal : ℕ) (tokens : List PlainToken)
        → (is_whole (checked_after_all (value_after instance goal) (starting (Outer no_choice))
        tokens) ≡ true) ↔ IsValueRefutation instance goal tokens }
{}
