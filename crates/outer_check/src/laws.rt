//! What the steps of an outer refuter are, each the contract of a function with an empty body.
ghost use Rattle.std.specs.Prelude.{◌≡◌, ◌↔◌, ℕ, [], true};
ghost use Rattle.packing_terms.specs.Packing.{PlainInstance};
ghost use Rattle.packing_terms.specs.Tokens.{PlainToken};
ghost use Rattle.packing_terms.specs.OuterRefutation.{Bins as UsedBins, Choice as BoxChoice};
ghost use Rattle.packing_terms.specs.OuterPaths.{OuterView, open_nodes, view_after, bins_with, bin_step, choices_with, choice_step};
ghost use Rattle.verdict_terms.specs.OuterJudging.{bin_refusal, value_refusal};
ghost use Rattle.verdict_terms.specs.Checking.{bins_after, value_after};
ghost use Rattle.verdict_terms.specs.BoundedRefutation.{BoundedToken};
ghost use Rattle.verdict_terms.specs.BoundedPaths.{bounded_view_after};
ghost use Rattle.verdict_terms.specs.BoundedJudging.{bounded_after};
ghost use Rattle.outer_check.specs.Outers.{ForValue, judged_at, left_open, is_whole_view};
ghost use Rattle.outer_check.specs.Bounded.{bounded_tree_refusal};

/// The open nodes behind a token are those of the definition: a token is refused with the code of
/// its judgement, and an accepted one leaves the open nodes of the path behind it. No node is open
/// exactly where the tree is whole.
pub fn outer_steps_leave_the_open_nodes()
    ensures bins { (instance : PlainInstance) (k : ℕ) (view : OuterView UsedBins) (t : PlainToken)
        → bins_after instance k (open_nodes (bins_with k) view) t
        ≡ left_open (judged_at (bin_refusal instance k) view t)
        (open_nodes (bins_with k) (view_after (bins_with k) bin_step view t)) }
    ensures value { (instance : PlainInstance) (goal : ℕ) (view : OuterView BoxChoice)
        (t : PlainToken)
        → value_after instance goal (open_nodes choices_with view) t
        ≡ left_open (judged_at (value_refusal instance goal) view t)
        (open_nodes choices_with (view_after choices_with choice_step view t)) }
    ensures whole_bins { (k : ℕ) (view : OuterView UsedBins)
        → (open_nodes (bins_with k) view ≡ []) ↔ (is_whole_view view ≡ true) }
    ensures whole_value { (view : OuterView BoxChoice)
        → (open_nodes choices_with view ≡ []) ↔ (is_whole_view view ≡ true) }
{}

/// The same for bounded refutations: the open nodes behind a token are those of the definition.
pub fn bounded_steps_leave_the_open_nodes()
    ensures { (instance : PlainInstance) (goal : ℕ) (view : OuterView BoxChoice)
        (t : BoundedToken)
        → bounded_after instance goal (open_nodes choices_with view) t
        ≡ left_open (bounded_tree_refusal instance (ForValue goal view) t)
        (open_nodes choices_with (bounded_view_after view t)) }
{}
