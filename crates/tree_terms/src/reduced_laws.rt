//! The laws over heights that are decided from exclusions. Each is proved of all instances, and is
//! read in its contract.

ghost use Rattle.std.specs.Prelude.{◌≡◌, ◌↔◌, ◌+◌, ◌-◌, ◌*◌, ◌/◌, ◌^◌, ◌≤◌, ℕ, Bool, false, List, [], IsTrue};
ghost use Rattle.packing_terms.specs.declared.Exclusion.{Exclusion};
ghost use Rattle.packing_terms.specs.Packing.{PlainInstance, IsPacking, Fits, dims, box_count};
ghost use Rattle.packing_terms.specs.Goals.{IsLeastHeight, HasTooWideBox, with_last_side};
ghost use Rattle.packing_terms.specs.Limits.{IsInternalInstance};
ghost use Rattle.packing_terms.specs.Refutation.{Refutes};
ghost use Rattle.packing_terms.specs.Facts.{symmetry_facts};
ghost use Rattle.tree_terms.specs.Trees.{outcome};
ghost use Rattle.tree_terms.specs.Search.{IsRightUnder, IsYesVerdict};
ghost use Rattle.tree_terms.specs.ClassTree.{class_tree};
ghost use Rattle.tree_terms.specs.Levels.{HasBothCertificates, first_heights, height_run};
ghost use Rattle.tree_terms.specs.RunEnds.{IsRisingEnd};
ghost use Rattle.tree_terms.specs.Heights.{height_run_from, HasHeightPastBudgetFrom, DecideHeights};

/// No exclusion decides heights, and so do the symmetry facts of an instance.
pub fn heights_are_decided_from()
    ensures none { (instance : PlainInstance) → IsInternalInstance instance
        → DecideHeights instance [] }
    ensures facts { (instance : PlainInstance) → IsInternalInstance instance
        → DecideHeights instance (symmetry_facts instance) }
{}

/// At each height the class tree that begins with the symmetry facts of the instance is yes exactly
/// where the instance fits at that height. Its yes has a packing, and its no refutes that height
/// under the facts.
pub fn reduced_levels_decide()
    ensures yes { (instance : PlainInstance) (h : ℕ) (scales : Bool)
        → IsInternalInstance (with_last_side instance h)
        → (Fits (with_last_side instance h) ↔ IsYesVerdict
        (outcome (class_tree (with_last_side instance h) (symmetry_facts instance) scales))) }
    ensures right { (instance : PlainInstance) (h : ℕ) (scales : Bool)
        → IsInternalInstance (with_last_side instance h)
        → IsRightUnder (with_last_side instance h) (symmetry_facts instance)
        (outcome (class_tree (with_last_side instance h) (symmetry_facts instance) scales)) }
{}

/// The first two heights: the refuted one is refuted by its tokens, under any exclusions, and the
/// placed one is placed by its numbers.
pub fn first_heights_are_right_from()
    ensures refuted { (instance : PlainInstance) (start : List Exclusion)
        → IsInternalInstance instance
        → Refutes (with_last_side instance (first_heights instance).refuted) start
        (first_heights instance).tokens }
    ensures placed { (instance : PlainInstance) → IsInternalInstance instance
        → ¬ HasTooWideBox instance
        → IsPacking (with_last_side instance (first_heights instance).placed)
        (first_heights instance).numbers }
{}

/// The run of heights from exclusions that decide them, whatever the budget is: it keeps a refuted
/// height with a refutation under them, and a placed height with a packing. The refuted one stays
/// below. Where no decision was spent, the placed one is the least height. The run is spent exactly
/// where it decides a height whose tree has more branchings than the budget, and never where the
/// budget bounds them all. From no exclusion it is the run of heights.
pub fn runs_from_exclusions()
    ensures none { (instance : PlainInstance) (budget : ℕ) (scales : Bool)
        → height_run_from [] instance budget scales ≡ height_run instance budget scales }
    ensures keeps { (instance : PlainInstance) (start : List Exclusion) (budget : ℕ) (scales : Bool)
        → IsInternalInstance instance → DecideHeights instance start → ¬ HasTooWideBox instance
        → HasBothCertificates (λ h numbers. IsPacking (with_last_side instance h) numbers)
        (λ h tokens. Refutes (with_last_side instance h) start tokens)
        (height_run_from start instance budget scales) }
    ensures least { (instance : PlainInstance) (start : List Exclusion) (budget : ℕ) (scales : Bool)
        → IsInternalInstance instance → DecideHeights instance start → ¬ HasTooWideBox instance
        → (height_run_from start instance budget scales).spent ≡ false
        → IsLeastHeight instance (height_run_from start instance budget scales).placed }
    ensures end { (instance : PlainInstance) (start : List Exclusion) (budget : ℕ) (scales : Bool)
        → IsInternalInstance instance
        → IsRisingEnd (first_heights instance) (height_run_from start instance budget scales) }
    ensures spent { (instance : PlainInstance) (start : List Exclusion) (budget : ℕ) (scales : Bool)
        → IsTrue (height_run_from start instance budget scales).spent
        ↔ HasHeightPastBudgetFrom start instance budget scales }
    ensures enough { (instance : PlainInstance) (start : List Exclusion) (budget : ℕ)
        (scales : Bool) → IsInternalInstance instance
        → 3 ^ (dims instance * box_count instance * (box_count instance - 1) / 2) ≤ budget + 1
        → (height_run_from start instance budget scales).spent ≡ false }
{}
