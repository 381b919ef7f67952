//! The laws over runs of levels, in which the least height, the least number of bins and the
//! greatest value are found. Each is proved of all instances and levels, and is read in its
//! contract.

ghost use Rattle.std.specs.Prelude.{◌≡◌, ◌↔◌, ◌+◌, ◌-◌, ◌*◌, ◌/◌, ◌^◌, ◌<◌, ◌≤◌, ℕ, Bool, true, false, [], Some, None, IsTrue};
ghost use Rattle.packing_terms.specs.Packing.{PlainInstance, IsPacking, dims, box_count};
ghost use Rattle.packing_terms.specs.Goals.{IsLeastHeight, IsLeastBins, IsGreatestValue, HasTooWideBox, HasTooLargeBox, with_last_side};
ghost use Rattle.packing_terms.specs.TooLarge.{IsFirstTooLarge, IsFirstTooWide};
ghost use Rattle.packing_terms.specs.Limits.{IsInternalInstance};
ghost use Rattle.packing_terms.specs.Sums.{sum_below};
ghost use Rattle.packing_terms.specs.Refutation.{Refutes};
ghost use Rattle.packing_terms.specs.OuterRefutation.{IsBinRefutation, IsValueRefutation};
ghost use Rattle.tree_terms.specs.Trees.{outcome, count_of};
ghost use Rattle.tree_terms.specs.ClassTree.{class_tree, first_too_large_box, first_too_wide};
ghost use Rattle.tree_terms.specs.OuterTrees.{bin_tree, choice_tree};
ghost use Rattle.tree_terms.specs.OuterSearch.{AreBinNumbers, AreTakenNumbers};
ghost use Rattle.tree_terms.specs.RunEnds.{IsLevelDecided, HasSpentDecision, IsFromRun, IsRisingEnd, IsFallingEnd, height_answer, bin_answer, value_answer, HasLevelPastBudget};
ghost use Rattle.tree_terms.specs.Levels.{PlainLevel, PlainReached, bisect_levels, is_run_over, moved, halfway, IsLevelBetween, HasBothCertificates, first_heights, first_bins, first_values, height_run, bin_run, value_run};

/// A run of levels ends where the two levels are neighbours or a decision was spent, and else goes
/// on from the answer at the level halfway. The order of the two levels stays, they stay within the
/// first two, and where no decision was spent they end as neighbours. It is spent exactly where
/// some level that it decides is. Each of the two is the first one, or was decided on the run and
/// has what its decision gave; so where the answers between the first two are right, the two that
/// are reached are.
pub fn run_of_levels()
    ensures over { (answer : ℕ → PlainLevel) (r : PlainReached) → is_run_over r ≡ true
        → bisect_levels answer r ≡ r }
    ensures next { (answer : ℕ → PlainLevel) (r : PlainReached) → is_run_over r ≡ false
        → bisect_levels answer r ≡ bisect_levels answer (moved r (halfway r) (answer (halfway r))) }
    ensures ends { (answer : ℕ → PlainLevel) (r : PlainReached)
        → is_run_over (bisect_levels answer r) ≡ true }
    ensures rising { (answer : ℕ → PlainLevel) (r : PlainReached) → r.refuted < r.placed
        → IsRisingEnd r (bisect_levels answer r) }
    ensures falling { (answer : ℕ → PlainLevel) (r : PlainReached) → r.placed < r.refuted
        → IsFallingEnd r (bisect_levels answer r) }
    ensures spent { (answer : ℕ → PlainLevel) (r : PlainReached) → r.spent ≡ false
        → (IsTrue (bisect_levels answer r).spent ↔ HasSpentDecision answer r) }
    ensures asked { (answer : ℕ → PlainLevel) (r : PlainReached) (level : ℕ)
        → IsLevelDecided answer r level → IsLevelBetween r level }
    ensures reached { (answer : ℕ → PlainLevel) (r : PlainReached)
        → IsFromRun answer r (bisect_levels answer r) }
{}

/// The first two levels of each run: the refuted one is refuted by its tokens, and the placed one
/// is placed by its numbers.
pub fn first_levels_are_right()
    ensures height_refuted { (instance : PlainInstance) → IsInternalInstance instance
        → Refutes (with_last_side instance (first_heights instance).refuted) []
        (first_heights instance).tokens }
    ensures height_placed { (instance : PlainInstance) → IsInternalInstance instance
        → ¬ HasTooWideBox instance
        → IsPacking (with_last_side instance (first_heights instance).placed)
        (first_heights instance).numbers }
    ensures bins_refuted { (instance : PlainInstance) (scales : Bool) → IsInternalInstance instance
        → IsBinRefutation instance (first_bins instance scales).refuted
        (first_bins instance scales).tokens }
    ensures bins_placed { (instance : PlainInstance) (scales : Bool) → IsInternalInstance instance
        → ¬ HasTooLargeBox instance
        → AreBinNumbers instance (first_bins instance scales).placed
        (first_bins instance scales).numbers }
    ensures value_refuted { (instance : PlainInstance) → IsInternalInstance instance
        → IsValueRefutation instance (first_values instance).refuted
        (first_values instance).tokens }
    ensures value_placed { (instance : PlainInstance) → IsInternalInstance instance
        → AreTakenNumbers instance (first_values instance).placed (first_values instance).numbers }
{}

/// The three runs keep a refuted level with a refutation and a placed level with an answer,
/// whatever the budget is.
pub fn runs_keep_both_certificates()
    ensures height { (instance : PlainInstance) (budget : ℕ) (scales : Bool)
        → IsInternalInstance instance → ¬ HasTooWideBox instance
        → HasBothCertificates (λ h numbers. IsPacking (with_last_side instance h) numbers)
        (λ h tokens. Refutes (with_last_side instance h) [] tokens)
        (height_run instance budget scales) }
    ensures bins { (instance : PlainInstance) (budget : ℕ) (scales : Bool)
        → IsInternalInstance instance → ¬ HasTooLargeBox instance
        → HasBothCertificates (λ k numbers. AreBinNumbers instance k numbers)
        (λ k tokens. IsBinRefutation instance k tokens) (bin_run instance budget scales) }
    ensures value { (instance : PlainInstance) (budget : ℕ) (scales : Bool)
        → IsInternalInstance instance
        → HasBothCertificates (λ t numbers. AreTakenNumbers instance t numbers)
        (λ t tokens. IsValueRefutation instance t tokens)
        (value_run instance budget scales) }
{}

/// Where no decision of a run was spent, its placed level is the least height, the least number of
/// bins, or the greatest value.
pub fn runs_find_the_optimum()
    ensures height { (instance : PlainInstance) (budget : ℕ) (scales : Bool)
        → IsInternalInstance instance → ¬ HasTooWideBox instance
        → (height_run instance budget scales).spent ≡ false
        → IsLeastHeight instance (height_run instance budget scales).placed }
    ensures bins { (instance : PlainInstance) (budget : ℕ) (scales : Bool)
        → IsInternalInstance instance → ¬ HasTooLargeBox instance
        → (bin_run instance budget scales).spent ≡ false
        → IsLeastBins instance (bin_run instance budget scales).placed }
    ensures value { (instance : PlainInstance) (budget : ℕ) (scales : Bool)
        → IsInternalInstance instance
        → (value_run instance budget scales).spent ≡ false
        → IsGreatestValue instance (value_run instance budget scales).placed }
{}

/// Where the three runs end: the two levels keep their order, and are neighbours where no decision
/// was spent. A run is spent exactly where it decides a level whose tree has a count past the
/// budget; so a budget that bounds the counts of all its levels is always enough.
pub fn runs_are_spent_exactly()
    ensures height { (instance : PlainInstance) (budget : ℕ) (scales : Bool)
        → IsTrue (height_run instance budget scales).spent
        ↔ HasLevelPastBudget (height_answer instance budget scales) (first_heights instance) budget
        (λ h. count_of (outcome (class_tree (with_last_side instance h) [] scales))) }
    ensures bins { (instance : PlainInstance) (budget : ℕ) (scales : Bool)
        → IsTrue (bin_run instance budget scales).spent
        ↔ HasLevelPastBudget (bin_answer instance budget scales) (first_bins instance scales) budget
        (λ k. count_of (outcome (bin_tree instance k scales))) }
    ensures value { (instance : PlainInstance) (budget : ℕ) (scales : Bool)
        → IsTrue (value_run instance budget scales).spent
        ↔ HasLevelPastBudget (value_answer instance budget scales) (first_values instance) budget
        (λ t. count_of (outcome (choice_tree instance t scales))) }
    ensures height_end { (instance : PlainInstance) (budget : ℕ) (scales : Bool)
        → IsInternalInstance instance
        → IsRisingEnd (first_heights instance) (height_run instance budget scales) }
    ensures bins_end { (instance : PlainInstance) (budget : ℕ) (scales : Bool)
        → IsInternalInstance instance
        → IsRisingEnd (first_bins instance scales) (bin_run instance budget scales) }
    ensures value_end { (instance : PlainInstance) (budget : ℕ) (scales : Bool)
        → IsFallingEnd (first_values instance) (value_run instance budget scales) }
    ensures height_enough { (instance : PlainInstance) (budget : ℕ) (scales : Bool)
        → IsInternalInstance instance
        → 3 ^ (dims instance * box_count instance * (box_count instance - 1) / 2) ≤ budget + 1
        → (height_run instance budget scales).spent ≡ false }
    ensures bins_enough { (instance : PlainInstance) (budget : ℕ) (scales : Bool)
        → IsInternalInstance instance
        → 3 ^ (dims instance * box_count instance * (box_count instance - 1) / 2)
        * sum_below (box_count instance) (λ j. (box_count instance - 1) ^ (j + 1)) ≤ budget
        → (bin_run instance budget scales).spent ≡ false }
    ensures value_enough { (instance : PlainInstance) (budget : ℕ) (scales : Bool)
        → IsInternalInstance instance
        → 3 ^ (dims instance * box_count instance * (box_count instance - 1) / 2)
        * (2 ^ (box_count instance + 1) - 2) ≤ budget
        → (value_run instance budget scales).spent ≡ false }
{}

/// There is a least height exactly where no box exceeds the container in a dimension other than the
/// last, and a least number of bins exactly where no box exceeds it at all. The search of all sides
/// finds the first such box with its first such dimension, and finds none exactly where there is
/// none.
pub fn optima_are_there_exactly()
    ensures height { (instance : PlainInstance) → IsInternalInstance instance
        → (((h : ℕ) × IsLeastHeight instance h) ↔ (¬ HasTooWideBox instance)) }
    ensures no_height { (instance : PlainInstance) → IsInternalInstance instance
        → ((¬ ((h : ℕ) × IsLeastHeight instance h)) ↔ HasTooWideBox instance) }
    ensures bins { (instance : PlainInstance) → IsInternalInstance instance
        → (((k : ℕ) × IsLeastBins instance k) ↔ (¬ HasTooLargeBox instance)) }
    ensures no_bins { (instance : PlainInstance) → IsInternalInstance instance
        → ((¬ ((k : ℕ) × IsLeastBins instance k)) ↔ HasTooLargeBox instance) }
    ensures wide { (instance : PlainInstance) (v i : ℕ) → first_too_wide instance ≡ Some (v, i)
        ↔ IsFirstTooWide instance v i }
    ensures no_wide { (instance : PlainInstance) → first_too_wide instance ≡ None
        ↔ (¬ HasTooWideBox instance) }
    ensures large { (instance : PlainInstance) (v i : ℕ)
        → first_too_large_box instance ≡ Some (v, i) ↔ IsFirstTooLarge instance v i }
    ensures no_large { (instance : PlainInstance) → first_too_large_box instance ≡ None
        ↔ (¬ HasTooLargeBox instance) }
{}
