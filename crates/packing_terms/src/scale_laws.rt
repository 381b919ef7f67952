//! The laws over scale functions, each the contract of a function with an empty body.
ghost use Rattle.std.specs.Prelude.{◌<◌, ◌≤◌, ◌*◌, ℕ, length, slice_index_or, List, []};
ghost use Rattle.packing_terms.specs.Packing.{PlainInstance, IsPacking, Fits, HasPositiveSides};
ghost use Rattle.packing_terms.specs.Goals.{IsBinPacking, FitsInBins, subset, worth, IsBoxSet, ReachesValue};
ghost use Rattle.packing_terms.specs.Exclusions.{Respects, excludes};
ghost use Rattle.packing_terms.specs.Scales.{IsLegalScale, scale_image, scale_whole, IsDualFeasible, Exceeds};
ghost use Rattle.packing_terms.specs.Sums.{sum_below};
ghost use Rattle.packing_terms.specs.ExcessLaw.{ExcessLaw};
ghost use Rattle.packing_terms.specs.Tokens.{PlainToken};
ghost use Rattle.packing_terms.specs.Refutation.{Refutes};
ghost use Rattle.packing_terms.specs.OuterRefutation.{Bins, RefutesBins, IsBinRefutation, Choice, no_choice, RefutesValue, IsValueRefutation};
ghost use Rattle.packing_terms.specs.Meanings.{SharesBins, AgreesWith};
ghost use Rattle.packing_terms.specs.declared.ScaleFn.{ScaleFn as PlainScale};
ghost use Rattle.packing_terms.specs.declared.Exclusion.{Exclusion as PlainExclusion};
ghost use Rattle.packing_terms.specs.Containers.{FitsIn};
ghost use Rattle.packing_terms.specs.Intervals.{AreIntervalsWithin};

/// Widths that fit beside one another in a side have images that fit beside one another in the
/// whole.
pub fn scales_are_dual_feasible()
    ensures { (f : PlainScale) (W : ℕ) → IsLegalScale f W
        → IsDualFeasible W (scale_whole f W) (scale_image f W) }
{}

/// Intervals within a side, whose weights over each unit step are together at most P, have lengths
/// whose images, weighted, are together at most P wholes. This holds of every dual feasible
/// function, and so of each scale function.
pub fn weighted_intervals()
    ensures any { (W F n P : ℕ) (f : ℕ → ℕ) (start len weight : ℕ → ℕ) → IsDualFeasible W F f
        → AreIntervalsWithin n W P start len weight
        → sum_below n (λ v. weight v * f (len v)) ≤ P * F }
    ensures scales { (f : PlainScale) (W n P : ℕ) (start len weight : ℕ → ℕ) → IsLegalScale f W
        → AreIntervalsWithin n W P start len weight
        → sum_below n (λ v. weight v * scale_image f W (len v)) ≤ P * scale_whole f W }
{}

/// Where a tuple exceeds for c copies, c containers don't hold the boxes, in whatever way the boxes
/// are shared out.
pub fn excess_refutes()
    ensures one { (instance : PlainInstance) (fs : List PlainScale) → Exceeds instance fs 1
        → ¬ Fits instance }
    ensures many { (instance : PlainInstance) (fs : List PlainScale) (c : ℕ) → Exceeds instance fs c
        → ¬ FitsIn instance c }
    ensures bins { (instance : PlainInstance) (fs : List PlainScale) (c : ℕ) → Exceeds instance fs c
        → ¬ FitsInBins instance c }
{}

/// What the soundness of refutations takes as its premise on scales holds.
pub fn excess_law_holds()
    ensures { ExcessLaw }
{}

/// What a refutation says is true. No packing respects exclusions under which the instance is
/// refuted; an instance with an inner refutation doesn't fit; one with a refutation for k bins
/// doesn't fit in k bins; one with a refutation for a value doesn't reach it. And so of each node:
/// no packing in k bins shares bins as a refuted node does, and no set of boxes that fits and is
/// worth the value agrees with one.
pub fn refutations_are_sound()
    ensures under { (instance : PlainInstance) (places : List ℕ) (es : List PlainExclusion)
        (tokens : List PlainToken) → HasPositiveSides instance
        → IsPacking instance places → Refutes instance es tokens
        → ¬ Respects instance places (excludes es) }
    ensures fits { (instance : PlainInstance) (tokens : List PlainToken) → HasPositiveSides instance
        → Refutes instance [] tokens → ¬ Fits instance }
    ensures bins { (instance : PlainInstance) (k : ℕ) (tokens : List PlainToken)
        → HasPositiveSides instance → IsBinRefutation instance k tokens
        → ¬ FitsInBins instance k }
    ensures value { (instance : PlainInstance) (goal : ℕ) (tokens : List PlainToken)
        → HasPositiveSides instance → IsValueRefutation instance goal tokens
        → ¬ ReachesValue instance goal }
    ensures bin_nodes { (instance : PlainInstance) (k : ℕ) (nodes : List Bins)
        (tokens : List PlainToken) (bin_of places : List ℕ) (b : ℕ)
        → HasPositiveSides instance → RefutesBins instance k nodes tokens → b < length nodes
        → IsBinPacking instance k bin_of places
        → ¬ SharesBins instance k bin_of (slice_index_or nodes b []) }
    ensures value_nodes { (instance : PlainInstance) (goal : ℕ) (nodes : List Choice)
        (tokens : List PlainToken) (keep : List ℕ) (b : ℕ)
        → HasPositiveSides instance → RefutesValue instance goal nodes tokens → b < length nodes
        → IsBoxSet instance keep
        → goal ≤ worth instance keep → Fits (subset instance keep)
        → ¬ AgreesWith instance keep (slice_index_or nodes b no_choice) }
{}
