//! The laws over rules at work. Each is proved of all instances, and is read in its contract.

ghost use Rattle.std.specs.Prelude.{◌≡◌, ◌↔◌, ℕ, Bool, List, IsTrue, ◌<◌, ◌≤◌, ◌*◌, length};
ghost use Rattle.packing_terms.specs.declared.Exclusion.{Exclusion as PlainExclusion};
ghost use Rattle.packing_terms.specs.declared.Rel.{Rel as PlainRel};
ghost use Rattle.packing_terms.specs.Packing.{PlainInstance, IsPacking, HasPositiveSides, dims, box_count};
ghost use Rattle.packing_terms.specs.Exclusions.{Exclusions, excludes};
ghost use Rattle.packing_terms.specs.Rules.{Rule, AreBoxes, Follows};
ghost use Rattle.packing_terms.specs.Goals.{subset};
ghost use Rattle.packing_terms.specs.Renumbering.{restricted};
ghost use Rattle.packing_terms.specs.Closure.{IsDerived, AreDerived, IsStable, IsSymmetric};
ghost use Rattle.packing_terms.specs.Scales.{SidesFit};
ghost use Rattle.packing_terms.specs.Rounds.{closure};
ghost use Rattle.packing_terms.specs.Applied.{IsApplied, KeepsPackings};
ghost use Rattle.packing_terms.specs.Runs.{IsHeaviestHead, IsHeaviestTail};
ghost use Rattle.packing_terms.specs.SetChains.{IsHeaviestHeadAmong, IsHeaviestTailAmong};
ghost use Rattle.packing_terms.specs.Places.{IsOrdered, HasNoEmptyMask, IsGreatestEnd};

/// The closure by rounds is the set of all exclusions that have a derivation.
pub fn rounds_give_the_closure()
    ensures { (instance : PlainInstance) (es : List PlainExclusion) (i u v : ℕ) (r : PlainRel)
        → IsTrue (excludes (closure instance es) i u v r)
        ↔ IsDerived instance (excludes es) i u v r }
{}

/// What a rule concludes from a table of derived exclusions is derived too: where each exclusion of
/// the table has a derivation from E, and the premises of a rule hold in the table, each exclusion
/// of the rule's conclusion has a derivation from E.
pub fn rules_keep_derivations()
    ensures { (instance : PlainInstance) (E : Exclusions) (es : List PlainExclusion)
        → AreDerived instance E (excludes es)
        → (i u v : ℕ) (r : PlainRel) → Follows instance (excludes es) i u v r
        → IsDerived instance E i u v r }
{}

/// Applying an instance of a rule loses no packing.
pub fn applied_rules_are_sound()
    ensures { (instance : PlainInstance) (rule : Rule) (old new : List PlainExclusion)
        (changed : Bool)
        → IsApplied instance rule old new changed → KeepsPackings instance old new }
{}

/// In a stable set without an empty mask, where each pair of boxes is settled and each box fits the
/// container by itself, the greatest ends are a packing.
pub fn settled_sets_give_packings()
    ensures { (instance : PlainInstance) (X : Exclusions) (places : List ℕ)
        → IsStable instance X → IsSymmetric X → HasNoEmptyMask instance X
        → HasPositiveSides instance → SidesFit instance
        → ((u v : ℕ) → u < v → v < box_count instance
        → IsOrdered instance X u v)
        → length places ≡ box_count instance * dims instance
        → ((v i : ℕ) → v < box_count instance → i < dims instance
        → IsGreatestEnd instance X places i v) → IsPacking instance places }
{}

/// Places that are in each dimension the greatest ends of the boxes before are the only ones.
/// Nothing is asked of the set: it may have conflicts and cycles.
pub fn greatest_ends_are_unique()
    ensures { (instance : PlainInstance) (X : Exclusions) (first second : List ℕ)
        → HasPositiveSides instance → 1 ≤ dims instance
        → length first ≡ box_count instance * dims instance
        → length second ≡ box_count instance * dims instance
        → ((v i : ℕ) → v < box_count instance → i < dims instance
        → IsGreatestEnd instance X first i v)
        → ((v i : ℕ) → v < box_count instance → i < dims instance
        → IsGreatestEnd instance X second i v) → first ≡ second }
{}

/// The heaviest chains of the instance of a set of boxes are those of the whole instance among the
/// boxes of the set, renumbered.
pub fn sets_have_the_chains_of_their_boxes()
    ensures heads { (instance : PlainInstance) (keep : List ℕ) (X : Exclusions) (i v k : ℕ)
        → AreBoxes instance keep
        → (IsHeaviestHead (subset instance keep) (restricted keep X) i v k
        ↔ IsHeaviestHeadAmong instance keep X i v k) }
    ensures tails { (instance : PlainInstance) (keep : List ℕ) (X : Exclusions) (i v k : ℕ)
        → AreBoxes instance keep
        → (IsHeaviestTail (subset instance keep) (restricted keep X) i v k
        ↔ IsHeaviestTailAmong instance keep X i v k) }
{}
