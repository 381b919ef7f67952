//! The laws of going along a list of exclusions until no rule adds to it.
ghost use Rattle.std.specs.Prelude.{◌≡◌, ◌≤◌, ◌<◌, ◌⊎◌, ℕ, [], ◌∷◌, List, drop, false};
ghost use Rattle.packing_terms.specs.declared.Exclusion.{Exclusion as PlainExclusion};
ghost use Rattle.packing_terms.specs.declared.Rel.{Rel as PlainRel};
ghost use Rattle.packing_terms.specs.Packing.{PlainInstance, dims, box_count};
ghost use Rattle.packing_terms.specs.Exclusions.{Exclusions, excludes, IsSurelyBefore};
ghost use Rattle.packing_terms.specs.Rules.{Rule, Pair, IsRuleInstance};
ghost use Rattle.packing_terms.specs.Closure.{Derives, IsStable, IsSubset};
ghost use Rattle.packing_terms.specs.Applied.{Extends};
ghost use Rattle.packing_terms.specs.Places.{HasNoEmptyMask};
ghost use Rattle.packing_terms.specs.Runs.{IsTransitive, AreHeaviestHeads, AreHeaviestTails};
ghost use Rattle.edge_state.specs.States.{HasEmptyMask};
ghost use Rattle.edge_state.specs.Work.{IsAppliedAt, IsCovered, IsUpToDate, IsChainUpToDate, IsUnordered};
ghost use Rattle.edge_state.specs.Passes.{IsChainChecked};
ghost use Rattle.edge_state.specs.Ends.{IsClosureOf, IsConflictOf};

/// Where a closing may begin: by no exclusion at all, once PAIR was applied at all pairs; and by
/// any older part of the list that no rule adds to and that leaves no mask empty.
pub fn closings_begin()
    ensures settled { (instance : PlainInstance) (es : List PlainExclusion) → 2 ≤ dims instance
        → ((i u v : ℕ) → IsRuleInstance instance (Pair i u v)
        → IsCovered instance (excludes []) es (Pair i u v)) → IsUpToDate instance [] es }
    ensures chained { (instance : PlainInstance) (i : ℕ) (es : List PlainExclusion)
        → ((j u v : ℕ) → IsRuleInstance instance (Pair j u v)
        → IsCovered instance (excludes []) es (Pair j u v)) → IsChainUpToDate instance i [] es }
    ensures settled_since { (instance : PlainInstance) (es : List PlainExclusion) (k : ℕ)
        → IsStable instance (excludes (drop k es)) → HasNoEmptyMask instance (excludes (drop k es))
        → IsUpToDate instance (drop k es) es }
    ensures chained_since { (instance : PlainInstance) (i : ℕ) (es : List PlainExclusion) (k : ℕ)
        → IsStable instance (excludes (drop k es)) → IsChainUpToDate instance i (drop k es) es }
{}

/// An exclusion is propagated once the instances that are to be applied for its edge, in both
/// orders of its boxes, cover what they add, and its mask isn't empty. CHAIN has to be applied
/// again in its dimension alone, and only if its two boxes are ordered now.
pub fn changes_are_propagated()
    ensures settled { (instance : PlainInstance) (e : PlainExclusion)
        (seen old new : List PlainExclusion) → IsSubset (excludes (e ∷ seen)) (excludes old)
        → IsUpToDate instance seen new → ((r : PlainRel) × (excludes old e.dim e.u e.v r ≡ false))
        → ((rule : Rule) → IsAppliedAt e.dim e.u e.v rule ⊎ IsAppliedAt e.dim e.v e.u rule
        → IsCovered instance (excludes old) new rule) → IsUpToDate instance (e ∷ seen) new }
    ensures chained { (instance : PlainInstance) (e : PlainExclusion)
        (seen old new : List PlainExclusion) (i : ℕ) → IsSubset (excludes (e ∷ seen)) (excludes old)
        → (e.dim ≡ i → IsUnordered (excludes old) e) → IsChainUpToDate instance i seen new
        → IsChainUpToDate instance i (e ∷ seen) new }
{}

/// With the weights of heaviest chains, what CHAIN adds in a dimension is covered once no box is
/// before another with which it is too heavy.
pub fn chains_are_covered()
    ensures { (instance : PlainInstance) (i : ℕ) (old new : List PlainExclusion)
        (head tail : List ℕ) → AreHeaviestHeads instance (excludes old) i head
        → AreHeaviestTails instance (excludes old) i tail → ((u : ℕ) → u < box_count instance
        → (v : ℕ) → v < box_count instance → IsChainChecked instance i head tail u v new)
        → IsChainUpToDate instance i old new }
{}

/// If the whole list is propagated, surely before is transitive, since COMPOSE adds nothing; if
/// CHAIN adds nothing either, no rule does.
pub fn settled_lists_are_stable()
    ensures transitive { (instance : PlainInstance) (es : List PlainExclusion) (i : ℕ)
        → i < dims instance → IsUpToDate instance es es
        → IsTransitive (box_count instance) (IsSurelyBefore (excludes es) i) }
    ensures stable { (instance : PlainInstance) (es : List PlainExclusion)
        → IsUpToDate instance es es
        → ((i : ℕ) → i < dims instance → IsChainUpToDate instance i es es)
        → IsStable instance (excludes es) }
{}

/// The two ends. A list that grew by what follows from a set E and derives all of it is exactly the
/// closure of E where no rule adds to it and no mask is empty; where one is, the closure of E has a
/// conflict.
pub fn ends_are_closures()
    ensures closure { (instance : PlainInstance) (E : Exclusions) (old new : List PlainExclusion)
        → Extends instance old new → Derives instance (excludes old) E
        → Derives instance E (excludes old) → IsStable instance (excludes new)
        → HasNoEmptyMask instance (excludes new) → IsClosureOf instance E new }
    ensures conflict { (instance : PlainInstance) (E : Exclusions) (old new : List PlainExclusion)
        → Extends instance old new → Derives instance (excludes old) E
        → HasEmptyMask instance (excludes new) → IsConflictOf instance E new }
{}
