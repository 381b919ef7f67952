//! The laws over families of boxes side by side. Each is proved of all instances, and is read in
//! its contract.

ghost use Rattle.std.specs.Prelude.{None, Ok, ◌≡◌, ◌↔◌, ◌++◌, ◌<◌, ◌≤◌, ℕ, pred, map, length, slice_index, List, [], ◌∷◌, true};
ghost use Rattle.packing_terms.specs.declared.Exclusion.{Exclusion as PlainExclusion};
ghost use Rattle.packing_terms.specs.Packing.{PlainInstance, IsPacking, Fits, HasPositiveSides, container_side};
ghost use Rattle.packing_terms.specs.Exclusions.{Respects, excludes};
ghost use Rattle.packing_terms.specs.Tokens.{PlainToken};
ghost use Rattle.packing_terms.specs.Refutation.{Refutes};
ghost use Rattle.verdict_terms.specs.Checking.{inner_after, starting, is_whole};
ghost use Rattle.verdict_terms.specs.Families.{AreBeside, AreAside, IsFamily, family_length};
ghost use Rattle.verdict_terms.specs.FamilyRefutation.{FamilyToken, Plain, FamilyNode, Free, RefutesFamilies};
ghost use Rattle.verdict_terms.specs.FamilyFeeding.{AcceptsFamily, FeedsFamilies};
ghost use Rattle.verdict_terms.specs.FamilyJudging.{family_refusal};
ghost use Rattle.verdict_terms.specs.FamilyChecking.{families_after, families_after_all, all_free, freed, family_checked_all};
ghost use Rattle.verdict_terms.specs.FamilyLines.{FamilyTokensAreReadBack, FamilyLinesAreTold};

/// Boxes join a family one after another exactly where every two of them are beside each other:
/// distinct, and apart by the closure.
pub fn families_are_side_by_side()
    ensures { (instance : PlainInstance) (es : List PlainExclusion) (i : ℕ) (vs : List ℕ)
        → AreAside instance es i [] vs
        ↔ ((j k : ℕ) → j < k → k < length vs
        → AreBeside instance es i (slice_index vs j) (slice_index vs k)) }
{}

/// In a packing that respects the exclusions, the boxes of a family are together at most as long as
/// the container, by working sides.
pub fn families_fit_the_side()
    ensures { (instance : PlainInstance) (places : List ℕ) (es : List PlainExclusion) (i : ℕ)
        (vs : List ℕ) → HasPositiveSides instance → IsPacking instance places
        → Respects instance places (excludes es) → IsFamily instance es i vs
        → family_length instance i vs ≤ container_side instance (pred i) }
{}

/// What a refutation with families says is true: no packing of the instance respects the exclusions
/// of its root, and without exclusions the instance doesn't fit. Each plain refutation is one with
/// families.
pub fn family_refutations_are_sound()
    ensures respecting { (instance : PlainInstance) (es : List PlainExclusion)
        (tokens : List FamilyToken) (places : List ℕ) → HasPositiveSides instance
        → RefutesFamilies instance (Free es) tokens → IsPacking instance places
        → ¬ Respects instance places (excludes es) }
    ensures fits { (instance : PlainInstance) (tokens : List FamilyToken)
        → HasPositiveSides instance → RefutesFamilies instance (Free []) tokens
        → ¬ Fits instance }
    ensures plain { (instance : PlainInstance) (es : List PlainExclusion)
        (tokens : List PlainToken) → Refutes instance es tokens
        → RefutesFamilies instance (Free es) (map (λ t. Plain t) tokens) }
{}

/// Tokens fed one by one from a node on leave no open node exactly where they refute at the node.
/// They may be fed in parts.
pub fn family_feeding_is_refuting()
    ensures whole { (instance : PlainInstance) (n : FamilyNode) (tokens : List FamilyToken) →
        FeedsFamilies instance (n ∷ []) tokens [] ↔ RefutesFamilies instance n tokens }
    ensures parts { (instance : PlainInstance) (nodes left : List FamilyNode)
        (first second : List FamilyToken) →
        FeedsFamilies instance nodes (first ++ second) left
        ↔ ((between : List FamilyNode) × FeedsFamilies instance nodes first between
        × FeedsFamilies instance between second left) }
{}

/// A token isn't refused exactly where the node accepts it, and tokens are taken one by one and
/// leave no node open exactly where they are a refutation. A plain token does to free nodes what it
/// does in plain trees.
pub fn family_tokens_are_judged()
    ensures judged { (instance : PlainInstance) (n : FamilyNode) (t : FamilyToken)
        → (family_refusal instance n t ≡ None) ↔ AcceptsFamily instance n t }
    ensures refuting { (instance : PlainInstance) (n : FamilyNode) (tokens : List FamilyToken)
        → (families_after_all instance (n ∷ []) tokens ≡ Ok [])
        ↔ RefutesFamilies instance n tokens }
    ensures plain { (instance : PlainInstance) (nodes : List (List PlainExclusion))
        (t : PlainToken)
        → families_after instance (all_free nodes) (Plain t)
        ≡ freed (inner_after instance nodes t) }
{}

/// A tree to which tokens were fed is whole exactly where they are a refutation.
pub fn families_in_trees_are_refutations()
    ensures { (instance : PlainInstance) (n : FamilyNode) (tokens : List FamilyToken)
        → (is_whole (family_checked_all instance (starting n) tokens) ≡ true)
        ↔ RefutesFamilies instance n tokens }
{}

/// The words of a token are read back as the token, where its numbers are at most 4,294,967,295 and
/// a family's line has 1 to 9 boxes. A line that is cut to its first 12 words, each to its first 21
/// bytes, is the same token, or none, as the line itself.
pub fn family_lines_are_read_back()
    ensures words { FamilyTokensAreReadBack }
    ensures told { FamilyLinesAreTold }
{}
