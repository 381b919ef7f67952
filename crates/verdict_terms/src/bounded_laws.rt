//! The laws over shares, priced nodes and exchanges. Each is proved of all instances, and is read
//! in its contract.

ghost use Rattle.std.specs.Prelude.{None, Ok, ◌≡◌, ◌↔◌, ◌++◌, ◌<◌, ◌≤◌, ◌+◌, ◌*◌, ◌/◌, ◌%◌, ◌||◌, ℕ, length, map, slice_index_or, List, [], ◌∷◌, false, IsTrue};
ghost use Rattle.std.specs.List.{AllByRecursion};
ghost use Rattle.packing_terms.specs.Packing.{PlainInstance, Fits, HasPositiveSides, box_count};
ghost use Rattle.packing_terms.specs.Goals.{subset, worth, IsBoxSet, ReachesValue};
ghost use Rattle.packing_terms.specs.Rules.{AreBoxes};
ghost use Rattle.packing_terms.specs.Scales.{IsTuple, image_product, whole_product};
ghost use Rattle.packing_terms.specs.Tokens.{PlainToken};
ghost use Rattle.packing_terms.specs.OuterRefutation.{Choice, has_box, no_choice, RefutesValue};
ghost use Rattle.packing_terms.specs.OuterFeeding.{OpenNode, Outer};
ghost use Rattle.packing_terms.specs.OuterPaths.{OuterView, On, At, open_nodes, path_of, choices_with};
ghost use Rattle.verdict_terms.specs.Checking.{value_after};
ghost use Rattle.packing_terms.specs.Meanings.{AgreesWith};
ghost use Rattle.packing_terms.specs.declared.ScaleFn.{ScaleFn as PlainScale};
ghost use Rattle.verdict_terms.specs.Shares.{whole_share, share, shares, fits_alone, ArePricedOut, IsPricedOut};
ghost use Rattle.verdict_terms.specs.Exchanges.{comes_before, IsComplete};
ghost use Rattle.verdict_terms.specs.BoundedRefutation.{BoundedToken, Plain, RefutesBounded, IsBoundedRefutation};
ghost use Rattle.verdict_terms.specs.BoundedFeeding.{AcceptsBounded, FeedsBounded};
ghost use Rattle.verdict_terms.specs.BoundedPaths.{bounded_views_after};
ghost use Rattle.verdict_terms.specs.BoundedJudging.{bounded_refusal, bounded_after, bounded_after_all};
ghost use Rattle.verdict_terms.specs.BoundedLines.{BoundedTokensAreReadBack, BoundedLinesAreTold};

/// The shares of a set of boxes that fits are together at most those of the container, by every
/// legal tuple, and so is the share of each box that fits alone. A share may be computed by two
/// divisions of smaller numbers: with wholes up to 2^103 all of them are below 2^118.
pub fn shares_fit_the_whole()
    ensures sets { (instance : PlainInstance) (fs : List PlainScale) (keep : List ℕ)
        → IsTuple instance fs → IsBoxSet instance keep → Fits (subset instance keep)
        → shares instance fs keep ≤ whole_share }
    ensures one { (instance : PlainInstance) (fs : List PlainScale) (v : ℕ) → IsTuple instance fs
        → IsTrue (fits_alone instance v) → share instance fs v ≤ whole_share }
    ensures steps { (instance : PlainInstance) (fs : List PlainScale) (v : ℕ)
        → share instance fs v
        ≡ 31250 * (32000 * image_product instance fs v / whole_product instance fs)
        + 31250 * (32000 * image_product instance fs v % whole_product instance fs)
        / whole_product instance fs }
{}

/// Where boxes that are in are priced out, no set of boxes that has all of them, and otherwise only
/// boxes of the open list, fits and is worth the goal. And so of a node of a choice tree: no set
/// that has what is in and misses what is out fits and is worth the goal.
pub fn priced_out_reaches_nothing()
    ensures lists { (instance : PlainInstance) (goal q p : ℕ) (fs : List PlainScale)
        (taken others keep : List ℕ) → ArePricedOut instance goal fs q p taken others
        → AreBoxes instance taken → AllByRecursion (λ v. has_box v taken ≡ false) others
        → IsBoxSet instance keep → AllByRecursion (λ v. IsTrue (has_box v keep)) taken
        → AllByRecursion (λ v. IsTrue (has_box v taken || has_box v others)) keep
        → goal ≤ worth instance keep → ¬ Fits (subset instance keep) }
    ensures nodes { (instance : PlainInstance) (goal q p : ℕ) (fs : List PlainScale) (c : Choice)
        (keep : List ℕ) → IsPricedOut instance goal fs q p c → IsBoxSet instance keep
        → AgreesWith instance keep c → goal ≤ worth instance keep
        → ¬ Fits (subset instance keep) }
{}

/// A value that is reached is reached by a complete set. Box u, which comes before box v, takes its
/// place in a set that fits: the set fits still, and is worth no less. No box comes before itself,
/// and one that comes before a second box comes before all that this one comes before.
pub fn some_best_set_is_complete()
    ensures reached { (instance : PlainInstance) (goal : ℕ) → ReachesValue instance goal
        → (keep : List ℕ) × IsBoxSet instance keep × IsComplete instance keep
        × (goal ≤ worth instance keep) × Fits (subset instance keep) }
    ensures strict { (instance : PlainInstance) (v : ℕ) → comes_before instance v v ≡ false }
    ensures chained { (instance : PlainInstance) (u v w : ℕ) → IsTrue (comes_before instance u v)
        → IsTrue (comes_before instance v w) → IsTrue (comes_before instance u w) }
{}

/// What a bounded refutation says is true: the instance doesn't reach the value, and no complete
/// set of boxes that fits and is worth it agrees with a refuted node. Each plain refutation for a
/// value is a bounded one.
pub fn bounded_refutations_are_sound()
    ensures value { (instance : PlainInstance) (goal : ℕ) (tokens : List BoundedToken)
        → HasPositiveSides instance → IsBoundedRefutation instance goal tokens
        → ¬ ReachesValue instance goal }
    ensures value_nodes { (instance : PlainInstance) (goal : ℕ) (nodes : List Choice)
        (tokens : List BoundedToken) (keep : List ℕ) (b : ℕ) → HasPositiveSides instance
        → RefutesBounded instance goal nodes tokens → b < length nodes → IsBoxSet instance keep
        → IsComplete instance keep → goal ≤ worth instance keep → Fits (subset instance keep)
        → ¬ AgreesWith instance keep (slice_index_or nodes b no_choice) }
    ensures plain { (instance : PlainInstance) (goal : ℕ) (nodes : List Choice)
        (tokens : List PlainToken) → RefutesValue instance goal nodes tokens
        → RefutesBounded instance goal nodes (map (λ t. Plain t) tokens) }
{}

/// Tokens of a bounded refutation fed one by one leave no open node exactly where they are a
/// refutation. They may be fed in parts.
pub fn bounded_feeding_is_refuting()
    ensures whole { (instance : PlainInstance) (goal : ℕ) (tokens : List BoundedToken) →
        FeedsBounded instance goal (Outer no_choice ∷ []) tokens []
        ↔ IsBoundedRefutation instance goal tokens }
    ensures parts { (instance : PlainInstance) (goal : ℕ) (nodes left : List (OpenNode Choice))
        (first second : List BoundedToken) →
        FeedsBounded instance goal nodes (first ++ second) left
        ↔ ((between : List (OpenNode Choice)) × FeedsBounded instance goal nodes first between
        × FeedsBounded instance goal between second left) }
{}

/// The open nodes that tokens leave are those of the path: the current one, and the children of the
/// splits on the path that aren't begun yet. The path from the root has at most as many splits as
/// there are boxes, so with the current node n + 1 outer nodes are enough.
pub fn bounded_nodes_are_on_paths()
    ensures open { (instance : PlainInstance) (goal : ℕ) (view : OuterView Choice)
        (tokens : List BoundedToken) (left : List (OpenNode Choice)) →
        FeedsBounded instance goal (open_nodes choices_with view) tokens left
        → left ≡ open_nodes choices_with (bounded_views_after view tokens) }
    ensures few { (instance : PlainInstance) (goal : ℕ) (tokens : List BoundedToken)
        (left : List (OpenNode Choice)) →
        FeedsBounded instance goal (Outer no_choice ∷ []) tokens left
        → length (path_of (bounded_views_after (On [] (At no_choice)) tokens))
        ≤ box_count instance }
{}

/// A token isn't refused exactly where the node accepts it, and tokens are taken one by one and
/// leave no node open exactly where they are a refutation. The open nodes behind a token are those
/// of the path.
pub fn bounded_tokens_are_judged()
    ensures judged { (instance : PlainInstance) (goal : ℕ) (node : OpenNode Choice)
        (t : BoundedToken)
        → (bounded_refusal instance goal node t ≡ None) ↔ AcceptsBounded instance goal node t }
    ensures refuting { (instance : PlainInstance) (goal : ℕ) (tokens : List BoundedToken)
        → (bounded_after_all instance goal (Outer no_choice ∷ []) tokens ≡ Ok [])
        ↔ IsBoundedRefutation instance goal tokens }
    ensures plain { (instance : PlainInstance) (goal : ℕ) (nodes : List (OpenNode Choice))
        (t : PlainToken)
        → bounded_after instance goal nodes (Plain t) ≡ value_after instance goal nodes t }
{}

/// The words of a token are read back as the token, where its parameters are at most 4,294,967,295
/// and its tuple has a function for each dimension. A line that is cut to its first 12 words, each
/// to its first 21 bytes, is the same token, or none, as the line itself.
pub fn bounded_lines_are_read_back()
    ensures words { BoundedTokensAreReadBack }
    ensures told { BoundedLinesAreTold }
{}
