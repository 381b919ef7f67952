//! The laws over symmetry facts. Each is proved of all instances, and is read in its contract.

ghost use Rattle.std.specs.Prelude.{◌≡◌, ◌↔◌, ℕ, List};
ghost use Rattle.packing_terms.specs.Packing.{PlainInstance, IsPacking, Fits};
ghost use Rattle.packing_terms.specs.Goals.{with_last_side};
ghost use Rattle.packing_terms.specs.Limits.{IsInternalInstance};
ghost use Rattle.packing_terms.specs.Exclusions.{Respects, excludes, AreAtEdges};
ghost use Rattle.packing_terms.specs.Tokens.{PlainToken};
ghost use Rattle.packing_terms.specs.Refutation.{Refutes};
ghost use Rattle.packing_terms.specs.Facts.{symmetry_facts};

/// An instance fits exactly where some packing respects its symmetry facts. So what refutes it
/// under them refutes it.
pub fn facts_keep_an_answer()
    ensures fits { (instance : PlainInstance) → IsInternalInstance instance
        → (Fits instance ↔ ((places : List ℕ) × IsPacking instance places
        × Respects instance places (excludes (symmetry_facts instance)))) }
    ensures refuted { (instance : PlainInstance) (tokens : List PlainToken)
        → IsInternalInstance instance → Refutes instance (symmetry_facts instance) tokens
        → ¬ Fits instance }
{}

/// Each symmetry fact is in a dimension that is there, of two boxes that are there.
pub fn facts_are_at_edges()
    ensures { (instance : PlainInstance) → IsInternalInstance instance
        → AreAtEdges instance (symmetry_facts instance) }
{}

/// Symmetry facts don't depend on the container's last side: those of an instance are those of its
/// strip at every height.
pub fn facts_are_of_all_levels()
    ensures { (instance : PlainInstance) (h : ℕ)
        → symmetry_facts (with_last_side instance h) ≡ symmetry_facts instance }
{}
