//! Laws over relations: what compositions of relations say of intervals.
ghost use Rattle.std.specs.Prelude.{◌≡◌, ◌<◌, ℕ, List, [], IsTrue, ◌↔◌, slice_index, slice_index_or};
ghost use Rattle.packing_terms.specs.declared.Rel.{Rel as PlainRel};
ghost use Rattle.packing_terms.specs.Packing.{PlainInstance, HasPositiveSides, dims, box_count};
ghost use Rattle.packing_terms.specs.Relations.{Holds};
ghost use Rattle.relation_table.specs.Masks.{mask_has, IsComposed};

use crate::mask::COMPOSE;

/// Each of the 64 entries of the table is exactly what the nine entries give for the members of its
/// two masks; that those are exactly what three intervals can do is a law of `packing_terms`.
pub fn table_is_exact()
    ensures { (a b : ℕ) → a < 8 → b < 8 → (r : PlainRel)
        → IsTrue (mask_has (slice_index (slice_index_or COMPOSE a []) b) r) ↔ IsComposed a b r }
{}

/// Wherever the boxes are placed, the relation of u and x is in the composition of those of u and
/// v, and of v and x.
pub fn composition_is_sound()
    ensures { (instance : PlainInstance) (places : List ℕ) (i u v x a b : ℕ) (q s r : PlainRel)
        → HasPositiveSides instance
        → i < dims instance → u < box_count instance → v < box_count instance
        → x < box_count instance
        → Holds instance places i u v q → Holds instance places i v x s
        → Holds instance places i u x r
        → IsTrue (mask_has a q) → IsTrue (mask_has b s) → IsComposed a b r }
{}
