//! One byte for a set of relations.
ghost use Rattle.std.specs.Prelude.{◌≡◌, ◌<◌, ◌&&◌, not, IsTrue, ◌↔◌};
ghost use Rattle.packing_terms.specs.declared.Rel.{Rel as PlainRel};
ghost use Rattle.packing_terms.specs.Relations.{mirror};
ghost use Rattle.packing_terms.specs.Exclusions.{is_same_rel};
ghost use Rattle.relation_table.specs.Masks.{bit_of, mask_has, IsComposed};

use packing_terms::Rel;
use std::marker::Model;

/// A set of the relations of two boxes in one dimension. Bit 1 is overlap, bit 2 before, bit 4
/// after.
#[derive(Clone, Copy, Debug, PartialEq, Eq)]
pub struct Mask(u8);

impl Model for Mask {
    ghost use Rattle.std.specs.Prelude.{ℕ, ◌<◌};

    ghost Value = { ℕ };

    ghost view = { λ m. m.0 };

    ghost invariant = { λ m. m.0 < 8 };

    ghost inverse = { λ n. record { 0 = n } };
}

/// The composition of each two masks, by their bits: row a, column b is what `compose` answers for
/// a and b.
///
/// Source: the relations of projections of Fekete, Schepers and van der Veen (2007), composed as
/// intervals are in Allen's algebra (1983).
pub const COMPOSE: [[u8; 8]; 8] = [
    [0, 0, 0, 0, 0, 0, 0, 0],
    [0, 7, 3, 7, 5, 7, 7, 7],
    [0, 3, 2, 3, 7, 7, 7, 7],
    [0, 7, 3, 7, 7, 7, 7, 7],
    [0, 5, 7, 7, 4, 5, 7, 7],
    [0, 7, 7, 7, 5, 7, 7, 7],
    [0, 7, 7, 7, 7, 7, 7, 7],
    [0, 7, 7, 7, 7, 7, 7, 7],
];

// The bit of a relation.
fn bit_of(rel: Rel) -> u8
    ensures { result ≡ bit_of rel }
{
    match rel {
        Rel::Overlap => 1,
        Rel::Before => 2,
        Rel::After => 4,
    }
}

impl Mask {
    /// All three relations.
    pub fn all() -> Mask
        ensures { result ≡ 7 }
    {
        Mask(7)
    }

    /// Whether the relation is in the mask.
    pub fn has(self, rel: Rel) -> bool
        ensures { result ≡ mask_has self rel }
    {
        self.0 & bit_of(rel) != 0
    }

    /// The mask with one relation taken out; the same mask where it wasn't there.
    pub fn without(self, rel: Rel) -> Mask
        ensures others { (r : PlainRel) → mask_has result r
            ≡ mask_has self r && not (is_same_rel rel r) }
        ensures limit { result < 8 }
    {
        Mask(self.0 & (7 - bit_of(rel)))
    }

    /// The bits of the relations that are in the mask: a number below 8, and 0 where there are
    /// none.
    pub fn bits(self) -> u8
        ensures value { result ≡ self }
        ensures limit { result < 8 }
    {
        self.0
    }
}

/// Every relation of u and x that some relation in `a` of u and v, and some relation in `b` of v
/// and x, allow.
pub fn compose(a: Mask, b: Mask) -> Mask
    ensures exact { (r : PlainRel) → IsTrue (mask_has result r) ↔ IsComposed a b r }
    ensures limit { result < 8 }
{
    Mask(COMPOSE[a.0 as usize][b.0 as usize])
}

/// The mask with before and after swapped: that of v and u, where `a` is that of u and v.
pub fn flip(a: Mask) -> Mask
    ensures exact { (r : PlainRel) → mask_has result r ≡ mask_has a (mirror r) }
    ensures limit { result < 8 }
{
    Mask(a.0 & 1 | a.0 >> 1 & 2 | (a.0 & 2) << 1)
}
