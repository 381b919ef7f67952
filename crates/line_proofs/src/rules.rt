//! The rules, each as a step: it is taken where its premises hold and a mask changes, and else
//! nothing changes.
ghost use Rattle.std.specs.Prelude.{◌≡◌, ◌<◌, ◌&&◌, ◌||◌, ◌==◌, ◌+◌, not, ℕ, IsTrue, if◌then◌else◌, [], ◌∷◌, true};
ghost use Rattle.std.specs.List.{list_all};
ghost use Rattle.packing_terms.specs.declared.Rel.{Rel as PlainRel};
ghost use Rattle.packing_terms.specs.Packing.{PlainInstance, dims, box_count, container_side, side};
ghost use Rattle.packing_terms.specs.Exclusions.{excludes, IsEdgeAmong};
ghost use Rattle.packing_terms.specs.Rules.{Rule, AreBoxesAmong};
ghost use Rattle.packing_terms.specs.Rules.Rule.{Pair, Apart, Triple, Compose, Cycle, Order};
ghost use Rattle.packing_terms.specs.Sums.{below};
ghost use Rattle.packing_terms.specs.Rounds.{is_joined};
ghost use Rattle.packing_terms.specs.Applied.{narrowed, is_narrowed};
ghost use Rattle.relation_table.specs.Masks.{mask_has};
ghost use Rattle.line_proofs.specs.Taken.{IsRuleTaken};

use crate::masks::{all_but_overlap, before_alone, overlap_alone};
use box_instances::Instance;
use edge_state::EdgeState;
use orientation_rules::keep_only;
use relation_table::{Mask, Rel, compose};

// Leaves only the relations of the mask at the place where the premises hold. Answers whether a
// mask changed.
fn leave(state: &mut EdgeState, dim: u32, u: u32, v: u32, applies: bool, kept: Mask) -> bool
    requires { IsEdgeAmong state.old.dims state.old.boxes dim u v }
    ensures state { state.new ≡ record state.old {
      trail = (if applies && is_narrowed state.old.trail dim u v (mask_has kept)
          then narrowed state.old.trail dim u v (mask_has kept) else state.old.trail);
    } }
    ensures changed { result ≡ applies && is_narrowed state.old.trail dim u v (mask_has kept) }
{
    if !applies {
        return false;
    }
    keep_only(state, dim, u, v, kept)
}

/// PAIR: two boxes whose sides together exceed the container's overlap.
pub fn take_pair(instance: &Instance, state: &mut EdgeState, dim: u32, u: u32, v: u32) -> bool
    requires dims { state.old.dims ≡ dims instance.now }
    requires count { state.old.boxes ≡ box_count instance.now }
    requires dim { dim < state.old.dims }
    requires boxes { AreBoxesAmong state.old.boxes (u ∷ v ∷ []) }
    ensures { IsRuleTaken instance.now state.old state.new (Pair dim u v) result }
{
    let together = u64::from(instance.side(u, dim)) + u64::from(instance.side(v, dim));
    let applies = u64::from(instance.container_side(dim)) < together;
    leave(state, dim, u, v, applies, overlap_alone())
}

// Whether two boxes are joined in each dimension but one.
fn joined_elsewhere(instance: &Instance, state: &EdgeState, dim: u32, u: u32, v: u32) -> bool
    requires dims { state.now.dims ≡ dims instance.now }
    requires boxes { AreBoxesAmong state.now.boxes (u ∷ v ∷ []) }
    ensures { result ≡ list_all (λ j. (j == dim) || is_joined (excludes state.now.trail) j u v)
        (below (dims instance.now)) }
{
    for other in 0..instance.dims() {
        if other != dim && !state.joined(other, u, v) {
            return false;
        }
    }
    true
}

/// APART: two boxes that overlap in each other dimension don't overlap in this one.
pub fn take_apart(instance: &Instance, state: &mut EdgeState, dim: u32, u: u32, v: u32) -> bool
    requires dims { state.old.dims ≡ dims instance.now }
    requires dim { dim < state.old.dims }
    requires boxes { AreBoxesAmong state.old.boxes (u ∷ v ∷ []) }
    ensures { IsRuleTaken instance.now state.old state.new (Apart dim u v) result }
{
    let applies = joined_elsewhere(instance, state, dim, u, v);
    leave(state, dim, u, v, applies, all_but_overlap())
}

/// TRIPLE: of three boxes whose sides together exceed the container's, two that are both apart from
/// the third overlap.
pub fn take_triple(
    instance: &Instance,
    state: &mut EdgeState,
    dim: u32,
    u: u32,
    v: u32,
    x: u32,
) -> bool
    requires dims { state.old.dims ≡ dims instance.now }
    requires count { state.old.boxes ≡ box_count instance.now }
    requires dim { dim < state.old.dims }
    requires boxes { AreBoxesAmong state.old.boxes (u ∷ v ∷ x ∷ []) }
    ensures { IsRuleTaken instance.now state.old state.new (Triple dim u v x) result }
{
    let together = u64::from(instance.side(u, dim))
        + u64::from(instance.side(v, dim))
        + u64::from(instance.side(x, dim));
    let long = u64::from(instance.container_side(dim)) < together;
    let first = !state.mask(dim, u, x).has(Rel::Overlap);
    let second = !state.mask(dim, v, x).has(Rel::Overlap);
    leave(state, dim, u, v, first & second & long, overlap_alone())
}

/// COMPOSE: two boxes have a relation that their relations to a third allow.
pub fn take_compose(state: &mut EdgeState, dim: u32, u: u32, v: u32, x: u32) -> bool
    requires dim { dim < state.old.dims }
    requires boxes { AreBoxesAmong state.old.boxes (u ∷ v ∷ x ∷ []) }
    ensures { (instance : PlainInstance)
        → IsRuleTaken instance state.old state.new (Compose dim u v x) result }
{
    let first = state.mask(dim, u, v);
    let second = state.mask(dim, v, x);
    leave(state, dim, u, x, true, compose(first, second))
}

/// CYCLE: where four boxes are joined in a cycle and two that aren't neighbours are apart, the
/// other two overlap.
pub fn take_cycle(state: &mut EdgeState, dim: u32, a: u32, b: u32, c: u32, d: u32) -> bool
    requires dim { dim < state.old.dims }
    requires boxes { AreBoxesAmong state.old.boxes (a ∷ b ∷ c ∷ d ∷ []) }
    ensures { (instance : PlainInstance)
        → IsRuleTaken instance state.old state.new (Cycle dim a b c d) result }
{
    let ab = state.joined(dim, a, b);
    let bc = state.joined(dim, b, c);
    let cd = state.joined(dim, c, d);
    let da = state.joined(dim, d, a);
    let ac = !state.mask(dim, a, c).has(Rel::Overlap);
    leave(state, dim, b, d, ab & bc & cd & da & ac, overlap_alone())
}

/// ORDER: where two boxes are surely before two others, and the first isn't before the last, the
/// third is before the second.
pub fn take_order(state: &mut EdgeState, dim: u32, a: u32, b: u32, c: u32, d: u32) -> bool
    requires dim { dim < state.old.dims }
    requires boxes { AreBoxesAmong state.old.boxes (a ∷ b ∷ c ∷ d ∷ []) }
    ensures { (instance : PlainInstance)
        → IsRuleTaken instance state.old state.new (Order dim a b c d) result }
{
    let ab = state.sure_before(dim, a, b);
    let cd = state.sure_before(dim, c, d);
    let ad = !state.mask(dim, a, d).has(Rel::Before);
    leave(state, dim, c, b, ab & cd & ad, before_alone())
}
