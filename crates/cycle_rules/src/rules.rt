//! CYCLE and ORDER, one instance at a time.
ghost use Rattle.std.specs.Prelude.{◌≡◌, ◌<◌, [], ◌∷◌};
ghost use Rattle.packing_terms.specs.Rules.{Cycle, Order, AreBoxesAmong};
ghost use Rattle.packing_terms.specs.Applied.{IsAppliedAmong, KeepsPackingsAmong};

use edge_state::{EdgeState, Mask, Rel};
use orientation_rules::keep_only;

/// CYCLE: where `a` and `b`, `b` and `c`, `c` and `d`, and `d` and `a` are joined, and `a` and `c`
/// are apart, `b` and `d` overlap. Answers whether a mask changed.
///
/// Source: a component graph is an interval graph, which has no induced cycle of length four;
/// Fekete, Schepers and van der Veen (2007).
pub fn apply_cycle(state: &mut EdgeState, dim: u32, a: u32, b: u32, c: u32, d: u32) -> bool
    requires dim { dim < state.old.dims }
    requires boxes { AreBoxesAmong state.old.boxes (a ∷ b ∷ c ∷ d ∷ []) }
    ensures state { state.new ≡ record state.old { trail = state.new.trail } }
    ensures applied { IsAppliedAmong state.old.dims state.old.boxes
        (Cycle dim a b c d) state.old.trail state.new.trail result }
    ensures sound { KeepsPackingsAmong state.old.dims state.old.boxes state.old.trail
        state.new.trail }
{
    if !state.joined(dim, a, b)
        || !state.joined(dim, b, c)
        || !state.joined(dim, c, d)
        || !state.joined(dim, d, a)
        || state.mask(dim, a, c).has(Rel::Overlap)
    {
        return false;
    }
    let overlap = Mask::all().without(Rel::Before).without(Rel::After);
    keep_only(state, dim, b, d, overlap)
}

/// ORDER: where `a` is surely before `b`, `c` is surely before `d`, and `a` isn't before `d`, `c`
/// is before `b`. Answers whether a mask changed.
///
/// Source: two intervals that end before two others start are ordered in one of both ways
/// crosswise; Fishburn's condition on interval orders (1970).
#[inline(always)]
pub fn apply_order(state: &mut EdgeState, dim: u32, a: u32, b: u32, c: u32, d: u32) -> bool
    requires dim { dim < state.old.dims }
    requires boxes { AreBoxesAmong state.old.boxes (a ∷ b ∷ c ∷ d ∷ []) }
    ensures state { state.new ≡ record state.old { trail = state.new.trail } }
    ensures applied { IsAppliedAmong state.old.dims state.old.boxes
        (Order dim a b c d) state.old.trail state.new.trail result }
    ensures sound { KeepsPackingsAmong state.old.dims state.old.boxes state.old.trail
        state.new.trail }
{
    if !state.sure_before(dim, a, b)
        || !state.sure_before(dim, c, d)
        || state.mask(dim, a, d).has(Rel::Before)
    {
        return false;
    }
    let before = Mask::all().without(Rel::Overlap).without(Rel::After);
    keep_only(state, dim, c, b, before)
}
