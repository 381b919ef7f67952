//! Places where all three relations are excluded.
ghost use Rattle.std.specs.Prelude.{◌≡◌, ◌<◌, ℕ, MatchOption, MatchBool};
ghost use Rattle.packing_terms.specs.Exclusions.{excludes, IsEdgeAmong};
ghost use Rattle.refutation_steps.specs.Empties.{IsLeft, IsEmptyAt, IsEmptyPlace};

use edge_state::{EdgeState, Rel};

/// A dimension and two boxes, the lower one first.
#[derive(Clone, Copy, Debug, PartialEq, Eq)]
pub struct Place {
    pub dim: u32,
    pub u: u32,
    pub v: u32,
}

// Whether the mask is empty there.
fn is_empty_at(state: &EdgeState, dim: u32, u: u32, v: u32) -> bool
    requires { IsEdgeAmong state.now.dims state.now.boxes dim u v }
    ensures { MatchBool result (IsEmptyAt (excludes state.now.trail) dim u v)
        (IsLeft (excludes state.now.trail) dim u v) }
{
    let mask = state.mask(dim, u, v);
    if mask.has(Rel::Overlap) {
        return false;
    }
    if mask.has(Rel::Before) {
        return false;
    }
    if mask.has(Rel::After) {
        return false;
    }
    true
}

// The first such place of a box with a lower one.
fn empty_below(state: &EdgeState, dim: u32, v: u32) -> Option<Place>
    requires dim { dim < state.now.dims }
    requires v { v < state.now.boxes }
    ensures { MatchOption result ((u : ℕ) → u < v → IsLeft (excludes state.now.trail) dim u v)
        (IsEmptyPlace state.now) }
{
    for u in 0..v {
        if is_empty_at(state, dim, u, v) {
            return Some(Place { dim, u, v });
        }
    }
    None
}

// The first such place of a dimension.
fn empty_in(state: &EdgeState, dim: u32) -> Option<Place>
    requires dim { dim < state.now.dims }
    ensures { MatchOption result ((v : ℕ) → v < state.now.boxes → (u : ℕ) → u < v
        → IsLeft (excludes state.now.trail) dim u v) (IsEmptyPlace state.now) }
{
    for v in 0..state.boxes() {
        if let Some(place) = empty_below(state, dim, v) {
            return Some(place);
        }
    }
    None
}

/// The first place where all three relations are excluded, and none exactly where no mask is empty.
pub(crate) fn empty_place(state: &EdgeState) -> Option<Place>
    ensures { MatchOption result ((i : ℕ) → i < state.now.dims → (v : ℕ) → v < state.now.boxes
        → (u : ℕ) → u < v → IsLeft (excludes state.now.trail) i u v) (IsEmptyPlace state.now) }
{
    for dim in 0..state.dims() {
        if let Some(place) = empty_in(state, dim) {
            return Some(place);
        }
    }
    None
}
