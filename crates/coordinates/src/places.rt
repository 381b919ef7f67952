//! Where boxes start: at the ends of the heaviest chains before them.
ghost use Rattle.std.specs.Prelude.{◌≡◌, ◌≢◌, ◌<◌, ◌*◌, ℕ, length};
ghost use Rattle.packing_terms.specs.Packing.{dims, box_count, place, IsPacking};
ghost use Rattle.packing_terms.specs.Exclusions.{excludes};
ghost use Rattle.packing_terms.specs.Closure.{IsStable};
ghost use Rattle.packing_terms.specs.Scales.{SidesFit};
ghost use Rattle.packing_terms.specs.Places.{HasNoEmptyMask, IsOrdered, IsGreatestEnd};
ghost use Rattle.packing_terms.specs.Runs.{AreHeaviestHeads};
ghost use Rattle.coordinates.specs.Starts.{EndsInHeads};

use box_instances::{Instance, MAX_BOXES};
use edge_state::EdgeState;
use orientation_rules::heads;

// Writes where the boxes start in one dimension: where the heaviest chain that ends in a box begins
// to have it.
fn write_dim(instance: &Instance, state: &EdgeState, dim: u32, head: &[u64], into: &mut [u32])
    requires dim { dim < dims instance.now }
    requires head_count { length head.now ≡ box_count instance.now }
    requires count { length into.old ≡ box_count instance.now * dims instance.now }
    requires heads { AreHeaviestHeads instance.now (excludes state.now.trail) dim head.now }
    ensures heads { EndsInHeads instance.now (excludes state.now.trail) into.new dim
        (box_count instance.now) }
    ensures others { (v i : ℕ) → i < dims instance.now → i ≢ dim
        → place instance.now into.new v i ≡ place instance.now into.old v i }
{
    let dims = instance.dims() as usize;
    for v in 0..instance.len() {
        let start = head[v as usize] - u64::from(instance.side(v, dim));
        into[v as usize * dims + dim as usize] = start as u32;
    }
}

/// Writes the places of a settled state, which are a packing: in each dimension a box starts at the
/// greatest end of a box that is surely before it, and at 0 where there is none. `into` has one
/// entry for each box and dimension, the coordinates of box 0 in all dimensions first.
///
/// The state is closed, no mask is empty, each two boxes are ordered in some dimension, and each
/// box fits by itself.
///
/// Source: coordinates of a packing class by heaviest chains, Fekete, Schepers and van der Veen
/// (2007).
pub fn place_from(state: &EdgeState, instance: &Instance, into: &mut [u32])
    requires dims { state.now.dims ≡ dims instance.now }
    requires boxes { state.now.boxes ≡ box_count instance.now }
    requires count { length into.old ≡ box_count instance.now * dims instance.now }
    requires closed { IsStable instance.now (excludes state.now.trail) }
    requires full { HasNoEmptyMask instance.now (excludes state.now.trail) }
    requires settled { (u v : ℕ) → u < v → v < box_count instance.now
        → IsOrdered instance.now (excludes state.now.trail) u v }
    requires fit { SidesFit instance.now }
    ensures packing { IsPacking instance.now into.new }
    ensures ends { (v i : ℕ) → v < box_count instance.now → i < dims instance.now
        → IsGreatestEnd instance.now (excludes state.now.trail) into.new i v }
{
    // For the proof alone: states the limits of the state.
    let _sizes = state.dims();
    let mut weights = [0u64; MAX_BOXES];
    let head = &mut weights[..instance.len() as usize];
    for dim in 0..instance.dims() {
        heads(instance, state, dim, head);
        write_dim(instance, state, dim, head, into);
    }
}
