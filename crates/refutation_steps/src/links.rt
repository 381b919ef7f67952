//! Surely before, made transitive in a dimension by COMPOSE.
ghost use Rattle.std.specs.Prelude.{◌≡◌, ◌<◌, ◌&&◌, ℕ, [], ◌∷◌, not, OnOk, IfOk};
ghost use Rattle.packing_terms.specs.Packing.{dims, box_count};
ghost use Rattle.packing_terms.specs.Exclusions.{excludes, IsSurelyBefore};
ghost use Rattle.packing_terms.specs.Rounds.{is_surely_before};
ghost use Rattle.packing_terms.specs.Runs.{IsTransitive};
ghost use Rattle.edge_state.specs.Edges.{is_other_box};
ghost use Rattle.edge_state.specs.BitRows.{row_has};
ghost use Rattle.edge_state.specs.States.{IsSized};
ghost use Rattle.refutation_steps.specs.Links.{IsLinkedAt, IsLinkTry, IsLinkedThrough};

use crate::places::are_three;
use crate::steps::step_compose;
use box_instances::{Instance, NoMemory};
use edge_state::{BitRow, EdgeState, Rel};
use line_proofs::StepList;

// COMPOSE where surely before isn't transitive at three boxes. Answers whether it wasn't.
fn link(
    instance: &Instance,
    state: &mut EdgeState,
    lines: &mut StepList,
    dim: u32,
    u: u32,
    v: u32,
    x: u32,
) -> Result<bool, NoMemory>
    requires sizes { IsSized instance.now state.old dim }
    requires u { u < box_count instance.now }
    requires v { v < box_count instance.now }
    requires x { x < box_count instance.now }
    ensures { IfOk result (λ changed. IsLinkTry instance.now state.old state.new lines.old lines.new
        (IsLinkedAt (box_count instance.now) (excludes state.old.trail) dim u v x) changed) }
{
    if !are_three(u, v, x) {
        return Ok(false);
    }
    if !state.sure_before(dim, u, v) {
        return Ok(false);
    }
    if !state.sure_before(dim, v, x) {
        return Ok(false);
    }
    if state.sure_before(dim, u, x) {
        return Ok(false);
    }
    step_compose(instance, state, lines, dim, u, v, x)?;
    Ok(true)
}

// The same with each third box, up to the first where it wasn't.
fn link_row(
    instance: &Instance,
    state: &mut EdgeState,
    lines: &mut StepList,
    dim: u32,
    u: u32,
    v: u32,
) -> Result<bool, NoMemory>
    requires sizes { IsSized instance.now state.old dim }
    requires u { u < box_count instance.now }
    requires v { v < box_count instance.now }
    ensures { IfOk result (λ changed. IsLinkTry instance.now state.old state.new lines.old lines.new
        ((x : ℕ) → x < box_count instance.now
        → IsLinkedAt (box_count instance.now) (excludes state.old.trail) dim u v x) changed) }
{
    for x in 0..instance.len() {
        let changed = link(instance, state, lines, dim, u, v, x)?;
        if changed {
            return Ok(true);
        }
    }
    Ok(false)
}

// The boxes that a box isn't surely before.
#[inline]
fn unsure_row(state: &EdgeState, dim: u32, u: u32) -> BitRow<2>
    requires dim { dim < state.now.dims }
    requires u { u < state.now.boxes }
    ensures { (x : ℕ) → row_has result x ≡ is_other_box state.now.boxes u x
        && not (is_surely_before (excludes state.now.trail) dim u x) }
{
    let overlapping = state.row(dim, u, Rel::Overlap);
    overlapping.or(state.row(dim, u, Rel::After))
}

// The same, where the first box is surely before the second, and isn't so before all boxes that the
// second is. The row has those that the first box isn't surely before.
fn link_pair(
    instance: &Instance,
    state: &mut EdgeState,
    lines: &mut StepList,
    dim: u32,
    u: u32,
    v: u32,
    unsure: BitRow<2>,
) -> Result<bool, NoMemory>
    requires sizes { IsSized instance.now state.old dim }
    requires u { u < box_count instance.now }
    requires v { v < box_count instance.now }
    requires unsure { (x : ℕ) → row_has unsure x ≡ is_other_box state.old.boxes u x
        && not (is_surely_before (excludes state.old.trail) dim u x) }
    ensures { IfOk result (λ changed. IsLinkTry instance.now state.old state.new lines.old lines.new
        ((x : ℕ) → x < box_count instance.now
        → IsLinkedAt (box_count instance.now) (excludes state.old.trail) dim u v x) changed) }
{
    // For the proof alone: states the limits of the state.
    let _boxes = state.boxes();
    if u == v {
        return Ok(false);
    }
    if unsure.has(v) {
        return Ok(false);
    }
    let open = unsure.minus(unsure_row(state, dim, v));
    match open.first() {
        None => Ok(false),
        Some(_) => link_row(instance, state, lines, dim, u, v),
    }
}

// The same with each second box.
fn link_from(
    instance: &Instance,
    state: &mut EdgeState,
    lines: &mut StepList,
    dim: u32,
    u: u32,
) -> Result<bool, NoMemory>
    requires sizes { IsSized instance.now state.old dim }
    requires u { u < box_count instance.now }
    ensures { IfOk result (λ changed. IsLinkTry instance.now state.old state.new lines.old lines.new
        ((v : ℕ) → v < box_count instance.now → (x : ℕ) → x < box_count instance.now
        → IsLinkedAt (box_count instance.now) (excludes state.old.trail) dim u v x) changed) }
{
    let unsure = unsure_row(state, dim, u);
    for v in 0..instance.len() {
        let changed = link_pair(instance, state, lines, dim, u, v, unsure)?;
        if changed {
            return Ok(true);
        }
    }
    Ok(false)
}

// The same with each first box.
fn link_any(
    instance: &Instance,
    state: &mut EdgeState,
    lines: &mut StepList,
    dim: u32,
) -> Result<bool, NoMemory>
    requires sizes { IsSized instance.now state.old dim }
    ensures { IfOk result (λ changed. IsLinkTry instance.now state.old state.new lines.old lines.new
        ((u : ℕ) → u < box_count instance.now → (v : ℕ) → v < box_count instance.now
        → (x : ℕ) → x < box_count instance.now
        → IsLinkedAt (box_count instance.now) (excludes state.old.trail) dim u v x) changed) }
{
    for u in 0..instance.len() {
        let changed = link_from(instance, state, lines, dim, u)?;
        if changed {
            return Ok(true);
        }
    }
    Ok(false)
}

/// Makes surely before transitive in a dimension.
pub(crate) fn link_through(
    instance: &Instance,
    state: &mut EdgeState,
    lines: &mut StepList,
    dim: u32,
) -> Result<(), NoMemory>
    requires sizes { IsSized instance.now state.old dim }
    ensures { OnOk result (IsLinkedThrough instance.now dim state.old state.new
        lines.old lines.new) }
{
    let mut changed = true;
    while changed {
        changed = link_any(instance, state, lines, dim)?;
    }
    Ok(())
}
