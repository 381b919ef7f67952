//! All instances of a rule whose place is that of an exclusion, until it is there.
ghost use Rattle.std.specs.Prelude.{◌≡◌, ◌<◌, ◌↔◌, ◌≢◌, ℕ, [], ◌∷◌, OnOk, IsTrue};
ghost use Rattle.packing_terms.specs.Packing.{dims, box_count};
ghost use Rattle.packing_terms.specs.Relations.{mirror};
ghost use Rattle.packing_terms.specs.Exclusions.{excludes, IsEdgeAmong, IsJoined, IsSurelyBefore};
ghost use Rattle.packing_terms.specs.Rules.{Rule, AreBoxesAmong};
ghost use Rattle.packing_terms.specs.Rules.Rule.{Pair, Apart, Triple, Compose, Cycle, Order};
ghost use Rattle.refutation_steps.specs.Places.{IsPlaced, IsSought, IsPlain};

use crate::steps::{step_apart, step_compose, step_cycle, step_order, step_pair, step_triple};
use box_instances::{Instance, NoMemory};
use edge_state::{EdgeState, Exclusion, Rel};
use line_proofs::StepList;

/// Whether the exclusion is there.
#[inline]
pub(crate) fn is_there(state: &EdgeState, e: Exclusion) -> bool
    requires { IsEdgeAmong state.now.dims state.now.boxes e.dim e.u e.v }
    ensures { result ≡ excludes state.now.trail e.dim e.u e.v e.rel }
{
    // For the proof alone: states the limits of the state.
    let _boxes = state.boxes();
    !state.row(e.dim, e.u, e.rel).has(e.v)
}

/// Whether three boxes are distinct.
pub(crate) fn are_three(u: u32, v: u32, x: u32) -> bool
    ensures yes { IsTrue result → (n : ℕ) → u < n → v < n → x < n
        → AreBoxesAmong n (u ∷ v ∷ x ∷ []) }
    ensures no { (n : ℕ) → AreBoxesAmong n (u ∷ v ∷ x ∷ []) → IsTrue result }
{
    (u != v) & (u != x) & (v != x)
}

// Whether four boxes are distinct.
fn are_four(a: u32, b: u32, c: u32, d: u32) -> bool
    ensures yes { IsTrue result → (n : ℕ) → a < n → b < n → c < n → d < n
        → AreBoxesAmong n (a ∷ b ∷ c ∷ d ∷ []) }
    ensures no { (n : ℕ) → AreBoxesAmong n (a ∷ b ∷ c ∷ d ∷ []) → IsTrue result }
{
    (a != b) & (a != c) & (a != d) & are_three(b, c, d)
}

// PAIR at the place of the exclusion.
fn seek_pair(
    instance: &Instance,
    state: &mut EdgeState,
    lines: &mut StepList,
    e: Exclusion,
) -> Result<(), NoMemory>
    requires placed { IsPlaced instance.now state.old e }
    ensures { OnOk result (IsSought instance.now state.old state.new lines.old lines.new
        e (λ rule. rule ≡ Pair e.dim e.u e.v)) }
{
    if is_there(state, e) {
        return Ok(());
    }
    step_pair(instance, state, lines, e.dim, e.u, e.v)
}

// APART there.
fn seek_apart(
    instance: &Instance,
    state: &mut EdgeState,
    lines: &mut StepList,
    e: Exclusion,
) -> Result<(), NoMemory>
    requires placed { IsPlaced instance.now state.old e }
    ensures { OnOk result (IsSought instance.now state.old state.new lines.old lines.new
        e (λ rule. rule ≡ Apart e.dim e.u e.v)) }
{
    if is_there(state, e) {
        return Ok(());
    }
    step_apart(instance, state, lines, e.dim, e.u, e.v)
}

// TRIPLE there, with a third box.
fn triple_with(
    instance: &Instance,
    state: &mut EdgeState,
    lines: &mut StepList,
    e: Exclusion,
    x: u32,
) -> Result<(), NoMemory>
    requires placed { IsPlaced instance.now state.old e }
    requires x { x < box_count instance.now }
    ensures { OnOk result (IsSought instance.now state.old state.new lines.old lines.new
        e (λ rule. rule ≡ Triple e.dim e.u e.v x)) }
{
    if !are_three(e.u, e.v, x) {
        return Ok(());
    }
    if is_there(state, e) {
        return Ok(());
    }
    step_triple(instance, state, lines, e.dim, e.u, e.v, x)
}

// TRIPLE there.
fn seek_triple(
    instance: &Instance,
    state: &mut EdgeState,
    lines: &mut StepList,
    e: Exclusion,
) -> Result<(), NoMemory>
    requires placed { IsPlaced instance.now state.old e }
    ensures { OnOk result (IsSought instance.now state.old state.new lines.old lines.new e
        (λ rule. (x : ℕ) × (x < box_count instance.now) × (rule ≡ Triple e.dim e.u e.v x))) }
{
    for x in 0..instance.len() {
        triple_with(instance, state, lines, e, x)?;
    }
    Ok(())
}

// COMPOSE there, with a third box.
fn compose_with(
    instance: &Instance,
    state: &mut EdgeState,
    lines: &mut StepList,
    e: Exclusion,
    x: u32,
) -> Result<(), NoMemory>
    requires placed { IsPlaced instance.now state.old e }
    requires x { x < box_count instance.now }
    ensures { OnOk result (IsSought instance.now state.old state.new lines.old lines.new
        e (λ rule. rule ≡ Compose e.dim e.u x e.v)) }
{
    if !are_three(e.u, x, e.v) {
        return Ok(());
    }
    if is_there(state, e) {
        return Ok(());
    }
    step_compose(instance, state, lines, e.dim, e.u, x, e.v)
}

// COMPOSE there.
fn seek_compose(
    instance: &Instance,
    state: &mut EdgeState,
    lines: &mut StepList,
    e: Exclusion,
) -> Result<(), NoMemory>
    requires placed { IsPlaced instance.now state.old e }
    ensures { OnOk result (IsSought instance.now state.old state.new lines.old lines.new e
        (λ rule. (x : ℕ) × (x < box_count instance.now) × (rule ≡ Compose e.dim e.u x e.v))) }
{
    for x in 0..instance.len() {
        compose_with(instance, state, lines, e, x)?;
    }
    Ok(())
}

// CYCLE there, with two boxes more.
fn cycle_with(
    instance: &Instance,
    state: &mut EdgeState,
    lines: &mut StepList,
    e: Exclusion,
    a: u32,
    c: u32,
) -> Result<(), NoMemory>
    requires placed { IsPlaced instance.now state.old e }
    requires a { a < box_count instance.now }
    requires c { c < box_count instance.now }
    ensures { OnOk result (IsSought instance.now state.old state.new lines.old lines.new
        e (λ rule. rule ≡ Cycle e.dim a e.u c e.v)) }
{
    if !are_four(a, e.u, c, e.v) {
        return Ok(());
    }
    if is_there(state, e) {
        return Ok(());
    }
    step_cycle(instance, state, lines, e.dim, a, e.u, c, e.v)
}

// CYCLE there, with one box more.
fn cycles_with(
    instance: &Instance,
    state: &mut EdgeState,
    lines: &mut StepList,
    e: Exclusion,
    a: u32,
) -> Result<(), NoMemory>
    requires placed { IsPlaced instance.now state.old e }
    requires a { a < box_count instance.now }
    ensures { OnOk result (IsSought instance.now state.old state.new lines.old lines.new e
        (λ rule. (c : ℕ) × (c < box_count instance.now) × (rule ≡ Cycle e.dim a e.u c e.v))) }
{
    for c in 0..instance.len() {
        cycle_with(instance, state, lines, e, a, c)?;
    }
    Ok(())
}

// Whether two boxes are joined. A box isn't joined with itself.
fn joins(state: &EdgeState, dim: u32, u: u32, v: u32) -> bool
    requires dim { dim < state.now.dims }
    requires u { u < state.now.boxes }
    requires v { v < state.now.boxes }
    ensures { u ≢ v → IsJoined (excludes state.now.trail) dim u v → IsTrue result }
{
    if u == v {
        return false;
    }
    state.joined(dim, u, v)
}

// The same, where the first box is joined with the two at the place.
fn cycles_from(
    instance: &Instance,
    state: &mut EdgeState,
    lines: &mut StepList,
    e: Exclusion,
    a: u32,
) -> Result<(), NoMemory>
    requires placed { IsPlaced instance.now state.old e }
    requires a { a < box_count instance.now }
    ensures { OnOk result (IsSought instance.now state.old state.new lines.old lines.new
        e (λ rule. (c : ℕ) × (c < box_count instance.now)
        × (rule ≡ Cycle e.dim a e.u c e.v))) }
{
    if is_there(state, e) {
        return Ok(());
    }
    if !joins(state, e.dim, a, e.u) {
        return Ok(());
    }
    if !joins(state, e.dim, e.v, a) {
        return Ok(());
    }
    cycles_with(instance, state, lines, e, a)
}

// CYCLE there.
fn seek_cycle(
    instance: &Instance,
    state: &mut EdgeState,
    lines: &mut StepList,
    e: Exclusion,
) -> Result<(), NoMemory>
    requires placed { IsPlaced instance.now state.old e }
    ensures { OnOk result (IsSought instance.now state.old state.new lines.old lines.new e
        (λ rule. (a : ℕ) × (a < box_count instance.now)
        × ((c : ℕ) × (c < box_count instance.now) × (rule ≡ Cycle e.dim a e.u c e.v)))) }
{
    for a in 0..instance.len() {
        cycles_from(instance, state, lines, e, a)?;
    }
    Ok(())
}

// ORDER there, with two boxes more: its place is that of its third box and its second.
fn order_with(
    instance: &Instance,
    state: &mut EdgeState,
    lines: &mut StepList,
    e: Exclusion,
    a: u32,
    d: u32,
) -> Result<(), NoMemory>
    requires placed { IsPlaced instance.now state.old e }
    requires a { a < box_count instance.now }
    requires d { d < box_count instance.now }
    ensures { OnOk result (IsSought instance.now state.old state.new lines.old lines.new
        e (λ rule. rule ≡ Order e.dim a e.v e.u d)) }
{
    if !are_four(a, e.v, e.u, d) {
        return Ok(());
    }
    if is_there(state, e) {
        return Ok(());
    }
    step_order(instance, state, lines, e.dim, a, e.v, e.u, d)
}

// ORDER there, with one box more.
fn orders_with(
    instance: &Instance,
    state: &mut EdgeState,
    lines: &mut StepList,
    e: Exclusion,
    a: u32,
) -> Result<(), NoMemory>
    requires placed { IsPlaced instance.now state.old e }
    requires a { a < box_count instance.now }
    ensures { OnOk result (IsSought instance.now state.old state.new lines.old lines.new e
        (λ rule. (d : ℕ) × (d < box_count instance.now) × (rule ≡ Order e.dim a e.v e.u d))) }
{
    for d in 0..instance.len() {
        order_with(instance, state, lines, e, a, d)?;
    }
    Ok(())
}

// Whether a box is surely before another. It isn't before itself.
fn leads(state: &EdgeState, dim: u32, u: u32, v: u32) -> bool
    requires dim { dim < state.now.dims }
    requires u { u < state.now.boxes }
    requires v { v < state.now.boxes }
    ensures { u ≢ v → IsSurelyBefore (excludes state.now.trail) dim u v → IsTrue result }
{
    if u == v {
        return false;
    }
    state.sure_before(dim, u, v)
}

// The same, where the first box is surely before the second at the place.
fn orders_from(
    instance: &Instance,
    state: &mut EdgeState,
    lines: &mut StepList,
    e: Exclusion,
    a: u32,
) -> Result<(), NoMemory>
    requires placed { IsPlaced instance.now state.old e }
    requires a { a < box_count instance.now }
    ensures { OnOk result (IsSought instance.now state.old state.new lines.old lines.new
        e (λ rule. (d : ℕ) × (d < box_count instance.now)
        × (rule ≡ Order e.dim a e.v e.u d))) }
{
    if is_there(state, e) {
        return Ok(());
    }
    if !leads(state, e.dim, a, e.v) {
        return Ok(());
    }
    orders_with(instance, state, lines, e, a)
}

// ORDER there.
fn seek_order(
    instance: &Instance,
    state: &mut EdgeState,
    lines: &mut StepList,
    e: Exclusion,
) -> Result<(), NoMemory>
    requires placed { IsPlaced instance.now state.old e }
    ensures { OnOk result (IsSought instance.now state.old state.new lines.old lines.new e
        (λ rule. (a : ℕ) × (a < box_count instance.now)
        × ((d : ℕ) × (d < box_count instance.now) × (rule ≡ Order e.dim a e.v e.u d)))) }
{
    for a in 0..instance.len() {
        orders_from(instance, state, lines, e, a)?;
    }
    Ok(())
}

/// All rules but CHAIN there.
pub(crate) fn seek_plain(
    instance: &Instance,
    state: &mut EdgeState,
    lines: &mut StepList,
    e: Exclusion,
) -> Result<(), NoMemory>
    requires placed { IsPlaced instance.now state.old e }
    ensures { OnOk result (IsSought instance.now state.old state.new lines.old lines.new
        e (λ rule. IsPlain rule)) }
{
    seek_pair(instance, state, lines, e)?;
    seek_apart(instance, state, lines, e)?;
    seek_triple(instance, state, lines, e)?;
    seek_compose(instance, state, lines, e)?;
    seek_cycle(instance, state, lines, e)?;
    seek_order(instance, state, lines, e)
}

// A relation read from the other box.
fn turned(rel: Rel) -> Rel
    ensures { result ≡ mirror rel }
{
    match rel {
        Rel::Overlap => Rel::Overlap,
        Rel::Before => Rel::After,
        Rel::After => Rel::Before,
    }
}

/// The exclusion, read from its second box.
pub(crate) fn turned_exclusion(e: Exclusion) -> Exclusion
    ensures { result ≡ record { dim = e.dim; u = e.v; v = e.u; rel = mirror e.rel } }
{
    Exclusion {
        dim: e.dim,
        u: e.v,
        v: e.u,
        rel: turned(e.rel),
    }
}
