//! The rules, each as a step that is written behind the lines so far where it changes a mask.
ghost use Rattle.std.specs.Prelude.{◌≡◌, ◌<◌, ◌++◌, [], ◌∷◌, OnOk, if◌then◌else◌};
ghost use Rattle.packing_terms.specs.Packing.{dims, box_count};
ghost use Rattle.packing_terms.specs.Limits.{IsDimCount, IsBoxCount};
ghost use Rattle.packing_terms.specs.Rules.{Rule, AreBoxesAmong};
ghost use Rattle.packing_terms.specs.Rules.Rule.{Pair, Apart, Triple, Compose, Cycle, Order};
ghost use Rattle.line_proofs.specs.Plain.{plain_step};
ghost use Rattle.refutation_steps.specs.Goes.{IsStepped};

use box_instances::{Instance, NoMemory};
use edge_state::EdgeState;
use line_proofs::{
    Step, StepList, take_apart, take_compose, take_cycle, take_order, take_pair, take_triple,
};

/// A line more.
pub(crate) fn write_line(lines: &mut StepList, step: Step) -> Result<(), NoMemory>
    ensures { OnOk result (lines.new ≡ lines.old ++ plain_step step ∷ []) }
{
    lines.push(step)
}

// The line of a step, where the step was taken.
fn write_taken(lines: &mut StepList, taken: bool, step: Step) -> Result<(), NoMemory>
    ensures { OnOk result (lines.new ≡ (if taken
        then lines.old ++ plain_step step ∷ [] else lines.old)) }
{
    if !taken {
        return Ok(());
    }
    write_line(lines, step)
}

/// PAIR, written where it changes a mask.
pub(crate) fn step_pair(
    instance: &Instance,
    state: &mut EdgeState,
    lines: &mut StepList,
    dim: u32,
    u: u32,
    v: u32,
) -> Result<(), NoMemory>
    requires dims { state.old.dims ≡ dims instance.now }
    requires count { state.old.boxes ≡ box_count instance.now }
    requires dim { dim < state.old.dims }
    requires boxes { AreBoxesAmong state.old.boxes (u ∷ v ∷ []) }
    ensures { OnOk result (IsStepped instance.now state.old state.new
        lines.old lines.new (Pair dim u v)) }
{
    // For the proof alone: states the limits of the state.
    let _sizes = state.dims();
    let taken = take_pair(instance, state, dim, u, v);
    let step = Step::Pair {
        dim: dim + 1,
        u: u + 1,
        v: v + 1,
    };
    write_taken(lines, taken, step)
}

/// APART, written where it changes a mask.
pub(crate) fn step_apart(
    instance: &Instance,
    state: &mut EdgeState,
    lines: &mut StepList,
    dim: u32,
    u: u32,
    v: u32,
) -> Result<(), NoMemory>
    requires dims { state.old.dims ≡ dims instance.now }
    requires count { state.old.boxes ≡ box_count instance.now }
    requires dim { dim < state.old.dims }
    requires boxes { AreBoxesAmong state.old.boxes (u ∷ v ∷ []) }
    ensures { OnOk result (IsStepped instance.now state.old state.new
        lines.old lines.new (Apart dim u v)) }
{
    // For the proof alone: states the limits of the state.
    let _sizes = state.dims();
    let taken = take_apart(instance, state, dim, u, v);
    let step = Step::Apart {
        dim: dim + 1,
        u: u + 1,
        v: v + 1,
    };
    write_taken(lines, taken, step)
}

/// TRIPLE, written where it changes a mask.
pub(crate) fn step_triple(
    instance: &Instance,
    state: &mut EdgeState,
    lines: &mut StepList,
    dim: u32,
    u: u32,
    v: u32,
    x: u32,
) -> Result<(), NoMemory>
    requires dims { state.old.dims ≡ dims instance.now }
    requires count { state.old.boxes ≡ box_count instance.now }
    requires dim { dim < state.old.dims }
    requires boxes { AreBoxesAmong state.old.boxes (u ∷ v ∷ x ∷ []) }
    ensures { OnOk result (IsStepped instance.now state.old state.new
        lines.old lines.new (Triple dim u v x)) }
{
    // For the proof alone: states the limits of the state.
    let _sizes = state.dims();
    let taken = take_triple(instance, state, dim, u, v, x);
    let step = Step::Triple {
        dim: dim + 1,
        u: u + 1,
        v: v + 1,
        x: x + 1,
    };
    write_taken(lines, taken, step)
}

/// COMPOSE, written where it changes a mask.
pub(crate) fn step_compose(
    instance: &Instance,
    state: &mut EdgeState,
    lines: &mut StepList,
    dim: u32,
    u: u32,
    v: u32,
    x: u32,
) -> Result<(), NoMemory>
    requires dims { state.old.dims ≡ dims instance.now }
    requires count { state.old.boxes ≡ box_count instance.now }
    requires dim { dim < state.old.dims }
    requires boxes { AreBoxesAmong state.old.boxes (u ∷ v ∷ x ∷ []) }
    ensures { OnOk result (IsStepped instance.now state.old state.new
        lines.old lines.new (Compose dim u v x)) }
{
    // For the proof alone: states the limits of the state.
    let _sizes = state.dims();
    let taken = take_compose(state, dim, u, v, x);
    let step = Step::Compose {
        dim: dim + 1,
        u: u + 1,
        v: v + 1,
        x: x + 1,
    };
    write_taken(lines, taken, step)
}

/// CYCLE, written where it changes a mask.
pub(crate) fn step_cycle(
    instance: &Instance,
    state: &mut EdgeState,
    lines: &mut StepList,
    dim: u32,
    a: u32,
    b: u32,
    c: u32,
    d: u32,
) -> Result<(), NoMemory>
    requires dims { state.old.dims ≡ dims instance.now }
    requires count { state.old.boxes ≡ box_count instance.now }
    requires dim { dim < state.old.dims }
    requires boxes { AreBoxesAmong state.old.boxes (a ∷ b ∷ c ∷ d ∷ []) }
    ensures { OnOk result (IsStepped instance.now state.old state.new
        lines.old lines.new (Cycle dim a b c d)) }
{
    // For the proof alone: states the limits of the state.
    let _sizes = state.dims();
    let taken = take_cycle(state, dim, a, b, c, d);
    let step = Step::Cycle {
        dim: dim + 1,
        a: a + 1,
        b: b + 1,
        c: c + 1,
        d: d + 1,
    };
    write_taken(lines, taken, step)
}

/// ORDER, written where it changes a mask.
pub(crate) fn step_order(
    instance: &Instance,
    state: &mut EdgeState,
    lines: &mut StepList,
    dim: u32,
    a: u32,
    b: u32,
    c: u32,
    d: u32,
) -> Result<(), NoMemory>
    requires dims { state.old.dims ≡ dims instance.now }
    requires count { state.old.boxes ≡ box_count instance.now }
    requires dim { dim < state.old.dims }
    requires boxes { AreBoxesAmong state.old.boxes (a ∷ b ∷ c ∷ d ∷ []) }
    ensures { OnOk result (IsStepped instance.now state.old state.new
        lines.old lines.new (Order dim a b c d)) }
{
    // For the proof alone: states the limits of the state.
    let _sizes = state.dims();
    let taken = take_order(state, dim, a, b, c, d);
    let step = Step::Order {
        dim: dim + 1,
        a: a + 1,
        b: b + 1,
        c: c + 1,
        d: d + 1,
    };
    write_taken(lines, taken, step)
}
