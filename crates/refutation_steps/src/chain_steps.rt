//! CHAIN at the place of an exclusion, as a step that is written behind the lines so far.
ghost use Rattle.std.specs.Prelude.{◌≡◌, ◌<◌, ◌+◌, ◌++◌, [], ◌∷◌, ◌↔◌, false, length, suc, IsTrue, OnOk, IfOk};
ghost use Rattle.packing_terms.specs.declared.Rel.TheVariants.{Before as PlainBefore};
ghost use Rattle.packing_terms.specs.Packing.{dims, box_count};
ghost use Rattle.packing_terms.specs.Exclusions.{excludes, IsSurelyBefore, IsEdgeAmong};
ghost use Rattle.packing_terms.specs.Rules.{AreBoxes};
ghost use Rattle.packing_terms.specs.declared.Direction.TheVariants.{Forwards, Backwards};
ghost use Rattle.packing_terms.specs.Places.{HasNoEmptyMask};
ghost use Rattle.packing_terms.specs.Runs.{IsTransitive};
ghost use Rattle.edge_state.specs.States.{IsSized};
ghost use Rattle.verdict_terms.specs.Steps.{box_lines};
ghost use Rattle.verdict_terms.specs.Steps.PlainStep.{Chain as PlainChain};
ghost use Rattle.refutation_steps.specs.Places.{IsPlaced, IsSought};
ghost use Rattle.refutation_steps.specs.Replays.{IsChainRule};
ghost use Rattle.refutation_steps.specs.Chains.{AreWeighed, HasWeights, IsChainFound, IsChainStepped, IsChainTry};

use crate::chains::{chain_from, chain_to};
use crate::empties::empty_place;
use crate::links::link_through;
use crate::places::is_there;
use crate::steps::write_line;
use box_instances::{Instance, NoMemory};
use edge_state::{EdgeState, Exclusion, Rel};
use line_proofs::{Step, StepList};
use orientation_rules::heads_and_tails;
use std::alloc::Global;

/// Room for the weights of chains, and for the boxes of two chains.
#[derive(Drop)]
pub struct ChainScratch {
    pub head: Vec<u64>,
    pub tail: Vec<u64>,
    pub before: Vec<u32>,
    pub after: Vec<u32>,
}

// `boxes` weights, all 0.
fn weights_of(alloc: Global, boxes: u32) -> Result<Vec<u64>, NoMemory>
    ensures { IfOk result (λ list. length list.items ≡ boxes) }
{
    let Ok(list) = vec![in alloc; 0u64; boxes as usize] else {
        return Err(NoMemory);
    };
    Ok(list)
}

/// Room for `boxes` boxes.
pub(crate) fn chain_room(alloc: Global, boxes: u32) -> Result<ChainScratch, NoMemory>
    ensures { IfOk result (λ room. HasWeights boxes room.head.items room.tail.items) }
{
    let head = weights_of(alloc, boxes)?;
    let tail = weights_of(alloc, boxes)?;
    Ok(ChainScratch {
        head,
        tail,
        before: Vec::new(alloc),
        after: Vec::new(alloc),
    })
}

// Whether it is the relation before.
fn is_before(rel: Rel) -> bool
    ensures { IsTrue result ↔ (rel ≡ PlainBefore) }
{
    match rel {
        Rel::Before => true,
        Rel::Overlap => false,
        Rel::After => false,
    }
}

// The weights of the heaviest chains of the state in a dimension.
fn weigh_chains(instance: &Instance, state: &EdgeState, dim: u32, room: &mut ChainScratch)
    requires sizes { IsSized instance.now state.now dim }
    requires room { HasWeights (box_count instance.now) room.old.head.items room.old.tail.items }
    requires full { HasNoEmptyMask instance.now (excludes state.now.trail) }
    requires transitive { IsTransitive (box_count instance.now) (IsSurelyBefore
        (excludes state.now.trail) dim) }
    ensures heads { AreWeighed instance.now state.now dim Backwards room.new.head.items }
    ensures tails { AreWeighed instance.now state.now dim Forwards room.new.tail.items }
{
    // For the proof alone: states the limits of the instance.
    let _count = instance.len();
    let head = room.head.as_mut_slice();
    let tail = room.tail.as_mut_slice();
    heads_and_tails(instance, state, dim, head, tail);
}

// The boxes of a chain, a line each.
fn write_boxes(instance: &Instance, lines: &mut StepList, boxes: &[u32]) -> Result<(), NoMemory>
    requires { AreBoxes instance.now boxes.now }
    ensures { OnOk result (lines.new ≡ lines.old ++ box_lines boxes.now) }
{
    // For the proof alone: states the limits of the instance.
    let _count = instance.len();
    for v in boxes {
        write_line(lines, Step::On { box_no: *v + 1 })?;
    }
    Ok(())
}

// The lines of a chain step.
fn write_chain(
    instance: &Instance,
    lines: &mut StepList,
    dim: u32,
    before: &[u32],
    after: &[u32],
) -> Result<(), NoMemory>
    requires dim { dim < dims instance.now }
    requires before { AreBoxes instance.now before.now }
    requires after { AreBoxes instance.now after.now }
    ensures { OnOk result (lines.new ≡ lines.old
        ++ PlainChain (suc dim) (length before.now) (length after.now)
        ∷ (box_lines before.now ++ box_lines after.now)) }
{
    // For the proof alone: states the limits of the instance.
    let _count = instance.len();
    let step = Step::Chain {
        dim: dim + 1,
        first: before.len() as u32,
        second: after.len() as u32,
    };
    write_line(lines, step)?;
    write_boxes(instance, lines, before)?;
    write_boxes(instance, lines, after)
}

// CHAIN with two chains whose boxes are these.
fn step_chain(
    instance: &Instance,
    state: &mut EdgeState,
    lines: &mut StepList,
    dim: u32,
    u: u32,
    v: u32,
    to: &[u32],
    from: &[u32],
) -> Result<(), NoMemory>
    requires edge { IsEdgeAmong state.old.dims state.old.boxes dim u v }
    requires left { excludes state.old.trail dim u v PlainBefore ≡ false }
    requires found { IsChainFound instance.now state.old.trail dim u v to.now from.now }
    ensures { OnOk result (IsChainStepped instance.now state.old state.new
        lines.old lines.new dim u v) }
{
    write_chain(instance, lines, dim, to, from)?;
    state.exclude(dim, u, v, Rel::Before);
    Ok(())
}

// CHAIN at the place of the exclusion, where surely before is transitive and no mask is empty.
fn take_chain(
    instance: &Instance,
    state: &mut EdgeState,
    lines: &mut StepList,
    room: &mut ChainScratch,
    e: Exclusion,
) -> Result<(), NoMemory>
    requires placed { IsPlaced instance.now state.old e }
    requires before { e.rel ≡ PlainBefore }
    requires left { excludes state.old.trail e.dim e.u e.v PlainBefore ≡ false }
    requires full { HasNoEmptyMask instance.now (excludes state.old.trail) }
    requires transitive { IsTransitive (box_count instance.now) (IsSurelyBefore
        (excludes state.old.trail) e.dim) }
    requires room { HasWeights (box_count instance.now) room.old.head.items room.old.tail.items }
    ensures room { HasWeights (box_count instance.now) room.new.head.items room.new.tail.items }
    ensures sought { OnOk result (IsSought instance.now state.old state.new
        lines.old lines.new e (λ rule. IsChainRule rule)) }
{
    // For the proof alone: states the limits of the instance.
    let _count = instance.len();
    weigh_chains(instance, state, e.dim, room);
    let head = room.head.as_slice()[e.u as usize];
    let tail = room.tail.as_slice()[e.v as usize];
    if head + tail <= u64::from(instance.container_side(e.dim)) {
        return Ok(());
    }
    chain_to(
        instance,
        state,
        e.dim,
        room.head.as_slice(),
        e.u,
        &mut room.before,
    )?;
    chain_from(
        instance,
        state,
        e.dim,
        room.tail.as_slice(),
        e.v,
        &mut room.after,
    )?;
    step_chain(
        instance,
        state,
        lines,
        e.dim,
        e.u,
        e.v,
        room.before.as_slice(),
        room.after.as_slice(),
    )
}

/// CHAIN at the place of the exclusion. Answers whether a mask is empty, so that weights of chains
/// mean nothing.
pub(crate) fn seek_chain(
    instance: &Instance,
    state: &mut EdgeState,
    lines: &mut StepList,
    room: &mut ChainScratch,
    e: Exclusion,
) -> Result<bool, NoMemory>
    requires placed { IsPlaced instance.now state.old e }
    requires room { HasWeights (box_count instance.now) room.old.head.items room.old.tail.items }
    ensures room { HasWeights (box_count instance.now) room.new.head.items room.new.tail.items }
    ensures sought { IfOk result (λ stopped. IsChainTry instance.now state.old state.new
        lines.old lines.new e stopped) }
{
    if !is_before(e.rel) {
        return Ok(false);
    }
    if is_there(state, e) {
        return Ok(false);
    }
    link_through(instance, state, lines, e.dim)?;
    if let Some(_place) = empty_place(state) {
        return Ok(true);
    }
    if is_there(state, e) {
        return Ok(false);
    }
    take_chain(instance, state, lines, room, e)?;
    Ok(false)
}
