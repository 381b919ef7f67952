//! What a closing found, step by step.
ghost use Rattle.std.specs.Prelude.{◌≡◌, ◌≤◌, length, OnOk, IfOk};
ghost use Rattle.packing_terms.specs.Packing.{dims, box_count};
ghost use Rattle.packing_terms.specs.Exclusions.{excludes};
ghost use Rattle.packing_terms.specs.Closure.{IsDerivation, IsSubset};
ghost use Rattle.edge_state.specs.Edges.{oldest};
ghost use Rattle.refutation_steps.specs.Places.{IsPlaced};
ghost use Rattle.refutation_steps.specs.Replays.{IsPlainSought, AreChainsTried, IsMade, IsReplayed};
ghost use Rattle.refutation_steps.specs.Chains.{HasWeights};

use crate::chain_steps::{ChainScratch, seek_chain};
use crate::places::{is_there, seek_plain, turned_exclusion};
use box_instances::{Instance, NoMemory};
use edge_state::{EdgeState, Exclusion, Mark};
use line_proofs::StepList;

// All rules but CHAIN at the place of an exclusion, read from both boxes.
fn seek_both(
    instance: &Instance,
    state: &mut EdgeState,
    lines: &mut StepList,
    e: Exclusion,
) -> Result<(), NoMemory>
    requires { IsPlaced instance.now state.old e }
    ensures { OnOk result (IsPlainSought instance.now state.old state.new lines.old lines.new e) }
{
    let turned = turned_exclusion(e);
    seek_plain(instance, state, lines, e)?;
    seek_plain(instance, state, lines, turned)
}

// CHAIN there, read from both boxes. Answers whether a mask is empty.
fn seek_chains(
    instance: &Instance,
    state: &mut EdgeState,
    lines: &mut StepList,
    room: &mut ChainScratch,
    e: Exclusion,
) -> Result<bool, NoMemory>
    requires placed { IsPlaced instance.now state.old e }
    requires room { HasWeights (box_count instance.now) room.old.head.items room.old.tail.items }
    ensures room { HasWeights (box_count instance.now) room.new.head.items room.new.tail.items }
    ensures sought { IfOk result (λ stopped. AreChainsTried instance.now state.old state.new
        lines.old lines.new e stopped) }
{
    let turned = turned_exclusion(e);
    let stopped = seek_chain(instance, state, lines, room, e)?;
    if stopped {
        return Ok(true);
    }
    seek_chain(instance, state, lines, room, turned)
}

// Steps to an exclusion that follows by a rule. Answers whether a mask is empty.
fn make(
    instance: &Instance,
    state: &mut EdgeState,
    lines: &mut StepList,
    room: &mut ChainScratch,
    e: Exclusion,
) -> Result<bool, NoMemory>
    requires placed { IsPlaced instance.now state.old e }
    requires room { HasWeights (box_count instance.now) room.old.head.items room.old.tail.items }
    ensures room { HasWeights (box_count instance.now) room.new.head.items room.new.tail.items }
    ensures made { IfOk result (λ stopped. IsMade instance.now state.old state.new
        lines.old lines.new e stopped) }
{
    if is_there(state, e) {
        return Ok(false);
    }
    let stopped = seek_chains(instance, state, lines, room, e)?;
    if stopped {
        return Ok(true);
    }
    seek_both(instance, state, lines, e)?;
    Ok(false)
}

/// Steps to what a closed state has behind a position of its list, the oldest first. Answers
/// whether a mask is empty before all of it is there.
pub(crate) fn replay_on(
    instance: &Instance,
    state: &mut EdgeState,
    lines: &mut StepList,
    room: &mut ChainScratch,
    closed: &EdgeState,
    from: Mark,
) -> Result<bool, NoMemory>
    requires dims { state.old.dims ≡ dims instance.now }
    requires count { state.old.boxes ≡ box_count instance.now }
    requires closed_dims { closed.now.dims ≡ dims instance.now }
    requires closed_count { closed.now.boxes ≡ box_count instance.now }
    requires mark { from ≤ length closed.now.trail }
    requires derived { IsDerivation instance.now (excludes state.old.trail) closed.now.trail }
    requires holds { IsSubset (excludes (oldest from closed.now.trail)) (excludes state.old.trail) }
    requires room { HasWeights (box_count instance.now) room.old.head.items room.old.tail.items }
    ensures room { HasWeights (box_count instance.now) room.new.head.items room.new.tail.items }
    ensures replayed { IfOk result (λ stopped. IsReplayed instance.now state.old state.new
        lines.old lines.new closed.now.trail stopped) }
{
    // For the proof alone: states the limits of the state.
    let _sizes = closed.dims();
    let mut at = from;
    while let Some(change) = closed.change_after(at) {
        let stopped = make(instance, state, lines, room, change)?;
        if stopped {
            return Ok(true);
        }
        at = closed.mark_after(at);
    }
    Ok(false)
}
