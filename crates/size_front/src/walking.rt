//! The walk along the front.
ghost use Rattle.std.specs.Prelude.{◌≡◌, ◌≤◌, ◌+◌, ◌-◌, ◌*◌, ◌/◌, ◌^◌, ◌↔◌, false, true, map, IfOk};
ghost use Rattle.packing_terms.specs.Packing.{dims, box_count};
ghost use Rattle.verdict_terms.specs.Fronts.{IsClaimed};
ghost use Rattle.answer_terms.specs.Walks.{sizes, front_walk};
ghost use Rattle.answer_terms.specs.Asked.{HasContainerPastBudget};
ghost use Rattle.size_front.specs.Plain.{plain_front, plain_point};

use crate::Front;
use crate::deciding::decider_for;
use crate::rounds::{WalkState, one_round};
use box_instances::{Instance, NoMemory};
use proof_tree::CompactTokens;
use std::alloc::Global;
use std::sync::Wait;
use std::thread::Threads;
use work_share::{Gate, Settings};

// The walk, round by round.
fn walk_along<R: Threads + Wait + Sync, G: Gate + Sync>(
    rt: &R,
    alloc: Global,
    instance: &Instance,
    settings: &Settings,
    gate: &G,
) -> Result<Front, NoMemory>
    requires plane { dims instance.now ≡ 2 }
    ensures { IfOk result (λ f. plain_front f
        ≡ front_walk instance.now settings.now.budget settings.now.scales) }
{
    let mut decider = decider_for(alloc, instance, settings.workers)?;
    let mut front = Front {
        complete: false,
        corners: Vec::new(alloc),
        points: Vec::new(alloc),
    };
    let mut next = Some(WalkState {
        height: instance.written_container(1),
        refuted: 0,
        tokens: CompactTokens::new(alloc),
    });
    while let Some(stand) = next {
        next = one_round(
            rt,
            alloc,
            instance,
            stand,
            &mut front,
            &mut decider,
            settings,
            gate,
        )?;
    }
    Ok(front)
}

/// The front of least sizes of a two-dimensional instance, with the places of each point and the
/// refutations of the corners, by a walk from the greatest height on: the least width at a height,
/// the least height at that width, and on below it.
///
/// `complete` is false exactly where a container that the walk decides has more branchings than the
/// budget. Where it is true the points are the front; else they are all of it up to the width of
/// the last one.
pub fn least_sizes<R: Threads + Wait + Sync, G: Gate + Sync>(
    rt: &R,
    alloc: Global,
    instance: &Instance,
    settings: &Settings,
    gate: &G,
) -> Result<Front, NoMemory>
    requires plane { dims instance.now ≡ 2 }
    ensures walk { IfOk result (λ f. plain_front f
        ≡ front_walk instance.now settings.now.budget settings.now.scales) }
    ensures claim { IfOk result
        (λ f. IsClaimed instance.now f.complete (sizes (map plain_point f.points.items))) }
    ensures spent { IfOk result (λ f. (f.complete ≡ false)
        ↔ HasContainerPastBudget instance.now settings.now.budget settings.now.scales) }
    ensures enough { 3 ^ (dims instance.now * box_count instance.now
        * (box_count instance.now - 1) / 2) ≤ settings.now.budget + 1
        → IfOk result (λ f. f.complete ≡ true) }
{
    // For the proof alone: states the limits of the instance.
    let _limits = instance.len();
    walk_along(rt, alloc, instance, settings, gate)
}
