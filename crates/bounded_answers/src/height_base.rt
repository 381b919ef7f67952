//! The heights of the run without families, which the search begins with.
ghost use Rattle.std.specs.Prelude.{◌≡◌, ◌≤◌, false, true, IfOk};
ghost use Rattle.bounded_answers.specs.Heights.{plain_strip, strip_told, IsAnswer, IsOpenOnlyPast};

use crate::height_levels::{BoundedStrip, HeightLevels, HeightProof};
use box_instances::{Instance, NoMemory};
use proposed_answers::least_height_proposed;
use std::alloc::Global;
use std::sync::Wait;
use std::thread::Threads;
use strip_solver::{Strip, least_height};
use work_share::{Gate, Settings};

// The heights that an answer names.
fn levels_of(strip: Strip) -> BoundedStrip
    ensures { plain_strip result ≡ strip_told strip }
{
    match strip {
        Strip::Least {
            height,
            places,
            tokens,
        } => BoundedStrip::Levels(HeightLevels {
            refuted: height.saturating_sub(1),
            proof: HeightProof::Plain(tokens),
            placed: height,
            places,
        }),
        Strip::Between {
            refuted,
            tokens,
            height,
            places,
        } => BoundedStrip::Levels(HeightLevels {
            refuted,
            proof: HeightProof::Plain(tokens),
            placed: height,
            places,
        }),
        Strip::NoneFits { box_no, dim } => BoundedStrip::NoneFits { box_no, dim },
    }
}

/// The heights at which the run of class trees ends under the budget.
pub(crate) fn plain_base<R: Threads + Wait + Sync, G: Gate + Sync>(
    rt: &R,
    alloc: Global,
    instance: &Instance,
    settings: &Settings,
    gate: &G,
) -> Result<BoundedStrip, NoMemory>
    ensures answer { IfOk result (λ s. IsAnswer instance.now s) }
    ensures past { IfOk result
        (λ s. IsOpenOnlyPast false instance.now settings.now (plain_strip s)) }
{
    // For the proof alone: states the limits of the instance.
    let _limits = instance.len();
    let strip = least_height(rt, alloc, instance, settings, gate)?;
    Ok(levels_of(strip))
}

/// The heights at which proposals and the class trees behind them end.
pub(crate) fn proposed_base<R: Threads + Wait + Sync, G: Gate + Sync>(
    rt: &R,
    alloc: Global,
    instance: &Instance,
    settings: &Settings,
    gate: &G,
) -> Result<BoundedStrip, NoMemory>
    ensures answer { IfOk result (λ s. IsAnswer instance.now s) }
    ensures past { IfOk result
        (λ s. IsOpenOnlyPast true instance.now settings.now (plain_strip s)) }
{
    // For the proof alone: states the limits of the instance.
    let _limits = instance.len();
    let strip = least_height_proposed(rt, alloc, instance, settings, gate)?;
    Ok(levels_of(strip))
}
