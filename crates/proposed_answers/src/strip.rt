//! The least height, by proposals first.
ghost use Rattle.std.specs.Prelude.{◌<◌, ◌≤◌, IfOk};
ghost use Rattle.packing_terms.specs.Goals.{HasTooWideBox};
ghost use Rattle.packing_terms.specs.Limits.{max_height};
ghost use Rattle.level_search.specs.Bounds.{plain_bounds};
ghost use Rattle.strip_solver.specs.Strips.{IsTrueStrip};
ghost use Rattle.proposed_answers.specs.Heights.{AreHeightBounds, TellsHeights, IsNamedStrip, IsLimitedStrip, AreNeighboursPastBudget};

use crate::effort::{Effort, at_root};
use crate::heights::{lowered, narrow_heights, narrow_in_rounds};
use crate::purse::Purse;
use crate::steps::swap_batches;
use box_instances::{Instance, NoMemory};
use level_search::Bounds;
use std::alloc::Global;
use std::sync::Wait;
use std::thread::Threads;
use strip_solver::{Strip, least_height};
use work_share::{Gate, Settings};

// The answer by the bounds that were reached.
fn strip_of(bounds: Bounds) -> Strip
    requires order { bounds.refuted < bounds.placed }
    requires limit { bounds.placed ≤ max_height }
    ensures { TellsHeights (plain_bounds bounds) result }
{
    if bounds.placed - bounds.refuted < 2 {
        return Strip::Least {
            height: bounds.placed as u32,
            places: bounds.numbers,
            tokens: bounds.tokens,
        };
    }
    Strip::Between {
        refuted: bounds.refuted as u32,
        tokens: bounds.tokens,
        height: bounds.placed as u32,
        places: bounds.numbers,
    }
}

// The bounds whose refuted end is refuted at the root of its tree and whose placed end is a
// proposed packing: first by plain fills, so that both stand after some hundredths of a second, and
// then by rounds of swaps down to the refuted end.
fn both_ends<R: Threads + Wait + Sync, G: Gate + Sync>(
    rt: &R,
    alloc: Global,
    instance: &Instance,
    first: Bounds,
    settings: &Settings,
    gate: &G,
) -> Result<Bounds, NoMemory>
    requires { AreHeightBounds instance.now settings.now Effort.Root (plain_bounds first) }
    ensures { IfOk result
        (λ b. AreHeightBounds instance.now settings.now Effort.Root (plain_bounds b)) }
{
    let placed = lowered(rt, alloc, instance, first, 0, settings)?;
    let start = placed.without_attempts();
    let effort = Effort::Root;
    let mut purse = Purse::new(instance, settings);
    let refuted = narrow_heights(
        rt, alloc, instance, start, effort, &mut purse, settings, gate,
    )?;
    let ends = refuted.without_attempts();
    let batches = swap_batches(instance, settings.budget);
    lowered(rt, alloc, instance, ends, batches, settings)
}

// The answer from first bounds on: both ends stand, and then they are narrowed in rounds.
fn narrowed<R: Threads + Wait + Sync, G: Gate + Sync>(
    rt: &R,
    alloc: Global,
    instance: &Instance,
    first: Bounds,
    settings: &Settings,
    gate: &G,
) -> Result<Strip, NoMemory>
    requires bounds { AreHeightBounds instance.now settings.now Effort.Root (plain_bounds first) }
    requires narrow { ¬ HasTooWideBox instance.now }
    ensures right { IfOk result (λ s. IsTrueStrip instance.now s) }
    ensures named { IfOk result (λ s. IsNamedStrip instance.now s) }
    ensures limited { IfOk result (λ s. IsLimitedStrip s) }
    ensures past { IfOk result
        (λ s. AreNeighboursPastBudget instance.now settings.now.budget settings.now.scales s) }
{
    // For the proof alone: states the limits of the instance.
    let _limits = instance.len();
    let ends = both_ends(rt, alloc, instance, first, settings, gate)?;
    let bounds = narrow_in_rounds(rt, alloc, instance, ends, settings, gate)?;
    Ok(strip_of(bounds))
}

/// The least height at which the boxes fit, with both certificates, by proposals first. The
/// container's last side isn't looked at.
///
/// It begins at bounds that the roots of the heights' trees give, which the scale functions refute,
/// and a low packing that fills, swaps and beams propose. The heights between are narrowed in
/// rounds: each is decided by its class tree, and behind that by a proposal, with more branchings
/// from round to round as long as the budget pays for them. The budget bounds the whole run: a
/// branching of n boxes is counted by n^2. `Between` comes only where the trees of both heights
/// beside the two have more branchings than the share of the budget (`level_share`): the one above
/// the refuted height and the one below the placed height. `NoneFits` comes exactly where a box is
/// longer than the container in a dimension other than the last, and names the first. Which
/// packing, which refutation and how many heights are decided isn't promised.
pub fn least_height_proposed<R: Threads + Wait + Sync, G: Gate + Sync>(
    rt: &R,
    alloc: Global,
    instance: &Instance,
    settings: &Settings,
    gate: &G,
) -> Result<Strip, NoMemory>
    ensures right { IfOk result (λ s. IsTrueStrip instance.now s) }
    ensures named { IfOk result (λ s. IsNamedStrip instance.now s) }
    ensures limited { IfOk result (λ s. IsLimitedStrip s) }
    ensures past { IfOk result
        (λ s. AreNeighboursPastBudget instance.now settings.now.budget settings.now.scales s) }
{
    // For the proof alone: states the limits of the instance.
    let _limits = instance.len();
    let found = least_height(rt, alloc, instance, &at_root(settings), gate)?;
    match found {
        Strip::Between {
            refuted,
            tokens,
            height,
            places,
        } => {
            let first = Bounds::new(u64::from(refuted), tokens, u64::from(height), places);
            narrowed(rt, alloc, instance, first, settings, gate)
        }
        Strip::Least {
            height,
            places,
            tokens,
        } => Ok(Strip::Least {
            height,
            places,
            tokens,
        }),
        Strip::NoneFits { box_no, dim } => Ok(Strip::NoneFits { box_no, dim }),
    }
}
