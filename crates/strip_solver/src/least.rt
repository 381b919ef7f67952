//! The least height.
ghost use Rattle.std.specs.Prelude.{◌≡◌, ◌<◌, ◌≤◌, ◌+◌, ◌-◌, ◌*◌, ◌/◌, ◌^◌, ℕ, suc, false, IfOk};
ghost use Rattle.packing_terms.specs.Packing.{dims, box_count};
ghost use Rattle.packing_terms.specs.Exclusions.{AreAtEdges};
ghost use Rattle.packing_terms.specs.Goals.{HasTooWideBox, with_last_side};
ghost use Rattle.packing_terms.specs.Limits.{max_height};
ghost use Rattle.packing_terms.specs.Facts.{symmetry_facts};
ghost use Rattle.tree_terms.specs.Levels.{first_heights};
ghost use Rattle.tree_terms.specs.Heights.{height_run_from, DecideHeights};
ghost use Rattle.level_search.specs.Runs.{plain_reached};
ghost use Rattle.strip_solver.specs.Strips.{Tells, IsAnswer, IsTrueStrip, IsSpentExactly, IsAnswerFrom, IsTrueStripFrom, IsSpentExactlyFrom, IsFinal};

use crate::Strip;
use crate::heights::{decide_height, decider_for};
use crate::stack::stack_all;
use crate::wide::first_too_wide;
use box_instances::{Instance, NoMemory};
use class_search::Exclusion;
use level_search::Reached;
use proof_tree::{CompactTokens, Token};
use std::alloc::Global;
use std::sync::Wait;
use std::thread::Threads;
use symmetry_list::facts;
use work_share::{Gate, Settings};

// The refutation of height 0: box 1 is longer than the container in the last dimension.
fn no_height(alloc: Global, instance: &Instance) -> Result<CompactTokens, NoMemory>
    ensures { IfOk result (λ tokens. tokens
        ≡ (first_heights instance.now).tokens) }
{
    let dim = instance.dims();
    CompactTokens::of_one(alloc, Token::TooLarge { box_no: 1, dim })
}

// The run of heights of an instance none of whose boxes is too wide, with trees that begin with
// these exclusions.
fn bisect_heights<R: Threads + Wait + Sync, G: Gate + Sync>(
    rt: &R,
    alloc: Global,
    instance: &Instance,
    start: &[Exclusion],
    settings: &Settings,
    gate: &G,
) -> Result<Reached, NoMemory>
    requires edges { (h : ℕ) → AreAtEdges (with_last_side instance.now h) start.now }
    ensures { IfOk result (λ r. plain_reached r
        ≡ height_run_from start.now instance.now settings.now.budget settings.now.scales) }
{
    // For the proof alone: states the limits of the instance.
    let _limits = instance.len();
    let stack = stack_all(alloc, instance)?;
    let tokens = no_height(alloc, instance)?;
    let mut decider = decider_for(alloc, instance, start, settings.workers)?;
    let mut reached = Reached::starting(0, tokens, u64::from(stack.height), stack.places);
    while let Some(level) = reached.next_level() {
        let height = level as u32;
        let answer = decide_height(
            rt,
            alloc,
            instance,
            start,
            height,
            &mut decider,
            settings,
            gate,
        )?;
        reached = reached.after(level, answer);
    }
    Ok(reached)
}

// The answer where a run of heights ended.
fn strip_of(reached: Reached) -> Strip
    requires rising { reached.refuted < reached.placed }
    requires beside { reached.spent ≡ false → suc reached.refuted ≡ reached.placed }
    requires limit { reached.placed ≤ max_height }
    ensures { Tells (plain_reached reached) result }
{
    if reached.spent {
        return Strip::Between {
            refuted: reached.refuted as u32,
            tokens: reached.tokens,
            height: reached.placed as u32,
            places: reached.numbers,
        };
    }
    Strip::Least {
        height: reached.placed as u32,
        places: reached.numbers,
        tokens: reached.tokens,
    }
}

// The least height, with trees that begin with these exclusions.
fn least_from<R: Threads + Wait + Sync, G: Gate + Sync>(
    rt: &R,
    alloc: Global,
    instance: &Instance,
    start: &[Exclusion],
    settings: &Settings,
    gate: &G,
) -> Result<Strip, NoMemory>
    requires { DecideHeights instance.now start.now }
    ensures answer { IfOk result (λ s. IsAnswerFrom start.now instance.now settings.now.budget
        settings.now.scales s) }
    ensures right { IfOk result (λ s. IsTrueStripFrom start.now instance.now s) }
    ensures spent { IfOk result (λ s. IsSpentExactlyFrom start.now instance.now
        settings.now.budget settings.now.scales s) }
    ensures enough { 3 ^ (dims instance.now * box_count instance.now
        * (box_count instance.now - 1) / 2) ≤ settings.now.budget + 1
        → IfOk result (λ s. IsFinal s) }
{
    // For the proof alone: states the limits of the instance.
    let _limits = instance.len();
    match first_too_wide(instance) {
        Some((box_no, dim)) => Ok(Strip::NoneFits { box_no, dim }),
        None => {
            let reached = bisect_heights(rt, alloc, instance, start, settings, gate)?;
            Ok(strip_of(reached))
        }
    }
}

/// The least height at which the boxes fit, with both certificates: places that are a packing in
/// it, and tokens that refute the height below. The container's last side isn't looked at.
///
/// It follows the run of heights from 0 and the stack of all boxes, each decided under the budget.
/// `NoneFits` comes exactly where a box is longer than the container in a dimension other than the
/// last, and names the first. `Between` comes exactly where a height on the run has more branchings
/// than the budget.
pub fn least_height<R: Threads + Wait + Sync, G: Gate + Sync>(
    rt: &R,
    alloc: Global,
    instance: &Instance,
    settings: &Settings,
    gate: &G,
) -> Result<Strip, NoMemory>
    ensures answer { IfOk result
        (λ s. IsAnswer instance.now settings.now.budget settings.now.scales s) }
    ensures right { IfOk result (λ s. IsTrueStrip instance.now s) }
    ensures spent { IfOk result
        (λ s. IsSpentExactly instance.now settings.now.budget settings.now.scales s) }
    ensures enough { 3 ^ (dims instance.now * box_count instance.now
        * (box_count instance.now - 1) / 2) ≤ settings.now.budget + 1
        → IfOk result (λ s. IsFinal s) }
{
    // For the proof alone: states the limits of the instance.
    let _limits = instance.len();
    least_from(rt, alloc, instance, &[], settings, gate)
}

/// The same, with trees that begin with the symmetry facts of the instance, which are those of
/// every height. The tokens refute the height below under these facts.
pub fn least_height_reduced<R: Threads + Wait + Sync, G: Gate + Sync>(
    rt: &R,
    alloc: Global,
    instance: &Instance,
    settings: &Settings,
    gate: &G,
) -> Result<Strip, NoMemory>
    ensures answer { IfOk result (λ s. IsAnswerFrom (symmetry_facts instance.now) instance.now
        settings.now.budget settings.now.scales s) }
    ensures right { IfOk result
        (λ s. IsTrueStripFrom (symmetry_facts instance.now) instance.now s) }
    ensures spent { IfOk result (λ s. IsSpentExactlyFrom (symmetry_facts instance.now) instance.now
        settings.now.budget settings.now.scales s) }
    ensures enough { 3 ^ (dims instance.now * box_count instance.now
        * (box_count instance.now - 1) / 2) ≤ settings.now.budget + 1
        → IfOk result (λ s. IsFinal s) }
{
    // For the proof alone: states the limits of the instance.
    let _limits = instance.len();
    let start = facts(alloc, instance)?;
    least_from(rt, alloc, instance, start.as_slice(), settings, gate)
}
