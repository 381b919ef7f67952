//! Values between two others, each decided by its choice tree.
ghost use Rattle.std.specs.Prelude.{◌≡◌, ◌<◌, ◌≤◌, pred, IfOk};
ghost use Rattle.level_search.specs.Runs.{plain_level};
ghost use Rattle.level_search.specs.Bounds.{plain_bounds, levels_left, IsAsked, HasNoLevelLeft};
ghost use Rattle.proposed_answers.specs.Shares.{level_share};
ghost use Rattle.proposed_answers.specs.Values.{top_value, IsLevelAnswer, AreValueBounds};

use crate::share::level_share;
use bin_knapsack::decide_value;
use box_instances::{Instance, NoMemory};
use level_search::{Bounds, Level};
use set_search::SetSearch;
use std::alloc::Global;
use std::sync::Wait;
use std::thread::Threads;
use work_share::{Gate, Settings};

// From tree to tree the branchings rise to four times as many, at most from 0 to 10,000,000.
const RISE: u64 = 4;

const MOST_RISES: u32 = 16;

// What is found at a level by a choice tree of `branchings`: at the value that lies `level` below
// the top.
fn decide_level<R: Threads + Wait + Sync, G: Gate + Sync>(
    rt: &R,
    alloc: Global,
    search: &mut SetSearch<'_>,
    instance: &Instance,
    top: u64,
    level: u64,
    branchings: u64,
    settings: &Settings,
    gate: &G,
) -> Result<Level, NoMemory>
    requires top { top ≡ top_value instance.now }
    requires enough { level_share settings.now.budget ≤ branchings }
    requires search { search.old
        ≡ record { instance = instance.now; scales = settings.now.scales } }
    ensures same { search.new ≡ search.old }
    ensures answer { IfOk result
        (λ l. IsLevelAnswer instance.now settings.now level (plain_level l)) }
{
    // For the proof alone: states the limits of the instance.
    let _limits = instance.len();
    let value = top.saturating_sub(level);
    let within = Settings {
        workers: settings.workers,
        budget: branchings,
        scales: settings.scales,
    };
    decide_value(rt, alloc, search, instance, value, &within, gate)
}

/// The bounds after the answer at a level that may be asked, by a choice tree of `branchings`.
pub(crate) fn ask_level<R: Threads + Wait + Sync, G: Gate + Sync>(
    rt: &R,
    alloc: Global,
    search: &mut SetSearch<'_>,
    instance: &Instance,
    top: u64,
    bounds: Bounds,
    level: u64,
    branchings: u64,
    settings: &Settings,
    gate: &G,
) -> Result<Bounds, NoMemory>
    requires top { top ≡ top_value instance.now }
    requires bounds { AreValueBounds instance.now settings.now (plain_bounds bounds) }
    requires asked { IsAsked (plain_bounds bounds) level }
    requires enough { level_share settings.now.budget ≤ branchings }
    requires search { search.old
        ≡ record { instance = instance.now; scales = settings.now.scales } }
    ensures same { search.new ≡ search.old }
    ensures kept { IfOk result (λ b. AreValueBounds instance.now settings.now (plain_bounds b)) }
    ensures less { IfOk result
        (λ b. levels_left (plain_bounds b) < levels_left (plain_bounds bounds)) }
{
    let answer = decide_level(
        rt, alloc, search, instance, top, level, branchings, settings, gate,
    )?;
    Ok(bounds.after(level, answer))
}

/// Bounds of the greatest value, narrowed by choice trees of `branchings` until both values beside
/// them stay undecided or the two are neighbours.
pub(crate) fn narrow_values<R: Threads + Wait + Sync, G: Gate + Sync>(
    rt: &R,
    alloc: Global,
    search: &mut SetSearch<'_>,
    instance: &Instance,
    top: u64,
    bounds: Bounds,
    branchings: u64,
    settings: &Settings,
    gate: &G,
) -> Result<Bounds, NoMemory>
    requires top { top ≡ top_value instance.now }
    requires bounds { AreValueBounds instance.now settings.now (plain_bounds bounds) }
    requires enough { level_share settings.now.budget ≤ branchings }
    requires search { search.old
        ≡ record { instance = instance.now; scales = settings.now.scales } }
    ensures same { search.new ≡ search.old }
    ensures kept { IfOk result (λ b. AreValueBounds instance.now settings.now (plain_bounds b)) }
    ensures narrow { IfOk result (λ b. HasNoLevelLeft (plain_bounds b)) }
{
    let mut bounds = bounds;
    while let Some(level) = bounds.next_level() {
        bounds = ask_level(
            rt, alloc, search, instance, top, bounds, level, branchings, settings, gate,
        )?;
    }
    Ok(bounds)
}

// How often the branchings of a tree rise to four times as many before they are the budget.
fn rises(settings: &Settings) -> u32 {
    let mut branchings = level_share(settings.budget);
    let mut count = 0;
    for k in 0..MOST_RISES {
        if branchings < settings.budget {
            branchings = branchings.saturating_mul(RISE);
            count = k + 1;
        }
    }
    count
}

// The branchings of a tree behind `rises` rises, at least the share of a level.
fn risen(settings: &Settings, rises: u32) -> u64
    ensures { level_share settings.now.budget ≤ result }
{
    let share = level_share(settings.budget);
    let mut branchings = share;
    for _ in 0..rises {
        branchings = branchings.saturating_mul(RISE);
    }
    branchings.min(settings.budget).max(share)
}

// What is found at a level by choice trees of rising branchings, from the share of a level up to
// the budget.
fn decide_rising<R: Threads + Wait + Sync, G: Gate + Sync>(
    rt: &R,
    alloc: Global,
    search: &mut SetSearch<'_>,
    instance: &Instance,
    top: u64,
    level: u64,
    settings: &Settings,
    gate: &G,
) -> Result<Level, NoMemory>
    requires top { top ≡ top_value instance.now }
    requires search { search.old
        ≡ record { instance = instance.now; scales = settings.now.scales } }
    ensures same { search.new ≡ search.old }
    ensures answer { IfOk result
        (λ l. IsLevelAnswer instance.now settings.now level (plain_level l)) }
{
    let last = rises(settings);
    for k in 0..last {
        let branchings = risen(settings, k);
        let answer = decide_level(
            rt, alloc, search, instance, top, level, branchings, settings, gate,
        )?;
        if !matches!(answer, Level::Spent) {
            return Ok(answer);
        }
    }
    let branchings = risen(settings, last);
    decide_level(
        rt, alloc, search, instance, top, level, branchings, settings, gate,
    )
}

/// The bounds after the answer at the level below the placed one, by choice trees of rising
/// branchings.
pub(crate) fn ask_beside<R: Threads + Wait + Sync, G: Gate + Sync>(
    rt: &R,
    alloc: Global,
    search: &mut SetSearch<'_>,
    instance: &Instance,
    top: u64,
    bounds: Bounds,
    settings: &Settings,
    gate: &G,
) -> Result<Bounds, NoMemory>
    requires top { top ≡ top_value instance.now }
    requires bounds { AreValueBounds instance.now settings.now (plain_bounds bounds) }
    requires asked { IsAsked (plain_bounds bounds) (pred bounds.placed) }
    requires search { search.old
        ≡ record { instance = instance.now; scales = settings.now.scales } }
    ensures same { search.new ≡ search.old }
    ensures kept { IfOk result (λ b. AreValueBounds instance.now settings.now (plain_bounds b)) }
{
    let level = bounds.placed.saturating_sub(1);
    let answer = decide_rising(rt, alloc, search, instance, top, level, settings, gate)?;
    Ok(bounds.after(level, answer))
}
