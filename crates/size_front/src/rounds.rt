//! One round of the walk along the front.
ghost use Rattle.std.specs.Prelude.{◌≡◌, ◌<◌, ◌≤◌, ◌++◌, ◌∷◌, ◌==◌, if◌then◌else◌, [], map, Bool, true, false, IfOk, IfSome, OnOk};
ghost use Rattle.packing_terms.specs.Packing.{dims, written_container};
ghost use Rattle.level_search.specs.Runs.{plain_reached};
ghost use Rattle.class_search.specs.Deciders.{decider_of};
ghost use Rattle.answer_terms.specs.Walks.{corner_unless_empty, spent_front, closed_front, width_run, size_answer};
ghost use Rattle.tree_terms.specs.Levels.{PlacedBy};
ghost use Rattle.size_front.specs.Plain.{plain_corner, plain_point, plain_front, joined, IsRound, IsUnspentRun};

use crate::deciding::decide_size;
use crate::heights::run_heights;
use crate::widths::run_widths;
use crate::{Corner, Front, Point};
use box_instances::{Instance, NoMemory};
use class_search::Decider;
use level_search::{Level, Reached};
use proof_tree::CompactTokens;
use std::alloc::Global;
use std::sync::Wait;
use std::thread::Threads;
use work_share::{Gate, Settings};

// Where a walk stands: at a height, and at a width that the tokens refute there, or 0.
#[derive(Drop)]
pub struct WalkState {
    pub height: u32,
    pub refuted: u32,
    pub tokens: CompactTokens,
}

// Adds a corner, unless its width is 0.
fn push_corner(
    front: &mut Front,
    width: u32,
    height: u32,
    tokens: CompactTokens,
) -> Result<(), NoMemory>
    ensures complete { front.new.complete ≡ front.old.complete }
    ensures points { front.new.points ≡ front.old.points }
    ensures corners { OnOk result (map plain_corner front.new.corners.items
        ≡ map plain_corner front.old.corners.items
        ++ corner_unless_empty width height tokens) }
{
    if width == 0 {
        return Ok(());
    }
    let corner = Corner {
        width,
        height,
        tokens,
    };
    if front.corners.push(corner).is_err() {
        return Err(NoMemory);
    }
    Ok(())
}

// Adds a point.
fn push_point(front: &mut Front, width: u32, height: u32, places: Vec<u32>) -> Result<(), NoMemory>
    ensures complete { front.new.complete ≡ front.old.complete }
    ensures corners { front.new.corners ≡ front.old.corners }
    ensures points { OnOk result (map plain_point front.new.points.items
        ≡ map plain_point front.old.points.items
        ++ record { width = width; height = height; places = places.items } ∷ []) }
{
    let point = Point {
        width,
        height,
        places,
    };
    if front.points.push(point).is_err() {
        return Err(NoMemory);
    }
    Ok(())
}

// Ends a walk where a decision was spent: the corner at which it stands closes it.
fn end_spent(front: &mut Front, stand: WalkState) -> Result<(), NoMemory>
    ensures { OnOk result (plain_front front.new
        ≡ joined front.old (spent_front stand.refuted stand.height
        stand.tokens)) }
{
    front.complete = false;
    push_corner(front, stand.refuted, stand.height, stand.tokens)
}

// Ends a walk where the widest container is refuted.
fn end_closed(
    front: &mut Front,
    width: u32,
    height: u32,
    tokens: CompactTokens,
) -> Result<(), NoMemory>
    requires { 1 ≤ width }
    ensures { OnOk result (plain_front front.new
        ≡ joined front.old (closed_front width height tokens)) }
{
    front.complete = true;
    push_corner(front, width, height, tokens)
}

// The tokens of a refuted width: those of where the walk stands, where it is the same width.
fn told_tokens(stand: WalkState, refuted: u32, tokens: CompactTokens) -> CompactTokens
    ensures { result ≡ (if refuted == stand.refuted then stand.tokens else tokens) }
{
    if refuted == stand.refuted {
        stand.tokens
    } else {
        tokens
    }
}

// The heights of a round, behind its widths.
fn lower<R: Threads + Wait + Sync, G: Gate + Sync>(
    rt: &R,
    alloc: Global,
    instance: &Instance,
    stand: WalkState,
    widths: Reached,
    front: &mut Front,
    decider: &mut Option<Decider>,
    settings: &Settings,
    gate: &G,
) -> Result<Option<WalkState>, NoMemory>
    requires plane { dims instance.now ≡ 2 }
    requires height { stand.height ≤ written_container instance.now 1 }
    requires refuted { stand.refuted ≤ written_container instance.now 0 }
    requires placed_from { 1 ≤ widths.placed }
    requires placed_to { widths.placed ≤ written_container instance.now 0 }
    requires refuted_to { widths.refuted ≤ written_container instance.now 0 }
    requires run { IsUnspentRun instance.now settings.now.budget settings.now.scales stand
        (plain_reached widths) }
    requires ready { IfSome decider.old (λ d. d ≡ decider_of instance.now) }
    ensures same { decider.new ≡ decider.old }
    ensures round { IfOk result (λ next. IsRound instance.now settings.now.budget
        settings.now.scales front.old stand front.new next) }
{
    // For the proof alone: states the limits of the instance.
    let _limits = instance.len();
    let refuted = widths.refuted as u32;
    let width = widths.placed as u32;
    let tokens = widths.tokens;
    let numbers = widths.numbers;
    let heights = run_heights(
        rt,
        alloc,
        instance,
        width,
        stand.height,
        numbers,
        decider,
        settings,
        gate,
    )?;
    if heights.spent {
        end_spent(front, stand)?;
        return Ok(None);
    }
    let height = stand.height;
    let corner_tokens = told_tokens(stand, refuted, tokens);
    push_corner(front, refuted, height, corner_tokens)?;
    push_point(front, width, heights.placed as u32, heights.numbers)?;
    if heights.refuted == 0 {
        front.complete = true;
        return Ok(None);
    }
    Ok(Some(WalkState {
        height: heights.refuted as u32,
        refuted: width,
        tokens: heights.tokens,
    }))
}

// The widths of a round, and what is behind them.
fn narrow<R: Threads + Wait + Sync, G: Gate + Sync>(
    rt: &R,
    alloc: Global,
    instance: &Instance,
    stand: WalkState,
    places: Vec<u32>,
    front: &mut Front,
    decider: &mut Option<Decider>,
    settings: &Settings,
    gate: &G,
) -> Result<Option<WalkState>, NoMemory>
    requires plane { dims instance.now ≡ 2 }
    requires height { stand.height ≤ written_container instance.now 1 }
    requires refuted { stand.refuted ≤ written_container instance.now 0 }
    requires placed { size_answer instance.now settings.now.budget settings.now.scales
        (written_container instance.now 0) stand.height ≡ PlacedBy places.items }
    requires ready { IfSome decider.old (λ d. d ≡ decider_of instance.now) }
    ensures same { decider.new ≡ decider.old }
    ensures round { IfOk result (λ next. IsRound instance.now settings.now.budget
        settings.now.scales front.old stand front.new next) }
{
    let widths = run_widths(
        rt,
        alloc,
        instance,
        stand.height,
        stand.refuted,
        places,
        decider,
        settings,
        gate,
    )?;
    if widths.spent {
        end_spent(front, stand)?;
        return Ok(None);
    }
    lower(
        rt, alloc, instance, stand, widths, front, decider, settings, gate,
    )
}

// One round of a walk: it ends, or goes on from another place.
pub(crate) fn one_round<R: Threads + Wait + Sync, G: Gate + Sync>(
    rt: &R,
    alloc: Global,
    instance: &Instance,
    stand: WalkState,
    front: &mut Front,
    decider: &mut Option<Decider>,
    settings: &Settings,
    gate: &G,
) -> Result<Option<WalkState>, NoMemory>
    requires plane { dims instance.now ≡ 2 }
    requires height { stand.height ≤ written_container instance.now 1 }
    requires refuted { stand.refuted ≤ written_container instance.now 0 }
    requires ready { IfSome decider.old (λ d. d ≡ decider_of instance.now) }
    ensures same { decider.new ≡ decider.old }
    ensures round { IfOk result (λ next. IsRound instance.now settings.now.budget
        settings.now.scales front.old stand front.new next) }
{
    // For the proof alone: states the limits of the instance.
    let _limits = instance.len();
    let most = instance.written_container(0);
    let widest = decide_size(
        rt,
        alloc,
        instance,
        most,
        stand.height,
        decider,
        settings,
        gate,
    )?;
    match widest {
        Level::Refuted(tokens) => {
            end_closed(front, most, stand.height, tokens)?;
            Ok(None)
        }
        Level::Spent => {
            end_spent(front, stand)?;
            Ok(None)
        }
        Level::Fits(places) => narrow(
            rt, alloc, instance, stand, places, front, decider, settings, gate,
        ),
    }
}
