//! The decision of one instance by proposals first, and then by the described tree.
ghost use Rattle.std.specs.Prelude.{◌≡◌, ◌<◌, ◌≤◌, ◌+◌, ◌-◌, ◌*◌, ◌/◌, ◌^◌, IfOk, false, []};
ghost use Rattle.packing_terms.specs.Packing.{dims, box_count};
ghost use Rattle.tree_terms.specs.Trees.{Past as PlainPast};
ghost use Rattle.work_share.specs.Outcomes.{plain_outcome};
ghost use Rattle.class_search.specs.Right.{IsRight, Decides, IsYesOrNo};
ghost use Rattle.conflict_search.specs.Sizes.{IsSized};
ghost use Rattle.proposed_answers.specs.Behind.{plain_proposal, outcome_with_proposal, tree_count, tree_outcome, IsWithoutScales};

use crate::proposing::{propose_packed, propose_refuted};
use crate::steps::branching_steps;
use crate::testing::{is_refutation, wanted};
use box_instances::{Instance, NoMemory};
use class_search::decide;
use conflict_search::Proposal;
use placement_check::check_places;
use proof_tree::{CompactTokens, Outcome};
use std::alloc::Global;
use std::sync::Wait;
use std::thread::Threads;
use verdict_terms::PlaceVerdict;
use work_share::{Gate, Settings};

/// What a proposal shows of an instance, with no tree behind it: places that are a packing a yes,
/// and tokens that are a refutation a no. `Past` comes where the proposal fails its test, and where
/// there is none.
///
/// Proposed places are tested by `check_places`, proposed tokens by `Refuter`. A yes has a count of
/// 0, and a no that of the splits in its tokens. Proposed places have one coordinate for each box
/// and dimension.
pub fn answer_of(
    alloc: Global,
    instance: &Instance,
    proposal: Proposal,
) -> Result<Outcome, NoMemory>
    requires sized { IsSized instance.now proposal }
    ensures outcome { IfOk result (λ r. plain_outcome r
        ≡ outcome_with_proposal instance.now (plain_proposal proposal) PlainPast) }
    ensures right { IfOk result (λ r. IsRight instance.now [] (plain_outcome r)) }
{
    match proposal {
        Proposal::Places(places) => match check_places(instance, &places) {
            PlaceVerdict::Good => Ok(Outcome::Yes {
                numbers: places,
                count: 0,
            }),
            _ => Ok(Outcome::Past),
        },
        Proposal::Tokens(tokens) => {
            if is_refutation(alloc, instance, &tokens)? {
                let count = (tokens.len() / 2) as u64;
                let tokens = CompactTokens::from_slice(alloc, &tokens)?;
                Ok(Outcome::No { tokens, count })
            } else {
                Ok(Outcome::Past)
            }
        }
        Proposal::Nothing => Ok(Outcome::Past),
    }
}

/// Whether an instance fits, by a proposal that passes its test, and else by the class tree under
/// the budget of the settings, with as many workers as these say.
///
/// Proposed places are tested by `check_places`, proposed tokens by `Refuter`. The outcome is a
/// function of the instance, the proposal, the budget and the choice of scales: the number of
/// workers has no part in it. A yes by a proposal has a count of 0, and a no that of the splits in
/// its tokens. Proposed places have one coordinate for each box and dimension.
pub fn decide_with_proposal<R: Threads + Wait + Sync, G: Gate + Sync>(
    rt: &R,
    alloc: Global,
    instance: &Instance,
    proposal: Proposal,
    settings: &Settings,
    gate: &G,
) -> Result<Outcome, NoMemory>
    requires sized { IsSized instance.now proposal }
    ensures outcome { IfOk result (λ r. plain_outcome r
        ≡ outcome_with_proposal instance.now (plain_proposal proposal)
        (tree_outcome instance.now settings.now.budget settings.now.scales)) }
{
    match answer_of(alloc, instance, proposal)? {
        Outcome::Yes { numbers, count } => Ok(Outcome::Yes { numbers, count }),
        Outcome::No { tokens, count } => Ok(Outcome::No { tokens, count }),
        Outcome::Past => decide(rt, alloc, instance, settings, gate),
    }
}

// The pair steps of the tree that comes before the search for a refutation: 100,000 branchings of
// 14 boxes, 50,000 of 20, some 0.3 s, where the search takes up to seconds.
const EARLY_STEPS: u64 = 20_000_000;

// The settings of that tree.
fn early_settings(instance: &Instance, settings: &Settings) -> Settings
    ensures budget { result.budget ≤ settings.now.budget }
    ensures scales { result.scales ≡ settings.now.scales }
{
    let branchings = EARLY_STEPS / branching_steps(instance).max(1);
    Settings {
        workers: settings.workers,
        budget: settings.budget.min(branchings),
        scales: settings.scales,
    }
}

// Decides an instance whose tree has more branchings than `early`: by a refutation, and then by the
// tree if the budget allows more.
fn decide_open<R: Threads + Wait + Sync, G: Gate + Sync>(
    rt: &R,
    alloc: Global,
    instance: &Instance,
    early: u64,
    settings: &Settings,
    gate: &G,
) -> Result<Outcome, NoMemory>
    requires { early < tree_count instance.now settings.now.scales }
    ensures right { IfOk result (λ r. IsRight instance.now [] (plain_outcome r)) }
    ensures past { IfOk result (λ r. plain_outcome r ≡ PlainPast
        → settings.now.budget < tree_count instance.now settings.now.scales) }
    ensures plain { settings.now.scales ≡ false
        → IfOk result (λ r. IsWithoutScales (plain_outcome r)) }
{
    // For the proof alone: states the limits of the instance.
    let _limits = instance.len();
    let proposal = propose_refuted(alloc, instance, settings.scales, settings.budget)?;
    let proposal = wanted(instance, proposal, settings.scales);
    if settings.budget <= early {
        return answer_of(alloc, instance, proposal);
    }
    decide_with_proposal(rt, alloc, instance, proposal, settings, gate)
}

// Decides an instance by places, by the tree on a part of the budget, by a refutation, and by the
// tree, in this order. The tree on a part of the budget is fast where it decides, and the search
// for a refutation takes seconds where it finds none.
fn decide_packed<R: Threads + Wait + Sync, G: Gate + Sync>(
    rt: &R,
    alloc: Global,
    instance: &Instance,
    settings: &Settings,
    gate: &G,
) -> Result<Outcome, NoMemory>
    ensures right { IfOk result (λ r. IsRight instance.now [] (plain_outcome r)) }
    ensures past { IfOk result (λ r. plain_outcome r ≡ PlainPast
        → settings.now.budget < tree_count instance.now settings.now.scales) }
    ensures plain { settings.now.scales ≡ false
        → IfOk result (λ r. IsWithoutScales (plain_outcome r)) }
{
    // For the proof alone: states the limits of the instance.
    let _limits = instance.len();
    let places = propose_packed(rt, alloc, instance, settings)?;
    let places = wanted(instance, places, settings.scales);
    let early = early_settings(instance, settings);
    match decide_with_proposal(rt, alloc, instance, places, &early, gate)? {
        Outcome::Yes { numbers, count } => Ok(Outcome::Yes { numbers, count }),
        Outcome::No { tokens, count } => Ok(Outcome::No { tokens, count }),
        Outcome::Past => decide_open(rt, alloc, instance, early.budget, settings, gate),
    }
}

// The settings of a decision by the root of the tree alone.
fn root_settings(settings: &Settings) -> Settings
    ensures { result.scales ≡ settings.now.scales }
{
    Settings {
        workers: 1,
        budget: 0,
        scales: settings.scales,
    }
}

// Decides an instance by the root of its tree, and else by proposals and the tree. The scale
// functions refute many instances at the root, in a millisecond, where a search for places takes up
// to seconds and finds none.
fn decide_in_order<R: Threads + Wait + Sync, G: Gate + Sync>(
    rt: &R,
    alloc: Global,
    instance: &Instance,
    settings: &Settings,
    gate: &G,
) -> Result<Outcome, NoMemory>
    ensures right { IfOk result (λ r. IsRight instance.now [] (plain_outcome r)) }
    ensures past { IfOk result (λ r. plain_outcome r ≡ PlainPast
        → settings.now.budget < tree_count instance.now settings.now.scales) }
    ensures plain { settings.now.scales ≡ false
        → IfOk result (λ r. IsWithoutScales (plain_outcome r)) }
{
    // For the proof alone: states the limits of the instance.
    let _limits = instance.len();
    let root = root_settings(settings);
    match decide_with_proposal(rt, alloc, instance, Proposal::Nothing, &root, gate)? {
        Outcome::Yes { numbers, count } => Ok(Outcome::Yes { numbers, count }),
        Outcome::No { tokens, count } => Ok(Outcome::No { tokens, count }),
        Outcome::Past => decide_packed(rt, alloc, instance, settings, gate),
    }
}

/// Whether an instance fits, by proposals and by the class tree under the budget: by the root of
/// the tree, by proposed places, by the tree on a part of the budget, by a proposed refutation, and
/// by the tree.
///
/// A yes comes only with a packing, and a no only with a refutation of the instance, which has no
/// `v` line if the settings want no scales. `Past` comes only where the class tree has more
/// branchings than the budget: within the budget the answer is yes or no. Which packing, which
/// refutation and how few branchings isn't promised. That the outcome is the same for every number
/// of workers follows from the code and stands in no clause: the searches for proposals don't take
/// the number of workers, and `decide_with_proposal` gives one outcome for its proposal.
pub fn decide_proposed<R: Threads + Wait + Sync, G: Gate + Sync>(
    rt: &R,
    alloc: Global,
    instance: &Instance,
    settings: &Settings,
    gate: &G,
) -> Result<Outcome, NoMemory>
    ensures right { IfOk result (λ r. IsRight instance.now [] (plain_outcome r)) }
    ensures decides { IfOk result (λ r. Decides instance.now (plain_outcome r)) }
    ensures past { IfOk result (λ r. plain_outcome r ≡ PlainPast
        → settings.now.budget < tree_count instance.now settings.now.scales) }
    ensures within { tree_count instance.now settings.now.scales ≤ settings.now.budget
        → IfOk result (λ r. IsYesOrNo (plain_outcome r)) }
    ensures enough { 3 ^ (dims instance.now * box_count instance.now
        * (box_count instance.now - 1) / 2) ≤ settings.now.budget + 1
        → IfOk result (λ r. IsYesOrNo (plain_outcome r)) }
    ensures plain { settings.now.scales ≡ false
        → IfOk result (λ r. IsWithoutScales (plain_outcome r)) }
{
    // For the proof alone: states the limits of the instance.
    let _limits = instance.len();
    decide_in_order(rt, alloc, instance, settings, gate)
}
