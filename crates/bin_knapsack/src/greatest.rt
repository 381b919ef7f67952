//! The greatest value.
ghost use Rattle.std.specs.Prelude.{◌≡◌, ◌<◌, ◌≤◌, ◌+◌, ◌-◌, ◌*◌, ◌/◌, ◌^◌, suc, false, IfOk};
ghost use Rattle.packing_terms.specs.Packing.{dims, box_count};
ghost use Rattle.packing_terms.specs.Goals.{worth};
ghost use Rattle.packing_terms.specs.Sums.{below};
ghost use Rattle.tree_terms.specs.Levels.{first_values, value_run};
ghost use Rattle.level_search.specs.Runs.{plain_reached};
ghost use Rattle.bin_knapsack.specs.Choices.{Tells, IsAnswer, IsTrueChoice, IsSpentExactly, IsFinal};

use crate::Choice;
use crate::values::decide_value;
use box_instances::{Instance, NoMemory};
use level_search::Reached;
use proof_tree::{CompactTokens, Token};
use set_search::SetSearch;
use std::alloc::Global;
use std::sync::Wait;
use std::thread::Threads;
use work_share::{Gate, Settings};

// What all boxes together are worth.
fn whole_worth(instance: &Instance) -> u64
    ensures value { result ≡ worth instance.now (below (box_count instance.now)) }
    ensures to { result ≤ 128000000000 }
{
    let mut sum = 0;
    for v in 0..instance.len() {
        sum += instance.value(v);
    }
    sum
}

// The refutation of a value above what all boxes are worth.
fn value_short(alloc: Global, instance: &Instance) -> Result<CompactTokens, NoMemory>
    ensures { IfOk result (λ tokens. tokens
        ≡ (first_values instance.now).tokens) }
{
    CompactTokens::of_one(alloc, Token::ValueShort)
}

/// The first levels of a run of values: one more than all boxes are worth is refuted, and 0 is
/// reached by no box.
pub fn first_values(alloc: Global, instance: &Instance) -> Result<Reached, NoMemory>
    ensures { IfOk result (λ r. plain_reached r ≡ first_values instance.now) }
{
    let above = whole_worth(instance) + 1;
    let tokens = value_short(alloc, instance)?;
    Ok(Reached::starting(above, tokens, 0, Vec::new(alloc)))
}

// The run of values. Sets are decided in one memory for all of them.
fn bisect_values<R: Threads + Wait + Sync, G: Gate + Sync>(
    rt: &R,
    alloc: Global,
    instance: &Instance,
    settings: &Settings,
    gate: &G,
) -> Result<Reached, NoMemory>
    ensures { IfOk result (λ r. plain_reached r
        ≡ value_run instance.now settings.now.budget settings.now.scales) }
{
    // For the proof alone: states the limits of the instance.
    let _limits = instance.len();
    let mut search = SetSearch::new(alloc, instance, settings.scales)?;
    let mut reached = first_values(alloc, instance)?;
    while let Some(level) = reached.next_level() {
        let answer = decide_value(rt, alloc, &mut search, instance, level, settings, gate)?;
        reached = reached.after(level, answer);
    }
    Ok(reached)
}

// The answer where a run of values ended.
fn choice_of(reached: Reached) -> Choice
    requires { reached.spent ≡ false → suc reached.placed ≡ reached.refuted }
    ensures { Tells (plain_reached reached) result }
{
    if reached.spent {
        return Choice::Between {
            placed: reached.placed,
            numbers: reached.numbers,
            refuted: reached.refuted,
            tokens: reached.tokens,
        };
    }
    Choice::Greatest {
        value: reached.placed,
        numbers: reached.numbers,
        tokens: reached.tokens,
    }
}

/// The greatest value of a set of boxes that fits, with both certificates: the taken boxes with
/// coordinates that are a packing of them, and tokens that refute one more.
///
/// It follows the run of values from 0 and one more than all boxes are worth, each decided by its
/// choice tree under the budget. `Between` comes exactly where a value on the run has a tree with
/// more branchings than the budget; never where, with n boxes and m pairs of boxes in all
/// dimensions, the budget is at least 3 to the m times 2^(n + 1) - 2.
pub fn greatest_value<R: Threads + Wait + Sync, G: Gate + Sync>(
    rt: &R,
    alloc: Global,
    instance: &Instance,
    settings: &Settings,
    gate: &G,
) -> Result<Choice, NoMemory>
    ensures answer { IfOk result
        (λ c. IsAnswer instance.now settings.now.budget settings.now.scales c) }
    ensures right { IfOk result (λ c. IsTrueChoice instance.now c) }
    ensures spent { IfOk result
        (λ c. IsSpentExactly instance.now settings.now.budget settings.now.scales c) }
    ensures enough { 3 ^ (dims instance.now * box_count instance.now
        * (box_count instance.now - 1) / 2)
        * (2 ^ (box_count instance.now + 1) - 2) ≤ settings.now.budget
        → IfOk result (λ c. IsFinal c) }
{
    // For the proof alone: states the limits of the instance.
    let _limits = instance.len();
    let reached = bisect_values(rt, alloc, instance, settings, gate)?;
    Ok(choice_of(reached))
}
