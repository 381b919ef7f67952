//! The refuted value, lowered by proposed trees before any choice tree has the whole budget.
ghost use Rattle.std.specs.Prelude.{◌≡◌, IfOk};
ghost use Rattle.level_search.specs.Bounds.{plain_bounds};
ghost use Rattle.proposed_answers.specs.Values.{top_value, AreFirstBounds};

use crate::refuting::is_value_refutation;
use box_instances::{Instance, NoMemory};
use level_search::{Bounds, Level};
use outer_proposals::propose_value_refutation;
use proof_tree::{CompactTokens, Token};
use std::alloc::Global;
use work_share::Settings;

// Tokens of a tree for each branching of the budget. The trees of a run with 30,000 tokens take 20
// to 50 milliseconds for 20 to 100 boxes, where a budget of 10,000 takes 0.2 to 1 s.
const TOKENS_PER_BRANCHING: u64 = 3;

// The fewest tokens of a tree, whose run takes a few milliseconds, and the most, which make a
// document of 1.5 megabytes in 0.2 to 0.5 s.
const MIN_TOKENS: u64 = 1_000;

const MAX_TOKENS: u64 = 300_000;

// As many halvings as a value has bits.
const MAX_HALVINGS: u32 = 64;

// A value with the tokens that are proposed to refute it.
#[derive(Drop)]
struct ProposedLimit {
    value: u64,
    tokens: Vec<Token>,
}

// The most tokens of a tree under a budget.
fn token_limit(budget: u64) -> u64 {
    budget
        .saturating_mul(TOKENS_PER_BRANCHING)
        .clamp(MIN_TOKENS, MAX_TOKENS)
}

// The least value between these two for which a tree of at most `most` tokens is proposed, as far
// as halving finds it.
fn proposed_limit(
    alloc: Global,
    instance: &Instance,
    placed: u64,
    refuted: u64,
    most: u64,
) -> Result<Option<ProposedLimit>, NoMemory> {
    let (mut below, mut above) = (placed, refuted);
    let mut found = None;
    for _ in 0..MAX_HALVINGS {
        let gap = above.saturating_sub(below);
        if gap < 2 {
            break;
        }
        let value = below.saturating_add(gap / 2);
        match propose_value_refutation(alloc, instance, value, most)? {
            Some(tokens) => {
                above = value;
                found = Some(ProposedLimit { value, tokens });
            }
            None => below = value,
        }
    }
    Ok(found)
}

/// The bounds with a lower refuted value, where a proposed tree refutes one and passes its test.
///
/// Only the tree of the least value is tested, so the bounds take one jump. Without scale functions
/// nothing is proposed: pairs of boxes alone refute few sets.
pub(crate) fn lowered(
    alloc: Global,
    instance: &Instance,
    top: u64,
    bounds: Bounds,
    settings: &Settings,
) -> Result<Bounds, NoMemory>
    requires top { top ≡ top_value instance.now }
    requires bounds { AreFirstBounds instance.now (plain_bounds bounds) }
    ensures { IfOk result (λ b. AreFirstBounds instance.now (plain_bounds b)) }
{
    if !settings.scales {
        return Ok(bounds);
    }
    let (placed, refuted) = (
        top.saturating_sub(bounds.placed),
        top.saturating_sub(bounds.refuted),
    );
    let most = token_limit(settings.budget);
    let Some(limit) = proposed_limit(alloc, instance, placed, refuted, most)? else {
        return Ok(bounds);
    };
    let level = top.saturating_sub(limit.value);
    if level <= bounds.refuted || bounds.lowest <= level || top < limit.value {
        return Ok(bounds);
    }
    if !is_value_refutation(alloc, instance, limit.value, &limit.tokens)? {
        return Ok(bounds);
    }
    let tokens = CompactTokens::from_slice(alloc, &limit.tokens)?;
    Ok(bounds.after(level, Level::Refuted(tokens)))
}
