//! The choice of a split by what its children come to.
//!
//! Source: look-ahead with the product of both children's growth, as the solvers of satisfiability
//! choose (Heule and van Maaren, 2009).

use crate::chains::Chains;
use crate::choice::{NO_PAIR, Rated, rate_pairs, split_of};
use crate::closing::{enter, here, leave};
use crate::splits::{Child, Split};
use crate::state::State;
use crate::weights::Weights;
use box_instances::NoMemory;

// Pairs whose children are both closed. Six pairs by weight took fewer splits and less time than
// eight or sixteen by rank.
const PAIRS: usize = 6;

/// A split, and the child that is visited first.
#[derive(Clone, Copy)]
pub struct Chosen {
    pub split: Split,
    pub child: Child,
}

// How much a child adds, or none where it has a conflict.
fn child_growth(
    state: &mut State,
    chains: &mut Chains,
    split: Split,
    child: Child,
) -> Result<Option<u64>, NoMemory> {
    let node = here(state, chains);
    let before = state.mark();
    let calm = enter(state, chains, split, child)?;
    let grown = state.mark().saturating_sub(before) as u64;
    leave(state, chains, node);
    Ok(if calm { Some(grown) } else { None })
}

// How good a split is, by what its children add, or the child that has a conflict.
fn rating(
    state: &mut State,
    chains: &mut Chains,
    split: Split,
) -> Result<Result<u64, Child>, NoMemory> {
    let Some(first) = child_growth(state, chains, split, Child::First)? else {
        return Ok(Err(Child::First));
    };
    let Some(second) = child_growth(state, chains, split, Child::Second)? else {
        return Ok(Err(Child::Second));
    };
    let product = first.saturating_mul(second).saturating_mul(1024);
    Ok(Ok(product.saturating_add(first).saturating_add(second)))
}

/// Of the pairs that weigh most the split whose children add most, and none where each pair is
/// settled. A split with a child in conflict is taken at once, and that child is visited first.
pub(crate) fn best_split(
    state: &mut State,
    chains: &mut Chains,
    weights: &Weights,
    rank: &[u32],
) -> Result<Option<Chosen>, NoMemory> {
    let mut best: [Rated; PAIRS] = [NO_PAIR; PAIRS];
    rate_pairs(state.table(), weights, &mut best);
    let mut found = None;
    let mut most = 0;
    for k in 0..PAIRS {
        if best[k].score == 0 {
            break;
        }
        let (u, v) = (best[k].u, best[k].v);
        let Some(split) = split_of(state.table(), weights, rank, u, v) else {
            continue;
        };
        match rating(state, chains, split)? {
            Ok(score) => {
                if found.is_none() || score > most {
                    let child = Child::First;
                    found = Some(Chosen { split, child });
                    most = score;
                }
            }
            Err(child) => return Ok(Some(Chosen { split, child })),
        }
    }
    Ok(found)
}
