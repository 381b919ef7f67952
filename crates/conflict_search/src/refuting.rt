//! Proposed refutations.
ghost use Rattle.std.specs.Prelude.{◌≡◌, true, IfOk, ◌≤◌, ◌<◌, ℕ};
ghost use Rattle.packing_terms.specs.Packing.{dims, box_count, side, container_side};
ghost use Rattle.packing_terms.specs.Scales.{SidesFit};
ghost use Rattle.conflict_search.specs.Sizes.{IsSized};

use crate::proposal::Proposal;
use crate::relations::MAX_BOXES;
use crate::search::{Ended, Search};
use box_instances::{Instance, NoMemory};
use conservative_scales::first_exceeding;
use proof_tree::Token;
use std::alloc::Global;

// The first dimension in which a box is longer than the container.
fn large_dim(instance: &Instance, v: u32) -> Option<u32>
    requires { v < box_count instance.now }
    ensures { result ≡ None → (i : ℕ) → i < dims instance.now
        → side instance.now v i ≤ container_side instance.now i }
{
    for dim in 0..instance.dims() {
        if instance.container_side(dim) < instance.side(v, dim) {
            return Some(dim);
        }
    }
    None
}

// The token of the first box that is longer than the container.
fn large_token(instance: &Instance) -> Option<Token>
    ensures { result ≡ None → SidesFit instance.now }
{
    for v in 0..instance.len() {
        if let Some(dim) = large_dim(instance, v) {
            return Some(Token::TooLarge {
                box_no: v.saturating_add(1),
                dim: dim.saturating_add(1),
            });
        }
    }
    None
}

// The token that refutes the instance at its root without a tree.
fn root_token(alloc: Global, instance: &Instance, scales: bool) -> Option<Token> {
    match large_token(instance) {
        Some(token) => Some(token),
        None => {
            if !scales {
                return None;
            }
            match first_exceeding(alloc, instance, 1) {
                Some(tuple) => Some(Token::Scales(tuple)),
                None => None,
            }
        }
    }
}

// The places of the node at which a search stands.
fn places_of(alloc: Global, instance: &Instance, search: &Search) -> Result<Proposal, NoMemory>
    ensures { IfOk result (IsSized instance.now) }
{
    let Ok(mut places) = vec![in alloc; 0u32; (instance.len() * instance.dims()) as usize] else {
        return Err(NoMemory);
    };
    search.write_places(&mut places);
    Ok(Proposal::Places(places))
}

// A proposal of the tree below a root that isn't refuted at once.
fn explored(alloc: Global, instance: &Instance, splits: u64) -> Result<Proposal, NoMemory>
    ensures { IfOk result (IsSized instance.now) }
{
    if instance.len() > MAX_BOXES {
        return Ok(Proposal::Nothing);
    }
    let mut search = Search::new(alloc, instance)?;
    match search.run(splits)? {
        Ended::Spent => Ok(Proposal::Nothing),
        Ended::Refuted(node) => Ok(Proposal::Tokens(search.tokens(alloc, node)?)),
        Ended::Settled => places_of(alloc, instance, &search),
    }
}

/// A refutation of the instance, or the places of a settled node that its tree met, or nothing.
///
/// Nothing is promised of the tokens, and of places only that there is one coordinate for each box
/// and dimension: the caller tests them. The search makes at most `splits` splits, and for more
/// than 64 boxes none. With `scales` the refutation by scale functions is tried at the root.
pub fn propose_refutation(
    alloc: Global,
    instance: &Instance,
    scales: bool,
    splits: u64,
) -> Result<Proposal, NoMemory>
    ensures { IfOk result (IsSized instance.now) }
{
    let Some(token) = root_token(alloc, instance, scales) else {
        return explored(alloc, instance, splits);
    };
    let mut tokens = Vec::new(alloc);
    let Ok(()) = tokens.push(token) else {
        return Err(NoMemory);
    };
    Ok(Proposal::Tokens(tokens))
}
