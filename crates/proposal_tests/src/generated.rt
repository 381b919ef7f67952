//! What the search for refutations proposes of drawn instances passes its test.
use crate::instances::is_packing;
use box_instances::{BoxItem, Instance, Sides};
use conflict_search::{Proposal, propose_refutation};
use proposed_answers::is_refutation;
use std::alloc::Global;
use std::test::Fail;

const SPLITS: u64 = 2000;

// The next of a row of numbers below 65,537.
fn next(seed: u32) -> u32 {
    (seed % 65_537 * 75 + 74) % 65_537
}

// Sides from 2 to 7, drawn from a seed, and the seed behind them.
fn drawn_sides(alloc: Global, dims: u32, seed: u32) -> Result<(Sides, u32), Fail> {
    let mut list = Vec::new(alloc);
    let mut here = seed;
    for _ in 0..dims {
        here = next(here);
        list.push(2 + here % 6)?;
    }
    Ok((Sides::from_slice(alloc, list.as_slice())?, here))
}

// Five to eight boxes in a container of 10 by 10, or of 10 by 10 by 10.
fn drawn(alloc: Global, number: u32) -> Result<Instance, Fail> {
    let dims = 2 + number % 2;
    let mut items = Vec::new(alloc);
    let mut seed = number;
    for _ in 0..5 + number % 4 {
        let (sides, here) = drawn_sides(alloc, dims, seed)?;
        seed = here;
        items.push(BoxItem { sides, value: 1 })?;
    }
    let container: [u32; 3] = [10, 10, 10];
    let sides = Sides::from_slice(alloc, &container[..dims as usize])?;
    Ok(Instance::new(sides, items)?)
}

// Whether a proposal passes its test: places, tokens, or nothing.
fn passes(alloc: Global, instance: &Instance) -> Result<bool, Fail> {
    match propose_refutation(alloc, instance, false, SPLITS)? {
        Proposal::Places(places) => Ok(is_packing(instance, &places)),
        Proposal::Tokens(tokens) => Ok(is_refutation(alloc, instance, &tokens)?),
        Proposal::Nothing => Ok(false),
    }
}

#[test]
fn proposals_pass_the_checkers(rt: HostRuntime) -> Result<(), Fail> {
    let alloc = rt.alloc();
    for number in 1..401u32 {
        assert!(rt; passes(alloc, &drawn(alloc, number)?)?);
    }
    Ok(())
}
