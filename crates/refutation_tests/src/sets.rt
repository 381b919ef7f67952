//! Sets of boxes, checked one after another by one refuter.
ghost use Rattle.std.specs.Prelude.{◌≡◌, ◌<◌, true};
ghost use Rattle.std.specs.List.{All};
ghost use Rattle.std.specs.List.Sorted.{IsStrictlyIncreasing};

use crate::instances::{drawn, drawn_instance, instance_of, is_refuted};
use box_instances::{Instance, NoMemory};
use class_search::decide_alone;
use edge_state::{Exclusion, Rel};
use proof_tree::{Outcome, Token};
use refutation_check::{FeedVerdict, RefuseCode, Refuter};
use std::alloc::Global;
use std::test::Fail;

// Whether the numbers rise and are below a limit.
fn is_set(keep: &[u32], limit: u32) -> bool
    ensures there { result ≡ true → All (λ v. v < limit) keep.now }
    ensures rising { result ≡ true → IsStrictlyIncreasing keep.now }
{
    if keep.is_empty() {
        return true;
    }
    if keep[0] >= limit {
        return false;
    }
    for at in 1..keep.len() {
        if keep[at] >= limit {
            return false;
        }
        if keep[at - 1] >= keep[at] {
            return false;
        }
    }
    true
}

// A relation of the first two boxes in the first dimension.
fn pair(rel: Rel) -> Exclusion
    ensures { result ≡ record { dim = 0; u = 0; v = 1; rel = rel } }
{
    Exclusion {
        dim: 0,
        u: 0,
        v: 1,
        rel,
    }
}

// Some of the boxes.
fn drawn_set(alloc: Global, random: &mut u32, count: u32) -> Result<Vec<u32>, Fail> {
    let mut keep = Vec::new(alloc);
    for v in 0..count {
        if drawn(random, 3) > 1 {
            keep.push(v)?;
        }
    }
    Ok(keep)
}

// Whether the refutation of a set of boxes is accepted, where the search finds one.
fn set_is_checked(
    alloc: Global,
    instance: &Instance,
    refuter: &mut Refuter<'_>,
    keep: &[u32],
) -> Result<Option<bool>, Fail>
    requires { refuter.old.instance ≡ instance.now }
    ensures { refuter.new.instance ≡ instance.now }
{
    if keep.is_empty() || !is_set(keep, instance.len()) {
        return Ok(None);
    }
    refuter.restart(keep);
    let set = instance.subset(alloc, keep)?;
    match decide_alone(alloc, &set, 1_000, false)? {
        Outcome::No { tokens, .. } => {
            let tokens = tokens.tokens(alloc)?;
            Ok(Some(is_refuted(refuter, tokens.as_slice())))
        }
        _ => {
            refuter.feed(&Token::Rules);
            Ok(None)
        }
    }
}

// How many of the drawn sets the search refutes, checked by one refuter; none where a refutation
// isn't accepted.
fn checked_sets(alloc: Global, instance: &Instance, random: &mut u32) -> Result<Option<u32>, Fail> {
    let mut refuter = Refuter::new(alloc, instance)?;
    let mut found = 0u32;
    for _ in 0..12u32 {
        let keep = drawn_set(alloc, random, instance.len())?;
        match set_is_checked(alloc, instance, &mut refuter, keep.as_slice())? {
            Some(true) => found = found.saturating_add(1),
            Some(false) => return Ok(None),
            None => {}
        }
    }
    Ok(Some(found))
}

// The same for the sets of nine drawn boxes in `dims` dimensions.
fn drawn_is_checked(alloc: Global, random: &mut u32, dims: u32) -> Result<Option<u32>, Fail> {
    let instance = drawn_instance(alloc, random, dims, 9, 8, 10)?;
    checked_sets(alloc, &instance, random)
}

#[test]
fn sets_are_checked_one_after_another(rt: HostRuntime) -> Result<(), Fail> {
    let mut random = 3;
    let mut found = 0u32;
    for round in 0..12u32 {
        let more = drawn_is_checked(rt.alloc(), &mut random, 2 + round % 3)?;
        assert!(rt; more.is_some());
        found = found.saturating_add(more.unwrap_or(0));
    }
    assert!(rt; found > 10);
    Ok(())
}

// What a leaf by rules is answered where a pair is in conflict from the start, and then in the tree
// of all boxes that is begun after it.
fn two_leaves(
    alloc: Global,
    instance: &Instance,
) -> Result<Option<(FeedVerdict, FeedVerdict)>, NoMemory> {
    let keep = [0, 1];
    if instance.dims() != 2 || instance.len() != 2 || !is_set(&keep, instance.len()) {
        return Ok(None);
    }
    let start = [pair(Rel::Overlap), pair(Rel::Before), pair(Rel::After)];
    let mut refuter = Refuter::starting(alloc, instance, &start)?;
    let first = refuter.feed(&Token::Rules);
    refuter.restart(&keep);
    Ok(Some((first, refuter.feed(&Token::Rules))))
}

#[test]
fn another_tree_begins_without_exclusions(rt: HostRuntime) -> Result<(), Fail> {
    let alloc = rt.alloc();
    let boxes = instance_of(alloc, &[10, 10], &[(&[3, 3], 2)])?;
    let none = FeedVerdict::Refused {
        code: RefuseCode::Conflict,
    };
    assert!(rt; two_leaves(alloc, &boxes)? == Some((FeedVerdict::Done, none)));
    Ok(())
}
