//! Tests of the pool of a set search: a search that comes out of it decides the sets of its own
//! instance.
ghost use Rattle.std.specs.Prelude.{◌≡◌};

use crate::cases::{BOARDS, THREE, instance_of};
use box_instances::{Instance, NoMemory};
use proof_tree::Outcome;
use set_search::{SetSearch, TASK_SET_BUDGET};
use std::alloc::Global;
use std::test::Fail;

// Whether the first two boxes fit together, of at least two.
fn two_fit(alloc: Global, instance: &Instance, search: &mut SetSearch<'_>) -> Result<bool, NoMemory>
    requires { search.old.instance ≡ instance.now }
{
    if instance.len() < 2 {
        return Err(NoMemory);
    }
    let outcome = search.decide(alloc, &[0, 1], 100)?;
    Ok(matches!(
        &outcome,
        Outcome::Yes {
            numbers: _,
            count: _
        }
    ))
}

// The same by a search of one pool, which is given to another.
fn two_fit_by<'a>(
    alloc: Global,
    instance: &Instance,
    pool: &SetSearch<'a>,
    next: &SetSearch<'a>,
) -> Result<bool, NoMemory>
    requires { pool.now.instance ≡ instance.now }
{
    let mut search = pool.take(alloc, TASK_SET_BUDGET)?;
    let fit = two_fit(alloc, instance, &mut search)?;
    next.give(search);
    Ok(fit)
}

// Whether the pool of the three boxes decides that two don't fit: at first, again by what was
// decided, and after a search of the boards, of which two fit, was given to it.
fn decides_its_own<'a>(
    alloc: Global,
    three: &Instance,
    boards: &Instance,
    pool: &SetSearch<'a>,
    other: &SetSearch<'a>,
) -> Result<bool, NoMemory>
    requires three { pool.now.instance ≡ three.now }
    requires boards { other.now.instance ≡ boards.now }
{
    let first = two_fit_by(alloc, three, pool, pool)?;
    let again = two_fit_by(alloc, three, pool, pool)?;
    let of_boards = two_fit_by(alloc, boards, other, pool)?;
    let last = two_fit_by(alloc, three, pool, pool)?;
    Ok(!first && !again && of_boards && !last)
}

// The same of these instances.
fn pools_are_apart(alloc: Global, three: &Instance, boards: &Instance) -> Result<bool, NoMemory> {
    let pool = SetSearch::new(alloc, three, true)?;
    let other = SetSearch::new(alloc, boards, true)?;
    decides_its_own(alloc, three, boards, &pool, &other)
}

#[test]
fn a_pool_decides_the_sets_of_its_instance(rt: HostRuntime) -> Result<(), Fail> {
    let three = instance_of(rt.alloc(), &THREE)?;
    let boards = instance_of(rt.alloc(), &BOARDS)?;
    assert!(rt; pools_are_apart(rt.alloc(), &three, &boards)?);
    Ok(())
}
