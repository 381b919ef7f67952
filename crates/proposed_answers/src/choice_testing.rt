//! The test of a proposed choice.
ghost use Rattle.std.specs.Prelude.{◌≡◌, ◌<◌, All, length, IfOk, MatchBool};
ghost use Rattle.std.specs.List.Sorted.{IsStrictlyIncreasing};
ghost use Rattle.packing_terms.specs.Packing.{box_count, IsPacking};
ghost use Rattle.packing_terms.specs.Goals.{subset, worth, IsBoxSet};
ghost use Rattle.proposed_answers.specs.Values.{IsChoice};

use box_instances::{Instance, NoMemory};
use placement_check::{PlaceVerdict, check_places};
use std::alloc::Global;

// Whether each number is below a limit.
fn are_below(numbers: &[u32], limit: u32) -> bool
    ensures { MatchBool result (All (λ v. v < limit) numbers.now)
        (¬ All (λ v. v < limit) numbers.now) }
{
    numbers.iter().all(|v| *v < limit)
}

// Whether each number is below the next.
fn are_rising(numbers: &[u32]) -> bool
    ensures { MatchBool result (IsStrictlyIncreasing numbers.now)
        (¬ IsStrictlyIncreasing numbers.now) }
{
    for k in 1..numbers.len() {
        if numbers[k - 1] >= numbers[k] {
            return false;
        }
    }
    true
}

// Whether the coordinates are a packing of all boxes of an instance.
fn is_packing(set: &Instance, places: &[u32]) -> bool
    ensures { MatchBool result (IsPacking set.now places.now) (¬ IsPacking set.now places.now) }
{
    if places.len() != (set.len() * set.dims()) as usize {
        return false;
    }
    match check_places(set, places) {
        PlaceVerdict::Good => true,
        PlaceVerdict::Outside { box_no: _, dim: _ } => false,
        PlaceVerdict::Overlap {
            first: _,
            second: _,
        } => false,
    }
}

// Whether the coordinates are a packing of these boxes, of which there is one.
fn are_packed(
    alloc: Global,
    instance: &Instance,
    taken: &[u32],
    places: &[u32],
) -> Result<bool, NoMemory>
    requires some { ¬ (length taken.now ≡ 0) }
    requires set { IsBoxSet instance.now taken.now }
    ensures { IfOk result (λ r. MatchBool r (IsPacking (subset instance.now taken.now) places.now)
        (¬ IsPacking (subset instance.now taken.now) places.now)) }
{
    let set = instance.subset(alloc, taken)?;
    Ok(is_packing(&set, places))
}

/// Whether boxes of the instance are named by rising number, counted from 0, and the coordinates,
/// those of the first named box first, are a packing of them.
pub fn is_choice(
    alloc: Global,
    instance: &Instance,
    taken: &[u32],
    places: &[u32],
) -> Result<bool, NoMemory>
    ensures { IfOk result (λ r. MatchBool r (IsChoice instance.now taken.now places.now)
        (¬ IsChoice instance.now taken.now places.now)) }
{
    if !are_below(taken, instance.len()) || !are_rising(taken) {
        return Ok(false);
    }
    if taken.is_empty() {
        return Ok(places.is_empty());
    }
    are_packed(alloc, instance, taken, places)
}

/// What some boxes are worth together.
pub fn worth_of(instance: &Instance, taken: &[u32]) -> u128
    requires { IsBoxSet instance.now taken.now }
    ensures { result ≡ worth instance.now taken.now }
{
    let mut worth = 0u128;
    for v in taken {
        worth += u128::from(instance.value(*v));
    }
    worth
}
