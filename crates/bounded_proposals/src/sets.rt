//! The instance of a set of boxes.
ghost use Rattle.std.specs.Prelude.{◌≡◌, ◌<◌, All, MatchBool};
ghost use Rattle.std.specs.List.Sorted.{IsStrictlyIncreasing};

use box_instances::{Instance, NoMemory};
use std::alloc::Global;

// Whether each number is below a limit.
fn are_below(numbers: &[u32], limit: u32) -> bool
    ensures { MatchBool result (All (λ v. v < limit) numbers.now)
        (¬ All (λ v. v < limit) numbers.now) }
{
    numbers.iter().all(|v| *v < limit)
}

// Whether each number is below the next.
fn are_rising(numbers: &[u32]) -> bool
    ensures { MatchBool result (IsStrictlyIncreasing numbers.now)
        (¬ IsStrictlyIncreasing numbers.now) }
{
    for k in 1..numbers.len() {
        if numbers[k - 1] >= numbers[k] {
            return false;
        }
    }
    true
}

/// The instance of the named boxes, or `None` unless at least one is named, all by rising number.
pub(crate) fn set_instance(
    alloc: Global,
    instance: &Instance,
    keep: &[u32],
) -> Result<Option<Instance>, NoMemory> {
    if keep.is_empty() || !are_below(keep, instance.len()) || !are_rising(keep) {
        return Ok(None);
    }
    let set = instance.subset(alloc, keep)?;
    Ok(Some(set))
}
