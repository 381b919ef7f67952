//! The test of proposed boxes.
ghost use Rattle.std.specs.Prelude.{IfOk, IfSome};
ghost use Rattle.bounded_answers.specs.ValueLevels.{IsPlacedValue};

use box_instances::{Instance, NoMemory};
use choice_search::choice_numbers;
use proposed_answers::{is_choice, worth_of};
use std::alloc::Global;

/// What a set of boxes is worth that fits, with its numbers in an answer.
#[derive(Drop)]
pub(crate) struct PlacedValue {
    pub worth: u64,
    pub numbers: Vec<u32>,
}

/// What proposed boxes are worth, if their places are a packing of them.
pub(crate) fn tested_value(
    alloc: Global,
    instance: &Instance,
    taken: &[u32],
    places: &[u32],
) -> Result<Option<PlacedValue>, NoMemory>
    ensures { IfOk result (λ found. IfSome found (λ p. IsPlacedValue instance.now p)) }
{
    // For the proof alone: states the limits of the instance.
    let _limits = instance.len();
    if !is_choice(alloc, instance, taken, places)? {
        return Ok(None);
    }
    let worth = worth_of(instance, taken);
    if worth > u128::from(u64::MAX) {
        return Ok(None);
    }
    let numbers = choice_numbers(alloc, instance, taken, places)?;
    Ok(Some(PlacedValue {
        worth: worth as u64,
        numbers,
    }))
}
