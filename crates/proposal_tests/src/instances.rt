//! Instances, whether places are a packing, and whether two outcomes are the same.
use box_instances::{BoxItem, Instance, Sides};
use placement_check::check_places;
use proof_tree::Outcome;
use std::alloc::Global;
use std::test::Fail;
use verdict_terms::PlaceVerdict;
use work_share::Settings;

/// The instance of these boxes.
pub(crate) fn instance_of(
    alloc: Global,
    container: &[u32],
    boxes: &[&[u32]],
) -> Result<Instance, Fail> {
    let mut items = Vec::new(alloc);
    for sides in boxes {
        items.push(BoxItem {
            sides: Sides::from_slice(alloc, sides)?,
            value: 1,
        })?;
    }
    Ok(Instance::new(Sides::from_slice(alloc, container)?, items)?)
}

/// Four boxes around one in the middle, which fill the square.
pub(crate) fn pinwheel(alloc: Global) -> Result<Instance, Fail> {
    instance_of(
        alloc,
        &[5, 5],
        &[&[1, 1], &[3, 2], &[2, 3], &[3, 2], &[2, 3]],
    )
}

/// Four boxes of which no two fit above each other, and only three beside each other.
pub(crate) fn four_in_a_row(alloc: Global) -> Result<Instance, Fail> {
    instance_of(alloc, &[10, 10], &[&[3, 6], &[3, 6], &[3, 6], &[3, 6]])
}

/// Two boxes that have room in each dimension: nothing is settled at the root.
pub(crate) fn two_small(alloc: Global) -> Result<Instance, Fail> {
    instance_of(alloc, &[4, 4], &[&[2, 1], &[2, 1]])
}

/// Settings without scales.
pub(crate) fn settings(workers: u32, budget: u64) -> Settings {
    Settings {
        workers,
        budget,
        scales: false,
    }
}

/// Settings with scales and no branching, so that only roots and proposals decide.
pub(crate) fn at_roots(workers: u32) -> Settings {
    Settings {
        workers,
        budget: 0,
        scales: true,
    }
}

/// Whether there is one coordinate for each box and dimension, and they are a packing.
pub(crate) fn is_packing(instance: &Instance, places: &[u32]) -> bool {
    places.len() == (instance.len() * instance.dims()) as usize
        && check_places(instance, places) == PlaceVerdict::Good
}

/// Whether two outcomes are the same, as far as places, counts and the number of tokens show.
pub(crate) fn are_same(first: &Outcome, second: &Outcome) -> bool {
    match (first, second) {
        (
            Outcome::Yes { numbers, count },
            Outcome::Yes {
                numbers: others,
                count: other,
            },
        ) => count == other && numbers.as_slice() == others.as_slice(),
        (
            Outcome::No { tokens, count },
            Outcome::No {
                tokens: others,
                count: other,
            },
        ) => count == other && tokens.len() == others.len(),
        (Outcome::Past, Outcome::Past) => true,
        _ => false,
    }
}
