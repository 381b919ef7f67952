//! Proposed bins.
ghost use Rattle.std.specs.Prelude.{◌≡◌, ◌+◌, ◌*◌, length, IfOk, IfSome};
ghost use Rattle.packing_terms.specs.Packing.{dims, box_count};

use crate::pool::few_bins;
use box_instances::{Instance, NoMemory};
use std::alloc::Global;

// How often bins are filled again: some hundredths of a second, half a second for 100 large boxes.
// With three times as many no other of 63 texts takes a bin less. A small budget pays for fewer.
const MOST_REFILLS: u64 = 16_000;

const LEAST_REFILLS: u64 = 2_000;

/// A number of bins, and of each box in order its bin, counted from 0, and its coordinates.
#[derive(Drop)]
pub struct ProposedBins {
    pub count: u32,
    pub numbers: Vec<u32>,
}

/// Bins for all boxes, or none. The search ends once there are no more than `enough`. It fills bins
/// again twice as often as `budget` has branchings, but at least 2,000 times and at most 16,000.
///
/// Nothing is promised of them but that there are a bin and one coordinate in each dimension for
/// each box: the caller tests them.
pub fn propose_bins(
    alloc: Global,
    instance: &Instance,
    enough: u32,
    budget: u64,
) -> Result<Option<ProposedBins>, NoMemory>
    ensures { IfOk result (λ found. IfSome found
        (λ b. length b.numbers.items ≡ box_count instance.now * (dims instance.now + 1))) }
{
    let numbers_of_all = (instance.len() * (instance.dims() + 1)) as usize;
    let Ok(mut numbers) = vec![in alloc; 0u32; numbers_of_all] else {
        return Err(NoMemory);
    };
    let refills = budget.saturating_mul(2).clamp(LEAST_REFILLS, MOST_REFILLS);
    let count = few_bins(alloc, instance, enough, refills, &mut numbers)?;
    if count == 0 {
        return Ok(None);
    }
    Ok(Some(ProposedBins { count, numbers }))
}
