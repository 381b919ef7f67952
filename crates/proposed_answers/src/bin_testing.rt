//! The test of proposed bins.
ghost use Rattle.std.specs.Prelude.{◌≡◌, ◌+◌, ◌*◌, ◌<◌, All, length, IfOk, MatchBool};
ghost use Rattle.packing_terms.specs.Packing.{dims, box_count};
ghost use Rattle.tree_terms.specs.OuterSearch.{bins_in, places_in, AreBinNumbers};

use box_instances::{Instance, NoMemory};
use document_lines::bins_reason;
use std::alloc::Global;

// The bin of each box.
fn bins_in(alloc: Global, instance: &Instance, numbers: &[u32]) -> Result<Vec<u32>, NoMemory>
    requires { length numbers.now ≡ box_count instance.now * (dims instance.now + 1) }
    ensures { IfOk result (λ bins. bins.items ≡ bins_in instance.now numbers.now) }
{
    let width = instance.dims() as usize + 1;
    let mut bins = Vec::new(alloc);
    for v in 0..instance.len() as usize {
        let Ok(()) = bins.push(numbers[v * width]) else {
            return Err(NoMemory);
        };
    }
    Ok(bins)
}

// The coordinates of each box.
fn places_in(alloc: Global, instance: &Instance, numbers: &[u32]) -> Result<Vec<u32>, NoMemory>
    requires { length numbers.now ≡ box_count instance.now * (dims instance.now + 1) }
    ensures { IfOk result (λ places. places.items ≡ places_in instance.now numbers.now) }
{
    let dims = instance.dims() as usize;
    let mut places = Vec::new(alloc);
    for v in 0..instance.len() as usize {
        let first = v * (dims + 1) + 1;
        if places
            .extend_from_slice(&numbers[first..first + dims])
            .is_err()
        {
            return Err(NoMemory);
        }
    }
    Ok(places)
}

// Whether each box is in one of `count` bins.
fn are_below(bins: &[u32], count: u32) -> bool
    ensures { MatchBool result (All (λ b. b < count) bins.now) (¬ All (λ b. b < count) bins.now) }
{
    bins.iter().all(|bin| *bin < count)
}

/// Whether numbers give each box one of `count` bins and coordinates, such that the boxes of each
/// bin are a packing. They are, of each box in order, its bin, counted from 0, and its coordinates.
pub fn are_bin_numbers(
    alloc: Global,
    instance: &Instance,
    count: u32,
    numbers: &[u32],
) -> Result<bool, NoMemory>
    requires { length numbers.now ≡ box_count instance.now * (dims instance.now + 1) }
    ensures { IfOk result (λ r. MatchBool r (AreBinNumbers instance.now count numbers.now)
        (¬ AreBinNumbers instance.now count numbers.now)) }
{
    let bins = bins_in(alloc, instance, numbers)?;
    if !are_below(&bins, count) {
        return Ok(false);
    }
    let places = places_in(alloc, instance, numbers)?;
    let reason = bins_reason(alloc, instance, count, &bins, &places)?;
    Ok(reason.is_none())
}
