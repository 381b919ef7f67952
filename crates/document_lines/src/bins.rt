//! The places of the boxes of all bins.
ghost use Rattle.std.specs.Prelude.{◌≡◌, ◌*◌, ◌<◌, ◌≤◌, All, IfOk, OnOk, length, [], ◌∷◌};
ghost use Rattle.packing_terms.specs.Packing.{dims, box_count};
ghost use Rattle.packing_terms.specs.Goals.{in_bin, places_of};
ghost use Rattle.verdict_terms.specs.Stages.{groups_reason, bins_reason};
ghost use Rattle.document_lines.specs.Sharings.{bin_group, is_outside};

use crate::groups::group_reason;
use box_instances::{Instance, NoMemory};
use std::alloc::Global;
use verdict_terms::Reason;

// Makes the list the boxes of a bin, by rising number.
fn boxes_in(bins: &[u32], bin: u32, keep: &mut Vec<u32>) -> Result<(), NoMemory>
    requires { length bins.now ≤ 128 }
    ensures { OnOk result (keep.new.items ≡ in_bin bins.now bin) }
{
    keep.clear();
    for v in 0..bins.len() {
        if bins[v] == bin && keep.push(v as u32).is_err() {
            return Err(NoMemory);
        }
    }
    Ok(())
}

// Makes the list the coordinates of the named boxes.
fn places_in(
    instance: &Instance,
    places: &[u32],
    keep: &[u32],
    list: &mut Vec<u32>,
) -> Result<(), NoMemory>
    requires count { length places.now ≡ box_count instance.now * dims instance.now }
    requires there { All (λ v. v < box_count instance.now) keep.now }
    ensures { OnOk result (list.new.items ≡ places_of instance.now places.now keep.now) }
{
    let dims = instance.dims() as usize;
    list.clear();
    for v in keep {
        let at = *v as usize * dims;
        if list.extend_from_slice(&places[at..at + dims]).is_err() {
            return Err(NoMemory);
        }
    }
    Ok(())
}

// Why the places of a bin are refused, if they are. The lists are room for its boxes and places.
fn bin_reason(
    alloc: Global,
    instance: &Instance,
    bins: &[u32],
    places: &[u32],
    bin: u32,
    keep: &mut Vec<u32>,
    list: &mut Vec<u32>,
) -> Result<Option<Reason>, NoMemory>
    requires count { length bins.now ≡ box_count instance.now }
    requires placed { length places.now ≡ box_count instance.now * dims instance.now }
    ensures { IfOk result (λ r. r ≡ groups_reason
        (bin_group instance.now bins.now places.now bin ∷ [])) }
{
    // For the proof alone: states the limits of the instance.
    let _max_boxes = instance.len();
    boxes_in(bins, bin, keep)?;
    if keep.is_empty() {
        return Ok(None);
    }
    places_in(instance, places, keep, list)?;
    let set = instance.subset(alloc, keep)?;
    Ok(group_reason(&set, keep, list))
}

// Whether the reason is that a box leaves the container.
fn is_outside(reason: Option<Reason>) -> bool
    ensures { result ≡ is_outside reason }
{
    match reason {
        Some(Reason::OutsideAt { box_no: _, dim: _ }) => true,
        _ => false,
    }
}

/// Why the places of the boxes of `bin_count` bins are refused, if they are: the first box that
/// leaves the container, by bins and numbers, and only where none does the first two that overlap.
pub fn bins_reason(
    alloc: Global,
    instance: &Instance,
    bin_count: u32,
    bins: &[u32],
    places: &[u32],
) -> Result<Option<Reason>, NoMemory>
    requires count { length bins.now ≡ box_count instance.now }
    requires placed { length places.now ≡ box_count instance.now * dims instance.now }
    ensures { IfOk result (λ r. r ≡ bins_reason instance.now bin_count bins.now places.now) }
{
    let mut keep = Vec::new(alloc);
    let mut list = Vec::new(alloc);
    let mut overlap = None;
    for bin in 0..bin_count {
        let reason = bin_reason(alloc, instance, bins, places, bin, &mut keep, &mut list)?;
        if is_outside(reason) {
            return Ok(reason);
        }
        if overlap.is_none() {
            overlap = reason;
        }
    }
    Ok(overlap)
}
