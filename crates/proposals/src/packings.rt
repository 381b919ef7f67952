//! Proposed packings by swaps.
ghost use Rattle.std.specs.Prelude.{◌≡◌, ◌*◌, length, IfOk, IfSome};
ghost use Rattle.packing_terms.specs.Packing.{dims, box_count};

use crate::heights::{merged_batches, propose_height, round_fills};
use box_instances::{Instance, NoMemory};
use fill_search::{Batches, container_side, copy_into, volumes};
use std::alloc::Global;
use std::thread::Threads;

// Whether the boxes have more volume than the container.
fn is_too_full(instance: &Instance) -> bool {
    let mut room = 1u128;
    for dim in 0..instance.dims() {
        room = room.saturating_mul(u128::from(container_side(instance, dim)));
    }
    instance.volume() > room
}

// A search by up to `batches` batches of rounds that leave out less and less. It ends once all
// boxes are placed.
fn pack_inside<R: Threads + Sync>(
    rt: &R,
    alloc: Global,
    instance: &Instance,
    batches: u64,
    workers: u32,
) -> Result<Batches, NoMemory> {
    let weights = volumes(alloc, instance)?;
    let mut search = Batches::new(alloc, instance, &weights, workers)?;
    let mut left = batches;
    for batch in 0..batches {
        if left == 0 || search.best.cost == 0 {
            break;
        }
        let merged = merged_batches(instance, left);
        let fills = merged.saturating_mul(round_fills(instance));
        search.leave_out(rt, instance, batch, true, fills, 0);
        left = left.saturating_sub(merged);
    }
    Ok(search)
}

/// Coordinates of all boxes, box after box, or none, by up to `batches` batches of rounds of swaps
/// and up to `workers` threads, whose number changes nothing.
///
/// In two dimensions half of the batches make a low packing without regard to the container's last
/// side: of 6 texts of 30 to 80 boxes with 2 % waste each way alone packs some that the other
/// doesn't. Nothing is promised of the coordinates but that there is one for each box and
/// dimension: the caller tests them.
pub fn propose_packing<R: Threads + Sync>(
    rt: &R,
    alloc: Global,
    instance: &Instance,
    batches: u64,
    workers: u32,
) -> Result<Option<Vec<u32>>, NoMemory>
    ensures { IfOk result (λ found. IfSome found
        (λ places. length places.items ≡ box_count instance.now * dims instance.now)) }
{
    let Ok(mut places) = vec![in alloc; 0u32; (instance.len() * instance.dims()) as usize] else {
        return Err(NoMemory);
    };
    if is_too_full(instance) {
        return Ok(None);
    }
    let stacked = if instance.dims() == 2 { batches / 2 } else { 0 };
    let inside = batches.saturating_sub(stacked);
    let search = pack_inside(rt, alloc, instance, inside, workers)?;
    if search.best.cost == 0 {
        copy_into(&search.best.places, &mut places);
        return Ok(Some(places));
    }
    if stacked == 0 {
        return Ok(None);
    }
    let top = container_side(instance, instance.dims() - 1);
    match propose_height(rt, alloc, instance, stacked, top, workers)? {
        Some(low) if low.height <= top => Ok(Some(low.places)),
        _ => Ok(None),
    }
}
