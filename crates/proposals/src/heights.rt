//! Proposed heights: packings without regard to the container's last side.
ghost use Rattle.std.specs.Prelude.{◌≡◌, ◌*◌, length, IfOk, IfSome};
ghost use Rattle.packing_terms.specs.Packing.{dims, box_count};

use beam_search::Beams;
use box_instances::{Instance, NoMemory};
use fill_search::{Batches, Incumbent, copy_into, volumes};
use std::alloc::Global;
use std::thread::Threads;

// The most fills of a round, in two dimensions and in more, and the most for each box: a few boxes
// have few orders.
const FLAT_FILLS: u64 = 500;

const DEEP_FILLS: u64 = 150;

const FILLS_PER_BOX: u64 = 25;

// In three dimensions and more the fills of at most this number of batches are made in one, since
// longer rounds pack lower: three strips of 20, 40 and 60 boxes 1 to 3 % with as many fills in all.
const MOST_MERGED: u64 = 16;

// For each batch the widest beam has this many nodes more, up to a number of batches. With 8 for a
// batch 32 strips are 0.02 % of their height lower, in 14 % more time.
const WIDTH: u64 = 5;

const MOST_WIDTHS: u64 = 51;

/// A height, and the coordinates of the boxes, box after box.
#[derive(Drop)]
pub struct ProposedHeight {
    pub height: u32,
    pub places: Vec<u32>,
}

/// The fills of a round of swaps.
pub(crate) fn round_fills(instance: &Instance) -> u64 {
    let most = if instance.dims() == 2 {
        FLAT_FILLS
    } else {
        DEEP_FILLS
    };
    u64::from(instance.len())
        .saturating_mul(FILLS_PER_BOX)
        .min(most)
}

/// How many of the batches that are left are made in one.
pub(crate) fn merged_batches(instance: &Instance, left: u64) -> u64 {
    if instance.dims() == 2 {
        left.min(1)
    } else {
        left.min(MOST_MERGED)
    }
}

// Makes a packing lower by beams of up to this width.
fn lower_by_beams(
    alloc: Global,
    instance: &Instance,
    widest: usize,
    enough: u32,
    best: &mut Incumbent,
) -> Result<(), NoMemory> {
    if best.cost <= u64::from(enough) {
        return Ok(());
    }
    let weights = volumes(alloc, instance)?;
    let mut beams = Beams::new(alloc, instance, weights, widest)?;
    beams.lower(alloc, instance, u64::from(enough), best)
}

// Makes a packing lower by batches of rounds of swaps.
fn lower_by_swaps<R: Threads + Sync>(
    rt: &R,
    instance: &Instance,
    batches: u64,
    enough: u32,
    search: &mut Batches,
) {
    let mut left = batches;
    for batch in 0..batches {
        if left == 0 || search.best.cost <= u64::from(enough) {
            return;
        }
        let merged = merged_batches(instance, left);
        let fills = merged.saturating_mul(round_fills(instance));
        search.make_low(rt, instance, batch, fills, u64::from(enough));
        left = left.saturating_sub(merged);
    }
}

/// A low packing of all boxes, or none, by up to `workers` threads, whose number changes nothing.
/// The container's last side isn't looked at.
///
/// It is the best of plain fills, then of up to `batches` batches of rounds of swaps, and then, in
/// two dimensions and if `batches` isn't 0, of beams. The search ends once the height is no more
/// than `enough`. Nothing is promised of it but that there is one coordinate for each box and
/// dimension: the caller tests it.
pub fn propose_height<R: Threads + Sync>(
    rt: &R,
    alloc: Global,
    instance: &Instance,
    batches: u64,
    enough: u32,
    workers: u32,
) -> Result<Option<ProposedHeight>, NoMemory>
    ensures { IfOk result (λ found. IfSome found
        (λ p. length p.places.items ≡ box_count instance.now * dims instance.now)) }
{
    let Ok(mut places) = vec![in alloc; 0u32; (instance.len() * instance.dims()) as usize] else {
        return Err(NoMemory);
    };
    let weights = volumes(alloc, instance)?;
    let mut search = Batches::new(alloc, instance, &weights, workers)?;
    search.stack(instance.dims() == 2);
    lower_by_swaps(rt, instance, batches, enough, &mut search);
    if instance.dims() == 2 && batches > 0 {
        let widest = (batches.min(MOST_WIDTHS) * WIDTH) as usize;
        lower_by_beams(alloc, instance, widest, enough, &mut search.best)?;
    }
    if search.best.cost > u64::from(u32::MAX) {
        return Ok(None);
    }
    copy_into(&search.best.places, &mut places);
    Ok(Some(ProposedHeight {
        height: search.best.cost as u32,
        places,
    }))
}
