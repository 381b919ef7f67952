//! Proposed places.
ghost use Rattle.std.specs.Prelude.{◌≡◌, ◌*◌, length, IfOk, IfSome};
ghost use Rattle.packing_terms.specs.Packing.{dims, box_count};

use box_instances::{Instance, NoMemory};
use place_search::PlaceSearch;
use std::alloc::Global;

/// Places for all boxes, the coordinates of box 0 in all dimensions first, or none.
///
/// Nothing is promised of them but that there is one coordinate for each box and dimension: the
/// caller tests them. The search makes at most `nodes` steps in each direction.
pub fn propose_places(
    alloc: Global,
    instance: &Instance,
    nodes: u64,
) -> Result<Option<Vec<u32>>, NoMemory>
    ensures { IfOk result (λ found. IfSome found
        (λ places. length places.items ≡ box_count instance.now * dims instance.now)) }
{
    let rank = instance.rank_order(alloc)?;
    let mut search = PlaceSearch::new(alloc, instance)?;
    let Ok(mut places) = vec![in alloc; 0u32; (instance.len() * instance.dims()) as usize] else {
        return Err(NoMemory);
    };
    if search.place(&rank, nodes, &mut places) {
        Ok(Some(places))
    } else {
        Ok(None)
    }
}
