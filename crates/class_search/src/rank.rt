//! The order in which the tree looks at pairs.
ghost use Rattle.std.specs.Prelude.{◌≡◌, IfOk};
ghost use Rattle.packing_terms.specs.Rank.{in_order, ranked_pairs};

use box_instances::{Instance, NoMemory};
use std::alloc::Global;

// Two boxes, the lower number first.
fn in_order(u: u32, v: u32) -> (u32, u32)
    ensures { result ≡ in_order u v }
{
    if u < v { (u, v) } else { (v, u) }
}

// All pairs of boxes, by the rank of their later box, then by the rank of their earlier one.
pub(crate) fn ranked_pairs(alloc: Global, instance: &Instance) -> Result<Vec<(u32, u32)>, NoMemory>
    ensures { IfOk result (λ pairs. pairs.items ≡ ranked_pairs instance.now) }
{
    let order = instance.rank_order(alloc)?;
    let room = order.len().saturating_mul(order.len()) / 2;
    let Ok(mut pairs) = Vec::with_capacity(alloc, room) else {
        return Err(NoMemory);
    };
    for later in 0..order.len() {
        for earlier in 0..later {
            let Ok(()) = pairs.push(in_order(order[earlier], order[later])) else {
                return Err(NoMemory);
            };
        }
    }
    Ok(pairs)
}
