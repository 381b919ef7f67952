//! CHAIN at a given chain. Each step of the chain is verified, so it may come from anywhere.
ghost use Rattle.std.specs.Prelude.{◌≡◌, ◌<◌, ◌≤◌, IfSome, length};
ghost use Rattle.packing_terms.specs.Packing.{dims, box_count};
ghost use Rattle.packing_terms.specs.Exclusions.{excludes};
ghost use Rattle.packing_terms.specs.Applied.{Extends};
ghost use Rattle.packing_terms.specs.Runs.{HasTail};
ghost use Rattle.edge_state.specs.BitRows.{HoldsBoxes};
ghost use Rattle.edge_state.specs.States.{IsSized, HasEmptyMask};
ghost use Rattle.orientation_rules.specs.ChainLines.{IsTooLong};

use crate::narrow::keep_only;
use box_instances::Instance;
use edge_state::{BitRow, EdgeState, Mask, Rel};

// The box that a chain of these boxes starts in, and the chain's weight. `None` if they are no
// chain. They are listed from the chain's last box on.
fn check_chain<const K: usize>(
    instance: &Instance,
    state: &EdgeState,
    dim: u32,
    line: &[u32],
) -> Option<(u32, u64)>
    requires words { HoldsBoxes K (box_count instance.now) }
    requires sizes { IsSized instance.now state.now dim }
    ensures { IfSome result (λ e. (e.0 < box_count instance.now)
        × HasTail instance.now (excludes state.now.trail) dim e.0 e.1) }
{
    if line.is_empty() {
        return None;
    }
    let mut first = line[0];
    if first >= instance.len() {
        return None;
    }
    let mut weight = u64::from(instance.side(first, dim));
    let none: BitRow<K> = BitRow::empty();
    let mut known = none.with(first);
    for k in 1..line.len() {
        let next = line[k];
        if next >= instance.len() {
            return None;
        }
        if known.has(next) {
            return None;
        }
        if !state.sure_before_in::<K>(dim, next, first) {
            return None;
        }
        let Some(more) = weight.checked_add(u64::from(instance.side(next, dim))) else {
            return None;
        };
        known = known.with(next);
        weight = more;
        first = next;
    }
    Some((first, weight))
}

/// The first two boxes of a chain, which is listed from its last box on, if it is one and longer
/// than the container.
pub(crate) fn find_long_chain<const K: usize>(
    instance: &Instance,
    state: &EdgeState,
    dim: u32,
    line: &[u32],
) -> Option<(u32, u32)>
    requires words { HoldsBoxes K (box_count instance.now) }
    requires sizes { IsSized instance.now state.now dim }
    ensures { IfSome result
        (λ p. IsTooLong instance.now (excludes state.now.trail) dim p.0 p.1) }
{
    if line.is_empty() {
        return None;
    }
    let last = line.len() - 1;
    let u = line[last];
    let Some((v, weight)) = check_chain::<K>(instance, state, dim, &line[..last]) else {
        return None;
    };
    if u >= instance.len() || u == v {
        return None;
    }
    if !state.sure_before_in::<K>(dim, u, v) {
        return None;
    }
    let Some(together) = weight.checked_add(u64::from(instance.side(u, dim))) else {
        return None;
    };
    if together <= u64::from(instance.container_side(dim)) {
        return None;
    }
    Some((u, v))
}

/// CHAIN at the first two boxes of an over-long chain: it leaves their mask empty.
pub fn apply_long_chain(instance: &Instance, state: &mut EdgeState, dim: u32, u: u32, v: u32)
    requires sizes { IsSized instance.now state.old dim }
    requires long { IsTooLong instance.now (excludes state.old.trail) dim u v }
    ensures sizes { state.new ≡ record state.old { trail = state.new.trail } }
    ensures extends { Extends instance.now state.old.trail state.new.trail }
    ensures empty { HasEmptyMask instance.now (excludes state.new.trail) }
{
    keep_only(state, dim, u, v, Mask::all().without(Rel::Before));
}
