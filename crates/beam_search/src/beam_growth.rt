//! What a node of a beam becomes when a box is laid into one of its gaps.

use crate::beam_guides::Grown;
use crate::beam_levels::Node;
use fill_search::{Gap, OrientedInstance, Skyline};

// The least width of the boxes that aren't laid.
pub(crate) fn narrowest_side(turned: &OrientedInstance, node: &Node) -> u32 {
    let mut narrowest = u32::MAX;
    for v in 0..turned.count {
        if !node.has(v) {
            narrowest = narrowest.min(turned.side(v, 0));
        }
    }
    narrowest
}

// Whether some box that isn't laid fits a gap.
pub(crate) fn takes_any(turned: &OrientedInstance, node: &Node, gap: &Gap) -> bool {
    let room = turned.top().saturating_sub(gap.height);
    for v in 0..turned.count {
        if !node.has(v) && turned.side(v, 0) <= gap.width && turned.side(v, 1) <= room {
            return true;
        }
    }
    false
}

// The area beside a box of these sides in a gap that no box can take, because it is narrower than
// all that aren't laid.
fn lost_beside(
    turned: &OrientedInstance,
    gap: &Gap,
    width: u32,
    height: u32,
    narrowest: u32,
) -> u64 {
    let rest = gap.width.saturating_sub(width);
    if rest == 0 || rest >= narrowest {
        return 0;
    }
    let wall = if gap.is_right(width, height) {
        gap.left
    } else {
        gap.right
    };
    let rise = height
        .min(wall)
        .min(turned.top().saturating_sub(gap.height));
    u64::from(rest) * u64::from(rise)
}

// The node after a box is laid into a gap. `values` is what the boxes are worth, and `narrowest`
// the least width of those that aren't laid.
pub(crate) fn grown(
    turned: &OrientedInstance,
    values: &[u64],
    node: &Node,
    gap: &Gap,
    v: u32,
    narrowest: u32,
) -> Node {
    let (width, height) = (turned.side(v, 0), turned.side(v, 1));
    let lost = lost_beside(turned, gap, width, height, narrowest);
    let index = v as usize;
    let value = if index < values.len() {
        values[index]
    } else {
        0
    };
    Node {
        laid: if v < 128 {
            node.laid | (1 << v)
        } else {
            node.laid
        },
        count: node.count.saturating_add(1),
        area: node
            .area
            .saturating_add(u64::from(width) * u64::from(height)),
        value: node.value.saturating_add(value),
        lost: node.lost.saturating_add(lost),
        hash: 0,
    }
}

// What a guide sees of a node after a box of these sides was laid into a gap of the skyline.
pub(crate) fn seen(line: &Skyline, after: &Node, gap: &Gap, width: u32, height: u32) -> Grown {
    let fills = u32::from(width == gap.width);
    let levels = u32::from(height == gap.left || height == gap.right);
    Grown {
        count: after.count,
        area: after.area,
        value: after.value,
        lost: after.lost,
        flat: fills + levels,
        segments: line.len() as u64,
    }
}
