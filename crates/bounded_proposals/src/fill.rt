//! Dantzig's bound of one tuple: boxes by falling value for each share, until one doesn't go in.
//!
//! Source: Dantzig (1957), on the fractional knapsack.

use crate::slots::bit;
use crate::tree_space::WHOLE_SHARE;

/// A box with its share by a tuple and its value.
#[derive(Clone, Copy)]
pub(crate) struct PricedBox {
    pub(crate) box_no: u32,
    pub(crate) share: u32,
    pub(crate) value: u64,
}

/// A node: the boxes that are undecided and fit alone, the value of those that are in, and the
/// value that is to be refuted.
#[derive(Clone, Copy)]
pub(crate) struct OpenNode {
    pub(crate) open: u128,
    pub(crate) worth: u64,
    pub(crate) goal: u64,
}

/// The weights of values and of shares.
#[derive(Clone, Copy)]
pub(crate) struct Weights {
    pub(crate) value: u32,
    pub(crate) share: u32,
}

/// A greedy fill: the value of what is in and of what goes in, the share that is left, and the
/// first box that doesn't go in.
#[derive(Clone, Copy)]
struct Fill {
    worth: u64,
    left: u64,
    critical: Option<PricedBox>,
}

/// The value of a box for its share, by which boxes are sorted, for boxes of at most 10^9 in both:
/// the quotient by 2^34 exact to a unit.
pub(crate) fn density(priced: &PricedBox) -> u64 {
    if priced.share == 0 {
        return u64::MAX;
    }
    let value = priced.value.min(u64::from(WHOLE_SHARE));
    (value << 34) / u64::from(priced.share)
}

// Fills undecided boxes into the share that is left, by falling density, as long as the value is
// below the goal.
fn fill_greedily(boxes: &[PricedBox], node: &OpenNode, left: u64) -> Fill {
    let mut now = Fill {
        worth: node.worth,
        left,
        critical: None,
    };
    for priced in boxes {
        if node.open & bit(priced.box_no) != 0 {
            let share = u64::from(priced.share);
            if share > now.left {
                now.critical = Some(*priced);
                return now;
            }
            now.left -= share;
            now.worth = now.worth.saturating_add(priced.value);
            if now.worth >= node.goal {
                return now;
            }
        }
    }
    now
}

/// The weights by which a node may be priced out, where Dantzig's bound is below the goal: share
/// and value of the critical box. `used` is the share of what is in.
///
/// The critical box prices best of all boxes, so no other weights of the tuple are tried.
pub(crate) fn weights_of(boxes: &[PricedBox], node: &OpenNode, used: u64) -> Option<Weights> {
    let whole = u64::from(WHOLE_SHARE);
    if used > whole {
        return Some(Weights { value: 0, share: 1 });
    }
    let now = fill_greedily(boxes, node, whole - used);
    if now.worth >= node.goal {
        return None;
    }
    let Some(critical) = now.critical else {
        return Some(Weights { value: 1, share: 0 });
    };
    let missing = u128::from(node.goal - now.worth) * u128::from(critical.share);
    if u128::from(critical.value).saturating_mul(u128::from(now.left)) >= missing {
        return None;
    }
    Some(weights_by(&critical))
}

// The weights of a critical box, at most 10^9 each.
fn weights_by(critical: &PricedBox) -> Weights {
    let value = critical.value.min(u64::from(WHOLE_SHARE));
    Weights {
        value: critical.share,
        share: value as u32,
    }
}

// What a box gains at most: its weighed value less its weighed share, or 0 where that is below 0.
fn gain(priced: &PricedBox, weights: Weights) -> u128 {
    let value = u128::from(priced.value).saturating_mul(u128::from(weights.value));
    let share = u128::from(priced.share) * u128::from(weights.share);
    value.saturating_sub(share)
}

/// What there is at most, weighed: the value of what is in, the whole container, and what
/// undecided boxes gain.
pub(crate) fn supply(boxes: &[PricedBox], node: &OpenNode, weights: Weights) -> u128 {
    let container = u128::from(WHOLE_SHARE) * u128::from(weights.share);
    let mut sum = u128::from(node.worth)
        .saturating_mul(u128::from(weights.value))
        .saturating_add(container);
    for priced in boxes {
        if node.open & bit(priced.box_no) != 0 {
            sum = sum.saturating_add(gain(priced, weights));
        }
    }
    sum
}

/// Whether a node is priced out by weights of a tuple: the goal asks for more than there is.
pub(crate) fn is_priced_out(
    boxes: &[PricedBox],
    node: &OpenNode,
    used: u64,
    weights: Weights,
) -> bool {
    let asked = u128::from(node.goal)
        .saturating_mul(u128::from(weights.value))
        .saturating_add(u128::from(used).saturating_mul(u128::from(weights.share)));
    supply(boxes, node, weights) < asked
}

/// The least goal that weights of a tuple refute at the root, where this is the supply.
pub(crate) fn least_goal(boxes: &[PricedBox], node: &OpenNode) -> u64 {
    let Some(weights) = weights_of(boxes, node, 0) else {
        return node.goal;
    };
    if weights.value == 0 {
        return node.goal;
    }
    let goal = (supply(boxes, node, weights) / u128::from(weights.value)).saturating_add(1);
    if goal >= u128::from(node.goal) {
        node.goal
    } else {
        goal as u64
    }
}
