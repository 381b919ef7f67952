//! The choice of a split: the pairs that conflicts weigh most over the ways that are left to them.

use crate::relations::{ORDERS, OVERLAP, Row, below, bit, lowest};
use crate::splits::{Choice, Split};
use crate::table::{Edge, Table};
use crate::weights::Weights;
use lenient_lists::at;

/// Two boxes by rank, the lower number first, with their score. A score of 0 is of no pair.
#[derive(Clone, Copy)]
pub struct Rated {
    pub score: u64,
    pub u: u32,
    pub v: u32,
}

/// No pair.
pub(crate) const NO_PAIR: Rated = Rated {
    score: 0,
    u: 0,
    v: 0,
};

// 840 over the number of ways, in place of a division: there are at most eight, two a dimension.
const PARTS: [u64; 9] = [840, 840, 420, 280, 210, 168, 140, 120, 105];

// The boxes with which a box is in a sure order in some dimension.
fn settled(table: &Table, v: u32) -> Row {
    let mut row = 0;
    for dim in 0..table.dims() {
        row |= table.ahead(dim, v) | table.behind(dim, v);
    }
    row
}

// The weight of a pair over its ways.
#[inline]
fn score(table: &Table, weights: &Weights, u: u32, v: u32) -> u64 {
    let (mut ways, mut weight) = (0u32, 0u64);
    for dim in 0..table.dims() {
        let orders = table.mask(dim, u, v) & ORDERS;
        ways = ways.saturating_add(orders.count_ones());
        weight = weight.saturating_add(weights.of(table, Edge { dim, u, v }));
    }
    let parts = PARTS[ways.min(8) as usize];
    weight.saturating_mul(parts).max(1)
}

/// Puts the pairs that aren't settled into a list, those with the greatest scores first, and of
/// equal ones those that come first by rank.
pub(crate) fn rate_pairs(table: &Table, weights: &Weights, best: &mut [Rated]) {
    for v in 1..table.boxes() {
        let mut left = below(v) & !settled(table, v);
        for _ in 0..left.count_ones() {
            let u = lowest(left);
            left &= !bit(u);
            let score = score(table, weights, u, v);
            offer(best, Rated { score, u, v });
        }
    }
}

// Puts a pair where it belongs by its score; of equal ones the first stays before the others.
#[inline]
fn offer(best: &mut [Rated], rated: Rated) {
    let count = best.len();
    if count == 0 || best[count - 1].score >= rated.score {
        return;
    }
    let mut moving = rated;
    for k in 0..count {
        if moving.score > best[k].score {
            let other = best[k];
            best[k] = moving;
            moving = other;
        }
    }
}

// Whether a pair is apart in some dimension.
fn is_apart(table: &Table, u: u32, v: u32) -> bool {
    for dim in 0..table.dims() {
        if table.mask(dim, u, v) & OVERLAP == 0 {
            return true;
        }
    }
    false
}

// Whether a pair with this mask can be split so.
fn splits_here(mask: u8, choice: Choice) -> bool {
    match choice {
        Choice::Order => mask == ORDERS,
        Choice::Apart => mask & OVERLAP != 0 && mask != OVERLAP,
    }
}

/// The split of a pair: once it is apart, into its orders, in the dimension that weighs most of
/// those in which it may be split so. `rank` has the boxes by rank.
pub(crate) fn split_of(
    table: &Table,
    weights: &Weights,
    rank: &[u32],
    u: u32,
    v: u32,
) -> Option<Split> {
    let choice = if is_apart(table, u, v) {
        Choice::Order
    } else {
        Choice::Apart
    };
    let turned = at(rank, u as usize) > at(rank, v as usize);
    let mut found = None;
    let mut most = 0;
    for dim in 0..table.dims() {
        let edge = Edge { dim, u, v };
        let weight = weights.of(table, edge);
        if splits_here(table.mask(dim, u, v), choice) && (found.is_none() || weight > most) {
            most = weight;
            let named = if turned {
                Edge { dim, u: v, v: u }
            } else {
                edge
            };
            found = Some(Split {
                choice,
                edge: named,
            });
        }
    }
    found
}

/// The split of the pair that weighs most, and none where each pair is settled.
pub(crate) fn heaviest_split(table: &Table, weights: &Weights, rank: &[u32]) -> Option<Split> {
    let mut best = [NO_PAIR];
    rate_pairs(table, weights, &mut best);
    if best[0].score == 0 {
        return None;
    }
    split_of(table, weights, rank, best[0].u, best[0].v)
}
