//! What a budget pays for in a run with proposals, in pair steps: a pair step is what a closing
//! does for one pair of boxes, some 12 nanoseconds.

use box_instances::Instance;

// A branching of n boxes takes n^2 pair steps, and a split of the search for a refutation seven
// times as many. A batch of rounds of swaps takes 24,000 n steps in two dimensions (4,000 fills),
// and 2,000 n^2 in three and four (1,200 fills).
const SPLIT_COST: u64 = 7;

const FLAT_BATCH_COST: u64 = 24_000;

const DEEP_BATCH_COST: u64 = 2_000;

// The steps in any case, for each branching of a small budget, and for each of a larger one: the
// trees of a run take 0.01 s for a budget of 0, 0.4 s for 10,000, and 12 s for 1,000,000.
// The refutation search of `fit` then has as many splits as the hardest of 69 public instances
// takes (617,000 for 14 boxes).
const SMALL_BUDGET: u64 = 20_000;

const TREE_STEPS: u64 = 1_000_000;

const TREE_STEPS_OF_SMALL: u64 = 2_000;

const TREE_STEPS_OF_MORE: u64 = 960;

// The steps of swaps for each branching, and in any case: for boxes in a container and sets worth
// much, and for low packings. With 60 boxes in two dimensions the low ones have 1 batch for a
// budget of 0, 68 for 10,000 and 96 from 14,100 on. Over 32 strips of 17 to 100 boxes the mean gap
// to what scales refute is 2.4 % after the batches of a budget of 0 (1.9 % with twice the steps,
// which take up to 0.2 s), 1.6 % after 26 batches for 60 boxes, and 1.5 % after 60.
const SWAP_STEPS: u64 = 3_000_000;

const LOW_SWAP_STEPS: u64 = 1_500_000;

const SWAP_STEPS_OF_SMALL: u64 = 3_500;

const LOW_SWAP_STEPS_OF_SMALL: u64 = 9_500;

const SWAP_STEPS_OF_MORE: u64 = 200;

const MOST_BATCHES: u64 = 96;

// In three and four dimensions packings are lower the longer swaps go on (60 boxes: 1,102 behind
// 19,200 fills in a row, 1,083 behind 76,800), and little else narrows the gap.
const DEEP_SWAP_STEPS_OF_SMALL: u64 = 12_000;

const DEEP_SWAP_STEPS_OF_MORE: u64 = 550;

const MOST_DEEP_BATCHES: u64 = 128;

const MOST_PACKING_BATCHES: u64 = 64;

// A batch for values takes fewer steps for each box, since not all boxes are placed. In two
// dimensions 40 batches place at most 2 % more than 12 (14 texts of 20 to 100 boxes). In three the
// boxes of 5 texts of 20 to 100 boxes are worth 0.4 to 6 % more behind 11 to 56 batches than behind
// 2 to 40.
const FLAT_VALUE_BATCH_COST: u64 = 16_000;

const DEEP_VALUE_BATCH_COST: u64 = 36_000;

const MOST_FLAT_VALUE_BATCHES: u64 = 40;

const MOST_DEEP_VALUE_BATCHES: u64 = 64;

// Trees and refutation searches decide hardly any question of more boxes than these (9 texts of 30
// to 80 boxes), and packings are found the more often the longer they are searched. So `fit` then
// has an eighth of the steps for a refutation, and half of those of a small budget more for swaps.
const FEW_BOXES: u32 = 24;

const PART_OF_MANY: u64 = 8;

// The tree of a number of bins has so many times the branchings of the budget: most of them are
// sets that come again, at some 2 microseconds each. A small budget pays for more where bins hold
// few boxes, for so many pair steps each of its branchings, with one box more a bin than they hold
// in the mean. Of 8 texts that were left open one is then decided with a budget of 10,000 (40 boxes
// in three dimensions, least 9, 4.7 million branchings in 0.24 s), where 60 boxes in 5 bins take
// 4.2 s for as many.
const BIN_TREE_TIMES: u64 = 6;

const BIN_STEPS_OF_SMALL: u64 = 12_500;

// The steps of the branchings of a budget: the first ones cost `small` steps each, each further one
// `more`.
fn steps_of(budget: u64, small: u64, more: u64) -> u64 {
    let first = budget.min(SMALL_BUDGET).saturating_mul(small);
    budget.saturating_mul(more).saturating_add(first)
}

/// The pair steps of one branching: the square of the number of boxes.
pub(crate) fn branching_steps(instance: &Instance) -> u64 {
    let count = u64::from(instance.len());
    (count * count).max(1)
}

/// The pair steps that the trees and the refutation searches of a run may take under a budget.
pub(crate) fn tree_steps(budget: u64) -> u64 {
    steps_of(budget, TREE_STEPS_OF_SMALL, TREE_STEPS_OF_MORE).saturating_add(TREE_STEPS)
}

/// The pair steps of a search for a refutation with at most `splits` splits.
pub(crate) fn steps_of_splits(instance: &Instance, splits: u64) -> u64 {
    splits
        .saturating_mul(SPLIT_COST)
        .saturating_mul(branching_steps(instance))
}

/// The splits of a search for a refutation that takes at most `steps` pair steps.
pub(crate) fn splits_within(instance: &Instance, steps: u64) -> u64 {
    steps / SPLIT_COST / branching_steps(instance).max(1)
}

/// The branchings of the tree of a number of bins under a budget, where the boxes are placed in
/// `placed` bins.
pub(crate) fn bin_tree_branchings(instance: &Instance, placed: u64, budget: u64) -> u64 {
    let together = u64::from(instance.len()) / placed.max(1) + 1;
    let steps = budget.min(SMALL_BUDGET).saturating_mul(BIN_STEPS_OF_SMALL);
    let more = steps / together.saturating_mul(together).max(1);
    budget.saturating_mul(BIN_TREE_TIMES).saturating_add(more)
}

// The steps that swaps for boxes in a container, or for sets worth much, may take under a budget.
fn swap_steps(budget: u64) -> u64 {
    steps_of(budget, SWAP_STEPS_OF_SMALL, SWAP_STEPS_OF_MORE).saturating_add(SWAP_STEPS)
}

// The steps that a batch of rounds of swaps takes.
fn batch_steps(instance: &Instance) -> u64 {
    if instance.dims() == 2 {
        u64::from(instance.len()).saturating_mul(FLAT_BATCH_COST)
    } else {
        branching_steps(instance).saturating_mul(DEEP_BATCH_COST)
    }
}

/// The batches of rounds of swaps for a low packing under a budget, at most 96 in two dimensions
/// and 128 in more. There is none if the steps of the budget don't pay for one.
pub(crate) fn swap_batches(instance: &Instance, budget: u64) -> u64 {
    let (steps, most) = if instance.dims() == 2 {
        let steps = steps_of(budget, LOW_SWAP_STEPS_OF_SMALL, SWAP_STEPS_OF_MORE);
        (steps, MOST_BATCHES)
    } else {
        let steps = steps_of(budget, DEEP_SWAP_STEPS_OF_SMALL, DEEP_SWAP_STEPS_OF_MORE);
        (steps, MOST_DEEP_BATCHES)
    };
    (steps.saturating_add(LOW_SWAP_STEPS) / batch_steps(instance).max(1)).min(most)
}

/// The batches of rounds of swaps for a packing in the container under a budget, at most 64.
pub(crate) fn packing_batches(instance: &Instance, budget: u64) -> u64 {
    let more = if instance.len() > FEW_BOXES {
        tree_steps(budget.min(SMALL_BUDGET)) / 2
    } else {
        0
    };
    let steps = swap_steps(budget);
    (steps.saturating_add(more) / batch_steps(instance).max(1)).min(MOST_PACKING_BATCHES)
}

/// The splits of a search for a refutation that a budget pays for.
pub(crate) fn paid_splits(instance: &Instance, budget: u64) -> u64 {
    let steps = tree_steps(budget);
    let part = if instance.len() > FEW_BOXES {
        steps / PART_OF_MANY
    } else {
        steps
    };
    splits_within(instance, part)
}

/// The batches of rounds of swaps for a set of boxes that is worth much under a budget, at most 40
/// in two dimensions and 64 in more.
pub fn value_batches(instance: &Instance, budget: u64) -> u64 {
    let (cost, most) = if instance.dims() == 2 {
        (FLAT_VALUE_BATCH_COST, MOST_FLAT_VALUE_BATCHES)
    } else {
        (DEEP_VALUE_BATCH_COST, MOST_DEEP_VALUE_BATCHES)
    };
    let steps = swap_steps(budget);
    let batch = u64::from(instance.len()).saturating_mul(cost).max(1);
    (steps / batch).min(most)
}
