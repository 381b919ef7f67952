//! What the trees and the proposals of a run may cost in all.
ghost use Rattle.std.specs.Prelude.{◌≡◌, ◌≤◌};
ghost use Rattle.proposed_answers.specs.Shares.{level_share};

use crate::effort::Effort;
use crate::proposing::split_limit;
use crate::share::level_share;
use crate::steps::{branching_steps, splits_within, steps_of_splits, tree_steps};
use box_instances::Instance;
use work_share::Settings;

// The first proposal has such a part of the splits of `fit`, or of what the run may cost.
const FIRST_PART: u64 = 16;

const FIRST_COST: u64 = 4;

// In two dimensions above 24 boxes, and in three above 30, trees and refutations hardly narrow a
// gap between what scales refute and what swaps pack (32 strips of 17 to 100 boxes): they have an
// eighth of what a run may cost, and no splits.
const FEW_FLAT_BOXES: u32 = 24;

const FEW_DEEP_BOXES: u32 = 30;

const PART_OF_MANY: u64 = 8;

// A proposal with fewer splits isn't worth its search for places, some 10 ms.
const LEAST_SPLITS: u64 = 200;

// From round to round a tree has four times the branchings.
const RISE: u64 = 4;

// After three undecided levels in a row the two beside the ends are asked.
const BESIDE: u32 = 3;

/// What the trees and the proposals of a run may still cost, in pair steps, with the branchings of
/// a tree and the splits of a proposal in the present round.
#[derive(Drop)]
pub(crate) struct Purse {
    left: u64,
    branching: u64,
    trees: u64,
    splits: u64,
    split_limit: u64,
    has_few_boxes: bool,
}

// Whether the boxes are so few that trees and refutations pay.
fn has_few_boxes(instance: &Instance) -> bool {
    if instance.dims() == 2 {
        instance.len() <= FEW_FLAT_BOXES
    } else {
        instance.len() <= FEW_DEEP_BOXES
    }
}

impl Purse {
    /// The purse of a run under a budget, in its first round: trees have the share of a level.
    pub(crate) fn new(instance: &Instance, settings: &Settings) -> Purse {
        let all = tree_steps(settings.budget);
        let few = has_few_boxes(instance);
        let left = if few { all } else { all / PART_OF_MANY };
        let most = split_limit(instance);
        let paid = splits_within(instance, left / FIRST_COST);
        Purse {
            left,
            branching: branching_steps(instance),
            trees: level_share(settings.budget),
            splits: if few { paid.min(most / FIRST_PART) } else { 0 },
            split_limit: most / 2,
            has_few_boxes: few,
        }
    }

    /// The levels that count as left open when a round begins. With many boxes trees leave nearly
    /// all open, so the levels beside the ends come first.
    pub(crate) fn first_in_vain(&self, effort: Effort) -> u32 {
        if self.has_few_boxes || effort == Effort::Root {
            0
        } else {
            BESIDE
        }
    }

    /// The branchings of a tree: those of the round where the purse holds them, and else the share
    /// of a level.
    pub(crate) fn branchings(&self, settings: &Settings) -> u64
        ensures { level_share settings.now.budget ≤ result }
    {
        let share = level_share(settings.budget);
        if self.trees.saturating_mul(self.branching) <= self.left {
            self.trees.max(share)
        } else {
            share
        }
    }

    /// The splits of a proposal, where the purse holds them and they are not too few, and else
    /// none.
    pub(crate) fn splits(&self, instance: &Instance) -> u64 {
        if self.splits >= LEAST_SPLITS && steps_of_splits(instance, self.splits) <= self.left {
            self.splits
        } else {
            0
        }
    }

    /// Pays the branchings of a tree.
    pub(crate) fn pay_branchings(&mut self, count: u64) {
        let steps = count.saturating_mul(self.branching);
        self.left = self.left.saturating_sub(steps);
    }

    /// Pays the splits of a proposal. The next one has twice as many where this one decided its
    /// level, and else half.
    pub(crate) fn pay_splits(&mut self, instance: &Instance, splits: u64, is_decided: bool) {
        let steps = steps_of_splits(instance, splits);
        self.left = self.left.saturating_sub(steps);
        self.splits = if is_decided {
            self.splits.saturating_mul(2).min(self.split_limit)
        } else {
            self.splits / 2
        };
    }

    /// Begins the next round, in which a tree has four times the branchings, at most the budget, or
    /// as many as the purse holds for the two levels beside the ends. Answers whether there is one:
    /// there is none where a tree would have fewer than twice the branchings.
    pub(crate) fn next_round(&mut self, settings: &Settings) -> bool {
        let both = self.branching.saturating_mul(2).max(1);
        let held = self.left / both;
        let trees = self
            .trees
            .saturating_mul(RISE)
            .min(settings.budget)
            .min(held);
        if trees < self.trees.saturating_mul(2) {
            return false;
        }
        self.trees = trees;
        true
    }
}
