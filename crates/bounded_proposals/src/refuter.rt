//! Proposed refutations of values: the search, with its sets decided by proposals.

use crate::kinds::{kinds, kinds_of};
use crate::memory::SetCache;
use crate::patience::Patience;
use crate::pause::{Pause, TreeLimits};
use crate::sets::set_instance;
use crate::tree_search::BoundedSearch;
use bounded_tokens::BoundedToken;
use box_instances::{Instance, NoMemory};
use conflict_search::{Proposal, propose_refutation};
use proof_tree::Token;
use std::alloc::Global;

/// What a proposal may use up: the limits of its tree, and the most splits for a set that grew, and
/// for one that is worth the goal. With 0 splits such sets stay undecided. A split counts as 40
/// steps of the tree for each box of its set.
#[derive(Clone, Copy)]
pub struct BoundedEffort {
    pub tree: TreeLimits,
    pub grown_splits: u64,
    pub reached_splits: u64,
}

/// What is proposed of a value.
///
/// `Refuted`: the tokens of a choice tree that refutes it. `Placed`: boxes by rising number that
/// are worth it, with their coordinates, box after box. `Undecided`: a set of boxes of value
/// `worth` stayed undecided, so the same splits refute no value up to `worth`. `Spent`: the limits
/// of the tree were used up.
#[derive(Drop)]
pub enum ValueProposal {
    Refuted(Vec<BoundedToken>),
    Placed { taken: Vec<u32>, places: Vec<u32> },
    Undecided { worth: u64 },
    Spent,
}

// What became of a set: the tokens that refute it, or its boxes with their coordinates.
#[derive(Drop)]
enum SetOutcome {
    Refuted(Vec<Token>),
    Placed { taken: Vec<u32>, places: Vec<u32> },
    Undecided,
}

// A question: the first `count` boxes that went in, and the splits. A set that stayed undecided
// under `tried` splits or more isn't explored again.
#[derive(Clone, Copy)]
struct SetQuestion {
    count: usize,
    splits: u64,
    tried: u64,
}

// How many boxes less a set has that is tried in place of one that is refuted, and the splits for
// it beside as many as the refutation has tokens.
const BOXES_BACK: usize = 3;

const MORE_SPLITS: u64 = 100;

// A split of the search that decides sets takes some 2 microseconds for each box of the set (9 to
// 33 boxes), a step of the tree 50 nanoseconds.
const STEPS_PER_BOX: u64 = 40;

// The steps as which a split of a set counts.
fn split_steps(boxes: usize) -> u64 {
    STEPS_PER_BOX.saturating_mul(boxes.max(1) as u64)
}

/// The search for refutations of one value after another of an instance.
#[derive(Drop)]
pub struct ValueRefuter {
    search: BoundedSearch,
    kinds: Vec<u32>,
    memory: SetCache,
    patience: Patience,
    // The most steps for the goal.
    steps: u64,
}

impl ValueRefuter {
    /// The search of an instance.
    pub fn new(alloc: Global, instance: &Instance) -> Result<ValueRefuter, NoMemory> {
        Ok(ValueRefuter {
            search: BoundedSearch::new(alloc, instance)?,
            kinds: kinds(alloc, instance)?,
            memory: SetCache::new(alloc),
            patience: Patience::new(),
            steps: 0,
        })
    }

    /// The least value that one priced leaf at the root refutes.
    pub fn root_goal(&self) -> u64 {
        self.search.root_goal()
    }

    /// The steps that the last goal took, those of its splits among them.
    pub fn steps(&self) -> u64 {
        self.search.steps()
    }

    // The splits of a set that the steps that are left pay for.
    fn splits_left(&self, boxes: usize) -> u64 {
        let steps = self.steps.saturating_sub(self.search.steps());
        steps.checked_div(split_steps(boxes)).unwrap_or(0)
    }

    // Counts splits of a set as steps.
    fn charge(&mut self, boxes: usize, splits: u64) {
        self.search
            .charge(splits.saturating_mul(split_steps(boxes)));
    }

    // Explores a set whose boxes are of these kinds.
    fn explore(
        &mut self,
        alloc: Global,
        instance: &Instance,
        question: SetQuestion,
        taken: Vec<u32>,
        row: &[u32],
    ) -> Result<SetOutcome, NoMemory> {
        let Some(set) = set_instance(alloc, instance, &taken)? else {
            return Ok(SetOutcome::Undecided);
        };
        let splits = question.splits.min(self.splits_left(question.count));
        match propose_refutation(alloc, &set, true, splits)? {
            Proposal::Tokens(tokens) => {
                self.charge(question.count, tokens.len() as u64);
                self.memory.remember(alloc, row, &tokens, splits)?;
                Ok(SetOutcome::Refuted(tokens))
            }
            Proposal::Places(places) => {
                self.charge(question.count, places.len() as u64);
                self.search.keep_placed(question.count)?;
                Ok(SetOutcome::Placed { taken, places })
            }
            Proposal::Nothing => {
                let none = Vec::new(alloc);
                self.charge(question.count, splits);
                self.memory.remember(alloc, row, &none, splits)?;
                Ok(SetOutcome::Undecided)
            }
        }
    }

    // Decides a set, by what is known of it or by exploring it.
    fn decide(
        &mut self,
        alloc: Global,
        instance: &Instance,
        question: SetQuestion,
    ) -> Result<SetOutcome, NoMemory> {
        if question.splits == 0 {
            return Ok(SetOutcome::Undecided);
        }
        let taken = self.search.set(alloc, instance, question.count)?;
        let row = kinds_of(alloc, &self.kinds, &taken)?;
        let Some(known) = self.memory.find(&row) else {
            return self.explore(alloc, instance, question, taken, &row);
        };
        if known.is_refuted() {
            let tokens = self.memory.refutation(alloc, known)?;
            return Ok(SetOutcome::Refuted(tokens));
        }
        if question.tried <= known.splits() {
            return Ok(SetOutcome::Undecided);
        }
        self.explore(alloc, instance, question, taken, &row)
    }

    // Decides the set at which the search stands.
    fn decide_whole(
        &mut self,
        alloc: Global,
        instance: &Instance,
        splits: u64,
    ) -> Result<SetOutcome, NoMemory> {
        let question = SetQuestion {
            count: self.search.set_size(),
            splits,
            tried: splits,
        };
        self.decide(alloc, instance, question)
    }

    // Closes the node whose set is refuted by tokens, or the one at which it had three boxes less,
    // if that set is refuted by about as many.
    //
    // The boxes that went in last are the smallest, and mostly the set doesn't fit without the last
    // two to six of them either. Going back drops what was below that node: trees are up to 46 %
    // shorter, in about the same time. Going back box by box takes up to a third more.
    fn close_highest(
        &mut self,
        alloc: Global,
        instance: &Instance,
        tokens: Vec<Token>,
    ) -> Result<(), NoMemory> {
        let size = self.search.set_size();
        if size <= BOXES_BACK {
            return self.search.close_set(size, tokens);
        }
        let splits = (tokens.len() as u64).saturating_add(MORE_SPLITS);
        let question = SetQuestion {
            count: size - BOXES_BACK,
            splits,
            tried: splits / 2,
        };
        match self.decide(alloc, instance, question)? {
            SetOutcome::Refuted(fewer) => self.search.close_set(question.count, fewer),
            SetOutcome::Placed {
                taken: _taken,
                places: _places,
            } => self.search.close_set(size, tokens),
            SetOutcome::Undecided => self.search.close_set(size, tokens),
        }
    }

    // Decides a set that grew, if it is its turn.
    fn ask_grown(
        &mut self,
        alloc: Global,
        instance: &Instance,
        splits: u64,
    ) -> Result<(), NoMemory> {
        if !self.patience.is_over() {
            self.patience = self.patience.after_pass();
            return Ok(());
        }
        match self.decide_whole(alloc, instance, splits)? {
            SetOutcome::Refuted(tokens) => {
                self.patience = Patience::new();
                self.close_highest(alloc, instance, tokens)?;
            }
            SetOutcome::Placed {
                taken: _taken,
                places: _places,
            } => {}
            SetOutcome::Undecided => self.patience = self.patience.after_undecided(),
        }
        Ok(())
    }

    // What is proposed where the set at which the search stands is undecided.
    fn undecided(&self) -> ValueProposal {
        if self.splits_left(self.search.set_size()) == 0 {
            return ValueProposal::Spent;
        }
        ValueProposal::Undecided {
            worth: self.search.worth(),
        }
    }

    /// What is proposed of the value `goal`.
    ///
    /// The caller tests each proposal: nothing is promised of it. What is known of sets is kept
    /// from one goal to the next.
    pub fn refute(
        &mut self,
        alloc: Global,
        instance: &Instance,
        goal: u64,
        effort: BoundedEffort,
    ) -> Result<ValueProposal, NoMemory> {
        self.search.begin(alloc, goal);
        self.steps = effort.tree.steps;
        for _ in 0..effort.tree.steps {
            match self.search.run(alloc, effort.tree)? {
                Pause::Whole => return Ok(ValueProposal::Refuted(self.search.take_tokens(alloc))),
                Pause::Spent => return Ok(ValueProposal::Spent),
                Pause::Grown => self.ask_grown(alloc, instance, effort.grown_splits)?,
                Pause::Reached => match self.decide_whole(alloc, instance, effort.reached_splits)? {
                    SetOutcome::Refuted(tokens) => self.close_highest(alloc, instance, tokens)?,
                    SetOutcome::Placed { taken, places } => {
                        return Ok(ValueProposal::Placed { taken, places });
                    }
                    SetOutcome::Undecided => return Ok(self.undecided()),
                },
            }
        }
        Ok(ValueProposal::Spent)
    }
}
