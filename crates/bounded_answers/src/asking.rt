//! Goals that are asked: values between the placed and the refuted one, each tried by a proposed
//! tree or a set of boxes.
ghost use Rattle.std.specs.Prelude.{IfOk};
ghost use Rattle.bounded_answers.specs.ValueLevels.{AreLevels, IsWithin, IsGoalOutcome};

use crate::effort::{effort_of, step_limit};
use crate::placed_values::{PlacedValue, tested_value};
use crate::value_levels::ValueLevels;
use crate::value_refuting::{is_bounded_refutation, tell_parameters};
use bounded_proposals::{ValueProposal, ValueRefuter};
use bounded_tokens::BoundedToken;
use box_instances::{Instance, NoMemory};
use std::alloc::Global;

// The value above the placed one has the steps that are left but for a third of them: it alone
// closes the gap.
const REST_PART: u64 = 3;

// Any other goal has an eighth, and one of levels that are far apart a sixteenth.
const GOAL_PART: u64 = 8;

const FAR_PART: u64 = 16;

// The most sets of boxes that raise the placed value, and the most other goals. Halving a gap of 64
// bits takes 64 goals, and each open one ends with an eighth less of the steps.
const MAX_RAISES: u32 = 64;

const MAX_GOALS: u32 = 64;

/// What came of a goal: tokens that refute it, boxes that fit, or neither. Values up to `worth`
/// stay open under the same effort, besides the goal.
#[derive(Drop)]
pub(crate) enum GoalOutcome {
    Refuted(Vec<BoundedToken>),
    Placed(PlacedValue),
    Open { worth: u64 },
}

// Tests what is proposed of a goal.
fn tested(
    alloc: Global,
    instance: &Instance,
    goal: u64,
    proposal: ValueProposal,
) -> Result<GoalOutcome, NoMemory>
    ensures { IfOk result (λ o. IsGoalOutcome instance.now goal o) }
{
    match proposal {
        ValueProposal::Refuted(tokens) => {
            tell_parameters(&tokens);
            if is_bounded_refutation(alloc, instance, goal, &tokens)? {
                Ok(GoalOutcome::Refuted(tokens))
            } else {
                Ok(GoalOutcome::Open { worth: goal })
            }
        }
        ValueProposal::Placed { taken, places } => {
            match tested_value(alloc, instance, &taken, &places)? {
                Some(found) => Ok(GoalOutcome::Placed(found)),
                None => Ok(GoalOutcome::Open { worth: goal }),
            }
        }
        ValueProposal::Undecided { worth } => Ok(GoalOutcome::Open { worth }),
        ValueProposal::Spent => Ok(GoalOutcome::Open { worth: goal }),
    }
}

/// The search for refutations, with the steps that are left of the run and the greatest value that
/// stayed open.
#[derive(Drop)]
pub(crate) struct GoalSearch {
    refuter: ValueRefuter,
    steps: u64,
    open: u64,
}

impl GoalSearch {
    /// The search of an instance under a budget.
    pub fn new(alloc: Global, instance: &Instance, budget: u64) -> Result<GoalSearch, NoMemory> {
        Ok(GoalSearch {
            refuter: ValueRefuter::new(alloc, instance)?,
            steps: step_limit(budget),
            open: 0,
        })
    }

    // The levels after a goal that is tried by `steps` steps.
    fn ask(
        &mut self,
        alloc: Global,
        instance: &Instance,
        levels: ValueLevels,
        goal: u64,
        steps: u64,
    ) -> Result<ValueLevels, NoMemory>
        requires { AreLevels instance.now levels }
        ensures levels { IfOk result (λ l. AreLevels instance.now l) }
        ensures within { IfOk result (λ l. IsWithin levels l) }
    {
        let proposal = self
            .refuter
            .refute(alloc, instance, goal, effort_of(steps))?;
        self.steps = self.steps.saturating_sub(self.refuter.steps());
        match tested(alloc, instance, goal, proposal)? {
            GoalOutcome::Refuted(tokens) => Ok(levels.lowered(goal, tokens)),
            GoalOutcome::Placed(found) => Ok(levels.raised(found)),
            GoalOutcome::Open { worth } => {
                self.open = self.open.max(goal).max(worth);
                Ok(levels)
            }
        }
    }

    /// The levels after the value above the placed one is asked, again where that is placed.
    pub fn ask_beside(
        &mut self,
        alloc: Global,
        instance: &Instance,
        levels: ValueLevels,
    ) -> Result<ValueLevels, NoMemory>
        requires { AreLevels instance.now levels }
        ensures levels { IfOk result (λ l. AreLevels instance.now l) }
        ensures within { IfOk result (λ l. IsWithin levels l) }
    {
        let mut now = levels;
        for _ in 0..MAX_RAISES {
            if now.are_closed() || now.placed < self.open {
                return Ok(now);
            }
            let goal = now.placed + 1;
            let steps = self.steps - self.steps / REST_PART;
            now = self.ask(alloc, instance, now, goal, steps)?;
        }
        Ok(now)
    }

    // The next goal: the value that one leaf at the root refutes, and then the one halfway between
    // the values that stay open and the refuted one.
    fn next_goal(&self, levels: &ValueLevels) -> Option<u64> {
        let low = levels.placed.max(self.open);
        let gap = levels.refuted.saturating_sub(low);
        if gap < 2 || self.steps == 0 {
            return None;
        }
        let root = self.refuter.root_goal();
        if low < root && root < levels.refuted {
            return Some(root);
        }
        Some(low.saturating_add(gap / 2))
    }

    /// The levels after goals halfway between them, up to the first that stays open. The levels of
    /// choice trees are mostly far apart, and the placed value far below the greatest one.
    pub fn bisect(
        &mut self,
        alloc: Global,
        instance: &Instance,
        levels: ValueLevels,
    ) -> Result<ValueLevels, NoMemory>
        requires { AreLevels instance.now levels }
        ensures levels { IfOk result (λ l. AreLevels instance.now l) }
        ensures within { IfOk result (λ l. IsWithin levels l) }
    {
        let mut now = levels;
        for _ in 0..MAX_GOALS {
            let Some(goal) = self.next_goal(&now) else {
                return Ok(now);
            };
            let steps = self.steps / FAR_PART;
            now = self.ask(alloc, instance, now, goal, steps)?;
            if self.open > 0 {
                self.open = 0;
                return Ok(now);
            }
        }
        Ok(now)
    }

    /// The levels after all goals: the value above the placed one, and those halfway.
    pub fn narrow(
        &mut self,
        alloc: Global,
        instance: &Instance,
        levels: ValueLevels,
    ) -> Result<ValueLevels, NoMemory>
        requires { AreLevels instance.now levels }
        ensures levels { IfOk result (λ l. AreLevels instance.now l) }
        ensures within { IfOk result (λ l. IsWithin levels l) }
    {
        let mut now = self.ask_beside(alloc, instance, levels)?;
        for _ in 0..MAX_GOALS {
            let Some(goal) = self.next_goal(&now) else {
                return Ok(now);
            };
            let steps = self.steps / GOAL_PART;
            now = self.ask(alloc, instance, now, goal, steps)?;
        }
        Ok(now)
    }
}
