//! What a worker finds of a task.
ghost use Rattle.std.specs.Prelude.{◌≡◌, IfOk, IfSome, Some, length};
ghost use Rattle.tree_terms.specs.Trees.{node_at};
ghost use Rattle.tree_terms.specs.Paths.{IsReachable};
ghost use Rattle.work_share.specs.Exploring.{first_cap, ExceedsCap, IsFoundAt};

use crate::board::is_past;
use crate::task::Task;
use crate::tree::{Node, Tree};
use box_instances::NoMemory;
use proof_tree::{Outcome, Token};
use std::alloc::Global;

// What exploring a task gives: the whole outcome of its node under the budget, or the split into
// which it is cut.
#[derive(Drop)]
pub(crate) enum Found {
    Whole(Outcome),
    Pieces {
        token: Token,
        own: u64,
        children: u32,
    },
}

// Cap of the root. A tree below it starts no thread.
const ROOT_CAP: u64 = 1_024;

// What a cap grows by with each step down. A resumed walk counts what it has met before, so a cap
// has to grow; and slow growth keeps the tasks small, so that all workers stay close to the
// leftmost unfinished task, and end soon once the board is over: what they explore right of a yes,
// or of where the budget is spent, is lost. Of a budget of 100,000 that 36 equal boxes spend, in a
// tree 270 steps deep, four workers took 2.8 times the processor time of one with steps of 64, 1.7
// times with 16 and 1.5 times with 8.
const CAP_STEP: u64 = 8;

// From this depth on caps grow faster, so the paths of the tasks take little memory: the squares
// of further steps reach a budget of 1,000,000 at depth 1,500.
const FAR_DEPTH: u32 = 512;

// The cap under which a task of this depth is explored first.
fn cap_of(depth: u32, budget: u64) -> u64
    ensures { result ≡ first_cap budget depth }
{
    let far = u64::from(depth.saturating_sub(FAR_DEPTH));
    let near = ROOT_CAP + CAP_STEP * u64::from(depth);
    budget.min(near.saturating_add(far.saturating_mul(far)))
}

// The split of a node whose count exceeds the cap of its depth, or its outcome under the whole
// budget where it is a leaf.
fn split_task<T: Tree>(alloc: Global, tree: &T, budget: u64, task: &Task) -> Result<Found, NoMemory>
    requires reached { IsReachable (T.shape tree.now) task.now.path }
    requires above { IfSome (node_at (Some (T.shape tree.now)) task.now.path)
        (ExceedsCap budget (length task.now.path)) }
    ensures { IfOk result (λ found. IsFoundAt (T.shape tree.now) budget task.now.path found) }
{
    match tree.node(alloc, task.path())? {
        Node::Leaf => Ok(Found::Whole(tree.explore(alloc, task.path(), budget)?)),
        Node::Split {
            token,
            own,
            children,
        } => Ok(Found::Pieces {
            token,
            own,
            children,
        }),
    }
}

// Explores a task under the cap of its depth. Where the count exceeds that, and the cap is below
// the budget, it gives the split, or explores again under the whole budget where the node is a
// leaf.
pub(crate) fn explore_task<T: Tree>(
    alloc: Global,
    tree: &T,
    budget: u64,
    task: &Task,
) -> Result<Found, NoMemory>
    requires { IsReachable (T.shape tree.now) task.now.path }
    ensures { IfOk result (λ found. IsFoundAt (T.shape tree.now) budget task.now.path found) }
{
    let cap = cap_of(task.depth(), budget);
    let outcome = tree.explore(alloc, task.path(), cap)?;
    if cap < budget && is_past(&outcome) {
        return split_task(alloc, tree, budget, task);
    }
    Ok(Found::Whole(outcome))
}
