//! Nodes by their paths.
ghost use Rattle.std.specs.Prelude.{◌≡◌, ◌≤◌, ◌<◌, ◌++◌, [], ℕ, Bool, List, length, drop, slice_index_or, IfOk, OnOk};
ghost use Rattle.packing_terms.specs.Packing.{box_count};
ghost use Rattle.packing_terms.specs.Limits.{IsInternalInstance};
ghost use Rattle.packing_terms.specs.OuterRefutation.{placements};
ghost use Rattle.packing_terms.specs.Rank.{ranked};
ghost use Rattle.tree_terms.specs.Trees.{outcome, under_budget};
ghost use Rattle.tree_terms.specs.OuterTrees.{with_answer, bin_node};
ghost use Rattle.tree_terms.specs.Paths.{node_view, max_budget};
ghost use Rattle.work_share.specs.Outcomes.{plain_outcome};
ghost use Rattle.work_share.specs.Nodes.{plain_node};
ghost use Rattle.bin_search.specs.Lists.{lists_of};
ghost use Rattle.bin_search.specs.Nodes.{AreInBins};
ghost use Rattle.bin_search.specs.Paths.{grown, bins_along, answers_of, AreFound, IsAbove, IsLastStep, child_tree};

use crate::lists::replace_list;
use crate::node::{Placed, children, grow_bin};
use crate::numbers::bin_numbers;
use crate::walk::{assign, walk};
use box_instances::{Instance, NoMemory};
use proof_tree::{CompactTokens, Outcome};
use set_search::{Child, MAX_BUDGET, SetSearch, with_box};
use std::alloc::Global;
use work_share::Node;

// The last step of a path: into the child of this number of a node at which `placed` boxes have
// these bins.
#[derive(Drop)]
pub struct Step {
    pub placed: usize,
    pub bins: Vec<Vec<u32>>,
    pub child: u32,
}

// A bin with one box more, where a new bin stands behind the used ones.
fn grown_bin(alloc: Global, bins: &[Vec<u32>], b: usize, v: u32) -> Result<Vec<u32>, NoMemory>
    ensures { IfOk result (λ set. set.items ≡ grown (lists_of bins.now) v b) }
{
    if b < bins.len() {
        with_box(alloc, bins[b].as_slice(), v)
    } else {
        with_box(alloc, &[], v)
    }
}

// The used bins of the node at a path. Each step puts a box into the bin of the child's number.
fn bins_along(alloc: Global, order: &[u32], path: &[u32]) -> Result<Vec<Vec<u32>>, NoMemory>
    requires { length path.now ≤ length order.now }
    ensures { IfOk result (λ bins. lists_of bins.items ≡ bins_along [] order.now path.now) }
{
    let mut bins = Vec::new(alloc);
    for k in 0..path.len() {
        let b = path[k] as usize;
        let set = grown_bin(alloc, &bins, b, order[k])?;
        replace_list(&mut bins, b, set)?;
    }
    Ok(bins)
}

// The last step of a path that isn't empty.
pub(crate) fn last_step(alloc: Global, order: &[u32], path: &[u32]) -> Result<Step, NoMemory>
    requires some { 1 ≤ length path.now }
    requires few { length path.now ≤ length order.now }
    ensures { IfOk result (λ step. IsLastStep order.now path.now step.placed
        (lists_of step.bins.items) step.child) }
{
    let last = path.len() - 1;
    let bins = bins_along(alloc, order, &path[..last])?;
    Ok(Step {
        placed: last,
        bins,
        child: path[last],
    })
}

// Appends the answers of some sets. They were found to fit within the greatest budget.
fn push_answers(
    alloc: Global,
    search: &mut SetSearch<'_>,
    sets: &[Vec<u32>],
    answers: &mut Vec<Vec<u32>>,
) -> Result<(), NoMemory>
    requires { AreFound search.old.instance search.old.scales (lists_of sets.now) }
    ensures same { search.new ≡ search.old }
    ensures answers { OnOk result (lists_of answers.new.items ≡ lists_of answers.old.items
        ++ answers_of search.old.instance search.old.scales (lists_of sets.now)) }
{
    for k in 0..sets.len() {
        let answer = search.answer_of(alloc, sets[k].as_slice())?;
        let Ok(()) = answers.push(answer) else {
            return Err(NoMemory);
        };
    }
    Ok(())
}

// The answers of the bins, with this one in the place of a bin's, or for a new bin behind them.
fn answers_with(
    alloc: Global,
    search: &mut SetSearch<'_>,
    bins: &[Vec<u32>],
    b: usize,
    numbers: Vec<u32>,
) -> Result<Vec<Vec<u32>>, NoMemory>
    requires near { b ≤ length bins.now }
    requires found { AreFound search.old.instance search.old.scales (lists_of bins.now) }
    ensures same { search.new ≡ search.old }
    ensures answers { IfOk result (λ answers. lists_of answers.items ≡ with_answer
        (answers_of search.old.instance search.old.scales (lists_of bins.now)) b numbers.items) }
{
    let mut answers = Vec::new(alloc);
    push_answers(alloc, search, &bins[..b], &mut answers)?;
    let Ok(()) = answers.push(numbers) else {
        return Err(NoMemory);
    };
    if b < bins.len() {
        push_answers(alloc, search, &bins[b + 1..], &mut answers)?;
    }
    Ok(answers)
}

// What the tree below a node gives under a cap, with the node's own count.
pub(crate) fn enter(
    alloc: Global,
    search: &mut SetSearch<'_>,
    instance: &Instance,
    order: &[u32],
    most: u32,
    node: Placed,
    own: u64,
    cap: u64,
) -> Result<Outcome, NoMemory>
    requires limits { IsInternalInstance instance.now }
    requires search { search.old.instance ≡ instance.now }
    requires order { order.now ≡ ranked instance.now }
    requires few { most ≤ box_count instance.now }
    requires node { AreInBins instance.now most node.placed (lists_of node.bins.items)
        (lists_of node.answers.items) }
    requires fresh { node.visited ≡ 0 }
    requires within { own ≤ cap }
    ensures same { search.new ≡ search.old }
    ensures outcome { IfOk result (λ r. plain_outcome r ≡ under_budget cap (outcome
        (bin_node instance.now search.old.scales most (drop node.placed (ranked instance.now))
        (lists_of node.bins.items) (lists_of node.answers.items) own))) }
{
    if node.placed == order.len() {
        let numbers = bin_numbers(alloc, instance, &node.bins, &node.answers)?;
        return Ok(Outcome::Yes {
            numbers,
            count: own,
        });
    }
    walk(alloc, search, instance, order, most, node, own, cap)
}

// What the tree below the child at the end of a path gives under a cap.
pub(crate) fn explore_step(
    alloc: Global,
    search: &mut SetSearch<'_>,
    instance: &Instance,
    order: &[u32],
    most: u32,
    step: Step,
    cap: u64,
) -> Result<Outcome, NoMemory>
    requires limits { IsInternalInstance instance.now }
    requires search { search.old.instance ≡ instance.now }
    requires order { order.now ≡ ranked instance.now }
    requires few { most ≤ box_count instance.now }
    requires above { IsAbove
        (record { instance = instance.now; bins = most; scales = search.old.scales })
        step.placed (lists_of step.bins.items) }
    requires near { step.child < length (placements most (lists_of step.bins.items)
        (slice_index_or (ranked instance.now) step.placed 0)) }
    ensures { IfOk result (λ r. plain_outcome r ≡ under_budget cap (outcome (child_tree
        (record { instance = instance.now; bins = most; scales = search.old.scales })
        step.placed (lists_of step.bins.items) step.child))) }
{
    let b = step.child as usize;
    let mut tokens = CompactTokens::new(alloc);
    let number = Some(step.child + 1);
    match grow_bin(
        alloc,
        search,
        &step.bins,
        b,
        order[step.placed],
        cap,
        number,
        &mut tokens,
    )? {
        Child::Past => Ok(Outcome::Past),
        Child::Refuted { own } => Ok(Outcome::No { tokens, count: own }),
        Child::Fits { set, numbers, own } => {
            let answers = answers_with(alloc, search, &step.bins, b, numbers)?;
            let mut bins = step.bins;
            replace_list(&mut bins, b, set)?;
            let node = Placed {
                placed: step.placed + 1,
                bins,
                answers,
                visited: 0,
            };
            enter(alloc, search, instance, order, most, node, own, cap)
        }
    }
}

// What is reported of a node at which `placed` boxes have bins, whose own count is within the
// greatest budget.
pub(crate) fn tell(
    instance: &Instance,
    order: &[u32],
    most: u32,
    placed: usize,
    bins: &[Vec<u32>],
    own: u64,
) -> Node
    requires order { order.now ≡ ranked instance.now }
    requires there { placed ≤ length order.now }
    requires few { length bins.now ≤ most }
    requires most { most ≤ box_count instance.now }
    requires within { own ≤ max_budget }
    ensures { (scales : Bool) (answers : List (List ℕ)) → plain_node result ≡ node_view
        (bin_node instance.now scales most (drop placed (ranked instance.now))
        (lists_of bins.now) answers own) }
{
    // For the proof alone: states the limits of the instance.
    let _limits = instance.len();
    if placed == order.len() {
        return Node::Leaf;
    }
    Node::Split {
        token: assign(instance, order, placed),
        own,
        children: children(bins, most) as u32,
    }
}

// What is reported of the child at the end of a path.
pub(crate) fn tell_step(
    alloc: Global,
    search: &mut SetSearch<'_>,
    instance: &Instance,
    order: &[u32],
    most: u32,
    step: Step,
) -> Result<Node, NoMemory>
    requires limits { IsInternalInstance instance.now }
    requires search { search.old.instance ≡ instance.now }
    requires order { order.now ≡ ranked instance.now }
    requires few { most ≤ box_count instance.now }
    requires above { IsAbove
        (record { instance = instance.now; bins = most; scales = search.old.scales })
        step.placed (lists_of step.bins.items) }
    requires near { step.child < length (placements most (lists_of step.bins.items)
        (slice_index_or (ranked instance.now) step.placed 0)) }
    ensures { IfOk result (λ r. plain_node r ≡ node_view (child_tree
        (record { instance = instance.now; bins = most; scales = search.old.scales })
        step.placed (lists_of step.bins.items) step.child)) }
{
    let b = step.child as usize;
    let mut tokens = CompactTokens::new(alloc);
    match grow_bin(
        alloc,
        search,
        &step.bins,
        b,
        order[step.placed],
        MAX_BUDGET,
        None,
        &mut tokens,
    )? {
        Child::Past => Ok(Node::Leaf),
        Child::Refuted { own: _ } => Ok(Node::Leaf),
        Child::Fits {
            set,
            numbers: _numbers,
            own,
        } => {
            let mut bins = step.bins;
            replace_list(&mut bins, b, set)?;
            Ok(tell(instance, order, most, step.placed + 1, &bins, own))
        }
    }
}
