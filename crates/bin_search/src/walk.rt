//! The walk through the bin tree below a node, depth first. One node is held, and a stack of what
//! each step down to it changed, so that no bin is copied.
ghost use Rattle.std.specs.Prelude.{◌≡◌, ◌≤◌, ◌<◌, ◌∷◌, ◌++◌, [], suc, length, drop, slice_index_or, IfOk, OnOk};
ghost use Rattle.packing_terms.specs.Packing.{box_count};
ghost use Rattle.packing_terms.specs.Limits.{IsInternalInstance};
ghost use Rattle.packing_terms.specs.Tokens.PlainToken.{Assign};
ghost use Rattle.packing_terms.specs.Rank.{ranked};
ghost use Rattle.tree_terms.specs.Trees.{outcome, under_budget};
ghost use Rattle.tree_terms.specs.OuterTrees.{bin_node};
ghost use Rattle.work_share.specs.Outcomes.{plain_outcome};
ghost use Rattle.proof_tree.specs.Plain.{plain_token};
ghost use Rattle.bin_search.specs.Lists.{lists_of};
ghost use Rattle.bin_search.specs.Nodes.{AreInBins};

use crate::node::{Change, Placed, children, enter_child, grow_bin, leave_child};
use crate::numbers::bin_numbers;
use box_instances::{Instance, NoMemory};
use proof_tree::{CompactTokens, Outcome, Token};
use set_search::{Child, SetSearch};
use std::alloc::Global;

// The token of a node at which `placed` boxes have bins.
pub(crate) fn assign(instance: &Instance, order: &[u32], placed: usize) -> Token
    requires order { order.now ≡ ranked instance.now }
    requires there { placed < length order.now }
    ensures { plain_token result ≡ Assign (suc (slice_index_or (ranked instance.now) placed 0)) }
{
    // For the proof alone: states the limits of the instance.
    let _limits = instance.len();
    Token::Assign {
        box_no: order[placed] + 1,
    }
}

// What the tree below a node with a box left gives under a cap, with the node's own count.
pub(crate) fn walk(
    alloc: Global,
    search: &mut SetSearch<'_>,
    instance: &Instance,
    order: &[u32],
    most: u32,
    node: Placed,
    own: u64,
    cap: u64,
) -> Result<Outcome, NoMemory>
    requires limits { IsInternalInstance instance.now }
    requires search { search.old.instance ≡ instance.now }
    requires order { order.now ≡ ranked instance.now }
    requires few { most ≤ box_count instance.now }
    requires there { node.placed < length order.now }
    requires node { AreInBins instance.now most node.placed (lists_of node.bins.items)
        (lists_of node.answers.items) }
    requires fresh { node.visited ≡ 0 }
    requires within { own ≤ cap }
    ensures same { search.new ≡ search.old }
    ensures outcome { IfOk result (λ r. plain_outcome r ≡ under_budget cap (outcome
        (bin_node instance.now search.old.scales most (drop node.placed (ranked instance.now))
        (lists_of node.bins.items) (lists_of node.answers.items) own))) }
{
    let mut stack: Vec<Change> = Vec::new(alloc);
    let mut tokens = CompactTokens::new(alloc);
    let mut count = own;
    let mut node = node;
    tokens.push(assign(instance, order, node.placed))?;
    loop {
        if node.visited == children(&node.bins, most) {
            match stack.pop() {
                None => {
                    return Ok(Outcome::No { tokens, count });
                }
                Some(change) => leave_child(&mut node, change),
            }
        } else {
            let b = node.visited;
            node.visited += 1;
            match grow_bin(
                alloc,
                search,
                &node.bins,
                b,
                order[node.placed],
                cap - count,
                Some(node.visited as u32),
                &mut tokens,
            )? {
                Child::Past => return Ok(Outcome::Past),
                Child::Refuted { own } => count += own,
                Child::Fits { set, numbers, own } => {
                    count += own;
                    let change = enter_child(&mut node, set, numbers)?;
                    if node.placed == order.len() {
                        let numbers = bin_numbers(alloc, instance, &node.bins, &node.answers)?;
                        return Ok(Outcome::Yes { numbers, count });
                    }
                    tokens.push(assign(instance, order, node.placed))?;
                    let Ok(()) = stack.push(change) else {
                        return Err(NoMemory);
                    };
                }
            }
        }
    }
}
