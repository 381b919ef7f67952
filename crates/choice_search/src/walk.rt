//! The walk through the choice tree below a node, depth first, with a stack of the second children
//! that wait.
ghost use Rattle.std.specs.Prelude.{◌≡◌, ◌≤◌, IfOk, drop};
ghost use Rattle.packing_terms.specs.Limits.{IsInternalInstance};
ghost use Rattle.packing_terms.specs.Rank.{ranked};
ghost use Rattle.tree_terms.specs.Trees.{outcome, under_budget};
ghost use Rattle.tree_terms.specs.OuterTrees.{choice_node};
ghost use Rattle.work_share.specs.Outcomes.{plain_outcome};
ghost use Rattle.choice_search.specs.Choices.{IsChosen};

use crate::node::{Chosen, NodeKind, Opened, meet, open_first};
use crate::numbers::choice_numbers;
use box_instances::{Instance, NoMemory};
use proof_tree::{CompactTokens, Outcome, Token};
use set_search::SetSearch;
use std::alloc::Global;
use std::mem;

// What the tree below a node gives under a cap, with the node's own count.
pub(crate) fn walk(
    alloc: Global,
    search: &mut SetSearch<'_>,
    instance: &Instance,
    order: &[u32],
    value: u64,
    node: Chosen,
    own: u64,
    cap: u64,
) -> Result<Outcome, NoMemory>
    requires limits { IsInternalInstance instance.now }
    requires search { search.old.instance ≡ instance.now }
    requires order { order.now ≡ ranked instance.now }
    requires node { IsChosen instance.now node.decided node.taken.items node.numbers.items }
    requires within { own ≤ cap }
    ensures same { search.new ≡ search.old }
    ensures outcome { IfOk result (λ r. plain_outcome r ≡ under_budget cap (outcome
        (choice_node instance.now search.old.scales value (drop node.decided (ranked instance.now))
        node.taken.items node.numbers.items own))) }
{
    let mut stack: Vec<Chosen> = Vec::new(alloc);
    let mut tokens = CompactTokens::new(alloc);
    let mut count = own;
    let mut node = node;
    loop {
        match meet(instance, order, value, node.decided, &node.taken) {
            NodeKind::Reached => {
                let numbers = choice_numbers(alloc, instance, &node.taken, &node.numbers)?;
                return Ok(Outcome::Yes { numbers, count });
            }
            NodeKind::Short => {
                tokens.push(Token::ValueShort)?;
                let Some(waiting) = stack.pop() else {
                    return Ok(Outcome::No { tokens, count });
                };
                if count == cap {
                    return Ok(Outcome::Past);
                }
                count += 1;
                node = waiting;
            }
            NodeKind::Divided(v) => {
                tokens.push(Token::Choose { box_no: v + 1 })?;
                node.decided += 1;
                match open_first(alloc, search, &node, v, cap - count, &mut tokens)? {
                    Opened::Past => return Ok(Outcome::Past),
                    Opened::Refuted { own } => count += own,
                    Opened::Entered { node: inside, own } => {
                        count += own;
                        let Ok(()) = stack.push(mem::replace(&mut node, inside)) else {
                            return Err(NoMemory);
                        };
                    }
                }
            }
        }
    }
}
