//! Nodes by their paths.
ghost use Rattle.std.specs.Prelude.{◌≡◌, ◌≤◌, ◌<◌, ◌+◌, [], IfOk, Bool, length, drop};
ghost use Rattle.packing_terms.specs.Limits.{IsInternalInstance};
ghost use Rattle.packing_terms.specs.Rules.{AreBoxes};
ghost use Rattle.packing_terms.specs.Goals.{IsBoxSet};
ghost use Rattle.packing_terms.specs.Rank.{ranked};
ghost use Rattle.tree_terms.specs.Trees.{outcome, under_budget};
ghost use Rattle.tree_terms.specs.Paths.{node_view};
ghost use Rattle.work_share.specs.Outcomes.{plain_outcome};
ghost use Rattle.work_share.specs.Nodes.{plain_node};
ghost use Rattle.choice_search.specs.Paths.{taken_along, class_answer, AreFitting, IsAbove, child_tree};

use crate::node::{Chosen, meet, tell};
use crate::walk::walk;
use box_instances::{Instance, NoMemory};
use proof_tree::{CompactTokens, Outcome};
use set_search::{Child, MAX_BUDGET, SetSearch, put_box};
use std::alloc::Global;
use work_share::Node;

// A node with a box left: the first `decided` boxes by rank are decided, and those in `taken` are
// in.
#[derive(Drop)]
pub struct Above {
    pub decided: usize,
    pub taken: Vec<u32>,
}

// The node at a path. At each step into a first child a box is taken in.
pub(crate) fn come_to(alloc: Global, order: &[u32], path: &[u32]) -> Result<Above, NoMemory>
    requires { length path.now ≤ length order.now }
    ensures decided { IfOk result (λ above. above.decided ≡ length path.now) }
    ensures taken { IfOk result (λ above. above.taken.items ≡ taken_along [] order.now path.now) }
{
    let mut taken = Vec::new(alloc);
    for k in 0..path.len() {
        if path[k] == 0 {
            put_box(&mut taken, order[k])?;
        }
    }
    Ok(Above {
        decided: path.len(),
        taken,
    })
}

// The answer of the class tree of the boxes that are in. It was found within the greatest budget.
fn class_answer(
    alloc: Global,
    search: &mut SetSearch<'_>,
    taken: &[u32],
) -> Result<Vec<u32>, NoMemory>
    requires set { IsBoxSet search.old.instance taken.now }
    requires fitting { AreFitting search.old.instance search.old.scales taken.now }
    ensures same { search.new ≡ search.old }
    ensures value { IfOk result (λ numbers. numbers.items
        ≡ class_answer search.old.instance search.old.scales taken.now) }
{
    if taken.is_empty() {
        return Ok(Vec::new(alloc));
    }
    search.answer_of(alloc, taken)
}

// What the tree below a node's first child gives under a cap.
pub(crate) fn explore_first(
    alloc: Global,
    search: &mut SetSearch<'_>,
    instance: &Instance,
    order: &[u32],
    value: u64,
    above: Above,
    cap: u64,
) -> Result<Outcome, NoMemory>
    requires limits { IsInternalInstance instance.now }
    requires search { search.old.instance ≡ instance.now }
    requires order { order.now ≡ ranked instance.now }
    requires above { IsAbove instance.now search.old.scales above.decided above.taken.items }
    ensures { IfOk result (λ r. plain_outcome r ≡ under_budget cap (outcome (child_tree
        (record { instance = instance.now; goal = value; scales = search.old.scales })
        above.decided above.taken.items 0))) }
{
    let mut tokens = CompactTokens::new(alloc);
    let v = order[above.decided];
    match search.decide_with_box(alloc, &above.taken, v, cap, None, &mut tokens)? {
        Child::Past => Ok(Outcome::Past),
        Child::Refuted { own } => Ok(Outcome::No { tokens, count: own }),
        Child::Fits { set, numbers, own } => {
            let node = Chosen {
                decided: above.decided + 1,
                taken: set,
                numbers,
            };
            walk(alloc, search, instance, order, value, node, own, cap)
        }
    }
}

// What the tree below a node's second child gives under a cap.
pub(crate) fn explore_second(
    alloc: Global,
    search: &mut SetSearch<'_>,
    instance: &Instance,
    order: &[u32],
    value: u64,
    above: Above,
    cap: u64,
) -> Result<Outcome, NoMemory>
    requires limits { IsInternalInstance instance.now }
    requires search { search.old.instance ≡ instance.now }
    requires order { order.now ≡ ranked instance.now }
    requires above { IsAbove instance.now search.old.scales above.decided above.taken.items }
    ensures { IfOk result (λ r. plain_outcome r ≡ under_budget cap (outcome (child_tree
        (record { instance = instance.now; goal = value; scales = search.old.scales })
        above.decided above.taken.items 1))) }
{
    if cap == 0 {
        return Ok(Outcome::Past);
    }
    let numbers = class_answer(alloc, search, &above.taken)?;
    let node = Chosen {
        decided: above.decided + 1,
        taken: above.taken,
        numbers,
    };
    walk(alloc, search, instance, order, value, node, 1, cap)
}

// What is reported of a node's first child.
pub(crate) fn tell_first(
    alloc: Global,
    search: &mut SetSearch<'_>,
    instance: &Instance,
    order: &[u32],
    value: u64,
    above: Above,
) -> Result<Node, NoMemory>
    requires limits { IsInternalInstance instance.now }
    requires search { search.old.instance ≡ instance.now }
    requires order { order.now ≡ ranked instance.now }
    requires above { IsAbove instance.now search.old.scales above.decided above.taken.items }
    ensures { IfOk result (λ r. plain_node r ≡ node_view (child_tree
        (record { instance = instance.now; goal = value; scales = search.old.scales })
        above.decided above.taken.items 0)) }
{
    let mut tokens = CompactTokens::new(alloc);
    let v = order[above.decided];
    match search.decide_with_box(alloc, &above.taken, v, MAX_BUDGET, None, &mut tokens)? {
        Child::Past => Ok(Node::Leaf),
        Child::Refuted { own: _ } => Ok(Node::Leaf),
        Child::Fits {
            set,
            numbers: _numbers,
            own,
        } => {
            let decided = above.decided + 1;
            let kind = meet(instance, order, value, decided, &set);
            Ok(tell(instance, value, decided, &set, kind, own))
        }
    }
}

// What is reported of a node's second child.
pub(crate) fn tell_second(instance: &Instance, order: &[u32], value: u64, above: Above) -> Node
    requires order { order.now ≡ ranked instance.now }
    requires there { above.decided < length order.now }
    requires rest { AreBoxes instance.now (drop (above.decided + 1) (ranked instance.now)) }
    requires taken { AreBoxes instance.now above.taken.items }
    ensures { (scales : Bool) → plain_node result ≡ node_view (child_tree
        (record { instance = instance.now; goal = value; scales = scales })
        above.decided above.taken.items 1) }
{
    let decided = above.decided + 1;
    let kind = meet(instance, order, value, decided, &above.taken);
    tell(instance, value, decided, &above.taken, kind, 1)
}
