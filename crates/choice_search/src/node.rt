//! The nodes of a choice tree.
ghost use Rattle.std.specs.Prelude.{◌≡◌, ◌≤◌, ◌+◌, ℕ, Bool, List, drop, length, IfOk};
ghost use Rattle.packing_terms.specs.Rules.{AreBoxes};
ghost use Rattle.packing_terms.specs.Goals.{worth, IsBoxSet};
ghost use Rattle.packing_terms.specs.OuterRefutation.{insert_box};
ghost use Rattle.packing_terms.specs.Rank.{ranked};
ghost use Rattle.tree_terms.specs.OuterTrees.{choice_node};
ghost use Rattle.tree_terms.specs.Paths.{node_view, max_budget};
ghost use Rattle.work_share.specs.Nodes.{plain_node};
ghost use Rattle.choice_search.specs.Choices.{IsMet, IsOpened};

use box_instances::{Instance, NoMemory};
use proof_tree::{CompactTokens, Token};
use set_search::{Child, SetSearch};
use std::alloc::Global;
use work_share::Node;

// A node that its set of boxes doesn't refute: the first `decided` boxes by rank are decided, those
// in `taken` are in, with the answer of their class tree.
#[derive(Drop)]
pub struct Chosen {
    pub decided: usize,
    pub taken: Vec<u32>,
    pub numbers: Vec<u32>,
}

// What a node is: one that reaches the value, one that falls short of it, or one that is split by
// the box that comes next.
#[derive(Clone, Copy)]
pub enum NodeKind {
    Reached,
    Short,
    Divided(u32),
}

// What a split leads to: past what is left; to its second child, since the set of the first is
// refuted; or to its first child, while the second waits. The count rises by `own` on the way.
#[derive(Drop)]
pub enum Opened {
    Past,
    Refuted { own: u64 },
    Entered { node: Chosen, own: u64 },
}

// The total value of some boxes.
fn worth_of(instance: &Instance, keep: &[u32]) -> u64
    requires { AreBoxes instance.now keep.now }
    ensures value { result ≡ worth instance.now keep.now }
    ensures bound { result ≤ 128000000000 }
{
    // For the proof alone: states the limits of the instance.
    let _limits = instance.len();
    let mut sum = 0;
    for v in keep {
        sum += instance.value(*v);
    }
    sum
}

// Finds what a node is.
pub(crate) fn meet(
    instance: &Instance,
    order: &[u32],
    value: u64,
    decided: usize,
    taken: &[u32],
) -> NodeKind
    requires order { order.now ≡ ranked instance.now }
    requires there { decided ≤ length order.now }
    requires rest { AreBoxes instance.now (drop decided (ranked instance.now)) }
    requires taken { AreBoxes instance.now taken.now }
    ensures { IsMet instance.now value decided taken.now result }
{
    let worth = worth_of(instance, taken);
    if value <= worth {
        return NodeKind::Reached;
    }
    if worth + worth_of(instance, &order[decided..]) < value {
        return NodeKind::Short;
    }
    if decided == order.len() {
        unreachable!();
    }
    NodeKind::Divided(order[decided])
}

// Decides the first child of a split by a box, whose second child is this node, under what is left
// of a cap. What refutes its set is appended to the tokens.
pub(crate) fn open_first(
    alloc: Global,
    search: &mut SetSearch<'_>,
    node: &Chosen,
    v: u32,
    left: u64,
    tokens: &mut CompactTokens,
) -> Result<Opened, NoMemory>
    requires { IsBoxSet search.old.instance (insert_box v node.now.taken.items) }
    ensures same { search.new ≡ search.old }
    ensures opened { IfOk result (λ r. IsOpened search.old.instance search.old.scales node.now v left
        tokens.old tokens.new r) }
{
    match search.decide_with_box(alloc, &node.taken, v, left, None, tokens)? {
        Child::Past => Ok(Opened::Past),
        Child::Refuted { own } => {
            if own == left {
                return Ok(Opened::Past);
            }
            let own = own + 1;
            Ok(Opened::Refuted { own })
        }
        Child::Fits { set, numbers, own } => {
            let node = Chosen {
                decided: node.decided,
                taken: set,
                numbers,
            };
            Ok(Opened::Entered { node, own })
        }
    }
}

// What is reported of a node of this kind, whose own count is within the greatest budget.
pub(crate) fn tell(
    instance: &Instance,
    value: u64,
    decided: usize,
    taken: &[u32],
    kind: NodeKind,
    own: u64,
) -> Node
    requires met { IsMet instance.now value decided taken.now kind }
    requires boxes { AreBoxes instance.now (drop decided (ranked instance.now)) }
    requires within { own ≤ max_budget }
    ensures { (scales : Bool) (numbers : List ℕ) → plain_node result ≡ node_view
        (choice_node instance.now scales value (drop decided (ranked instance.now)) taken.now
        numbers own) }
{
    // For the proof alone: states the limits of the instance.
    let _limits = instance.len();
    match kind {
        NodeKind::Reached => Node::Leaf,
        NodeKind::Short => Node::Leaf,
        NodeKind::Divided(v) => Node::Split {
            token: Token::Choose { box_no: v + 1 },
            own,
            children: 2,
        },
    }
}
