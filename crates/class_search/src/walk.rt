//! The walk through the tree below a node, depth first, with a stack of the splits on the way. It
//! can be left where a cap is spent, and gone on with.
ghost use Rattle.std.specs.Prelude.{◌≡◌, ◌≤◌, ◌<◌, ◌+◌, ◌^◌, ◌++◌, ◌∷◌, [], IfOk, OnOk, IsSome, List, Some};
ghost use Rattle.packing_terms.specs.declared.Exclusion.{Exclusion as PlainExclusion};
ghost use Rattle.packing_terms.specs.Packing.{PlainInstance, dims, box_count};
ghost use Rattle.packing_terms.specs.Limits.{IsInternalInstance};
ghost use Rattle.packing_terms.specs.Scales.{SidesFit};
ghost use Rattle.packing_terms.specs.Rank.{ranked_pairs};
ghost use Rattle.tree_terms.specs.Trees.{node_at};
ghost use Rattle.tree_terms.specs.Paths.{node_view};
ghost use Rattle.work_share.specs.Nodes.{plain_node};
ghost use Rattle.class_search.specs.Visits.{kind_tree, IsKind, IsAmong, IsMet, IsDivided};
ghost use Rattle.class_search.specs.Splits.{added, with_all};
ghost use Rattle.class_search.specs.Walks.{child_in, size_of_both, walk_tree, IsWalk, IsEndOf};

use crate::places::places_of;
use crate::search::Search;
use crate::splits::{Child, Split};
use crate::visit::{NodeKind, visit_child};
use box_instances::NoMemory;
use edge_state::{EdgeState, Mark};
use proof_tree::{CompactTokens, Outcome, Token};
use rule_closure::Closer;
use std::alloc::Global;
use work_share::Node;

// What was finished of a subtree: the number of its tokens, and its count.
#[derive(Clone, Copy)]
pub(crate) struct Size {
    pub tokens: usize,
    pub count: u64,
}

// A split on the way to the node that was met last: its closed state, its pair's position by rank,
// and the size of its first child, once that is finished. The way goes on in the second child then,
// and before that in the first.
#[derive(Clone, Copy)]
pub(crate) struct Frame {
    pub split: Split,
    pub mark: Mark,
    pub rank: usize,
    pub first: Option<Size>,
}

// A walk: the splits on the way from its root, the tokens and the count so far, and the kind of the
// node that was met and isn't counted yet.
#[derive(Drop)]
pub(crate) struct Walk {
    pub frames: Vec<Frame>,
    pub tokens: CompactTokens,
    pub count: u64,
    pub node: NodeKind,
}

// What becomes of a walk under a cap: it has come to its end, or it stands where the cap is spent.
#[derive(Drop)]
pub(crate) enum End {
    Whole(Outcome),
    Stopped(Walk),
}

// Where a walk is: at a node that was met, or behind a subtree that is finished.
#[derive(Clone, Copy)]
enum Place {
    Met(NodeKind),
    Over(Size),
}

impl Walk {
    // The walk that begins at a node.
    pub fn at(alloc: Global, node: NodeKind) -> Walk
        ensures begins { (instance : PlainInstance) (es : List PlainExclusion)
            → IsKind instance es node → IsWalk instance es result }
        ensures tree { (instance : PlainInstance) (es : List PlainExclusion)
            → walk_tree instance es result ≡ kind_tree instance es node }
        ensures count { result.count ≡ 0 }
    {
        Walk {
            frames: Vec::new(alloc),
            tokens: CompactTokens::new(alloc),
            count: 0,
            node,
        }
    }
}

impl Size {
    // The size of a node whose first child has this size, and its second child that of `self`.
    fn behind(self, first: Size) -> Size
        requires tokens { 1 + (first.tokens + self.tokens) < 2 ^ 64 }
        requires count { 1 + (first.count + self.count) < 2 ^ 64 }
        ensures { result ≡ size_of_both first self }
    {
        Size {
            tokens: 1 + (first.tokens + self.tokens),
            count: 1 + (first.count + self.count),
        }
    }
}

// The child in which the way goes on.
fn child_in(frame: &Frame) -> Child
    ensures { result ≡ child_in frame.now.first }
{
    match frame.first {
        None => Child::First,
        Some(_) => Child::Second,
    }
}

// Goes from a split, whose closed state this is, into the child that comes next, and puts the split
// on the way.
fn enter_child(
    search: &Search<'_>,
    state: &mut EdgeState,
    closer: &mut Closer,
    frames: &mut Vec<Frame>,
    frame: Frame,
) -> Result<NodeKind, NoMemory>
    requires limits { IsInternalInstance search.now.instance.now }
    requires dims { state.old.dims ≡ dims search.now.instance.now }
    requires boxes { state.old.boxes ≡ box_count search.now.instance.now }
    requires room { closer.old ≡ record { dims = state.old.dims; boxes = state.old.boxes } }
    requires pairs { search.now.pairs.now ≡ ranked_pairs search.now.instance.now }
    requires divided { IsDivided search.now.instance.now state.old.trail frame.split frame.rank }
    ensures sizes { state.new ≡ record state.old { trail = state.new.trail } }
    ensures closer { closer.new ≡ closer.old }
    ensures frames { OnOk result (frames.new.items ≡ frames.old.items ++ frame ∷ []) }
    ensures met { IfOk result (IsMet search.now.instance.now
        (with_all (added frame.split (child_in frame.first)) state.old.trail) state.new.trail) }
{
    let (split, rank) = (frame.split, frame.rank);
    let child = child_in(&frame);
    let Ok(()) = frames.push(frame) else {
        return Err(NoMemory);
    };
    Ok(visit_child(search, state, closer, split, rank, child))
}

// Goes on with a walk under a cap, depth first. This is the closed state of the node where it
// stands.
pub(crate) fn resume_walk(
    search: &Search<'_>,
    state: &mut EdgeState,
    closer: &mut Closer,
    walk: Walk,
    cap: u64,
) -> Result<End, NoMemory>
    requires limits { IsInternalInstance search.now.instance.now }
    requires dims { state.old.dims ≡ dims search.now.instance.now }
    requires boxes { state.old.boxes ≡ box_count search.now.instance.now }
    requires room { closer.old ≡ record { dims = state.old.dims; boxes = state.old.boxes } }
    requires pairs { search.now.pairs.now ≡ ranked_pairs search.now.instance.now }
    requires fit { SidesFit search.now.instance.now }
    requires known { IsWalk search.now.instance.now state.old.trail walk }
    requires within { walk.count ≤ cap }
    ensures sizes { state.new ≡ record state.old { trail = state.new.trail } }
    ensures closer { closer.new ≡ closer.old }
    ensures end { IfOk result
        (IsEndOf search.now.instance.now state.new.trail cap
        (walk_tree search.now.instance.now state.old.trail walk)) }
{
    let Walk {
        mut frames,
        mut tokens,
        mut count,
        node,
    } = walk;
    let mut place = Place::Met(node);
    loop {
        match place {
            Place::Met(node) => match node {
                NodeKind::Conflict => {
                    tokens.push(Token::Rules)?;
                    place = Place::Over(Size {
                        tokens: 1,
                        count: 0,
                    });
                }
                NodeKind::Settled => {
                    let numbers = places_of(search.alloc, search.instance, state)?;
                    return Ok(End::Whole(Outcome::Yes { numbers, count }));
                }
                NodeKind::Divided { split, rank } => {
                    if count == cap {
                        return Ok(End::Stopped(Walk {
                            frames,
                            tokens,
                            count,
                            node,
                        }));
                    }
                    count += 1;
                    tokens.push(split.token())?;
                    let frame = Frame {
                        split,
                        mark: state.mark(),
                        rank,
                        first: None,
                    };
                    let met = enter_child(search, state, closer, &mut frames, frame)?;
                    place = Place::Met(met);
                }
            },
            Place::Over(size) => {
                let Some(mut frame) = frames.pop() else {
                    return Ok(End::Whole(Outcome::No { tokens, count }));
                };
                state.undo(frame.mark);
                if let Some(first) = frame.first {
                    // For the proof alone: states the limit of the tokens.
                    let _len = tokens.len();
                    place = Place::Over(size.behind(first));
                } else {
                    frame.first = Some(size);
                    let met = enter_child(search, state, closer, &mut frames, frame)?;
                    place = Place::Met(met);
                }
            }
        }
    }
}

// Goes from a node down a path. Both nodes are given by their kind and their closed state.
pub(crate) fn descend(
    search: &Search<'_>,
    state: &mut EdgeState,
    closer: &mut Closer,
    node: NodeKind,
    path: &[u32],
) -> NodeKind
    requires limits { IsInternalInstance search.now.instance.now }
    requires dims { state.old.dims ≡ dims search.now.instance.now }
    requires boxes { state.old.boxes ≡ box_count search.now.instance.now }
    requires room { closer.old ≡ record { dims = state.old.dims; boxes = state.old.boxes } }
    requires pairs { search.now.pairs.now ≡ ranked_pairs search.now.instance.now }
    requires known { IsKind search.now.instance.now state.old.trail node }
    requires there { IsSome (node_at (Some (kind_tree search.now.instance.now state.old.trail node))
        path.now) }
    ensures sizes { state.new ≡ record state.old { trail = state.new.trail } }
    ensures closer { closer.new ≡ closer.old }
    ensures node { node_at (Some (kind_tree search.now.instance.now state.old.trail node)) path.now
        ≡ Some (kind_tree search.now.instance.now state.new.trail result) }
    ensures known { IsKind search.now.instance.now state.new.trail result }
{
    let mut node = node;
    for number in path {
        match node {
            NodeKind::Divided { split, rank } => {
                let child = Child::numbered(*number);
                node = visit_child(search, state, closer, split, rank, child);
            }
            NodeKind::Conflict => unreachable!(),
            NodeKind::Settled => unreachable!(),
        }
    }
    node
}

// What is reported of a node of this kind.
pub(crate) fn to_node(node: NodeKind) -> Node
    requires { IsAmong 4 128 node }
    ensures { (instance : PlainInstance) (es : List PlainExclusion)
        → plain_node result ≡ node_view (kind_tree instance es node) }
{
    match node {
        NodeKind::Divided { split, rank: _ } => Node::Split {
            token: split.token(),
            own: 1,
            children: 2,
        },
        NodeKind::Conflict => Node::Leaf,
        NodeKind::Settled => Node::Leaf,
    }
}
