//! A walk over the tokens of a refutation that closes each node and traces the closing back.
ghost use Rattle.std.specs.Prelude.{◌≡◌, ◌≤◌, ◌∷◌, length, reverse, Option, Some, IsTrue, OnOk, IfOk};
ghost use Rattle.packing_terms.specs.declared.Exclusion.{Exclusion as PlainExclusion};
ghost use Rattle.packing_terms.specs.Packing.{PlainInstance, dims, box_count};
ghost use Rattle.packing_terms.specs.Refutation.{IsNamed};
ghost use Rattle.refutation_steps.specs.Nodes.{IsClosedAt, IsAtAmong};
ghost use Rattle.refutation_steps.specs.Traced.{IsTracked, IsEntered, IsNodeClosed, IsChild};

use crate::marks::at_place;
use crate::pending::enter;
use crate::settling::close_known;
use crate::splits::in_text;
use crate::tracing::Trace;
use box_instances::{Instance, NoMemory};
use edge_state::{EdgeState, Exclusion, Mark, Rel};
use proof_tree::Token;
use rule_closure::{Closed, Closer};
use std::alloc::Global;

/// A node that waits: how long the list of its parent's exclusions was, which are closed then; what
/// the node excludes, the second before the first; and how many nodes are open on the way to it.
#[derive(Clone, Copy)]
pub struct Node {
    pub before: Mark,
    pub closed: Option<Mark>,
    pub first: Option<Exclusion>,
    pub second: Option<Exclusion>,
    pub depth: usize,
}

/// What is excluded at a node, the nodes that wait, the next one last, and the trace.
#[derive(Drop)]
pub struct Closings {
    pub state: EdgeState,
    pub closer: Closer,
    pub waiting: Vec<Node>,
    pub trace: Trace,
}

// A node more, which is the next one.
fn push_node(waiting: &mut Vec<Node>, node: Node) -> Result<(), NoMemory>
    ensures { OnOk result (reverse waiting.new.items ≡ node ∷ reverse waiting.old.items) }
{
    let _closed = node.closed;
    let Ok(()) = waiting.push(node) else {
        return Err(NoMemory);
    };
    Ok(())
}

/// A walk before its first node.
pub(crate) fn begin_closings(alloc: Global, instance: &Instance) -> Result<Closings, NoMemory>
    ensures { IfOk result (λ walk. IsTracked instance.now walk) }
{
    let dims = instance.dims();
    let count = instance.len();
    let state = EdgeState::new(alloc, dims, count)?;
    let closer = Closer::in_order(alloc, dims, count)?;
    let trace = Trace::new(alloc, instance)?;
    let mut waiting = Vec::new(alloc);
    let root = Node {
        before: Mark::first(),
        closed: None,
        first: None,
        second: None,
        depth: 0,
    };
    push_node(&mut waiting, root)?;
    Ok(Closings {
        state,
        closer,
        waiting,
        trace,
    })
}

// Goes to the next node, where one waits. Answers it.
fn enter_node(instance: &Instance, walk: &mut Closings) -> Result<Option<Node>, NoMemory>
    requires { IsTracked instance.now walk.old }
    ensures { IfOk result (IsEntered instance.now walk.new) }
{
    let Some(node) = walk.waiting.pop() else {
        return Ok(None);
    };
    // For the proof alone: states the limits of the instance.
    let _count = instance.len();
    walk.trace.leave(node.depth)?;
    walk.trace.enter()?;
    enter(&mut walk.state, node.before, node.first, node.second);
    Ok(Some(node))
}

// Goes to the next node and closes it. Answers what that came to, and nothing where none waits.
fn close_node(instance: &Instance, walk: &mut Closings) -> Result<Option<Closed>, NoMemory>
    requires { IsTracked instance.now walk.old }
    ensures { IfOk result (IsNodeClosed instance.now walk.new) }
{
    let Some(node) = enter_node(instance, walk)? else {
        return Ok(None);
    };
    walk.trace.take(&walk.state, node.before)?;
    walk.trace.begin();
    let from = walk.state.mark();
    let end = close_known(instance, &mut walk.closer, &mut walk.state, node.closed);
    walk.trace.take(&walk.state, from)?;
    Ok(Some(end))
}

// A conflict. Answers whether there is one.
fn take_rules(instance: &Instance, walk: &mut Closings) -> Result<bool, NoMemory>
    requires { IsTracked instance.now walk.old }
    ensures { OnOk result (IsTracked instance.now walk.new) }
{
    match close_node(instance, walk)? {
        Some(Closed::Conflict) => {
            walk.trace.conflict();
            Ok(true)
        }
        _ => Ok(false),
    }
}

// Another leaf: nothing is needed.
fn take_leaf(instance: &Instance, walk: &mut Closings) -> Result<bool, NoMemory>
    requires { IsTracked instance.now walk.old }
    ensures { OnOk result (IsTracked instance.now walk.new) }
{
    let Some(node) = enter_node(instance, walk)? else {
        return Ok(false);
    };
    let _before = node.before;
    Ok(true)
}

// Whether the numbers of the text name a place.
fn is_named(instance: &Instance, dim: u32, u: u32, v: u32) -> bool
    ensures { IsTrue result → IsNamed instance.now dim u v }
{
    if dim < 1 || instance.dims() < dim {
        return false;
    }
    if u < 1 || v <= u {
        return false;
    }
    v <= instance.len()
}

// A child of the node, where that is closed.
fn child(walk: &Closings, first: Exclusion, second: Option<Exclusion>) -> Node
    ensures { (instance : PlainInstance)
        → IsAtAmong (dims instance) (box_count instance) (Some first)
        → IsAtAmong (dims instance) (box_count instance) second
        → IsChild instance walk.now result }
{
    Node {
        before: walk.state.mark(),
        closed: Some(walk.state.mark()),
        first: Some(first),
        second,
        depth: walk.trace.depth(),
    }
}

// Goes to the next node and closes it. Answers whether there is no conflict.
fn close_stable(instance: &Instance, walk: &mut Closings) -> Result<bool, NoMemory>
    requires { IsTracked instance.now walk.old }
    ensures tracked { OnOk result (IsTracked instance.now walk.new) }
    ensures stable { IfOk result (λ stable. IsTrue stable
        → IsClosedAt instance.now walk.new.state.trail (length walk.new.state.trail)) }
{
    match close_node(instance, walk)? {
        Some(Closed::Stable) => Ok(true),
        _ => Ok(false),
    }
}

// The two children of a node that is closed.
fn split(instance: &Instance, walk: &mut Closings, near: Node, far: Node) -> Result<(), NoMemory>
    requires tracked { IsTracked instance.now walk.old }
    requires closed { IsClosedAt instance.now walk.old.state.trail (length walk.old.state.trail) }
    requires near { IsChild instance.now walk.old near }
    requires far { IsChild instance.now walk.old far }
    ensures { OnOk result (IsTracked instance.now walk.new) }
{
    // For the proof alone: states the limits of the instance.
    let _count = instance.len();
    push_node(&mut walk.waiting, far)?;
    push_node(&mut walk.waiting, near)
}

// A split into apart and joined.
fn take_apart(
    instance: &Instance,
    walk: &mut Closings,
    dim: u32,
    u: u32,
    v: u32,
) -> Result<bool, NoMemory>
    requires { IsTracked instance.now walk.old }
    ensures { OnOk result (IsTracked instance.now walk.new) }
{
    if !is_named(instance, dim, u, v) {
        return Ok(false);
    }
    if !close_stable(instance, walk)? {
        return Ok(false);
    }
    let before = in_text(dim, u, v, Rel::Before);
    let after = in_text(dim, u, v, Rel::After);
    let overlap = in_text(dim, u, v, Rel::Overlap);
    let near = child(walk, overlap, None);
    let far = child(walk, before, Some(after));
    split(instance, walk, near, far)?;
    Ok(true)
}

// A split of an ordered pair.
fn take_order(
    instance: &Instance,
    walk: &mut Closings,
    dim: u32,
    u: u32,
    v: u32,
) -> Result<bool, NoMemory>
    requires { IsTracked instance.now walk.old }
    ensures { OnOk result (IsTracked instance.now walk.new) }
{
    if !is_named(instance, dim, u, v) {
        return Ok(false);
    }
    if !close_stable(instance, walk)? {
        return Ok(false);
    }
    walk.trace.ordered(at_place(dim - 1, u - 1, v - 1));
    let before = in_text(dim, u, v, Rel::Before);
    let after = in_text(dim, u, v, Rel::After);
    let near = child(walk, after, None);
    let far = child(walk, before, None);
    split(instance, walk, near, far)?;
    Ok(true)
}

/// Takes a token at the next node. Answers whether it is right there; where it isn't, the walk has
/// ended.
pub(crate) fn trace_token(
    instance: &Instance,
    walk: &mut Closings,
    token: &Token,
) -> Result<bool, NoMemory>
    requires { IsTracked instance.now walk.old }
    ensures { OnOk result (IsTracked instance.now walk.new) }
{
    match token {
        Token::Rules => take_rules(instance, walk),
        Token::Apart { dim, u, v } => take_apart(instance, walk, *dim, *u, *v),
        Token::Order { dim, u, v } => take_order(instance, walk, *dim, *u, *v),
        Token::TooLarge { .. } => take_leaf(instance, walk),
        Token::Scales(_) => take_leaf(instance, walk),
        _ => Ok(false),
    }
}
