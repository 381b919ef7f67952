//! Closings that are traced back: what later lines need of what a closing excluded, and why.
ghost use Rattle.std.specs.Prelude.{◌≤◌, length};

use crate::explaining::explain_at;
use crate::facts::{Facts, first_facts};
use crate::finding::{Sought, find_plain};
use crate::heaviest::{Weights, first_weights};
use crate::marks::{
    AFTER, ALL, BEFORE, Marked, Marks, OVERLAP, Spot, as_marked, at_place, bits_there, has_all,
    turned_spot,
};
use crate::short_reasons::ShortReason;
use box_instances::{Instance, NoMemory};
use edge_state::{EdgeState, Mark};
use std::alloc::Global;

/// The reasons of one token's node: a part of their list, the last one first; and of a conflict
/// its place.
#[derive(Clone, Copy)]
pub struct Span {
    pub from: usize,
    pub to: usize,
    pub clash: Spot,
}

// A node that is open: which token is its own, how long the list of what is excluded was before it
// and with what it excludes itself, and the place at which its token needs that overlap is
// excluded.
#[derive(Clone, Copy)]
struct Open {
    token: usize,
    before: usize,
    begun: usize,
    apart: Option<Spot>,
}

/// What is excluded on the way to a node, the oldest first, with what of it is needed, and what
/// else the closing that is taken excludes; the nodes on that way; and the reasons of those that
/// were left, by token.
#[derive(Drop)]
pub struct Trace {
    pub(crate) facts: Facts,
    pub(crate) needs: Marks,
    coming: Marks,
    pub(crate) weights: Weights,
    trail: Vec<Marked>,
    clash: Option<Spot>,
    open: Vec<Open>,
    pub reasons: Vec<ShortReason>,
    pub boxes: Vec<u32>,
    spans: Vec<Span>,
}

// The place, read from its lower box.
fn rising(at: Spot) -> Spot {
    if at.u < at.v {
        return at;
    }
    turned_spot(at)
}

// Excludes one relation more, where there is no conflict yet.
fn push_change(trace: &mut Trace, change: Marked) -> Result<(), NoMemory> {
    if trace.clash.is_some() {
        return Ok(());
    }
    trace.facts.excluded.change(change.at, change.bits, 0);
    if trace.facts.excluded.at(change.at) == ALL {
        trace.clash = Some(rising(change.at));
    }
    let Ok(()) = trace.trail.push(change) else {
        return Err(NoMemory);
    };
    Ok(())
}

// What comes later at the place of a change, and is excluded by the same instance of a rule. A
// closing excludes a relation along a whole row before it turns to the next one, but the line of a
// rule excludes all that follows at its place: so what one line does has to come at once.
fn excluded_with(trace: &Trace, change: Marked) -> u8 {
    let there = trace.facts.excluded.at(change.at);
    let later = trace.coming.at(change.at) & !there & !change.bits;
    for bits in [ALL, BEFORE, AFTER, OVERLAP] {
        let more = later & bits;
        if more != 0 {
            let sought = Sought {
                at: change.at,
                wanted: change.bits | more,
                allowed: there | change.bits | later,
            };
            if let Some(found) = find_plain(&trace.facts, &trace.needs, sought) {
                return found.bits & later;
            }
        }
    }
    0
}

// Excludes one relation more, unless it came already, and what comes with it.
fn take_change(trace: &mut Trace, change: Marked) -> Result<(), NoMemory> {
    if has_all(trace.facts.excluded.at(change.at), change.bits) {
        return Ok(());
    }
    let more = excluded_with(trace, change);
    push_change(trace, change)?;
    if more == 0 {
        return Ok(());
    }
    let with = Marked {
        at: change.at,
        bits: more,
    };
    push_change(trace, with)
}

// Takes the newest exclusion back.
fn pop_change(trace: &mut Trace) -> Option<Marked> {
    let change = trace.trail.pop()?;
    trace.facts.excluded.change(change.at, 0, change.bits);
    Some(change)
}

// Takes the newest exclusion back where it is at this place and behind the first `begun` ones.
// Answers it, read in the direction of the place, and nothing where it is another.
fn pop_with(trace: &mut Trace, begun: usize, at: Spot) -> u8 {
    if trace.trail.len() <= begun {
        return 0;
    }
    let Some(last) = trace.trail.last() else {
        return 0;
    };
    let bits = bits_there(at, *last);
    if bits != 0 {
        pop_change(trace);
    }
    bits
}

// Traces back the newest exclusions at one place, of those that a closing added behind the first
// `begun` ones.
fn trace_back(trace: &mut Trace, begun: usize) -> Result<(), NoMemory> {
    if trace.trail.len() <= begun {
        return Ok(());
    }
    let Some(last) = pop_change(trace) else {
        return Ok(());
    };
    let second = pop_with(trace, begun, last.at);
    let mut came = last.bits | second;
    if second != 0 {
        came |= pop_with(trace, begun, last.at);
    }
    if trace.needs.at(last.at) & came == 0 {
        return Ok(());
    }
    explain_at(trace, last.at, came)
}

// Leaves a node: the reasons of what its closing added, and what it excludes itself is given.
fn leave_node(trace: &mut Trace, node: Open) -> Result<(), NoMemory> {
    if let Some(at) = node.apart {
        trace.needs.change(at, OVERLAP, 0);
    }
    let from = trace.reasons.len();
    for _ in node.begun..trace.trail.len() {
        trace_back(trace, node.begun)?;
    }
    let to = trace.reasons.len();
    if let Some(span) = trace.spans.get_mut(node.token) {
        span.from = from;
        span.to = to;
    }
    for _ in node.before..trace.trail.len() {
        if let Some(change) = pop_change(trace) {
            trace.needs.change(change.at, 0, change.bits);
        }
    }
    Ok(())
}

// Marks what came behind a position as what is coming, or as no longer coming.
fn announce(coming: &mut Marks, state: &EdgeState, from: Mark, comes: bool)
    requires { from ≤ length state.now.trail }
{
    let mut at = from;
    while let Some(change) = state.change_after(at) {
        let Marked { at: place, bits } = as_marked(change);
        if comes {
            coming.change(place, bits, 0);
        } else {
            coming.change(place, 0, bits);
        }
        at = state.mark_after(at);
    }
}

// Takes what came behind a position, one after another.
fn take_changes(trace: &mut Trace, state: &EdgeState, from: Mark) -> Result<(), NoMemory>
    requires { from ≤ length state.now.trail }
{
    let mut at = from;
    while let Some(change) = state.change_after(at) {
        take_change(trace, as_marked(change))?;
        at = state.mark_after(at);
    }
    Ok(())
}

impl Trace {
    /// Before the first node.
    pub fn new(alloc: Global, instance: &Instance) -> Result<Trace, NoMemory> {
        let facts = first_facts(alloc, instance)?;
        let weights = first_weights(alloc, &facts)?;
        let needs = Marks::new(alloc, instance.dims(), instance.len())?;
        let coming = Marks::new(alloc, instance.dims(), instance.len())?;
        Ok(Trace {
            facts,
            needs,
            coming,
            weights,
            trail: Vec::new(alloc),
            clash: None,
            open: Vec::new(alloc),
            reasons: Vec::new(alloc),
            boxes: Vec::new(alloc),
            spans: Vec::new(alloc),
        })
    }

    /// How many nodes are open.
    pub fn depth(&self) -> usize {
        self.open.len()
    }

    /// Leaves nodes until `depth` are open.
    pub fn leave(&mut self, depth: usize) -> Result<(), NoMemory> {
        for _ in depth..self.open.len() {
            if let Some(node) = self.open.pop() {
                leave_node(self, node)?;
            }
        }
        self.clash = None;
        Ok(())
    }

    /// The node of the next token is open now.
    pub fn enter(&mut self) -> Result<(), NoMemory> {
        let node = Open {
            token: self.spans.len(),
            before: self.trail.len(),
            begun: self.trail.len(),
            apart: None,
        };
        let span = Span {
            from: 0,
            to: 0,
            clash: at_place(0, 0, 0),
        };
        let (Ok(()), Ok(())) = (self.open.push(node), self.spans.push(span)) else {
            return Err(NoMemory);
        };
        Ok(())
    }

    /// All so far is what the node excludes itself; what comes is what a closing adds.
    pub fn begin(&mut self) {
        let begun = self.trail.len();
        if let Some(node) = self.open.last_mut() {
            node.begun = begun;
        }
    }

    /// Takes what came behind a position.
    pub fn take(&mut self, state: &EdgeState, from: Mark) -> Result<(), NoMemory>
        requires { from ≤ length state.now.trail }
    {
        announce(&mut self.coming, state, from, true);
        let taken = take_changes(self, state, from);
        announce(&mut self.coming, state, from, false);
        taken
    }

    /// The node's token is a conflict: all three relations at its place are needed.
    pub fn conflict(&mut self) {
        let Some(at) = self.clash else {
            return;
        };
        self.needs.change(at, ALL, 0);
        if let Some(span) = self.spans.last_mut() {
            span.clash = at;
        }
    }

    /// The node's token is a split of an ordered pair: it needs that the two are apart.
    pub fn ordered(&mut self, at: Spot) {
        if let Some(node) = self.open.last_mut() {
            node.apart = Some(at);
        }
    }

    /// The reasons of a token, and the place of its conflict.
    pub fn span_at(&self, token: usize) -> Span {
        match self.spans.as_slice().get(token) {
            Some(span) => *span,
            None => Span {
                from: 0,
                to: 0,
                clash: at_place(0, 0, 0),
            },
        }
    }

    /// How many lines the reasons and the tokens have.
    pub fn line_count(&self) -> usize {
        let steps = self.reasons.len().wrapping_add(self.boxes.len());
        steps.wrapping_add(self.spans.len())
    }
}
