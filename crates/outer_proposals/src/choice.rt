//! Proposed refutations of a value.
//!
//! The tree is visited depth first, over the boxes in one fixed order. A node is closed if what is
//! in and what is undecided is worth less than the goal. Else its next box is in, then out. The
//! child with the box in is closed at once if one token refutes its set.

use crate::closing::{OpenSet, Reason};
use crate::order::decision_order;
use box_instances::{Instance, NoMemory};
use lenient_lists::{at, pushed};
use proof_tree::Token;
use std::alloc::Global;

/// Where a visit leads: to the next node, to the end of a whole tree, or to a node at which all
/// boxes are decided and whose set no token refutes.
#[derive(Clone, Copy)]
enum Visit {
    Next,
    Whole,
    Open,
}

/// A choice tree that is visited node by node.
#[derive(Drop)]
struct ChoiceTree {
    goal: u64,
    dims: u32,
    order: Vec<u32>,
    // Of each position of the order the value of its box, and that of all boxes from it on.
    values: Vec<u64>,
    rest: Vec<u64>,
    // How many boxes are decided, the positions of those that are in, and what they are worth.
    depth: u32,
    taken: Vec<u32>,
    worth: u64,
    set: OpenSet,
    tokens: Vec<Token>,
}

// The entry at a position, and 0 past the end.
fn value_at(values: &[u64], position: u32) -> u64 {
    let index = position as usize;
    if index < values.len() {
        values[index]
    } else {
        0
    }
}

// The values of boxes in an order.
fn values_of(alloc: Global, instance: &Instance, order: &[u32]) -> Result<Vec<u64>, NoMemory> {
    let mut values = Vec::new(alloc);
    for v in order {
        let value = if *v < instance.len() {
            instance.value(*v)
        } else {
            0
        };
        pushed(&mut values, value)?;
    }
    Ok(values)
}

// The sum of the values from each position on.
fn rest_of(alloc: Global, values: &[u64]) -> Result<Vec<u64>, NoMemory> {
    let mut rest = Vec::new(alloc);
    for k in 0..values.len() {
        let mut sum = 0u64;
        for value in &values[k..] {
            sum = sum.saturating_add(*value);
        }
        pushed(&mut rest, sum)?;
    }
    Ok(rest)
}

impl ChoiceTree {
    // The root of the tree for a goal.
    fn new(alloc: Global, instance: &Instance, goal: u64) -> Result<ChoiceTree, NoMemory> {
        let order = decision_order(alloc, instance)?;
        let values = values_of(alloc, instance, &order)?;
        let rest = rest_of(alloc, &values)?;
        Ok(ChoiceTree {
            goal,
            dims: instance.dims(),
            order,
            values,
            rest,
            depth: 0,
            taken: Vec::new(alloc),
            worth: 0,
            set: OpenSet::new(alloc, instance)?,
            tokens: Vec::new(alloc),
        })
    }

    // Appends a token.
    fn push(&mut self, token: Token) -> Result<(), NoMemory> {
        match self.tokens.push(token) {
            Ok(()) => Ok(()),
            Err(_) => Err(NoMemory),
        }
    }

    // The next box is in.
    fn enter(&mut self, v: u32) -> Result<(), NoMemory> {
        pushed(&mut self.taken, self.depth)?;
        self.worth = self
            .worth
            .saturating_add(value_at(&self.values, self.depth));
        self.set.add(v);
        Ok(())
    }

    // The node is closed: the last box that is in is out next.
    fn leave(&mut self) -> Visit {
        let Some(last) = self.taken.pop() else {
            return Visit::Whole;
        };
        self.worth = self.worth.saturating_sub(value_at(&self.values, last));
        self.set.remove(at(&self.order, last as usize));
        self.depth = last.saturating_add(1);
        Visit::Next
    }

    // Splits the node by its next box, and closes the child with the box in where a token does.
    fn split(&mut self, alloc: Global) -> Result<Visit, NoMemory> {
        let v = at(&self.order, self.depth as usize);
        self.push(Token::Choose {
            box_no: v.saturating_add(1),
        })?;
        match self.set.reason(v) {
            Some(reason) => self.close(alloc, reason)?,
            None => self.enter(v)?,
        }
        self.depth = self.depth.saturating_add(1);
        Ok(Visit::Next)
    }

    // Closes the child with the next box in.
    fn close(&mut self, alloc: Global, reason: Reason) -> Result<(), NoMemory> {
        let token = self.set.token(alloc, self.dims, reason)?;
        self.push(Token::SetRefuted { bin: None })?;
        self.push(token)
    }

    // Visits the node.
    fn visit(&mut self, alloc: Global) -> Result<Visit, NoMemory> {
        let most = self.worth.saturating_add(value_at(&self.rest, self.depth));
        if most < self.goal {
            self.push(Token::ValueShort)?;
            return Ok(self.leave());
        }
        if self.depth as usize >= self.order.len() {
            return Ok(Visit::Open);
        }
        self.split(alloc)
    }

    // Visits nodes until the tree is whole. It answers whether it is, with at most this many
    // tokens: each visit appends one at least, and the last one exactly one.
    fn run(&mut self, alloc: Global, most: u64) -> Result<bool, NoMemory> {
        for _ in 0..most {
            if self.tokens.len() as u64 >= most {
                return Ok(false);
            }
            match self.visit(alloc)? {
                Visit::Next => {}
                Visit::Whole => return Ok(true),
                Visit::Open => return Ok(false),
            }
        }
        Ok(false)
    }
}

/// A choice tree that refutes that boxes of value `goal` fit in the container, as tokens of an
/// outer refutation, at most `most` of them; or `None`.
///
/// The caller tests each proposal. A set of boxes is closed by one token alone: a box longer than
/// the container, two boxes that exclude each other in every dimension, or a tuple of scale
/// functions that exceeds. So a set that needs an inner tree of more tokens ends the search.
pub fn propose_value_refutation(
    alloc: Global,
    instance: &Instance,
    goal: u64,
    most: u64,
) -> Result<Option<Vec<Token>>, NoMemory> {
    let mut tree = ChoiceTree::new(alloc, instance, goal)?;
    if tree.run(alloc, most)? {
        Ok(Some(tree.tokens))
    } else {
        Ok(None)
    }
}
