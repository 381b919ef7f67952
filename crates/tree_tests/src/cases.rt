//! What the tests of bin trees and choice trees share.
use box_instances::{BoxItem, Instance, NoMemory, Sides};
use proof_tree::{Outcome, Token};
use std::alloc::Global;
use std::test::Fail;
use work_share::Node;

/// An instance: the container's sides, the kerfs, and the sides and values of the boxes.
#[derive(Clone, Copy)]
pub struct Case {
    pub container: &'static [u32],
    pub kerf: &'static [u32],
    pub boxes: &'static [(&'static [u32], u64)],
}

/// What an exploration is to give: an answer and the count, the kinds of the tokens and the count,
/// or past.
#[derive(Clone, Copy)]
pub enum Wanted {
    Yes(&'static [u32], u64),
    No(&'static [[u32; 2]], u64),
    Past,
}

/// The instance of a case.
pub(crate) fn instance_of(alloc: Global, case: &Case) -> Result<Instance, Fail> {
    let mut boxes = Vec::new(alloc);
    for (sides, value) in case.boxes {
        boxes.push(BoxItem {
            sides: Sides::from_slice(alloc, sides)?,
            value: *value,
        })?;
    }
    let container = Sides::from_slice(alloc, case.container)?;
    let kerf = Sides::from_slice(alloc, case.kerf)?;
    Ok(Instance::with_kerf(container, kerf, boxes)?)
}

// The kind of a token, and a number of it.
fn kind_of(token: &Token) -> [u32; 2] {
    match token {
        Token::Choose { box_no } => [1, *box_no],
        Token::SetRefuted { bin: None } => [2, 0],
        Token::SetRefuted { bin: Some(bin) } => [2, *bin],
        Token::Rules => [3, 0],
        Token::ValueShort => [4, 0],
        Token::Assign { box_no } => [5, *box_no],
        Token::GlobalScales(_) => [6, 0],
        Token::Scales(_) => [7, 0],
        _ => [8, 0],
    }
}

// Whether these are the kinds of the tokens.
fn are_kinds(tokens: &[Token], kinds: &[[u32; 2]]) -> bool {
    if tokens.len() != kinds.len() {
        return false;
    }
    for k in 0..tokens.len() {
        if kind_of(&tokens[k]) != kinds[k] {
            return false;
        }
    }
    true
}

/// Whether the outcome is the one that is wanted.
pub(crate) fn is_wanted(
    alloc: Global,
    outcome: &Outcome,
    wanted: &Wanted,
) -> Result<bool, NoMemory> {
    Ok(match (outcome, wanted) {
        (Outcome::Yes { numbers, count }, Wanted::Yes(answer, branchings)) => {
            *count == *branchings && numbers.as_slice() == *answer
        }
        (Outcome::No { tokens, count }, Wanted::No(kinds, branchings)) => {
            *count == *branchings && are_kinds(tokens.tokens(alloc)?.as_slice(), kinds)
        }
        (Outcome::Past, Wanted::Past) => true,
        _ => false,
    })
}

/// Whether a node is a split of this kind with this own count and `width` children.
pub(crate) fn is_split(node: &Node, kind: [u32; 2], count: u64, width: u32) -> bool {
    match node {
        Node::Split {
            token,
            own,
            children,
        } => kind_of(token) == kind && *own == count && *children == width,
        Node::Leaf => false,
    }
}

/// Three boxes of which the two large ones have no room together.
pub(crate) const THREE: Case = Case {
    container: &[10, 10],
    kerf: &[0, 0],
    boxes: &[(&[6, 6], 5), (&[6, 6], 4), (&[4, 4], 3)],
};

/// Three planks, of which two fill a container.
pub(crate) const PLANKS: Case = Case {
    container: &[10, 10],
    kerf: &[0, 0],
    boxes: &[(&[10, 5], 0), (&[10, 5], 0), (&[10, 5], 0)],
};

/// Three boards between which a saw takes 1: two stand on one another.
pub(crate) const BOARDS: Case = Case {
    container: &[9, 9],
    kerf: &[1, 1],
    boxes: &[(&[9, 4], 0), (&[9, 4], 2), (&[4, 9], 1)],
};

/// Four blocks in three dimensions, of which the last is worth nothing.
pub(crate) const BLOCKS: Case = Case {
    container: &[4, 4, 4],
    kerf: &[0, 0, 0],
    boxes: &[
        (&[4, 4, 2], 5),
        (&[4, 4, 3], 4),
        (&[4, 2, 2], 3),
        (&[2, 2, 2], 0),
    ],
};
