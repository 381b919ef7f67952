//! The tree of a refutation, which grows from its leaves, and its tokens.

use crate::splits::Split;
use box_instances::NoMemory;
use lenient_lists::pushed;
use proof_tree::Token;
use std::alloc::Global;

/// The node of a leaf. All others are counted from 1.
pub(crate) const LEAF: usize = 0;

// A split with the nodes of its children.
#[derive(Clone, Copy)]
struct Node {
    split: Split,
    first: usize,
    second: usize,
}

/// The nodes that are refuted so far.
#[derive(Drop)]
pub struct Nodes {
    nodes: Vec<Node>,
}

impl Nodes {
    /// None but the leaf.
    pub fn new(alloc: Global) -> Nodes {
        Nodes {
            nodes: Vec::new(alloc),
        }
    }

    /// Adds a node, and answers which it is.
    pub fn add(&mut self, split: Split, first: usize, second: usize) -> Result<usize, NoMemory> {
        let node = Node {
            split,
            first,
            second,
        };
        pushed(&mut self.nodes, node)?;
        Ok(self.nodes.len())
    }

    // The node of a number, and none for a leaf.
    fn node(&self, number: usize) -> Option<Node> {
        let index = number.checked_sub(1)?;
        if index < self.nodes.len() {
            Some(self.nodes[index])
        } else {
            None
        }
    }

    /// The tokens of the tree below a node, first children first. `rank` has the boxes by rank.
    pub fn tokens(&self, alloc: Global, root: usize, rank: &[u32]) -> Result<Vec<Token>, NoMemory> {
        let mut tokens = Vec::new(alloc);
        let mut waiting = Vec::new(alloc);
        pushed(&mut waiting, root)?;
        // A tree has one leaf more than splits.
        let most = self.nodes.len().saturating_mul(2).saturating_add(1);
        for _ in 0..most {
            let Some(number) = waiting.pop() else {
                break;
            };
            match self.node(number) {
                None => put(&mut tokens, Token::Rules)?,
                Some(node) => {
                    put(&mut tokens, node.split.token(rank))?;
                    pushed(&mut waiting, node.second)?;
                    pushed(&mut waiting, node.first)?;
                }
            }
        }
        Ok(tokens)
    }
}

fn put(tokens: &mut Vec<Token>, token: Token) -> Result<(), NoMemory> {
    match tokens.push(token) {
        Ok(()) => Ok(()),
        Err(_) => Err(NoMemory),
    }
}
