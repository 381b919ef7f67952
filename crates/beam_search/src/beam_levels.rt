//! The levels of a beam: nodes with as many boxes laid, and their skylines.

use box_instances::NoMemory;
use fill_search::Skyline;
use std::alloc::Global;

/// A node: which boxes are laid and how many, their area, what they are worth, and what is lost.
#[derive(Clone, Copy)]
pub struct Node {
    pub laid: u128,
    pub count: u32,
    pub area: u64,
    pub value: u64,
    pub lost: u64,
    pub hash: u64,
}

/// The node with no box laid.
pub(crate) const ROOT: Node = Node {
    laid: 0,
    count: 0,
    area: 0,
    value: 0,
    lost: 0,
    hash: 0,
};

impl Node {
    /// Whether a box is laid.
    #[inline]
    pub fn has(&self, v: u32) -> bool {
        v < 128 && (self.laid >> v) & 1 == 1
    }
}

/// A box laid in a node, behind this many lost gaps, and its guide.
#[derive(Clone, Copy)]
pub struct Candidate {
    pub guide: u128,
    pub node: usize,
    pub lost_gaps: u32,
    pub box_no: u32,
}

/// How a node came from one of the level before: that node, the box, and where it lies.
#[derive(Clone, Copy)]
pub struct Step {
    pub parent: usize,
    pub box_no: u32,
    pub across: u32,
    pub up: u32,
}

/// No step.
pub(crate) const NO_STEP: Step = Step {
    parent: 0,
    box_no: 0,
    across: 0,
    up: 0,
};

/// A level of the beam.
#[derive(Drop)]
pub struct Level {
    pub count: usize,
    nodes: Vec<Node>,
    lines: Vec<Skyline>,
}

impl Level {
    /// Memory for this many nodes over skylines of this many boxes.
    pub fn new(alloc: Global, width: usize, boxes: u32) -> Result<Level, NoMemory> {
        let Ok(nodes) = vec![in alloc; ROOT; width] else {
            return Err(NoMemory);
        };
        let mut lines = Vec::new(alloc);
        for _ in 0..width {
            let line = Skyline::new(alloc, boxes)?;
            let Ok(()) = lines.push(line) else {
                return Err(NoMemory);
            };
        }
        Ok(Level {
            count: 0,
            nodes,
            lines,
        })
    }

    /// The node at an index, and the root past the end.
    pub fn node(&self, index: usize) -> Node {
        if index < self.nodes.len() {
            self.nodes[index]
        } else {
            ROOT
        }
    }

    /// Whether one of the nodes has the same boxes laid and most likely the same skyline.
    pub fn has(&self, laid: u128, hash: u64) -> bool {
        for k in 0..self.count {
            let node = self.node(k);
            if node.laid == laid && node.hash == hash {
                return true;
            }
        }
        false
    }

    /// Adds a node with its skyline, where there is room.
    pub fn add(&mut self, node: Node, line: &Skyline) -> bool {
        let index = self.count;
        if index >= self.nodes.len() || index >= self.lines.len() {
            return false;
        }
        self.nodes[index] = node;
        self.lines[index].copy(line);
        self.count = index + 1;
        true
    }

    /// Copies the skyline of the node at an index, if there is one.
    pub fn copy_line(&self, index: usize, into: &mut Skyline) -> bool {
        if index >= self.lines.len() {
            return false;
        }
        into.copy(&self.lines[index]);
        true
    }
}
