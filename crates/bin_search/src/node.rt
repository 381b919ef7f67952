//! The nodes of a bin tree.
ghost use Rattle.std.specs.Prelude.{◌≡◌, ◌+◌, ◌≤◌, pred, [], length, slice_index_or, IfOk, OnOk};
ghost use Rattle.packing_terms.specs.Goals.{IsBoxSet};
ghost use Rattle.packing_terms.specs.Limits.{max_boxes};
ghost use Rattle.packing_terms.specs.OuterRefutation.{insert_box};
ghost use Rattle.tree_terms.specs.OuterTrees.{with_answer};
ghost use Rattle.set_search.specs.Children.{IsChild};
ghost use Rattle.bin_search.specs.Lists.{lists_of};
ghost use Rattle.bin_search.specs.Nodes.{child_count, plain_placed, plain_change, undone};

use crate::lists::{replace_list, restore_list};
use box_instances::NoMemory;
use proof_tree::CompactTokens;
use set_search::{Child, SetSearch};
use std::alloc::Global;

// A node: the first `placed` boxes by rank have bins; the used bins in the order of their first
// use, the boxes of each by rising number, with the answers of their class trees; and the number of
// its children that have been visited.
#[derive(Drop)]
pub struct Placed {
    pub placed: usize,
    pub bins: Vec<Vec<u32>>,
    pub answers: Vec<Vec<u32>>,
    pub visited: usize,
}

// What the step into a child changed: the number of the node's children visited by then, the last
// of which it is, and its changed bin with the answer as they stood before, where the bin isn't
// new.
#[derive(Drop)]
pub struct Change {
    pub visited: usize,
    pub bin: Option<Vec<u32>>,
    pub answer: Option<Vec<u32>>,
}

// How many children a node with a box left has: one for each used bin, and one for a new bin where
// fewer than all are used.
pub(crate) fn children(bins: &[Vec<u32>], most: u32) -> usize
    requires { length bins.now ≤ most }
    ensures { result ≡ child_count most (lists_of bins.now) }
{
    if bins.len() < most as usize {
        bins.len() + 1
    } else {
        bins.len()
    }
}

// Decides the set of a box's bin with the box in it, where a new bin stands behind the used ones.
// What refutes the set of this bin is appended to the tokens.
pub(crate) fn grow_bin(
    alloc: Global,
    search: &mut SetSearch<'_>,
    bins: &[Vec<u32>],
    b: usize,
    v: u32,
    left: u64,
    bin: Option<u32>,
    tokens: &mut CompactTokens,
) -> Result<Child, NoMemory>
    requires { IsBoxSet search.old.instance
        (insert_box v (slice_index_or (lists_of bins.now) b [])) }
    ensures same { search.new ≡ search.old }
    ensures child { IfOk result (λ child. IsChild search.old.instance search.old.scales left
        (insert_box v (slice_index_or (lists_of bins.now) b [])) bin
        tokens.old tokens.new child) }
{
    if b < bins.len() {
        search.decide_with_box(alloc, bins[b].as_slice(), v, left, bin, tokens)
    } else {
        search.decide_with_box(alloc, &[], v, left, bin, tokens)
    }
}

// Makes the node the child that was visited last: its changed bin is this set, with this answer.
// Only what changes is touched, so a step costs nothing for the other bins.
pub(crate) fn enter_child(
    node: &mut Placed,
    set: Vec<u32>,
    numbers: Vec<u32>,
) -> Result<Change, NoMemory>
    requires few { node.old.placed ≤ max_boxes }
    ensures child { OnOk result (plain_placed node.new ≡ record {
      placed = node.old.placed + 1;
      bins = with_answer (lists_of node.old.bins.items) (pred node.old.visited) set.items;
      answers = with_answer (lists_of node.old.answers.items) (pred node.old.visited) numbers.items;
      visited = 0;
    }) }
    ensures back { IfOk result (λ change.
        undone (plain_placed node.new) (plain_change change) ≡ plain_placed node.old) }
{
    let b = node.visited.saturating_sub(1);
    let change = Change {
        visited: node.visited,
        bin: replace_list(&mut node.bins, b, set)?,
        answer: replace_list(&mut node.answers, b, numbers)?,
    };
    node.placed += 1;
    node.visited = 0;
    Ok(change)
}

// Makes a child the node above it again.
pub(crate) fn leave_child(node: &mut Placed, change: Change)
    ensures { plain_placed node.new ≡ undone (plain_placed node.old) (plain_change change) }
{
    let b = change.visited.saturating_sub(1);
    restore_list(&mut node.bins, b, change.bin);
    restore_list(&mut node.answers, b, change.answer);
    node.placed = node.placed.saturating_sub(1);
    node.visited = change.visited;
}
