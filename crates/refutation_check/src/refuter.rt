//! A tree that is checked token by token.
ghost use Rattle.std.specs.Prelude.{◌≡◌, ◌≤◌, ◌+◌, ◌-◌, ◌*◌, ◌/◌, [], length, take, drop, vec_capacity, IfOk, Some};
ghost use Rattle.packing_terms.specs.Exclusions.{AreAtEdges};
ghost use Rattle.packing_terms.specs.Goals.{subset, IsBoxSet};
ghost use Rattle.packing_terms.specs.Limits.{IsDimCount, IsBoxCount};
ghost use Rattle.box_instances.specs.Sets.{all_boxes};
ghost use Rattle.proof_tree.specs.Plain.{plain_token};
ghost use Rattle.verdict_terms.specs.Checking.{starting, answered, is_whole};
ghost use Rattle.refutation_check.specs.Refuters.{fed, most_nodes};
ghost use Rattle.refutation_check.specs.Joining.{AreBoxNos, join_answer, checked_joined};

use crate::children::replace;
use crate::joining::{is_too_long, test_boxes};
use crate::judging::judge;
use crate::node::{OpenNode, exclude_each};
use box_instances::{BoxSet, Instance, NoMemory};
use edge_state::{EdgeState, Exclusion};
use proof_tree::Token;
use rule_passes::Propagator;
use std::alloc::Global;
use std::marker::Model;
use verdict_terms::{FeedVerdict, RefuseCode};

/// Checks a refutation of an instance, or of a set of its boxes, token by token. It takes all its
/// memory when it is made.
///
/// It is seen as the instance, the boxes of the tree, the list of open nodes, the next one first,
/// each with the exclusions of the splits above it, and the refusal if there was one. It holds the
/// splits above the current node, and for each open node only how long that list was; so at most d
/// n (n - 1) + 1 nodes are open for n boxes in d dimensions, whatever the tree is.
#[derive(Drop)]
pub struct Refuter<'a> {
    boxes: BoxSet<'a>,
    start: Vec<Exclusion>,
    splits: Vec<Exclusion>,
    nodes: Vec<OpenNode>,
    state: EdgeState,
    room: Propagator,
    refused: Option<RefuseCode>,
}

impl<'a> Model for Refuter<'a> {
    ghost use Rattle.std.specs.Prelude.{vec_capacity};
    ghost use Rattle.packing_terms.specs.Goals.{subset};
    ghost use Rattle.refutation_check.specs.Refuters.{PlainRefuter, nodes_of, IsHeld};

    ghost Value = { PlainRefuter };

    ghost view = { λ r. record {
      instance = r.boxes.whole;
      keep = r.boxes.keep;
      checked = record {
        nodes = nodes_of r.start.items r.splits.items r.nodes.items;
        refused = r.refused;
      };
    } };

    ghost invariant = { λ r. IsHeld r.boxes.whole (subset r.boxes.whole r.boxes.keep)
        r.start.items r.splits.items r.nodes.items r.state r.room
        (vec_capacity r.splits) (vec_capacity r.nodes) };
}

// Room for the exclusions of the splits above one node.
fn split_room(alloc: Global, dims: u32, boxes: u32) -> Result<Vec<Exclusion>, NoMemory>
    requires dims { IsDimCount dims }
    requires boxes { IsBoxCount boxes }
    ensures { IfOk result (λ list. (list.items ≡ [])
        × (2 * (3 * dims * boxes * (boxes - 1) / 2) ≤ vec_capacity list)) }
{
    let relations = 3 * dims * boxes * (boxes - 1) / 2;
    let Ok(list) = Vec::with_capacity(alloc, 2 * relations as usize) else {
        return Err(NoMemory);
    };
    Ok(list)
}

// Room for the open nodes.
fn node_room(alloc: Global, dims: u32, boxes: u32) -> Result<Vec<OpenNode>, NoMemory>
    requires dims { IsDimCount dims }
    requires boxes { IsBoxCount boxes }
    ensures { IfOk result (λ list. (list.items ≡ [])
        × (dims * boxes * (boxes - 1) + 1 ≤ vec_capacity list)) }
{
    let most = dims * boxes * (boxes - 1) + 1;
    let Ok(list) = Vec::with_capacity(alloc, most as usize) else {
        return Err(NoMemory);
    };
    Ok(list)
}

impl<'a> Refuter<'a> {
    /// Begins a refutation of an instance. It takes all memory of a whole check.
    pub fn new(alloc: Global, instance: &'a Instance) -> Result<Refuter<'a>, NoMemory>
        ensures { IfOk result (λ r. r ≡ record {
          instance = instance.now;
          keep = all_boxes instance.now;
          checked = starting [];
        }) }
    {
        Refuter::starting(alloc, instance, &[])
    }

    /// Begins a refutation of an instance under exclusions, each of which is at an edge of the
    /// instance.
    pub fn starting(
        alloc: Global,
        instance: &'a Instance,
        start: &[Exclusion],
    ) -> Result<Refuter<'a>, NoMemory>
        requires { AreAtEdges instance.now start.now }
        ensures { IfOk result (λ r. r ≡ record {
          instance = instance.now;
          keep = all_boxes instance.now;
          checked = starting start.now;
        }) }
    {
        let dims = instance.dims();
        let count = instance.len();
        let boxes = BoxSet::all(alloc, instance)?;
        let Ok(start) = Vec::from_slice(alloc, start) else {
            return Err(NoMemory);
        };
        let splits = split_room(alloc, dims, count)?;
        let mut nodes = node_room(alloc, dims, count)?;
        let mut state = EdgeState::new(alloc, dims, count)?;
        let room = Propagator::new(alloc, dims, count)?;
        exclude_each(&mut state, start.as_slice());
        nodes.push_reserved(OpenNode::root(state.mark()));
        Ok(Refuter {
            boxes,
            start,
            splits,
            nodes,
            state,
            room,
            refused: None,
        })
    }

    /// Begins a refutation of a set of the boxes alone, in which they are counted by rising number.
    /// The list isn't empty, rises strictly and names boxes of the instance. It takes no memory.
    pub fn restart(&mut self, keep: &[u32])
        requires some { 1 ≤ length keep.now }
        requires set { IsBoxSet self.old.instance keep.now }
        ensures { self.new ≡ record self.old { keep = keep.now; checked = starting [] } }
    {
        self.boxes.set_to(keep);
        let count = self.boxes.instance().len();
        self.start.clear();
        self.splits.clear();
        self.nodes.clear();
        self.state.resize(count);
        self.room.set_boxes(count);
        self.refused = None;
        self.nodes.push_reserved(OpenNode::root(self.state.mark()));
    }

    /// Takes the next token: `Done` where the tree is whole with it, `Refused` with the first test
    /// that it fails, and `More` otherwise.
    ///
    /// After a refusal each further call answers the same, and after `Done` each further call is
    /// refused with `After`. It takes no memory.
    pub fn feed(&mut self, token: &Token) -> FeedVerdict
        ensures step { self.new ≡ fed self.old (plain_token token.now) }
        ensures answer { result ≡ answered self.new.checked }
    {
        if let Some(code) = self.refused {
            return FeedVerdict::Refused { code };
        }
        if self.nodes.is_empty() {
            self.refused = Some(RefuseCode::After);
            return FeedVerdict::Refused {
                code: RefuseCode::After,
            };
        }
        // For the proof alone: states the limits of the instance.
        let _dims = self.boxes.instance().dims();
        let last = self.nodes.len() - 1;
        let node = self.nodes[last];
        let found = judge(
            self.boxes.instance(),
            &mut self.state,
            &mut self.room,
            node,
            token,
        );
        if let Some(code) = found {
            self.refused = Some(code);
            return FeedVerdict::Refused { code };
        }
        let parent = self.nodes[last];
        self.nodes.truncate(last);
        let mark = self.state.mark();
        replace(&mut self.splits, &mut self.nodes, parent, mark, token);
        if self.nodes.is_empty() {
            FeedVerdict::Done
        } else {
            FeedVerdict::More
        }
    }

    // Refuses for good, with this code.
    fn refuse(&mut self, code: RefuseCode) -> RefuseCode
        ensures step { self.new ≡ record self.old {
          checked = record self.old.checked { refused = Some code };
        } }
        ensures code { result ≡ code }
    {
        self.refused = Some(code);
        code
    }

    /// Tests boxes that join a family of boxes side by side at the current node. `family` has the
    /// boxes so far, by their numbers in the text, and from position `begun` on those that join; it
    /// has at most 1,000. It answers true if the family is too long with them: that takes the node
    /// away as a leaf. Else the node stays open.
    ///
    /// An error is the code of the first test that fails: `After` if the tree was whole, `Range`
    /// for a number that names no dimension or no box, and `Choice` for a conflict, a box that
    /// joins twice and one that isn't apart from all others in the closure of the node. After a
    /// refusal each further call answers the same. It takes no memory.
    pub fn join_family(
        &mut self,
        dim: u32,
        family: &[u32],
        begun: usize,
    ) -> Result<bool, RefuseCode>
        requires within { begun ≤ length family.now }
        requires few { length family.now ≤ 1000 }
        requires named { AreBoxNos (subset self.old.instance self.old.keep)
            (take begun family.now) }
        ensures step { self.new ≡ record self.old {
          checked = checked_joined self.old.checked result;
        } }
        ensures answer { result
            ≡ join_answer self.old dim (take begun family.now) (drop begun family.now) }
    {
        if let Some(code) = self.refused {
            return Err(code);
        }
        if self.nodes.is_empty() {
            return Err(self.refuse(RefuseCode::After));
        }
        let last = self.nodes.len() - 1;
        let node = self.nodes[last];
        let found = test_boxes(
            self.boxes.instance(),
            &mut self.state,
            &mut self.room,
            node,
            dim,
            family,
            begun,
        );
        if let Some(code) = found {
            return Err(self.refuse(code));
        }
        let long = is_too_long(self.boxes.instance(), dim, family);
        if long {
            self.nodes.truncate(last);
        }
        Ok(long)
    }

    /// Whether a tree was accepted whole, and no token refused behind it. At most d n (n - 1) + 1
    /// nodes are open for n boxes in d dimensions.
    pub fn whole(&self) -> bool
        ensures value { result ≡ is_whole self.now.checked }
        ensures limits { length self.now.checked.nodes
            ≤ most_nodes (subset self.now.instance self.now.keep) }
    {
        self.refused.is_none() && self.nodes.is_empty()
    }
}
