//! Walks that are kept where their cap was spent, and what becomes of them as their node is split.
ghost use Rattle.std.specs.Prelude.{◌≡◌, IfOk, IfSome};
ghost use Rattle.packing_terms.specs.Rank.{ranked_pairs};
ghost use Rattle.tree_terms.specs.Trees.{SearchTree, No, outcome, under_budget};
ghost use Rattle.work_share.specs.Outcomes.{plain_outcome};
ghost use Rattle.class_search.specs.Kept.{IsPausedWalk, standing_tree, IsKeptOf, IsDivisionOf, IsExplored};

use crate::search::Search;
use crate::visit::NodeKind;
use crate::walk::{End, Walk, resume_walk, to_node};
use box_instances::{Instance, NoMemory};
use edge_state::EdgeState;
use proof_tree::{CompactTokens, Outcome};
use rule_closure::Closer;
use std::alloc::{AllocError, Global};
use work_share::Node;

// A walk, with the closed state of the node where it stands.
#[derive(Drop)]
pub(crate) struct PausedWalk<'a> {
    pub instance: &'a Instance,
    pub state: EdgeState,
    pub closer: Closer,
    pub walk: Walk,
}

// What a finished node gave: no, with these tokens and this count.
#[derive(Drop)]
pub(crate) struct Refuted {
    pub tokens: CompactTokens,
    pub count: u64,
}

// What is kept of a node: all that it gives, or a walk through its tree.
#[derive(Drop)]
pub(crate) enum Kept<'a> {
    Refuted(Refuted),
    PausedWalk(PausedWalk<'a>),
}

// What a walk leaves to the children of its node: it goes on in the first; or the first is
// finished, and it goes on in the second.
#[derive(Drop)]
pub(crate) enum WalkSplit<'a> {
    First(PausedWalk<'a>),
    Second(Refuted, PausedWalk<'a>),
}

// What a walk leaves where it has gone on to a child: the split of its node, and what is left to
// the children.
#[derive(Drop)]
pub(crate) struct Division<'a> {
    pub node: Node,
    pub parts: WalkSplit<'a>,
}

// What exploring gives: the outcome, and the walk where the cap was spent.
#[derive(Drop)]
pub(crate) struct Explored<'a> {
    pub outcome: Outcome,
    pub left: Option<PausedWalk<'a>>,
}

impl<'a> PausedWalk<'a> {
    // Goes on under a cap.
    fn explored(
        self,
        alloc: Global,
        pairs: &[(u32, u32)],
        cap: u64,
    ) -> Result<Explored<'a>, NoMemory>
        requires pairs { pairs.now ≡ ranked_pairs self.instance.now }
        requires known { IsPausedWalk self }
        ensures { IfOk result (IsExplored self.entry.instance.now (standing_tree self.entry) cap) }
    {
        // For the proof alone: states the limits of the instance.
        let _limits = self.instance.len();
        let PausedWalk {
            instance,
            mut state,
            mut closer,
            walk,
        } = self;
        if walk.count > cap {
            return Ok(Explored {
                outcome: Outcome::Past,
                left: None,
            });
        }
        let search = Search {
            alloc,
            instance,
            pairs,
        };
        match resume_walk(&search, &mut state, &mut closer, walk, cap)? {
            End::Whole(outcome) => Ok(Explored {
                outcome,
                left: None,
            }),
            End::Stopped(walk) => Ok(Explored {
                outcome: Outcome::Past,
                left: Some(PausedWalk {
                    instance,
                    state,
                    closer,
                    walk,
                }),
            }),
        }
    }

    // The split of its node and what it leaves to the children, if it has gone on to one.
    pub fn division(self) -> Result<Option<Division<'a>>, AllocError>
        requires { IsPausedWalk self }
        ensures { IfOk result
            (λ r. IfSome r (IsDivisionOf self.entry.instance.now (standing_tree self.entry))) }
    {
        // For the proof alone: states the limits of the instance.
        let _limits = self.instance.len();
        let PausedWalk {
            instance,
            state,
            closer,
            mut walk,
        } = self;
        if walk.frames.is_empty() {
            return Ok(None);
        }
        let split = walk.frames.remove(0);
        walk.tokens.drop_first();
        let node = to_node(NodeKind::Divided {
            split: split.split,
            rank: split.rank,
        });
        let Some(size) = split.first else {
            walk.count -= 1;
            let standing = PausedWalk {
                instance,
                state,
                closer,
                walk,
            };
            return Ok(Some(Division {
                node,
                parts: WalkSplit::First(standing),
            }));
        };
        let Walk {
            frames,
            tokens,
            count,
            node: kind,
        } = walk;
        let Ok((tokens, rest)) = tokens.split_at(size.tokens) else {
            return Err(AllocError);
        };
        let walk = Walk {
            frames,
            tokens: rest,
            count: count - 1 - size.count,
            node: kind,
        };
        let refuted = Refuted {
            tokens,
            count: size.count,
        };
        let standing = PausedWalk {
            instance,
            state,
            closer,
            walk,
        };
        Ok(Some(Division {
            node,
            parts: WalkSplit::Second(refuted, standing),
        }))
    }
}

impl Refuted {
    // Its outcome under a cap.
    fn under_cap(self, cap: u64) -> Outcome
        ensures { (tree : SearchTree)
            → outcome tree ≡ No self.tokens self.count
            → plain_outcome result ≡ under_budget cap (outcome tree) }
    {
        let Refuted { tokens, count } = self;
        if count > cap {
            return Outcome::Past;
        }
        Outcome::No { tokens, count }
    }
}

impl<'a> Kept<'a> {
    // What the tree of its node gives under a cap, and the walk where the cap was spent.
    pub fn explored(self, search: &Search<'_>, cap: u64) -> Result<Explored<'a>, NoMemory>
        requires pairs { search.now.pairs.now ≡ ranked_pairs search.now.instance.now }
        requires known { (tree : SearchTree) × IsKeptOf search.now.instance.now tree self }
        ensures { (tree : SearchTree) → IsKeptOf search.now.instance.now tree self.entry
            → IfOk result (IsExplored search.now.instance.now tree cap) }
    {
        match self {
            Kept::Refuted(refuted) => Ok(Explored {
                outcome: refuted.under_cap(cap),
                left: None,
            }),
            Kept::PausedWalk(standing) => standing.explored(search.alloc, search.pairs, cap),
        }
    }
}
