//! An outer tree that is checked token by token.
ghost use Rattle.std.specs.Prelude.{◌≡◌, ◌≤◌, IfOk, None, length};
ghost use Rattle.packing_terms.specs.Packing.{box_count};
ghost use Rattle.proof_tree.specs.Plain.{plain_token};
ghost use Rattle.bounded_tokens.specs.Plain.{plain_bounded};
ghost use Rattle.outer_check.specs.Bounded.{bounded_fed, IsFurther};
ghost use Rattle.outer_check.specs.Outers.{CanBeRefuted, started, fed, answered, is_whole, path_length};

use crate::goal::Goal;
use crate::leaves::take_leaf;
use crate::path::Path;
use crate::point::Point;
use crate::taking::take;
use bounded_tokens::BoundedToken;
use box_instances::{Instance, NoMemory};
use proof_tree::Token;
use refutation_check::Refuter;
use std::alloc::Global;
use std::marker::Model;
use verdict_terms::{FeedVerdict, RefuseCode};

/// Checks an outer refutation token by token: that an instance doesn't fit in a number of bins, or
/// doesn't reach a value. It takes all its memory when it is made.
///
/// It is seen as the goal with the path to the current node, each split with the number of its
/// closed children, behind the token of a refuted set with the open nodes of the inner tree and the
/// boxes of that tree, and the refusal if there was one. It holds at most n splits for n boxes, and
/// beside them the nodes of one inner tree.
#[derive(Drop)]
pub struct OuterRefuter<'a> {
    instance: &'a Instance,
    goal: Goal,
    path: Path,
    point: Point,
    inner: Refuter<'a>,
    keep: Vec<u32>,
    refused: Option<RefuseCode>,
}

impl<'a> Model for OuterRefuter<'a> {
    ghost use Rattle.std.specs.Prelude.{vec_capacity};
    ghost use Rattle.outer_check.specs.Outers.{PlainOuter, tree_seen, IsHeld};

    ghost Value = { PlainOuter };

    ghost view = { λ r. record {
      instance = r.instance.now;
      tree = tree_seen r.goal r.path.frames r.point r.inner;
      refused = r.refused;
    } };

    ghost invariant = { λ r. IsHeld r.instance.now r.goal r.path r.point r.inner r.refused
        (vec_capacity r.keep) };
}

impl<'a> OuterRefuter<'a> {
    /// Begins a refutation for a goal. It takes all memory of a whole check. For bins, no side of a
    /// box exceeds the container's, and they are at most 128.
    pub fn new(
        alloc: Global,
        instance: &'a Instance,
        goal: Goal,
    ) -> Result<OuterRefuter<'a>, NoMemory>
        requires { CanBeRefuted instance.now goal }
        ensures { IfOk result (λ r. r ≡ record {
          instance = instance.now;
          tree = started goal;
          refused = None;
        }) }
    {
        let count = instance.len();
        let path = Path::new(alloc, count)?;
        let inner = Refuter::new(alloc, instance)?;
        let Ok(keep) = Vec::with_capacity(alloc, count as usize) else {
            return Err(NoMemory);
        };
        Ok(OuterRefuter {
            instance,
            goal,
            path,
            point: Point::AtNode,
            inner,
            keep,
            refused: None,
        })
    }

    /// Takes the next token: `Done` where the tree is whole with it, `Refused` with the first test
    /// that it fails, and `More` otherwise.
    ///
    /// After a refusal each further call answers the same, and after `Done` each further call is
    /// refused with `After`. It takes no memory.
    pub fn feed(&mut self, token: &Token) -> FeedVerdict
        ensures step { self.new ≡ fed self.old (plain_token token.now) }
        ensures answer { result ≡ answered self.new }
    {
        if let Some(code) = self.refused {
            return FeedVerdict::Refused { code };
        }
        let taken = take(
            self.instance,
            self.goal,
            &mut self.path,
            &mut self.point,
            &mut self.inner,
            &mut self.keep,
            token,
        );
        if let Err(code) = taken {
            self.refused = Some(code);
            return FeedVerdict::Refused { code };
        }
        if self.point == Point::AtEnd {
            FeedVerdict::Done
        } else {
            FeedVerdict::More
        }
    }

    // Takes a further leaf.
    fn feed_leaf(&mut self, token: &BoundedToken) -> FeedVerdict
        requires { IsFurther (plain_bounded token.now) }
        ensures step { self.new ≡ bounded_fed self.old (plain_bounded token.now) }
        ensures answer { result ≡ answered self.new }
    {
        if let Some(code) = self.refused {
            return FeedVerdict::Refused { code };
        }
        let taken = take_leaf(
            self.instance,
            self.goal,
            &mut self.path,
            &mut self.point,
            token,
        );
        self.refused = taken.err();
        if let Some(code) = self.refused {
            return FeedVerdict::Refused { code };
        }
        if self.point == Point::AtEnd {
            FeedVerdict::Done
        } else {
            FeedVerdict::More
        }
    }

    /// Takes the next token of a bounded refutation: a plain one as `feed` takes it, and a further
    /// leaf where it stands at an outer node for a value. It answers as `feed` does.
    ///
    /// A further leaf is refused with `Kind` for bins and in the inner tree of a set. A leaf that
    /// is priced out is refused with `Kind` where its tuple hasn't a function for each dimension;
    /// with `Range` where a function isn't legal for its container side; else with `Excess` where a
    /// box that is in doesn't fit alone, or where what is in and the undecided boxes may reach the
    /// goal. An exchange is refused with `Range` where a number names no box, else with `Choice`
    /// where its first box isn't out, its second isn't in, or the first doesn't come before the
    /// second. It takes no memory.
    pub fn feed_bounded(&mut self, token: &BoundedToken) -> FeedVerdict
        ensures step { self.new ≡ bounded_fed self.old (plain_bounded token.now) }
        ensures answer { result ≡ answered self.new }
    {
        match token {
            BoundedToken::Plain(token) => self.feed(token),
            BoundedToken::PricedOut { .. } | BoundedToken::Exchange { .. } => self.feed_leaf(token),
        }
    }

    /// Whether a tree was accepted whole, and no token refused behind it. At most n splits are on
    /// the path for n boxes.
    pub fn whole(&self) -> bool
        ensures value { result ≡ is_whole self.now }
        ensures limits { path_length self.now ≤ box_count self.now.instance }
    {
        // For the proof alone: states the limits of the path.
        let _boxes = self.path.boxes();
        self.refused.is_none() & (self.point == Point::AtEnd)
    }
}
