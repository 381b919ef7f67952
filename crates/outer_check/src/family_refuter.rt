//! A tree with families that is checked token by token.
ghost use Rattle.std.specs.Prelude.{◌≡◌, ◌≤◌, ◌+◌, ◌++◌, [], length, vec_capacity, IfOk};
ghost use Rattle.packing_terms.specs.Exclusions.{AreAtEdges};
ghost use Rattle.verdict_terms.specs.Checking.{starting, answered, is_whole};
ghost use Rattle.proof_tree.specs.Plain.{plain_token};
ghost use Rattle.verdict_terms.specs.FamilyRefutation.{Plain, Family, Free};
ghost use Rattle.bounded_tokens.specs.FamilyPlain.{plain_family};
ghost use Rattle.outer_check.specs.FamilyRefuters.{fed_family};
ghost use Rattle.outer_check.specs.FamilyAnswers.{refusal_in, is_begun_in};

use bounded_tokens::{FamilyToken, Token};
use box_instances::{Instance, NoMemory};
use edge_state::Exclusion;
use refutation_check::Refuter;
use std::alloc::Global;
use std::marker::Model;
use verdict_terms::{FeedVerdict, RefuseCode};

/// Checks a refutation with families of an instance, token by token. It takes all its memory when
/// it is made.
///
/// It is seen as the instance, the list of open nodes, the next one first, each with the exclusions
/// of the splits above it and the first one with the family that is begun there, and the refusal if
/// there was one.
#[derive(Drop)]
pub struct FamilyRefuter<'a> {
    inner: Refuter<'a>,
    // The dimension of the family that is begun at the current node, and its boxes so far.
    dim: Option<u32>,
    family: Vec<u32>,
    refused: Option<RefuseCode>,
}

impl<'a> Model for FamilyRefuter<'a> {
    ghost use Rattle.std.specs.Prelude.{vec_capacity};
    ghost use Rattle.outer_check.specs.FamilyRefuters.{PlainFamilyRefuter, nodes_seen, IsHeld};

    ghost Value = { PlainFamilyRefuter };

    ghost view = { λ r. record {
      instance = r.inner.instance;
      checked = record {
        nodes = nodes_seen r.dim r.family.items r.inner.checked.nodes;
        refused = r.refused;
      };
    } };

    ghost invariant = { λ r. IsHeld r.inner r.dim r.family.items r.refused
        (vec_capacity r.family) };
}

// Why a token is refused, where it is.
fn refusal_in(verdict: FeedVerdict) -> Option<RefuseCode>
    ensures { result ≡ refusal_in verdict }
{
    match verdict {
        FeedVerdict::Refused { code } => Some(code),
        _ => None,
    }
}

// Whether a family of this dimension may be begun, or go on.
fn is_own_dim(begun: Option<u32>, dim: u32) -> bool
    ensures { result ≡ is_begun_in begun dim }
{
    match begun {
        None => true,
        Some(own) => own == dim,
    }
}

// Appends boxes that join a family.
fn append(family: &mut Vec<u32>, boxes: &[u32])
    requires { length family.old.items + length boxes.now ≤ vec_capacity family.old }
    ensures items { family.new.items ≡ family.old.items ++ boxes.now }
    ensures capacity { vec_capacity family.new ≡ vec_capacity family.old }
{
    for k in 0..boxes.len() {
        family.push_reserved(boxes[k]);
    }
}

impl<'a> FamilyRefuter<'a> {
    /// Begins a refutation of an instance. It takes all memory of a whole check.
    pub fn new(alloc: Global, instance: &'a Instance) -> Result<FamilyRefuter<'a>, NoMemory>
        ensures { IfOk result (λ r. r ≡ record {
          instance = instance.now;
          checked = starting (Free []);
        }) }
    {
        FamilyRefuter::starting(alloc, instance, &[])
    }

    /// Begins a refutation of an instance under exclusions, each of which is at an edge of the
    /// instance.
    pub fn starting(
        alloc: Global,
        instance: &'a Instance,
        start: &[Exclusion],
    ) -> Result<FamilyRefuter<'a>, NoMemory>
        requires { AreAtEdges instance.now start.now }
        ensures { IfOk result (λ r. r ≡ record {
          instance = instance.now;
          checked = starting (Free start.now);
        }) }
    {
        let count = instance.len();
        let inner = Refuter::starting(alloc, instance, start)?;
        let Ok(family) = Vec::with_capacity(alloc, count as usize + 9) else {
            return Err(NoMemory);
        };
        Ok(FamilyRefuter {
            inner,
            dim: None,
            family,
            refused: None,
        })
    }

    // Takes a plain token, as `feed` does.
    fn feed_plain(&mut self, token: &Token) -> FeedVerdict
        ensures step { self.new ≡ fed_family self.old (Plain (plain_token token.now)) }
        ensures answer { result ≡ answered self.new.checked }
    {
        if let Some(code) = self.refused {
            return FeedVerdict::Refused { code };
        }
        if let Some(_dim) = self.dim {
            self.refused = Some(RefuseCode::Kind);
            return FeedVerdict::Refused {
                code: RefuseCode::Kind,
            };
        }
        let verdict = self.inner.feed(token);
        self.refused = refusal_in(verdict);
        verdict
    }

    // Takes boxes of a family, as `feed` does.
    fn feed_family(&mut self, dim: u32, boxes: &[u32]) -> FeedVerdict
        requires { length boxes.now ≤ 9 }
        ensures step { self.new ≡ fed_family self.old (Family dim boxes.now) }
        ensures answer { result ≡ answered self.new.checked }
    {
        if let Some(code) = self.refused {
            return FeedVerdict::Refused { code };
        }
        if !is_own_dim(self.dim, dim) {
            self.refused = Some(RefuseCode::Kind);
            return FeedVerdict::Refused {
                code: RefuseCode::Kind,
            };
        }
        let begun = self.family.len();
        append(&mut self.family, boxes);
        match self.inner.join_family(dim, self.family.as_slice(), begun) {
            Err(code) => {
                self.family.truncate(begun);
                self.refused = Some(code);
                FeedVerdict::Refused { code }
            }
            Ok(true) => {
                self.family.clear();
                self.dim = None;
                if self.inner.whole() {
                    FeedVerdict::Done
                } else {
                    FeedVerdict::More
                }
            }
            Ok(false) => {
                self.dim = Some(dim);
                FeedVerdict::More
            }
        }
    }

    /// Takes the next token: `Done` where the tree is whole with it, `Refused` with the first test
    /// that it fails, and `More` otherwise.
    ///
    /// A plain token is taken as by `Refuter`, and refused with `Kind` if a family is begun. Boxes
    /// of a family are refused with `Kind` if a family of another dimension is begun, with `Range`
    /// for a number that names no dimension or no box, and with `Choice` if the closure of the node
    /// has a conflict, or a box joins twice or isn't apart from all others. After a refusal each
    /// further call answers the same, and after `Done` each further call is refused with `After`.
    /// It takes no memory.
    pub fn feed(&mut self, token: &FamilyToken) -> FeedVerdict
        ensures step { self.new ≡ fed_family self.old (plain_family token.now) }
        ensures answer { result ≡ answered self.new.checked }
    {
        match token {
            FamilyToken::Plain(token) => self.feed_plain(token),
            FamilyToken::Family { dim, boxes } => self.feed_family(*dim, boxes.as_slice()),
        }
    }

    /// Whether a tree was accepted whole, and no token refused behind it.
    pub fn whole(&self) -> bool
        ensures { result ≡ is_whole self.now.checked }
    {
        self.refused.is_none() & self.inner.whole()
    }
}
