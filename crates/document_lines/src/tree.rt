//! The tree of a document, line by line.
ghost use Rattle.std.specs.Prelude.{◌≡◌, ◌≤◌, Bool, true, false, not, Some, IsTrue};
ghost use Rattle.proof_tree.specs.Plain.{plain_token};
ghost use Rattle.verdict_terms.specs.Stages.Stage.{Proving, Refuting, Ending};
ghost use Rattle.verdict_terms.specs.Trees.{Tree, begun, tree_dims};
ghost use Rattle.document_lines.specs.Reading.{Judges, IsAt, ended_claim};
ghost use Rattle.document_lines.specs.Proofs.{refuted_by, IsFed, TakesToken};

use crate::judge::{LineJudge, LineStop};
use crate::words::FORM;
use instance_text::{LineLexer, is_blank, is_word};
use proof_tree::{Token, read_token};
use std::alloc::Global;
use std::marker::Model;
use text_terms::Claim;
use verdict_terms::{FeedVerdict, Reason};

/// What checks a tree token by token.
pub trait TreeChecker {
    /// The open nodes, and what they are to refute.
    ghost tree: { Self → Tree };

    /// Whether a node is open, and no token was refused.
    ghost is_open: { Self → Bool };

    /// Takes a token.
    fn feed(&mut self, token: &Token) -> FeedVerdict
        requires { is_open self.old ≡ true }
        ensures { IsFed (tree self.old) (plain_token token.now) (tree self.new) (is_open self.new)
            result };
}

// Takes a line where a token is wanted, and returns whether the tree is whole behind it.
fn take_token<C: TreeChecker>(
    alloc: Global,
    checker: &mut C,
    dims: u32,
    line: &LineLexer,
) -> Result<bool, LineStop>
    requires least { 2 ≤ dims }
    requires most { dims ≤ 4 }
    requires same_dims { dims ≡ tree_dims (C.tree checker.old) }
    requires opens { C.is_open checker.old ≡ true }
    requires good { line.now.held.bad ≡ false }
    ensures { TakesToken (C.tree checker.old) line.now.held.words (C.tree checker.new)
        (C.is_open checker.new) result }
{
    if is_word(line, b"end") {
        return Err(LineStop::Refused(Reason::TooShort));
    }
    let Some(token) = read_token(alloc, line, dims) else {
        return Err(LineStop::Refused(FORM));
    };
    match checker.feed(&token) {
        FeedVerdict::More => Ok(false),
        FeedVerdict::Done => Ok(true),
        FeedVerdict::Refused { code } => Err(LineStop::Refused(Reason::Token { code })),
    }
}

/// What a reader of a tree wants next.
#[derive(Clone, Copy, Debug, PartialEq, Eq)]
pub(crate) enum TreeStep {
    /// The line `proof`.
    Proof,
    /// The next token.
    Tokens,
    /// Nothing: the tree is whole.
    Whole,
    /// Nothing: a token was refused.
    Stopped,
}

/// Takes the line `proof` where it is wanted, and the tokens of a tree up to the last one.
///
/// It takes lines up to the last token.
#[derive(Drop)]
pub struct TreeReader<C: TreeChecker> {
    alloc: Global,
    claim: Claim,
    dims: u32,
    step: TreeStep,
    checker: C,
}

impl<C: TreeChecker> Model for TreeReader<C> {
    ghost use Rattle.std.specs.Prelude.{Some};
    ghost use Rattle.verdict_terms.specs.Stages.Stage.{Ending};
    ghost use Rattle.document_lines.specs.Reading.{PlainJudge};
    ghost use Rattle.document_lines.specs.Proofs.{tree_stage, takes_lines, IsTreeHeld};

    ghost Value = { PlainJudge };

    ghost view = { λ r. record {
      stage = tree_stage r.step r.claim r.dims (C.tree r.checker);
      takes = takes_lines r.step;
      behind = Some (Ending r.claim (Some r.dims));
    } };

    ghost invariant = { λ r. IsTreeHeld r.step (C.tree r.checker) (C.is_open r.checker) r.dims };
}

impl<C: TreeChecker> TreeReader<C> {
    /// `proof` is wanted, and then a tree of an instance of `dims` dimensions.
    pub fn at_proof(alloc: Global, claim: Claim, dims: u32, checker: C) -> TreeReader<C>
        requires least { 2 ≤ dims }
        requires most { dims ≤ 4 }
        requires same_dims { dims ≡ tree_dims (C.tree checker) }
        requires begun { begun (refuted_by (C.tree checker)) ≡ C.tree checker }
        requires open { C.is_open checker ≡ true }
        ensures { result ≡ record {
          stage = Proving claim (refuted_by (C.tree checker));
          takes = true;
          behind = Some (Ending claim (Some dims));
        } }
    {
        TreeReader {
            alloc,
            claim,
            dims,
            step: TreeStep::Proof,
            checker,
        }
    }

    /// The tree of an instance of `dims` dimensions is wanted.
    pub fn at_tokens(alloc: Global, claim: Claim, dims: u32, checker: C) -> TreeReader<C>
        requires least { 2 ≤ dims }
        requires most { dims ≤ 4 }
        requires same_dims { dims ≡ tree_dims (C.tree checker) }
        requires open { C.is_open checker ≡ true }
        ensures { result ≡ record {
          stage = Refuting claim (C.tree checker);
          takes = true;
          behind = Some (Ending claim (Some dims));
        } }
    {
        TreeReader {
            alloc,
            claim,
            dims,
            step: TreeStep::Tokens,
            checker,
        }
    }
}

impl<C: TreeChecker> LineJudge for TreeReader<C> {
    ghost stage = { λ j. j.stage };

    ghost takes = { λ j. j.takes };

    ghost behind = { λ j. j.behind };

    fn line(&mut self, line: &LineLexer) -> Result<(), LineStop>
        requires { self.old.takes ≡ true }
        ensures judges { Judges self.old.stage line.now self.new.stage result }
        ensures behind { self.new.behind ≡ self.old.behind }
    {
        if is_blank(line) {
            return Ok(());
        }
        let step = self.step;
        if line.bad_byte() {
            return Err(LineStop::Refused(FORM));
        }
        if step == TreeStep::Proof {
            if !is_word(line, b"proof") {
                return Err(LineStop::Refused(FORM));
            }
            self.step = TreeStep::Tokens;
            return Ok(());
        }
        match take_token(self.alloc, &mut self.checker, self.dims, line) {
            Ok(is_whole) => {
                if is_whole {
                    self.step = TreeStep::Whole;
                }
                Ok(())
            }
            Err(stop) => {
                self.step = TreeStep::Stopped;
                Err(stop)
            }
        }
    }

    fn is_paused(&self) -> bool
        ensures paused { result ≡ not self.now.takes }
        ensures behind { IsTrue result → IsAt self.now.behind self.now.stage }
    {
        match self.step {
            TreeStep::Proof => false,
            TreeStep::Tokens => false,
            TreeStep::Whole => true,
            TreeStep::Stopped => true,
        }
    }

    fn ended(&self) -> Option<Claim>
        ensures { result ≡ ended_claim self.now.stage }
    {
        // For the proof alone: opens what contracts see into the fields.
        let _step = self.step;
        None
    }
}
