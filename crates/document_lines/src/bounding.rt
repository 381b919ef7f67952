//! The bounded refutation of a document, and the line `end` after it.
ghost use Rattle.std.specs.Prelude.{◌≡◌, ◌≤◌, ℕ, not, true, false, None, Some, IsTrue, [], Err};
ghost use Rattle.text_terms.specs.declared.claim.Claim.{Claim as PlainClaim};
ghost use Rattle.packing_terms.specs.Packing.{dims};
ghost use Rattle.bounded_tokens.specs.Plain.{plain_bounded};
ghost use Rattle.verdict_terms.specs.Stages.{bounding_token};
ghost use Rattle.verdict_terms.specs.Stages.Stage.{Bounding};
ghost use Rattle.verdict_terms.specs.BoundedLines.{bounded_token_of};
ghost use Rattle.document_lines.specs.Reading.{Judges, IsAt, ended_claim};
ghost use Rattle.document_lines.specs.Checkers.{is_outer_open};
ghost use Rattle.document_lines.specs.Boundings.{IsForValue, IsSame, FeedsNodes, TakesBounded, at_nodes, behind_nodes};

use crate::judge::{LineJudge, LineStop};
use crate::words::{AFTER, FORM};
use bounded_tokens::{BoundedToken, read_bounded_token};
use box_instances::Instance;
use instance_text::{LineLexer, is_blank, is_word};
use outer_check::OuterRefuter;
use std::alloc::Global;
use std::marker::Model;
use text_terms::Claim;
use verdict_terms::{FeedVerdict, Reason};

// Gives a token to a refuter for a value.
fn feed(refuter: &mut OuterRefuter<'_>, token: &BoundedToken) -> FeedVerdict
    requires opens { is_outer_open refuter.old ≡ true }
    requires for_value { IsForValue refuter.old.tree }
    ensures feeds { FeedsNodes refuter.old (plain_bounded token.now) refuter.new result }
    ensures same { IsSame refuter.old refuter.new }
{
    refuter.feed_bounded(token)
}

// Takes a line where a token is wanted, and returns whether the tree is whole behind it.
fn take_token(
    alloc: Global,
    refuter: &mut OuterRefuter<'_>,
    dim_count: u32,
    line: &LineLexer,
) -> Result<bool, LineStop>
    requires least { 2 ≤ dim_count }
    requires most { dim_count ≤ 4 }
    requires same_dims { dim_count ≡ dims refuter.old.instance }
    requires opens { is_outer_open refuter.old ≡ true }
    requires for_value { IsForValue refuter.old.tree }
    requires good { line.now.held.bad ≡ false }
    ensures { TakesBounded refuter.old line.now.held.words refuter.new result }
{
    if is_word(line, b"end") {
        return Err(LineStop::Refused(Reason::TooShort));
    }
    let Some(token) = read_bounded_token(alloc, line, dim_count) else {
        return Err(LineStop::Refused(FORM));
    };
    match feed(refuter, &token) {
        FeedVerdict::More => Ok(false),
        FeedVerdict::Done => Ok(true),
        FeedVerdict::Refused { code } => Err(LineStop::Refused(Reason::Token { code })),
    }
}

/// What a reader of a bounded refutation wants next.
#[derive(Clone, Copy, Debug, PartialEq, Eq)]
pub(crate) enum BoundStep {
    /// The next token.
    Tokens,
    /// Nothing: the tree is whole.
    Whole,
    /// Nothing: a token was refused.
    Stopped,
}

/// Takes the tokens of a bounded refutation up to the last one.
#[derive(Drop)]
pub struct BoundReader<'a> {
    alloc: Global,
    claim: Claim,
    dim_count: u32,
    step: BoundStep,
    refuter: OuterRefuter<'a>,
}

impl<'a> Model for BoundReader<'a> {
    ghost use Rattle.std.specs.Prelude.{Some};
    ghost use Rattle.document_lines.specs.Reading.{PlainJudge};
    ghost use Rattle.document_lines.specs.Boundings.{bound_stage, wants_tokens, behind_nodes, IsBoundHeld};

    ghost Value = { PlainJudge };

    ghost view = { λ r. record {
      stage = bound_stage r.step r.claim r.refuter;
      takes = wants_tokens r.step;
      behind = Some (behind_nodes r.claim r.refuter);
    } };

    ghost invariant = { λ r. IsBoundHeld r.step r.refuter r.dim_count };
}

impl<'a> BoundReader<'a> {
    /// The tree of a refuter for a value, of an instance of `dim_count` dimensions, is wanted.
    pub fn new(
        alloc: Global,
        claim: Claim,
        dim_count: u32,
        refuter: OuterRefuter<'a>,
    ) -> BoundReader<'a>
        requires least { 2 ≤ dim_count }
        requires most { dim_count ≤ 4 }
        requires same_dims { dim_count ≡ dims refuter.instance }
        requires opens { is_outer_open refuter ≡ true }
        requires for_value { IsForValue refuter.tree }
        ensures { result ≡ record {
          stage = at_nodes claim refuter.entry;
          takes = true;
          behind = Some (behind_nodes claim refuter.entry);
        } }
    {
        BoundReader {
            alloc,
            claim,
            dim_count,
            step: BoundStep::Tokens,
            refuter,
        }
    }
}

impl<'a> LineJudge for BoundReader<'a> {
    ghost stage = { λ j. j.stage };

    ghost takes = { λ j. j.takes };

    ghost behind = { λ j. j.behind };

    fn line(&mut self, line: &LineLexer) -> Result<(), LineStop>
        requires { self.old.takes ≡ true }
        ensures judges { Judges self.old.stage line.now self.new.stage result }
        ensures behind { self.new.behind ≡ self.old.behind }
    {
        if is_blank(line) {
            return Ok(());
        }
        let _step = self.step;
        if line.bad_byte() {
            return Err(LineStop::Refused(FORM));
        }
        match take_token(self.alloc, &mut self.refuter, self.dim_count, line) {
            Ok(is_whole) => {
                if is_whole {
                    self.step = BoundStep::Whole;
                }
                Ok(())
            }
            Err(stop) => {
                self.step = BoundStep::Stopped;
                Err(stop)
            }
        }
    }

    fn is_paused(&self) -> bool
        ensures paused { result ≡ not self.now.takes }
        ensures behind { IsTrue result → IsAt self.now.behind self.now.stage }
    {
        match self.step {
            BoundStep::Tokens => false,
            BoundStep::Whole => true,
            BoundStep::Stopped => true,
        }
    }

    fn ended(&self) -> Option<Claim>
        ensures { result ≡ ended_claim self.now.stage }
    {
        // For the proof alone: opens what contracts see into the fields.
        let _step = self.step;
        None
    }
}

/// Takes `end` after a bounded refutation of a value.
///
/// It takes all lines that are left.
#[derive(Drop)]
pub struct BoundEndReader<'a> {
    alloc: Global,
    instance: &'a Instance,
    claim: Claim,
    value: u64,
    is_ended: bool,
}

impl<'a> Model for BoundEndReader<'a> {
    ghost use Rattle.std.specs.Prelude.{true, None};
    ghost use Rattle.document_lines.specs.Reading.{PlainJudge};
    ghost use Rattle.document_lines.specs.Boundings.{bound_end_stage};

    ghost Value = { PlainJudge };

    ghost view = { λ e. record {
      stage = bound_end_stage e.instance.now e.claim e.value e.is_ended;
      takes = true;
      behind = None;
    } };
}

// Why a line where `end` is wanted is refused: a token comes too late.
fn late_reason(alloc: Global, instance: &Instance, line: &LineLexer) -> Reason
    requires good { line.now.held.bad ≡ false }
    ensures { (claim : PlainClaim) (value : ℕ) → bounding_token instance.now claim value []
        (bounded_token_of (dims instance.now) line.now.held.words) ≡ Err result }
{
    match read_bounded_token(alloc, line, instance.dims()) {
        Some(_) => AFTER,
        None => FORM,
    }
}

impl<'a> BoundEndReader<'a> {
    /// `end` is wanted.
    pub fn new(
        alloc: Global,
        instance: &'a Instance,
        claim: Claim,
        value: u64,
    ) -> BoundEndReader<'a>
        ensures { result ≡ record {
          stage = Bounding instance.now claim value [];
          takes = true;
          behind = None;
        } }
    {
        BoundEndReader {
            alloc,
            instance,
            claim,
            value,
            is_ended: false,
        }
    }
}

impl<'a> LineJudge for BoundEndReader<'a> {
    ghost stage = { λ j. j.stage };

    ghost takes = { λ j. j.takes };

    ghost behind = { λ j. j.behind };

    fn line(&mut self, line: &LineLexer) -> Result<(), LineStop>
        ensures judges { Judges self.old.stage line.now self.new.stage result }
        ensures behind { self.new.behind ≡ self.old.behind }
    {
        if is_blank(line) {
            return Ok(());
        }
        if self.is_ended {
            return Err(LineStop::Refused(AFTER));
        }
        if line.bad_byte() {
            return Err(LineStop::Refused(FORM));
        }
        if !is_word(line, b"end") {
            return Err(LineStop::Refused(late_reason(self.alloc, self.instance, line)));
        }
        self.is_ended = true;
        Ok(())
    }

    fn is_paused(&self) -> bool
        ensures paused { result ≡ not self.now.takes }
        ensures behind { IsTrue result → IsAt self.now.behind self.now.stage }
        ensures never { result ≡ false }
    {
        // For the proof alone: opens what contracts see into the fields.
        let _is_ended = self.is_ended;
        false
    }

    fn ended(&self) -> Option<Claim>
        ensures { result ≡ ended_claim self.now.stage }
    {
        if self.is_ended {
            Some(self.claim)
        } else {
            None
        }
    }
}
