//! The refutation with families of a document, and the line `end` after it.
ghost use Rattle.std.specs.Prelude.{◌≡◌, ◌≤◌, not, true, false, None, Some, IsTrue, [], ◌∷◌, Err};
ghost use Rattle.text_terms.specs.declared.claim.Claim.{Claim as PlainClaim};
ghost use Rattle.packing_terms.specs.Packing.{dims};
ghost use Rattle.verdict_terms.specs.Checking.{starting};
ghost use Rattle.verdict_terms.specs.FamilyRefutation.{Free};
ghost use Rattle.verdict_terms.specs.FamilyLines.{family_token_of};
ghost use Rattle.bounded_tokens.specs.FamilyPlain.{plain_family};
ghost use Rattle.verdict_terms.specs.Stages.{gathering_token};
ghost use Rattle.verdict_terms.specs.Stages.Stage.{Gathering};
ghost use Rattle.document_lines.specs.Reading.{Judges, IsAt, ended_claim};
ghost use Rattle.document_lines.specs.Gatherings.{is_family_open, FeedsFamily, TakesFamily, before_families, behind_families};

use crate::judge::{LineJudge, LineStop};
use crate::tree::TreeStep;
use crate::words::{AFTER, FORM};
use bounded_tokens::{FamilyToken, read_family_token};
use box_instances::Instance;
use instance_text::{LineLexer, is_blank, is_word};
use outer_check::FamilyRefuter;
use std::alloc::Global;
use std::marker::Model;
use text_terms::Claim;
use verdict_terms::{FeedVerdict, Reason};

// Gives a token to a refuter.
fn feed(refuter: &mut FamilyRefuter<'_>, token: &FamilyToken) -> FeedVerdict
    requires { is_family_open refuter.old ≡ true }
    ensures feeds { FeedsFamily refuter.old (plain_family token.now) refuter.new result }
    ensures same { refuter.new.instance ≡ refuter.old.instance }
{
    refuter.feed(token)
}

// Takes a line where a token is wanted, and returns whether the tree is whole behind it.
fn take_token(
    alloc: Global,
    refuter: &mut FamilyRefuter<'_>,
    dim_count: u32,
    line: &LineLexer,
) -> Result<bool, LineStop>
    requires least { 2 ≤ dim_count }
    requires most { dim_count ≤ 4 }
    requires same_dims { dim_count ≡ dims refuter.old.instance }
    requires opens { is_family_open refuter.old ≡ true }
    requires good { line.now.held.bad ≡ false }
    ensures { TakesFamily refuter.old line.now.held.words refuter.new result }
{
    if is_word(line, b"end") {
        return Err(LineStop::Refused(Reason::TooShort));
    }
    let Some(token) = read_family_token(alloc, line, dim_count) else {
        return Err(LineStop::Refused(FORM));
    };
    match feed(refuter, &token) {
        FeedVerdict::More => Ok(false),
        FeedVerdict::Done => Ok(true),
        FeedVerdict::Refused { code } => Err(LineStop::Refused(Reason::Token { code })),
    }
}

/// Takes the line `proof`, and the tokens of a refutation with families up to the last one.
#[derive(Drop)]
pub struct FamilyReader<'a> {
    alloc: Global,
    claim: Claim,
    dim_count: u32,
    step: TreeStep,
    refuter: FamilyRefuter<'a>,
}

impl<'a> Model for FamilyReader<'a> {
    ghost use Rattle.std.specs.Prelude.{Some};
    ghost use Rattle.document_lines.specs.Reading.{PlainJudge};
    ghost use Rattle.document_lines.specs.Proofs.{takes_lines};
    ghost use Rattle.document_lines.specs.Gatherings.{family_stage, behind_families, IsFamilyHeld};

    ghost Value = { PlainJudge };

    ghost view = { λ r. record {
      stage = family_stage r.step r.claim r.refuter;
      takes = takes_lines r.step;
      behind = Some (behind_families r.claim r.refuter);
    } };

    ghost invariant = { λ r. IsFamilyHeld r.step r.refuter r.dim_count };
}

impl<'a> FamilyReader<'a> {
    /// `proof` is wanted, and then the tree of a refuter to which no token was fed, of an instance
    /// of `dim_count` dimensions.
    pub fn new(
        alloc: Global,
        claim: Claim,
        dim_count: u32,
        refuter: FamilyRefuter<'a>,
    ) -> FamilyReader<'a>
        requires least { 2 ≤ dim_count }
        requires most { dim_count ≤ 4 }
        requires same_dims { dim_count ≡ dims refuter.instance }
        requires begun { refuter.checked ≡ starting (Free []) }
        ensures { result ≡ record {
          stage = before_families claim refuter.entry;
          takes = true;
          behind = Some (behind_families claim refuter.entry);
        } }
    {
        FamilyReader {
            alloc,
            claim,
            dim_count,
            step: TreeStep::Proof,
            refuter,
        }
    }
}

impl<'a> LineJudge for FamilyReader<'a> {
    ghost stage = { λ j. j.stage };

    ghost takes = { λ j. j.takes };

    ghost behind = { λ j. j.behind };

    fn line(&mut self, line: &LineLexer) -> Result<(), LineStop>
        requires { self.old.takes ≡ true }
        ensures judges { Judges self.old.stage line.now self.new.stage result }
        ensures behind { self.new.behind ≡ self.old.behind }
    {
        if is_blank(line) {
            return Ok(());
        }
        let step = self.step;
        if line.bad_byte() {
            return Err(LineStop::Refused(FORM));
        }
        if step == TreeStep::Proof {
            if !is_word(line, b"proof") {
                return Err(LineStop::Refused(FORM));
            }
            self.step = TreeStep::Tokens;
            return Ok(());
        }
        match take_token(self.alloc, &mut self.refuter, self.dim_count, line) {
            Ok(is_whole) => {
                if is_whole {
                    self.step = TreeStep::Whole;
                }
                Ok(())
            }
            Err(stop) => {
                self.step = TreeStep::Stopped;
                Err(stop)
            }
        }
    }

    fn is_paused(&self) -> bool
        ensures paused { result ≡ not self.now.takes }
        ensures behind { IsTrue result → IsAt self.now.behind self.now.stage }
    {
        match self.step {
            TreeStep::Proof => false,
            TreeStep::Tokens => false,
            TreeStep::Whole => true,
            TreeStep::Stopped => true,
        }
    }

    fn ended(&self) -> Option<Claim>
        ensures { result ≡ ended_claim self.now.stage }
    {
        // For the proof alone: opens what contracts see into the fields.
        let _step = self.step;
        None
    }
}

/// Takes `end` after a refutation with families.
///
/// It takes all lines that are left.
#[derive(Drop)]
pub struct FamilyEndReader<'a> {
    alloc: Global,
    instance: &'a Instance,
    claim: Claim,
    is_ended: bool,
}

impl<'a> Model for FamilyEndReader<'a> {
    ghost use Rattle.std.specs.Prelude.{true, None};
    ghost use Rattle.document_lines.specs.Reading.{PlainJudge};
    ghost use Rattle.document_lines.specs.Gatherings.{family_end_stage};

    ghost Value = { PlainJudge };

    ghost view = { λ e. record {
      stage = family_end_stage e.instance.now e.claim e.is_ended;
      takes = true;
      behind = None;
    } };
}

// Why a line where `end` is wanted is refused: a token comes too late.
fn late_reason(alloc: Global, instance: &Instance, line: &LineLexer) -> Reason
    requires good { line.now.held.bad ≡ false }
    ensures { (claim : PlainClaim) → gathering_token instance.now claim []
        (family_token_of (dims instance.now) line.now.held.words) ≡ Err result }
{
    match read_family_token(alloc, line, instance.dims()) {
        Some(_) => AFTER,
        None => FORM,
    }
}

impl<'a> FamilyEndReader<'a> {
    /// `end` is wanted.
    pub fn new(alloc: Global, instance: &'a Instance, claim: Claim) -> FamilyEndReader<'a>
        ensures { result ≡ record {
          stage = Gathering instance.now claim [];
          takes = true;
          behind = None;
        } }
    {
        FamilyEndReader {
            alloc,
            instance,
            claim,
            is_ended: false,
        }
    }
}

impl<'a> LineJudge for FamilyEndReader<'a> {
    ghost stage = { λ j. j.stage };

    ghost takes = { λ j. j.takes };

    ghost behind = { λ j. j.behind };

    fn line(&mut self, line: &LineLexer) -> Result<(), LineStop>
        ensures judges { Judges self.old.stage line.now self.new.stage result }
        ensures behind { self.new.behind ≡ self.old.behind }
    {
        if is_blank(line) {
            return Ok(());
        }
        if self.is_ended {
            return Err(LineStop::Refused(AFTER));
        }
        if line.bad_byte() {
            return Err(LineStop::Refused(FORM));
        }
        if !is_word(line, b"end") {
            return Err(LineStop::Refused(late_reason(self.alloc, self.instance, line)));
        }
        self.is_ended = true;
        Ok(())
    }

    fn is_paused(&self) -> bool
        ensures paused { result ≡ not self.now.takes }
        ensures behind { IsTrue result → IsAt self.now.behind self.now.stage }
        ensures never { result ≡ false }
    {
        // For the proof alone: opens what contracts see into the fields.
        let _is_ended = self.is_ended;
        false
    }

    fn ended(&self) -> Option<Claim>
        ensures { result ≡ ended_claim self.now.stage }
    {
        if self.is_ended {
            Some(self.claim)
        } else {
            None
        }
    }
}
