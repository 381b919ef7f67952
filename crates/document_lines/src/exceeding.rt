//! The one token of a document that claims `none`.
ghost use Rattle.std.specs.Prelude.{◌≡◌, ◌≤◌, not, true, false, Some, IsTrue};
ghost use Rattle.packing_terms.specs.Packing.{dims};
ghost use Rattle.text_terms.specs.declared.claim.Claim.{Claim as PlainClaim};
ghost use Rattle.packing_terms.specs.Tokens.PlainToken.{TooLarge};
ghost use Rattle.proof_tree.specs.Plain.{plain_token};
ghost use Rattle.verdict_terms.specs.Stages.{exceeding_token};
ghost use Rattle.verdict_terms.specs.Stages.Stage.{Exceeding, Ending};
ghost use Rattle.verdict_terms.specs.Trees.{map_ok};
ghost use Rattle.document_lines.specs.Reading.{Judges, IsAt, ended_claim};
ghost use Rattle.document_lines.specs.Exceedings.{TakesExceeding};

use crate::judge::{LineJudge, LineStop};
use crate::words::{FORM, RANGE};
use box_instances::Instance;
use instance_text::{LineLexer, is_blank, is_word};
use proof_tree::{Token, read_token};
use std::alloc::Global;
use std::marker::Model;
use text_terms::Claim;
use verdict_terms::{Reason, RefuseCode};

// Whether the box exceeds the container in the dimension, one of the first `dim_count`.
fn test_side(instance: &Instance, dim_count: u32, box_no: u32, dim: u32) -> Result<(), Reason>
    requires { dim_count ≤ dims instance.now }
    ensures { (claim : PlainClaim)
        → map_ok (λ u. Ending claim (Some (dims instance.now))) result
        ≡ exceeding_token instance.now claim dim_count (TooLarge box_no dim) }
{
    if (box_no < 1) | (instance.len() < box_no) | (dim < 1) | (dim_count < dim) {
        return Err(RANGE);
    }
    if instance.container_side(dim - 1) < instance.side(box_no - 1, dim - 1) {
        Ok(())
    } else {
        Err(Reason::Token {
            code: RefuseCode::Side,
        })
    }
}

// Whether the token says so of a box.
fn test_token(instance: &Instance, dim_count: u32, token: &Token) -> Result<(), Reason>
    requires { dim_count ≤ dims instance.now }
    ensures { (claim : PlainClaim)
        → map_ok (λ u. Ending claim (Some (dims instance.now))) result
        ≡ exceeding_token instance.now claim dim_count (plain_token token.now) }
{
    match token {
        Token::TooLarge { box_no, dim } => test_side(instance, dim_count, *box_no, *dim),
        _ => Err(FORM),
    }
}

// Whether the line has such a token.
fn test_line(
    alloc: Global,
    instance: &Instance,
    dim_count: u32,
    line: &LineLexer,
) -> Result<(), Reason>
    requires few { dim_count ≤ dims instance.now }
    requires good { line.now.held.bad ≡ false }
    ensures { TakesExceeding instance.now dim_count line.now.held.words result }
{
    if is_word(line, b"end") {
        return Err(Reason::TooShort);
    }
    let Some(token) = read_token(alloc, line, instance.dims()) else {
        return Err(FORM);
    };
    test_token(instance, dim_count, &token)
}

/// Takes the token that a box exceeds the container in one of the first `dim_count` dimensions.
///
/// It takes lines up to the token.
#[derive(Drop)]
pub struct OversizeReader<'a> {
    alloc: Global,
    instance: &'a Instance,
    claim: Claim,
    dim_count: u32,
    is_whole: bool,
}

impl<'a> Model for OversizeReader<'a> {
    ghost use Rattle.std.specs.Prelude.{◌≤◌};
    ghost use Rattle.packing_terms.specs.Packing.{dims};
    ghost use Rattle.std.specs.Prelude.{not, Some};
    ghost use Rattle.verdict_terms.specs.Stages.Stage.{Ending};
    ghost use Rattle.document_lines.specs.Reading.{PlainJudge};
    ghost use Rattle.document_lines.specs.Exceedings.{exceeding_stage};

    ghost Value = { PlainJudge };

    ghost view = { λ e. record {
      stage = exceeding_stage e.instance.now e.claim e.dim_count e.is_whole;
      takes = not e.is_whole;
      behind = Some (Ending e.claim (Some (dims e.instance.now)));
    } };

    ghost invariant = { λ e. e.dim_count ≤ dims e.instance.now };
}

impl<'a> OversizeReader<'a> {
    /// The token is wanted.
    pub fn new(
        alloc: Global,
        instance: &'a Instance,
        claim: Claim,
        dim_count: u32,
    ) -> OversizeReader<'a>
        requires { dim_count ≤ dims instance.now }
        ensures { result ≡ record {
          stage = Exceeding instance.now claim dim_count;
          takes = true;
          behind = Some (Ending claim (Some (dims instance.now)));
        } }
    {
        OversizeReader {
            alloc,
            instance,
            claim,
            dim_count,
            is_whole: false,
        }
    }
}

impl<'a> LineJudge for OversizeReader<'a> {
    ghost stage = { λ j. j.stage };

    ghost takes = { λ j. j.takes };

    ghost behind = { λ j. j.behind };

    fn line(&mut self, line: &LineLexer) -> Result<(), LineStop>
        requires { self.old.takes ≡ true }
        ensures judges { Judges self.old.stage line.now self.new.stage result }
        ensures behind { self.new.behind ≡ self.old.behind }
    {
        if is_blank(line) {
            return Ok(());
        }
        // For the proof alone: opens what contracts see into the fields.
        let _is_whole = self.is_whole;
        if line.bad_byte() {
            return Err(LineStop::Refused(FORM));
        }
        match test_line(self.alloc, self.instance, self.dim_count, line) {
            Ok(()) => {
                self.is_whole = true;
                Ok(())
            }
            Err(reason) => Err(LineStop::Refused(reason)),
        }
    }

    fn is_paused(&self) -> bool
        ensures paused { result ≡ not self.now.takes }
        ensures behind { IsTrue result → IsAt self.now.behind self.now.stage }
    {
        self.is_whole
    }

    fn ended(&self) -> Option<Claim>
        ensures { result ≡ ended_claim self.now.stage }
    {
        // For the proof alone: opens what contracts see into the fields.
        let _is_whole = self.is_whole;
        None
    }
}
