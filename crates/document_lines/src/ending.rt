//! The last line of a document.
ghost use Rattle.std.specs.Prelude.{◌≡◌, not, true, false, None, IsTrue};
ghost use Rattle.text_terms.specs.Feeding.{ended_line};
ghost use Rattle.verdict_terms.specs.Stages.{late_line};
ghost use Rattle.verdict_terms.specs.Stages.Stage.{Ending};
ghost use Rattle.document_lines.specs.Reading.{Judges, IsAt, ended_claim};
ghost use Rattle.document_lines.specs.Endings.{end_stage, AreDims};

use crate::judge::{LineJudge, LineStop};
use crate::words::{AFTER, FORM};
use instance_text::{LineLexer, is_blank, is_word};
use proof_tree::read_token;
use std::alloc::Global;
use std::marker::Model;
use text_terms::Claim;
use verdict_terms::Reason;

/// Takes `end`, after places, or after the tree of an instance of `tree_dims` dimensions.
///
/// It takes all lines that are left.
#[derive(Drop)]
pub struct EndReader {
    alloc: Global,
    claim: Claim,
    tree_dims: Option<u32>,
    is_ended: bool,
}

impl Model for EndReader {
    ghost use Rattle.std.specs.Prelude.{true, None};
    ghost use Rattle.document_lines.specs.Reading.{PlainJudge};
    ghost use Rattle.document_lines.specs.Endings.{end_stage, AreDims};

    ghost Value = { PlainJudge };

    ghost view = { λ e. record {
      stage = end_stage e.claim e.tree_dims e.is_ended;
      takes = true;
      behind = None;
    } };

    ghost invariant = { λ e. AreDims e.tree_dims };
}

// Why a line where `end` is wanted is refused: a token comes too late behind a tree, and has no
// place behind places.
fn late_line(alloc: Global, line: &LineLexer, tree_dims: Option<u32>) -> Reason
    requires dims { AreDims tree_dims }
    requires good { line.now.held.bad ≡ false }
    ensures { result ≡ late_line tree_dims line.now.held.words }
{
    let Some(dims) = tree_dims else {
        return FORM;
    };
    match read_token(alloc, line, dims) {
        Some(_) => AFTER,
        None => FORM,
    }
}

impl EndReader {
    /// `end` is wanted.
    pub fn new(alloc: Global, claim: Claim, tree_dims: Option<u32>) -> EndReader
        requires { AreDims tree_dims }
        ensures { result ≡ record { stage = Ending claim tree_dims; takes = true; behind = None } }
    {
        EndReader {
            alloc,
            claim,
            tree_dims,
            is_ended: false,
        }
    }
}

impl LineJudge for EndReader {
    ghost stage = { λ j. j.stage };

    ghost takes = { λ j. j.takes };

    ghost behind = { λ j. j.behind };

    fn line(&mut self, line: &LineLexer) -> Result<(), LineStop>
        ensures judges { Judges self.old.stage line.now self.new.stage result }
        ensures behind { self.new.behind ≡ self.old.behind }
    {
        if is_blank(line) {
            return Ok(());
        }
        if self.is_ended {
            return Err(LineStop::Refused(AFTER));
        }
        if line.bad_byte() {
            return Err(LineStop::Refused(FORM));
        }
        if !is_word(line, b"end") {
            return Err(LineStop::Refused(late_line(self.alloc, line, self.tree_dims)));
        }
        self.is_ended = true;
        Ok(())
    }

    fn is_paused(&self) -> bool
        ensures paused { result ≡ not self.now.takes }
        ensures behind { IsTrue result → IsAt self.now.behind self.now.stage }
        ensures never { result ≡ false }
    {
        // For the proof alone: opens what contracts see into the fields.
        let _is_ended = self.is_ended;
        false
    }

    fn ended(&self) -> Option<Claim>
        ensures { result ≡ ended_claim self.now.stage }
    {
        if self.is_ended {
            Some(self.claim)
        } else {
            None
        }
    }
}
