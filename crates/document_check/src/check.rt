//! The check of a document.
ghost use Rattle.std.specs.Prelude.{◌≡◌, ◌≤◌, true};
ghost use Rattle.text_terms.specs.Texts.{no_parts};
ghost use Rattle.verdict_terms.specs.Stages.{claimed};
ghost use Rattle.verdict_terms.specs.Stages.Stage.{Reading};
ghost use Rattle.document_check.specs.Checked.{IsCheckedUnder, IsRestChecked, max_check_bytes};
ghost use Rattle.document_check.specs.Passes.{IsPosition, IsCheckedFrom};
ghost use Rattle.document_lines.specs.Ranges.{IsRanged};

use crate::phases::{check_bins, check_exceeding, check_fitting, check_heights, check_not_fitting};
use crate::position::Position;
use crate::showing::read_head;
use crate::values::check_values;
use document_lines::{Claimed, HeadReader};
use instance_text::LineLexer;
use pack_streams::Source;
use std::alloc::Global;
use text_terms::{Claim, SolvingJob};
use verdict_terms::{Heading, Reason};

/// What the check of a document came to.
#[derive(Clone, Copy, Debug, PartialEq, Eq)]
pub enum CheckEnd {
    /// The whole input is a document of the claim.
    Verified(Claim),
    /// The first refused line, counted from 1, and why.
    Refused { line: u64, reason: Reason },
    /// More than 1,099,511,627,776 bytes came.
    TooLong,
    /// A read failed.
    ReadFault,
    /// Memory was refused.
    NoMemory,
}

// The rest of a document behind its result line.
fn check_claimed<S: Source>(
    alloc: Global,
    input: &mut S,
    at: &mut Position,
    head: &Claimed,
) -> CheckEnd
    requires at { IsPosition at.old }
    requires ranged { IsRanged head.now.instance head.now.claim }
    ensures { IsCheckedFrom (S.left input.old) (S.left input.new) (S.faults input.old)
        (S.faults input.new)
        at.old (claimed head.now.heading head.now.instance head.now.claim) result }
{
    let instance = &head.instance;
    let claim = head.claim;
    match claim {
        Claim::Fitting => check_fitting(alloc, input, at, head),
        Claim::NotFitting => check_not_fitting(alloc, input, at, head),
        Claim::LeastHeight { height } => {
            check_heights(alloc, input, at, head, height, height - 1)
        }
        Claim::HeightBetween { refuted, placed } => {
            check_heights(alloc, input, at, head, placed, refuted)
        }
        Claim::NoHeight => {
            check_exceeding(alloc, input, at, instance, claim, instance.dims() - 1)
        }
        Claim::LeastBins { bins } => {
            check_bins(alloc, input, at, instance, claim, bins, bins - 1)
        }
        Claim::BinsBetween { refuted, placed } => {
            check_bins(alloc, input, at, instance, claim, placed, refuted)
        }
        Claim::NoBins => check_exceeding(alloc, input, at, instance, claim, instance.dims()),
        Claim::GreatestValue { value } => { check_values(alloc, input, at, head, value, value + 1) }
        Claim::ValueBetween { placed, refuted } => {
            check_values(alloc, input, at, head, placed, refuted)
        }
    }
}

// The rest of a document whose next line is for this reader of its head.
fn check_from<S: Source>(
    alloc: Global,
    input: &mut S,
    at: &mut Position,
    head: HeadReader,
) -> CheckEnd
    requires at { IsPosition at.old }
    requires takes { head.takes ≡ true }
    ensures { IsCheckedFrom (S.left input.old) (S.left input.new) (S.faults input.old)
        (S.faults input.new)
        at.old head.stage result }
{
    match read_head(input, at, head) {
        Ok(head) => check_claimed(alloc, input, at, &head),
        Err(end) => end,
    }
}

/// Reads a document that has to begin with this heading, to its end or to the line feed of its
/// first refused line, and no further, in one pass.
///
/// `TooLong`, `ReadFault` and `NoMemory` come only where no line that was whole before is refused.
/// By an exact count of faults, the first read that fails is the last. `TooLong` takes one byte
/// more than the limit. It holds the instance, the places of its boxes, the open nodes of one tree
/// and the words of one line.
pub fn check_document<S: Source>(alloc: Global, heading: Heading, input: &mut S) -> CheckEnd
    ensures { IsCheckedUnder heading (S.left input.old) (S.left input.new) (S.faults input.old)
        (S.faults input.new) result }
{
    let mut at = Position::start();
    check_from(alloc, input, &mut at, HeadReader::new(alloc, heading))
}

/// Reads the rest of a document whose heading names `job`. `count` bytes were taken before, up to
/// the line feed of the heading, and `lexer` is what is held after them.
///
/// Like `check_document`, but behind these bytes: the limit is that of all bytes, and lines are
/// counted from the first of all.
pub fn check_rest<S: Source>(
    alloc: Global,
    heading: Heading,
    job: SolvingJob,
    lexer: LineLexer,
    count: u64,
    input: &mut S,
) -> CheckEnd
    requires number { lexer.number ≤ count }
    requires few { count ≤ max_check_bytes }
    ensures { IsRestChecked (S.left input.old) (S.left input.new) (S.faults input.old)
        (S.faults input.new) lexer (Reading heading job no_parts) count result }
{
    let mut at = Position { lexer, count };
    check_from(
        alloc,
        input,
        &mut at,
        HeadReader::behind_heading(alloc, heading, job),
    )
}
