//! The taken boxes of a document.
ghost use Rattle.std.specs.Prelude.{◌≡◌, ◌+◌, ◌≤◌, length, nat_lt, not, true, [], Some, IsTrue};
ghost use Rattle.std.specs.List.{list_all};
ghost use Rattle.verdict_terms.specs.Judging.{names_box};
ghost use Rattle.packing_terms.specs.Packing.{dims, box_count};
ghost use Rattle.packing_terms.specs.Goals.{worth, IsBoxSet};
ghost use Rattle.verdict_terms.specs.Stages.{taken_reason, value_stage};
ghost use Rattle.verdict_terms.specs.Stages.Stage.{Taking};
ghost use Rattle.document_lines.specs.Reading.{Judges, IsAt, ended_claim};
ghost use Rattle.document_lines.specs.Takings.{AreBoxesTaken, TakesBox, IsReasonOf};

use crate::groups::group_reason;
use crate::judge::{LineJudge, LineStop};
use crate::numbers::read_numbers;
use crate::places::push_coordinates;
use crate::words::{FORM, RANGE};
use box_instances::Instance;
use instance_text::{LineLexer, is_blank, is_word};
use std::alloc::Global;
use std::marker::Model;
use text_terms::Claim;
use verdict_terms::{Heading, Reason};

// Whether the number names a box.
fn names_box(instance: &Instance, number: u128) -> bool
    ensures value { result ≡ names_box instance.now number }
    ensures limits { box_count instance.now ≤ 128 }
{
    let boxes = instance.len() as u128;
    (1 <= number) & (number <= boxes)
}

// Whether all taken boxes come before this one.
fn are_before(taken: &[u32], box_no: u32) -> bool
    ensures { result ≡ list_all (λ u. nat_lt u box_no) taken.now }
{
    taken.iter().all(|u| *u < box_no)
}

// Takes a box with its coordinates, which comes behind those taken.
fn take_box(
    instance: &Instance,
    taken: &mut Vec<u32>,
    places: &mut Vec<u32>,
    numbers: &[u128],
) -> Result<(), LineStop>
    requires held { AreBoxesTaken instance.now taken.old.items places.old.items }
    requires count { length numbers.now ≡ dims instance.now + 1 }
    ensures kept { AreBoxesTaken instance.now taken.new.items places.new.items }
    ensures takes { TakesBox instance.now taken.old.items places.old.items numbers.now
        taken.new.items places.new.items result }
{
    let number = numbers[0];
    if !names_box(instance, number) {
        return Err(LineStop::Refused(RANGE));
    }
    let box_no = (number - 1) as u32;
    if !are_before(taken, box_no) {
        return Err(LineStop::Refused(RANGE));
    }
    if taken.reserve(1).is_err() {
        return Err(LineStop::NoMemory);
    }
    push_coordinates(places, &numbers[1..])?;
    taken.push_reserved(box_no);
    Ok(())
}

// The total value of taken boxes.
fn worth_of(instance: &Instance, taken: &[u32]) -> u128
    requires { IsBoxSet instance.now taken.now }
    ensures { result ≡ worth instance.now taken.now }
{
    let mut worth = 0u128;
    for v in taken {
        worth += instance.value(*v) as u128;
    }
    worth
}

// Why the taken boxes are refused, if they are: a place, or their value.
fn reason_of(
    alloc: Global,
    instance: &Instance,
    value: u64,
    taken: &[u32],
    places: &[u32],
) -> Result<Option<Reason>, LineStop>
    requires { AreBoxesTaken instance.now taken.now places.now }
    ensures { IsReasonOf (taken_reason instance.now value taken.now places.now) result }
{
    // For the proof alone: states the limits of the instance.
    let _max_boxes = instance.len();
    if !taken.is_empty() {
        let Ok(set) = instance.subset(alloc, taken) else {
            return Err(LineStop::NoMemory);
        };
        if let Some(reason) = group_reason(&set, taken, places) {
            return Ok(Some(reason));
        }
    }
    if worth_of(instance, taken) < value as u128 {
        return Ok(Some(Reason::TooLittle));
    }
    Ok(None)
}

/// Takes the `take` lines and `proof` behind them, where the taken boxes are tested.
///
/// It takes lines up to `proof`.
#[derive(Drop)]
pub struct TakenReader<'a> {
    alloc: Global,
    heading: Heading,
    instance: &'a Instance,
    claim: Claim,
    value: u64,
    taken: Vec<u32>,
    places: Vec<u32>,
    is_taken: bool,
}

impl<'a> Model for TakenReader<'a> {
    ghost use Rattle.std.specs.Prelude.{not, Some};
    ghost use Rattle.verdict_terms.specs.Stages.{value_stage};
    ghost use Rattle.document_lines.specs.Reading.{PlainJudge};
    ghost use Rattle.document_lines.specs.Takings.{take_stage, AreBoxesTaken};

    ghost Value = { PlainJudge };

    ghost view = { λ t. record {
      stage = take_stage t.heading t.instance.now t.claim t.value t.taken.items t.places.items t.is_taken;
      takes = not t.is_taken;
      behind = Some (value_stage t.heading t.instance.now t.claim);
    } };

    ghost invariant = { λ t. AreBoxesTaken t.instance.now t.taken.items t.places.items };
}

impl<'a> TakenReader<'a> {
    /// No box was taken; they are to be worth so much.
    pub fn new(
        alloc: Global,
        heading: Heading,
        instance: &'a Instance,
        claim: Claim,
        value: u64,
    ) -> TakenReader<'a>
        ensures { result ≡ record {
          stage = Taking heading instance.now claim value [] [];
          takes = true;
          behind = Some (value_stage heading instance.now claim);
        } }
    {
        TakenReader {
            alloc,
            heading,
            instance,
            claim,
            value,
            taken: Vec::new(alloc),
            places: Vec::new(alloc),
            is_taken: false,
        }
    }
}

impl<'a> LineJudge for TakenReader<'a> {
    ghost stage = { λ j. j.stage };

    ghost takes = { λ j. j.takes };

    ghost behind = { λ j. j.behind };

    fn line(&mut self, line: &LineLexer) -> Result<(), LineStop>
        requires { self.old.takes ≡ true }
        ensures judges { Judges self.old.stage line.now self.new.stage result }
        ensures behind { self.new.behind ≡ self.old.behind }
    {
        if is_blank(line) {
            return Ok(());
        }
        // For the proof alone: opens what contracts see into the fields.
        let _is_taken = self.is_taken;
        if line.bad_byte() {
            return Err(LineStop::Refused(FORM));
        }
        if is_word(line, b"proof") {
            if let Some(reason) = reason_of(
                self.alloc,
                self.instance,
                self.value,
                &self.taken,
                &self.places,
            )? {
                return Err(LineStop::Refused(reason));
            }
            self.is_taken = true;
            return Ok(());
        }
        match read_numbers(line, b"take", self.instance.dims() + 1) {
            Ok(numbers) => take_box(
                self.instance,
                &mut self.taken,
                &mut self.places,
                numbers.as_slice(),
            ),
            Err(reason) => Err(LineStop::Refused(reason)),
        }
    }

    fn is_paused(&self) -> bool
        ensures paused { result ≡ not self.now.takes }
        ensures behind { IsTrue result → IsAt self.now.behind self.now.stage }
    {
        self.is_taken
    }

    fn ended(&self) -> Option<Claim>
        ensures { result ≡ ended_claim self.now.stage }
    {
        // For the proof alone: opens what contracts see into the fields.
        let _is_taken = self.is_taken;
        None
    }
}
