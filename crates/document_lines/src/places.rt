//! The places of a document.
ghost use Rattle.std.specs.Prelude.{◌≡◌, ◌*◌, ◌≤◌, ◌++◌, length, not, true, [], Some, IsTrue};
ghost use Rattle.packing_terms.specs.Packing.{dims, box_count};
ghost use Rattle.text_terms.specs.Feeding.{ended_line};
ghost use Rattle.verdict_terms.specs.Numbers.{are_coordinates};
ghost use Rattle.verdict_terms.specs.Stages.{placed, refutation_goal, places_reason};
ghost use Rattle.verdict_terms.specs.Stages.Stage.{Placing};
ghost use Rattle.document_lines.specs.Reading.{Judges, IsAt, ended_claim};
ghost use Rattle.document_lines.specs.Placings.{TakesCoordinates};

use crate::judge::{LineJudge, LineStop};
use crate::numbers::read_numbers;
use crate::words::{FORM, RANGE};
use box_instances::Instance;
use instance_text::{LineLexer, is_blank};
use placement_check::{PlaceVerdict, check_places};
use std::alloc::Global;
use std::marker::Model;
use text_terms::Claim;
use verdict_terms::{Heading, Reason};

// The most that a coordinate is.
const MOST_COORDINATE: u128 = 4_294_967_295;

// Whether all numbers are coordinates.
fn are_coordinates(numbers: &[u128]) -> bool
    ensures { result ≡ are_coordinates numbers.now }
{
    numbers.iter().all(|n| *n <= MOST_COORDINATE)
}

// Puts coordinates behind the others.
pub(crate) fn push_coordinates(places: &mut Vec<u32>, numbers: &[u128]) -> Result<(), LineStop>
    ensures { TakesCoordinates places.old.items numbers.now places.new.items result }
{
    if !are_coordinates(numbers) {
        return Err(LineStop::Refused(RANGE));
    }
    if places.reserve(numbers.len()).is_err() {
        return Err(LineStop::NoMemory);
    }
    for n in numbers {
        places.push_reserved(*n as u32);
    }
    Ok(())
}

// Why places of all boxes are refused, if they are.
fn places_reason(instance: &Instance, places: &[u32]) -> Option<Reason>
    requires { length places.now ≡ box_count instance.now * dims instance.now }
    ensures { result ≡ places_reason instance.now places.now }
{
    let (_max_boxes, _most_dims) = (instance.len(), instance.dims());
    match check_places(instance, places) {
        PlaceVerdict::Good => None,
        PlaceVerdict::Outside { box_no, dim } => Some(Reason::OutsideAt {
            box_no: box_no + 1,
            dim: dim + 1,
        }),
        PlaceVerdict::Overlap { first, second } => Some(Reason::OverlapAt {
            first: first + 1,
            second: second + 1,
        }),
    }
}

/// Takes the `place` lines of all boxes, and tests the places.
///
/// It takes lines as long as places are wanted.
#[derive(Drop)]
pub struct PlaceReader<'a> {
    heading: Heading,
    // The instance of the document, and in the container in which the places are to lie.
    instance: &'a Instance,
    held: &'a Instance,
    claim: Claim,
    places: Vec<u32>,
    are_placed: bool,
}

impl<'a> Model for PlaceReader<'a> {
    ghost use Rattle.std.specs.Prelude.{not, Some};
    ghost use Rattle.verdict_terms.specs.Stages.{placed, refutation_goal};
    ghost use Rattle.document_lines.specs.Reading.{PlainJudge};
    ghost use Rattle.document_lines.specs.Placings.{place_stage};

    ghost Value = { PlainJudge };

    ghost view = { λ p. record {
      stage = place_stage p.heading p.instance.now p.held.now p.claim p.places.items p.are_placed;
      takes = not p.are_placed;
      behind = Some (placed p.heading p.claim (refutation_goal p.heading p.instance.now p.claim));
    } };
}

impl<'a> PlaceReader<'a> {
    /// No line was taken.
    pub fn new(
        alloc: Global,
        heading: Heading,
        instance: &'a Instance,
        held: &'a Instance,
        claim: Claim,
    ) -> PlaceReader<'a>
        ensures { result ≡ record {
          stage = Placing heading held.now claim (refutation_goal heading instance.now claim) [];
          takes = true;
          behind = Some (placed heading claim (refutation_goal heading instance.now claim));
        } }
    {
        PlaceReader {
            heading,
            instance,
            held,
            claim,
            places: Vec::new(alloc),
            are_placed: false,
        }
    }
}

impl<'a> LineJudge for PlaceReader<'a> {
    ghost stage = { λ j. j.stage };

    ghost takes = { λ j. j.takes };

    ghost behind = { λ j. j.behind };

    fn line(&mut self, line: &LineLexer) -> Result<(), LineStop>
        requires { self.old.takes ≡ true }
        ensures judges { Judges self.old.stage line.now self.new.stage result }
        ensures behind { self.new.behind ≡ self.old.behind }
    {
        if is_blank(line) {
            return Ok(());
        }
        // For the proof alone: opens what contracts see into the fields.
        let _are_placed = self.are_placed;
        if line.bad_byte() {
            return Err(LineStop::Refused(FORM));
        }
        let dims = self.held.dims();
        let numbers = match read_numbers(line, b"place", dims) {
            Ok(numbers) => numbers,
            Err(reason) => return Err(LineStop::Refused(reason)),
        };
        push_coordinates(&mut self.places, numbers.as_slice())?;
        if self.places.len() != self.held.len() as usize * dims as usize {
            return Ok(());
        }
        match places_reason(self.held, &self.places) {
            Some(reason) => Err(LineStop::Refused(reason)),
            None => {
                self.are_placed = true;
                Ok(())
            }
        }
    }

    fn is_paused(&self) -> bool
        ensures paused { result ≡ not self.now.takes }
        ensures behind { IsTrue result → IsAt self.now.behind self.now.stage }
    {
        self.are_placed
    }

    fn ended(&self) -> Option<Claim>
        ensures { result ≡ ended_claim self.now.stage }
    {
        // For the proof alone: opens what contracts see into the fields.
        let _are_placed = self.are_placed;
        None
    }
}
