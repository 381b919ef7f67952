//! The bins of a document.
ghost use Rattle.std.specs.Prelude.{◌≡◌, ◌+◌, ◌&&◌, length, nat_le, not, true, [], Some, IsTrue};
ghost use Rattle.packing_terms.specs.Packing.{dims};
ghost use Rattle.verdict_terms.specs.declared.heading.Heading.TheVariants.{Answer};
ghost use Rattle.verdict_terms.specs.Stages.{placed, refutation_goal};
ghost use Rattle.verdict_terms.specs.Stages.Stage.{Sharing};
ghost use Rattle.document_lines.specs.Reading.{Judges, IsAt, ended_claim};
ghost use Rattle.document_lines.specs.Sharings.{AreShares, TakesShare, TestsShares, HaveSides};

use crate::bins::bins_reason;
use crate::judge::{LineJudge, LineStop};
use crate::numbers::read_numbers;
use crate::places::push_coordinates;
use crate::words::{FORM, RANGE};
use box_instances::Instance;
use instance_text::{LineLexer, is_blank};
use std::alloc::Global;
use std::marker::Model;
use text_terms::Claim;

// Whether the number names a bin.
fn names_bin(bin_count: u32, number: u128) -> bool
    ensures { result ≡ (nat_le 1 number && nat_le number bin_count) }
{
    (1 <= number) & (number <= bin_count as u128)
}

// Takes the bin and the coordinates of the next box.
fn take_share(
    instance: &Instance,
    bin_count: u32,
    bins: &mut Vec<u32>,
    places: &mut Vec<u32>,
    numbers: &[u128],
) -> Result<(), LineStop>
    requires held { AreShares instance.now bin_count bins.old.items places.old.items }
    requires count { length numbers.now ≡ dims instance.now + 1 }
    ensures kept { AreShares instance.now bin_count bins.new.items places.new.items }
    ensures takes { TakesShare instance.now bin_count bins.old.items places.old.items numbers.now
        bins.new.items places.new.items result }
{
    let number = numbers[0];
    if !names_bin(bin_count, number) {
        return Err(LineStop::Refused(RANGE));
    }
    if bins.reserve(1).is_err() {
        return Err(LineStop::NoMemory);
    }
    push_coordinates(places, &numbers[1..])?;
    bins.push_reserved((number - 1) as u32);
    Ok(())
}

// Whether the bins of all boxes are there. Then the places are tested.
fn test_shares(
    alloc: Global,
    instance: &Instance,
    bin_count: u32,
    bins: &[u32],
    places: &[u32],
) -> Result<bool, LineStop>
    requires { AreShares instance.now bin_count bins.now places.now }
    ensures { TestsShares instance.now bin_count bins.now places.now result }
{
    if bins.len() != instance.len() as usize {
        return Ok(false);
    }
    match bins_reason(alloc, instance, bin_count, bins, places) {
        Ok(None) => Ok(true),
        Ok(Some(reason)) => Err(LineStop::Refused(reason)),
        Err(_) => Err(LineStop::NoMemory),
    }
}

/// Takes the `place` lines of all boxes with their bins, and tests the places.
///
/// It takes lines as long as places are wanted.
#[derive(Drop)]
pub struct BinPlaceReader<'a> {
    alloc: Global,
    instance: &'a Instance,
    claim: Claim,
    bin_count: u32,
    bins: Vec<u32>,
    places: Vec<u32>,
    is_shared: bool,
}

impl<'a> Model for BinPlaceReader<'a> {
    ghost use Rattle.std.specs.Prelude.{not, Some};
    ghost use Rattle.verdict_terms.specs.declared.heading.Heading.TheVariants.{Answer};
    ghost use Rattle.verdict_terms.specs.Stages.{placed, refutation_goal};
    ghost use Rattle.document_lines.specs.Reading.{PlainJudge};
    ghost use Rattle.document_lines.specs.Sharings.{share_stage, IsShared};

    ghost Value = { PlainJudge };

    ghost view = { λ s. record {
      stage = share_stage s.instance.now s.claim s.bin_count s.bins.items s.places.items
          s.is_shared;
      takes = not s.is_shared;
      behind = Some (placed Answer s.claim (refutation_goal Answer s.instance.now s.claim));
    } };

    ghost invariant = { λ s. IsShared s.instance.now s.bin_count s.bins.items s.places.items
        s.is_shared };
}

impl<'a> BinPlaceReader<'a> {
    /// No line was taken; the boxes are in `bin_count` bins.
    pub fn new(
        alloc: Global,
        instance: &'a Instance,
        claim: Claim,
        bin_count: u32,
    ) -> BinPlaceReader<'a>
        ensures { result ≡ record {
          stage = Sharing instance.now claim bin_count [] [];
          takes = true;
          behind = Some (placed Answer claim (refutation_goal Answer instance.now claim));
        } }
    {
        BinPlaceReader {
            alloc,
            instance,
            claim,
            bin_count,
            bins: Vec::new(alloc),
            places: Vec::new(alloc),
            is_shared: false,
        }
    }

    /// Whether all bins were taken. Then no side of a box exceeds the container's.
    pub fn are_shared(&self) -> bool
        ensures shared { result ≡ not self.now.takes }
        ensures sides { HaveSides self.now.stage }
    {
        self.is_shared
    }
}

impl<'a> LineJudge for BinPlaceReader<'a> {
    ghost stage = { λ j. j.stage };

    ghost takes = { λ j. j.takes };

    ghost behind = { λ j. j.behind };

    fn line(&mut self, line: &LineLexer) -> Result<(), LineStop>
        requires { self.old.takes ≡ true }
        ensures judges { Judges self.old.stage line.now self.new.stage result }
        ensures behind { self.new.behind ≡ self.old.behind }
    {
        if is_blank(line) {
            return Ok(());
        }
        // For the proof alone: opens what contracts see into the fields.
        let _is_shared = self.is_shared;
        if line.bad_byte() {
            return Err(LineStop::Refused(FORM));
        }
        let numbers = match read_numbers(line, b"place", self.instance.dims() + 1) {
            Ok(numbers) => numbers,
            Err(reason) => return Err(LineStop::Refused(reason)),
        };
        take_share(
            self.instance,
            self.bin_count,
            &mut self.bins,
            &mut self.places,
            numbers.as_slice(),
        )?;
        if test_shares(
            self.alloc,
            self.instance,
            self.bin_count,
            &self.bins,
            &self.places,
        )? {
            self.is_shared = true;
        }
        Ok(())
    }

    fn is_paused(&self) -> bool
        ensures paused { result ≡ not self.now.takes }
        ensures behind { IsTrue result → IsAt self.now.behind self.now.stage }
    {
        self.is_shared
    }

    fn ended(&self) -> Option<Claim>
        ensures { result ≡ ended_claim self.now.stage }
    {
        // For the proof alone: opens what contracts see into the fields.
        let _is_shared = self.is_shared;
        None
    }
}
