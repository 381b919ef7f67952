//! The lines of a document up to its result line.
ghost use Rattle.std.specs.Prelude.{◌≡◌, ◌≤◌, ◌<◌, length, not, Ok, None, true, IsTrue, IfOk};
ghost use Rattle.text_terms.specs.Lines.{same_bytes};
ghost use Rattle.text_terms.specs.Texts.{no_parts};
ghost use Rattle.text_terms.specs.Feeding.{ended_line};
ghost use Rattle.verdict_terms.specs.Stages.{claimed, heading_word, job_named, job_headed, filled_line, is_result, rest_of, result_line};
ghost use Rattle.verdict_terms.specs.Stages.Stage.{Beginning, Reading};
ghost use Rattle.verdict_terms.specs.Trees.{map_ok};
ghost use Rattle.document_lines.specs.Reading.{Judges, IsAt, ended_claim};
ghost use Rattle.document_lines.specs.Ranges.{IsRanged};
ghost use Rattle.instance_text.specs.Readers.{held_parts, IsHeldHead};
ghost use Rattle.document_lines.specs.Heads.{IsClaimedAs, IsRangedClaim, TakesText};

use crate::claim::read_claim;
use crate::judge::{LineJudge, LineStop};
use crate::words::{FORM, is_result};
use box_instances::Instance;
use instance_text::{InstanceReader, LineLexer, ReadTextError, is_blank, is_same};
use std::alloc::Global;
use std::marker::Model;
use std::mem;
use text_terms::{Claim, SolvingJob};
use verdict_terms::{Heading, Reason};

/// An instance, and what a document claims of it under its heading.
#[derive(Drop)]
pub struct Claimed {
    pub heading: Heading,
    pub instance: Instance,
    pub claim: Claim,
}

// The job that a word names.
fn job_named(word: &[u8]) -> Result<SolvingJob, Reason>
    ensures { result ≡ job_named word.now }
{
    if is_same(word, b"fit") {
        return Ok(SolvingJob::Fit);
    }
    if is_same(word, b"strip") {
        return Ok(SolvingJob::Strip);
    }
    if is_same(word, b"bins") {
        return Ok(SolvingJob::Bins);
    }
    if is_same(word, b"knapsack") {
        return Ok(SolvingJob::Knapsack);
    }
    Err(FORM)
}

// The job that a word names behind the first word of a heading.
fn job_headed(heading: Heading, word: &[u8]) -> Result<SolvingJob, Reason>
    ensures { result ≡ job_headed heading word.now }
{
    match heading {
        Heading::Answer => job_named(word),
        Heading::Reduced => {
            if is_same(word, b"fit") {
                Ok(SolvingJob::Fit)
            } else if is_same(word, b"strip") {
                Ok(SolvingJob::Strip)
            } else {
                Err(FORM)
            }
        }
        Heading::Bounded => {
            if is_same(word, b"knapsack") {
                Ok(SolvingJob::Knapsack)
            } else if is_same(word, b"strip") {
                Ok(SolvingJob::Strip)
            } else {
                Err(FORM)
            }
        }
    }
}

// Whether the word is the first word of a heading.
fn is_heading(heading: Heading, word: &[u8]) -> bool
    ensures { result ≡ same_bytes word.now (heading_word heading) }
{
    match heading {
        Heading::Answer => is_same(word, b"answer"),
        Heading::Reduced => is_same(word, b"reduced"),
        Heading::Bounded => is_same(word, b"bounded"),
    }
}

// The job of the first line.
fn read_job(heading: Heading, line: &LineLexer) -> Result<SolvingJob, Reason>
    ensures { map_ok (λ job. Reading heading job no_parts) result
        ≡ filled_line (Beginning heading) (ended_line line.now.held) }
{
    if line.bad_byte() {
        return Err(FORM);
    }
    if line.word_count() != 2 {
        return Err(FORM);
    }
    if !is_heading(heading, line.word(0)) {
        return Err(FORM);
    }
    job_headed(heading, line.word(1))
}

// The instance that was read, with the claim of the result line.
fn read_result(
    heading: Heading,
    job: SolvingJob,
    reader: InstanceReader,
    line: &LineLexer,
) -> Result<Claimed, Reason>
    requires held { IsHeldHead reader }
    requires some { 1 ≤ length line.now.held.words }
    ensures heading { IfOk result (λ c. c.heading ≡ heading) }
    ensures claimed { map_ok (λ (c : Claimed). claimed heading c.instance c.claim) result
        ≡ result_line heading job (held_parts reader) (rest_of line.now.held.words) }
    ensures ranged { IfOk result (λ c. IsRanged c.instance c.claim) }
{
    let instance = match reader.finish(0) {
        Ok(instance) => instance,
        Err(ReadTextError::Fault(fault)) => return Err(Reason::Text { code: fault.code }),
        Err(ReadTextError::NoMemory) => unreachable!(),
    };
    let claim = read_claim(job, &instance, line)?;
    Ok(Claimed {
        heading,
        instance,
        claim,
    })
}

// Takes a line of the instance text. A reader that can't go on is replaced by a new one.
fn take_text(alloc: Global, reader: &mut InstanceReader, line: &LineLexer) -> Result<(), LineStop>
    requires { IsHeldHead reader.old }
    ensures held { IsHeldHead reader.new }
    ensures text { TakesText (held_parts reader.old) (ended_line line.now.held)
        (held_parts reader.new) result }
{
    let stop = match reader.line(line) {
        Ok(()) => return Ok(()),
        Err(ReadTextError::Fault(fault)) => LineStop::Refused(Reason::Text { code: fault.code }),
        Err(ReadTextError::NoMemory) => LineStop::NoMemory,
    };
    *reader = InstanceReader::new(alloc);
    Err(stop)
}

/// Takes the lines of a document up to its result line: the heading with the job, the instance
/// text, the claim.
///
/// It takes lines up to the result line.
#[derive(Drop)]
pub struct HeadReader {
    alloc: Global,
    heading: Heading,
    job: Option<SolvingJob>,
    reader: InstanceReader,
    claimed: Option<Claimed>,
}

impl Model for HeadReader {
    ghost use Rattle.std.specs.Prelude.{None};
    ghost use Rattle.document_lines.specs.Reading.{PlainJudge};
    ghost use Rattle.document_lines.specs.Ranges.{IsRanged};
    ghost use Rattle.document_lines.specs.Heads.{head_stage, is_open, IsHeldBehind, IsRangedClaim, IsClaimedUnder};

    ghost Value = { PlainJudge };

    ghost view = { λ h. record {
      stage = head_stage h.heading h.job h.reader h.claimed;
      takes = is_open h.claimed;
      behind = None;
    } };

    ghost invariant = { λ h. IsHeldBehind h.job h.reader × IsRangedClaim h.claimed
        × IsClaimedUnder h.heading h.claimed };
}

impl HeadReader {
    /// No line was taken of a document that has to begin with this heading.
    pub fn new(alloc: Global, heading: Heading) -> HeadReader
        ensures { result ≡ record { stage = Beginning heading; takes = true; behind = None } }
    {
        HeadReader {
            alloc,
            heading,
            job: None,
            reader: InstanceReader::new(alloc),
            claimed: None,
        }
    }

    /// The heading was taken: it names this job, and no line of the instance text was taken.
    pub fn behind_heading(alloc: Global, heading: Heading, job: SolvingJob) -> HeadReader
        ensures { result
            ≡ record { stage = Reading heading job no_parts; takes = true; behind = None } }
    {
        HeadReader {
            alloc,
            heading,
            job: Some(job),
            reader: InstanceReader::new(alloc),
            claimed: None,
        }
    }

    /// What the result line claims, if it was read.
    pub fn into_claimed(self) -> Option<Claimed>
        ensures claimed { IsClaimedAs self.stage self.takes result }
        ensures ranged { IsRangedClaim result }
    {
        let HeadReader { claimed, .. } = self;
        claimed
    }
}

impl LineJudge for HeadReader {
    ghost stage = { λ j. j.stage };

    ghost takes = { λ j. j.takes };

    ghost behind = { λ j. j.behind };

    fn line(&mut self, line: &LineLexer) -> Result<(), LineStop>
        requires { self.old.takes ≡ true }
        ensures judges { Judges self.old.stage line.now self.new.stage result }
        ensures behind { self.new.behind ≡ self.old.behind }
    {
        if is_blank(line) {
            return Ok(());
        }
        let Some(job) = self.job else {
            return match read_job(self.heading, line) {
                Ok(job) => {
                    self.job = Some(job);
                    Ok(())
                }
                Err(reason) => Err(LineStop::Refused(reason)),
            };
        };
        if !is_result(line) {
            return take_text(self.alloc, &mut self.reader, line);
        }
        let reader = mem::replace(&mut self.reader, InstanceReader::new(self.alloc));
        match read_result(self.heading, job, reader, line) {
            Ok(claimed) => {
                self.claimed = Some(claimed);
                Ok(())
            }
            Err(reason) => Err(LineStop::Refused(reason)),
        }
    }

    fn is_paused(&self) -> bool
        ensures paused { result ≡ not self.now.takes }
        ensures behind { IsTrue result → IsAt self.now.behind self.now.stage }
    {
        self.claimed.is_some()
    }

    fn ended(&self) -> Option<Claim>
        ensures { result ≡ ended_claim self.now.stage }
    {
        // For the proof alone: opens what contracts see into the fields.
        let _is_claimed = self.claimed.is_some();
        None
    }
}
