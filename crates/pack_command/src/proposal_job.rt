//! The solving jobs with proposals: an instance is decided by them first, and then by its trees.
ghost use Rattle.std.specs.Prelude.{◌≡◌, ◌≢◌, List, String, IfOk, IfErr};
ghost use Rattle.std.specs.declared.alloc.Global.{Global as PlainGlobal};
ghost use Rattle.packing_terms.specs.Limits.{IsInstance};
ghost use Rattle.pack_command.specs.Answered.{IsAnswerStatus};
ghost use Rattle.pack_command.specs.Asked.{AsksProposed, Plain};
ghost use Rattle.pack_command.specs.Counts.{CountsReads, CountsWrites};
ghost use Rattle.pack_command.specs.Proposed.{IsProposedSolution, IsProposedWritten, IsWithoutProposed};

use crate::input::read_input;
use crate::stop::Stop;
use answer_streams::{AnswerDocument, Solution, stream};
use box_instances::{Instance, NoMemory};
use pack_streams::{Sink, Source};
use proposed_answers::{
    decide_proposed, greatest_value_proposed, least_bins_proposed, least_height_proposed,
};
use std::alloc::Global;
use std::sync::Wait;
use std::thread::Threads;
use text_terms::SolvingJob;
use work_share::{Gate, Settings};

// What is found for an instance, by proposals first.
fn found<R: Threads + Wait + Sync, G: Gate + Sync>(
    rt: &R,
    alloc: Global,
    instance: &Instance,
    job: SolvingJob,
    settings: &Settings,
    gate: &G,
) -> Result<Solution, NoMemory>
    requires limits { IsInstance instance.now }
    ensures { IfOk result (λ s. IsProposedSolution job settings.now instance.now s) }
{
    match job {
        SolvingJob::Fit => {
            let outcome = decide_proposed(rt, alloc, instance, settings, gate)?;
            Ok(Solution::Fit(outcome))
        }
        SolvingJob::Strip => {
            let strip = least_height_proposed(rt, alloc, instance, settings, gate)?;
            Ok(Solution::Strip(strip))
        }
        SolvingJob::Bins => {
            let bins = least_bins_proposed(rt, alloc, instance, settings, gate)?;
            Ok(Solution::Bins(bins))
        }
        SolvingJob::Knapsack => {
            let choice = greatest_value_proposed(rt, alloc, instance, settings, gate)?;
            Ok(Solution::Knapsack(choice))
        }
    }
}

/// Reads an instance, decides it by proposals first, and writes the document. It answers the
/// status, or why the document wasn't written whole.
pub(crate) fn run_proposed<R: Threads + Wait + Sync, S: Source, K: Sink, G: Gate + Sync>(
    rt: &R,
    alloc: Global,
    job: SolvingJob,
    settings: &Settings,
    input: &mut S,
    out: &mut K,
    gate: &G,
) -> Result<u8, Stop>
    ensures answered { (words : List (String PlainGlobal))
        → AsksProposed words (Plain job) settings.now
        → IfOk result (IsProposedWritten words (S.left input.old) (S.left input.new)
        (K.written out.old) (K.written out.new)) }
    ensures status { IfOk result IsAnswerStatus }
    ensures stopped { (words : List (String PlainGlobal))
        → AsksProposed words (Plain job) settings.now
        → IfErr result (IsWithoutProposed words (S.left input.old) (S.left input.new)
        (K.written out.old) (K.written out.new)) }
    ensures unwritten { IfErr result (λ stop. stop ≢ Stop.WriteFault → out.new ≡ out.old) }
    ensures reads { CountsReads (S.faults input.old) (S.faults input.new) result }
    ensures writes { CountsWrites (K.faults out.old) (K.faults out.new) result }
{
    let instance = read_input(alloc, input)?;
    let Ok(solution) = found(rt, alloc, &instance, job, settings, gate) else {
        return Err(Stop::NoMemory);
    };
    let document = AnswerDocument {
        instance: &instance,
        solution: &solution,
    };
    match stream(out, &document) {
        Ok(()) => Ok(solution.status()),
        Err(_) => Err(Stop::WriteFault),
    }
}
