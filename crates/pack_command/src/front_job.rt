//! The job `front`: all least widths and heights of an instance of two dimensions.
ghost use Rattle.std.specs.Prelude.{◌≡◌, ◌≢◌, List, String, IfOk, IfErr};
ghost use Rattle.std.specs.declared.alloc.Global.{Global as PlainGlobal};
ghost use Rattle.packing_terms.specs.Limits.{IsInstance};
ghost use Rattle.packing_terms.specs.Packing.{dims, box_count};
ghost use Rattle.answer_terms.specs.Walks.{front_walk};
ghost use Rattle.size_front.specs.Plain.{plain_front};
ghost use Rattle.answer_streams.specs.FrontTexts.{AreAllPlaced};
ghost use Rattle.pack_command.specs.Answered.{IsAnswerStatus};
ghost use Rattle.pack_command.specs.Asked.{AsksFront};
ghost use Rattle.pack_command.specs.Counts.{CountsReads, CountsWrites};
ghost use Rattle.pack_command.specs.Fronts.{IsFrontWritten, IsWithoutFront};

use crate::input::read_input;
use crate::stop::Stop;
use answer_streams::{FrontDocument, front_status, stream};
use box_instances::{Instance, NoMemory};
use pack_streams::{Sink, Source};
use size_front::{Front, least_sizes};
use std::alloc::Global;
use std::sync::Wait;
use std::thread::Threads;
use work_share::{Gate, Settings};

// The front of an instance, whose points have a place for each box.
fn found<R: Threads + Wait + Sync, G: Gate + Sync>(
    rt: &R,
    alloc: Global,
    instance: &Instance,
    settings: &Settings,
    gate: &G,
) -> Result<Front, NoMemory>
    requires limits { IsInstance instance.now }
    requires plane { dims instance.now ≡ 2 }
    ensures walk { IfOk result (λ f. plain_front f
        ≡ front_walk instance.now settings.now.budget settings.now.scales) }
    ensures placed { IfOk result (λ f. AreAllPlaced (box_count instance.now) f.points.items) }
{
    least_sizes(rt, alloc, instance, settings, gate)
}

/// Reads an instance, walks along its front, and writes the document. It answers the status of the
/// front, or why the document wasn't written whole.
pub(crate) fn run_front<R: Threads + Wait + Sync, S: Source, K: Sink, G: Gate + Sync>(
    rt: &R,
    alloc: Global,
    settings: &Settings,
    input: &mut S,
    out: &mut K,
    gate: &G,
) -> Result<u8, Stop>
    ensures answered { (words : List (String PlainGlobal)) → AsksFront words settings.now
        → IfOk result (IsFrontWritten words (S.left input.old) (S.left input.new)
        (K.written out.old) (K.written out.new)) }
    ensures status { IfOk result IsAnswerStatus }
    ensures stopped { (words : List (String PlainGlobal)) → AsksFront words settings.now
        → IfErr result (IsWithoutFront words (S.left input.old) (S.left input.new)
        (K.written out.old) (K.written out.new)) }
    ensures unwritten { IfErr result (λ stop. stop ≢ Stop.WriteFault → out.new ≡ out.old) }
    ensures reads { CountsReads (S.faults input.old) (S.faults input.new) result }
    ensures writes { CountsWrites (K.faults out.old) (K.faults out.new) result }
{
    let instance = read_input(alloc, input)?;
    if instance.dims() != 2 {
        return Err(Stop::Dimensions);
    }
    let Ok(front) = found(rt, alloc, &instance, settings, gate) else {
        return Err(Stop::NoMemory);
    };
    let document = FrontDocument {
        instance: &instance,
        front: &front,
    };
    match stream(out, &document) {
        Ok(()) => Ok(front_status(&front)),
        Err(_) => Err(Stop::WriteFault),
    }
}
