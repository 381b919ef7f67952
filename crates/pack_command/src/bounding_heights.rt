//! `strip` with families.
ghost use Rattle.std.specs.Prelude.{◌≡◌, ◌≢◌, List, String, IfOk, IfErr};
ghost use Rattle.std.specs.declared.alloc.Global.{Global as PlainGlobal};
ghost use Rattle.pack_command.specs.Answered.{IsAnswerStatus};
ghost use Rattle.pack_command.specs.Asked.{AsksProposed, HeightBounds};
ghost use Rattle.pack_command.specs.Counts.{CountsReads, CountsWrites};
ghost use Rattle.pack_command.specs.Proposed.{IsProposedWritten, IsWithoutProposed};

use crate::input::read_input;
use crate::stop::Stop;
use answer_streams::{BoundedStripDocument, bounded_strip_status, stream};
use bounded_answers::least_height_bounded;
use pack_streams::{Sink, Source};
use std::alloc::Global;
use std::sync::Wait;
use std::thread::Threads;
use work_share::{Gate, Settings};

/// Reads an instance, finds its least height or two heights around it, and writes the document.
/// Returns the status, or why the document wasn't written whole.
pub(crate) fn run_bounded_strip<R: Threads + Wait + Sync, S: Source, K: Sink, G: Gate + Sync>(
    rt: &R,
    alloc: Global,
    proposals: bool,
    settings: &Settings,
    input: &mut S,
    out: &mut K,
    gate: &G,
) -> Result<u8, Stop>
    ensures answered { (words : List (String PlainGlobal))
        → AsksProposed words (HeightBounds proposals) settings.now
        → IfOk result (IsProposedWritten words (S.left input.old) (S.left input.new)
        (K.written out.old) (K.written out.new)) }
    ensures status { IfOk result IsAnswerStatus }
    ensures stopped { (words : List (String PlainGlobal))
        → AsksProposed words (HeightBounds proposals) settings.now
        → IfErr result (IsWithoutProposed words (S.left input.old) (S.left input.new)
        (K.written out.old) (K.written out.new)) }
    ensures unwritten { IfErr result (λ stop. stop ≢ Stop.WriteFault → out.new ≡ out.old) }
    ensures reads { CountsReads (S.faults input.old) (S.faults input.new) result }
    ensures writes { CountsWrites (K.faults out.old) (K.faults out.new) result }
{
    let instance = read_input(alloc, input)?;
    let Ok(strip) = least_height_bounded(rt, alloc, &instance, settings, proposals, gate) else {
        return Err(Stop::NoMemory);
    };
    let document = BoundedStripDocument {
        instance: &instance,
        strip: &strip,
    };
    match stream(out, &document) {
        Ok(()) => Ok(bounded_strip_status(&strip)),
        Err(_) => Err(Stop::WriteFault),
    }
}
