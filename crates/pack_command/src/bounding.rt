//! `knapsack` with priced leaves.
ghost use Rattle.std.specs.Prelude.{◌≡◌, ◌≢◌, List, String, IfOk, IfErr};
ghost use Rattle.std.specs.declared.alloc.Global.{Global as PlainGlobal};
ghost use Rattle.pack_command.specs.Answered.{IsAnswerStatus};
ghost use Rattle.pack_command.specs.Asked.{AsksProposed, ValueBounds};
ghost use Rattle.pack_command.specs.Counts.{CountsReads, CountsWrites};
ghost use Rattle.pack_command.specs.Proposed.{IsProposedWritten, IsWithoutProposed};

use crate::input::read_input;
use crate::stop::Stop;
use answer_streams::{BoundedDocument, bounded_status, stream};
use bounded_answers::greatest_value_bounded;
use pack_streams::{Sink, Source};
use std::alloc::Global;
use std::sync::Wait;
use std::thread::Threads;
use work_share::{Gate, Settings};

/// Reads an instance, finds its greatest value or two values around it, and writes the document. It
/// answers the status, or why the document wasn't written whole.
pub(crate) fn run_bounded<R: Threads + Wait + Sync, S: Source, K: Sink, G: Gate + Sync>(
    rt: &R,
    alloc: Global,
    proposals: bool,
    settings: &Settings,
    input: &mut S,
    out: &mut K,
    gate: &G,
) -> Result<u8, Stop>
    ensures answered { (words : List (String PlainGlobal))
        → AsksProposed words (ValueBounds proposals) settings.now
        → IfOk result (IsProposedWritten words (S.left input.old) (S.left input.new)
        (K.written out.old) (K.written out.new)) }
    ensures status { IfOk result IsAnswerStatus }
    ensures stopped { (words : List (String PlainGlobal))
        → AsksProposed words (ValueBounds proposals) settings.now
        → IfErr result (IsWithoutProposed words (S.left input.old) (S.left input.new)
        (K.written out.old) (K.written out.new)) }
    ensures unwritten { IfErr result (λ stop. stop ≢ Stop.WriteFault → out.new ≡ out.old) }
    ensures reads { CountsReads (S.faults input.old) (S.faults input.new) result }
    ensures writes { CountsWrites (K.faults out.old) (K.faults out.new) result }
{
    let instance = read_input(alloc, input)?;
    let Ok(levels) = greatest_value_bounded(rt, alloc, &instance, settings, proposals, gate) else {
        return Err(Stop::NoMemory);
    };
    let document = BoundedDocument {
        instance: &instance,
        levels: &levels,
    };
    match stream(out, &document) {
        Ok(()) => Ok(bounded_status(&levels)),
        Err(_) => Err(Stop::WriteFault),
    }
}
