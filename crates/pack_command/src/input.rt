//! What a source gives: an instance, or a document.
ghost use Rattle.std.specs.Prelude.{IfOk};
ghost use Rattle.packing_terms.specs.Limits.{IsInstance};
ghost use Rattle.pack_command.specs.Counts.{CountsReads};
ghost use Rattle.pack_command.specs.Inputs.{IsInputRead};
ghost use Rattle.pack_command.specs.Readings.{IsDocumentRead};

use crate::stop::Stop;
use box_instances::Instance;
use instance_text::{ReadTextError, read_instance};
use pack_streams::{ReadStop, Source, read_up_to};
use std::alloc::Global;

// The most bytes that the text of an instance may have.
const LIMIT: usize = 1_048_576;

/// The most bytes that a document may have which is read whole.
pub(crate) const DOCUMENT_LIMIT: usize = 16_777_216;

/// Reads the whole source as the text of an instance.
pub(crate) fn read_input<S: Source>(alloc: Global, input: &mut S) -> Result<Instance, Stop>
    ensures moves { IsInputRead (S.left input.old) (S.left input.new) result }
    ensures limits { IfOk result IsInstance }
    ensures reads { CountsReads (S.faults input.old) (S.faults input.new) result }
{
    let text = match read_up_to(alloc, input, LIMIT) {
        Ok(text) => text,
        Err(ReadStop::TooLong) => return Err(Stop::TooLong),
        Err(ReadStop::ReadFault) => return Err(Stop::ReadFault),
        Err(ReadStop::NoMemory) => return Err(Stop::NoMemory),
    };
    match read_instance(alloc, &text) {
        Ok(instance) => Ok(instance),
        Err(ReadTextError::Fault(fault)) => Err(Stop::Text(fault)),
        Err(ReadTextError::NoMemory) => Err(Stop::NoMemory),
    }
}

/// Reads the whole source as the bytes of a document.
pub(crate) fn read_document<S: Source>(alloc: Global, input: &mut S) -> Result<Vec<u8>, Stop>
    ensures moves { IsDocumentRead (S.left input.old) (S.left input.new) result }
    ensures reads { CountsReads (S.faults input.old) (S.faults input.new) result }
{
    match read_up_to(alloc, input, DOCUMENT_LIMIT) {
        Ok(bytes) => Ok(bytes),
        Err(ReadStop::TooLong) => Err(Stop::TooLong),
        Err(ReadStop::ReadFault) => Err(Stop::ReadFault),
        Err(ReadStop::NoMemory) => Err(Stop::NoMemory),
    }
}
