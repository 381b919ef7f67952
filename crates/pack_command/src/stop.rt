//! Why a job ended without an answer, and what is said of it.
ghost use Rattle.std.specs.Prelude.{◌≡◌};
ghost use Rattle.pack_streams.specs.Writing.{Writes};
ghost use Rattle.pack_command.specs.Stops.{message_of, stop_status};

use pack_streams::{Sink, WriteFault, write_number, write_on};
use text_terms::TextFault;

/// Why a job ended without an answer.
#[derive(Clone, Copy, Debug, PartialEq, Eq)]
pub enum Stop {
    /// The words are no job.
    Words,
    /// The input is longer than the job takes: 1,048,576 bytes of an instance text, 16,777,216 of a
    /// document for `explain` or `audit`, and 1,099,511,627,776 of one for `check`, or of a bounded
    /// one for `audit`.
    TooLong,
    /// The input is no instance text.
    Text(TextFault),
    /// `front` was asked of an instance that hasn't two dimensions.
    Dimensions,
    /// The source failed.
    ReadFault,
    /// The sink failed.
    WriteFault,
    /// Memory was refused.
    NoMemory,
}

impl Stop {
    /// The status that the program ends with.
    pub fn status(self) -> u8
        ensures { result ≡ stop_status self }
    {
        match self {
            Stop::Words | Stop::TooLong | Stop::Text(_) | Stop::Dimensions => 2,
            Stop::ReadFault => 4,
            Stop::WriteFault => 5,
            Stop::NoMemory => 6,
        }
    }

    /// Writes the one line that names the cause.
    pub fn write_message<E: Sink>(self, err: &mut E) -> Result<(), WriteFault>
        ensures { Writes (E.written err.old) (E.written err.new) (E.faults err.old)
            (E.faults err.new) (message_of self) result }
    {
        match self {
            Stop::Words => write_on(err, Ok(()), USAGE),
            Stop::TooLong => write_on(err, Ok(()), b"pack: input too long\n"),
            Stop::Text(fault) => write_text_fault(err, fault),
            Stop::Dimensions => write_on(err, Ok(()), b"pack: front needs two dimensions\n"),
            Stop::ReadFault => write_on(err, Ok(()), b"pack: read fault\n"),
            Stop::WriteFault => write_on(err, Ok(()), b"pack: write fault\n"),
            Stop::NoMemory => write_on(err, Ok(()), b"pack: out of memory\n"),
        }
    }
}

const USAGE: &[u8] = b"usage: pack JOB [--workers N] [--budget B] [--scales yes|no] [--number X]\n";

// Writes the line and the code of a faulty text.
fn write_text_fault<E: Sink>(err: &mut E, fault: TextFault) -> Result<(), WriteFault>
    ensures { Writes (E.written err.old) (E.written err.new) (E.faults err.old) (E.faults err.new)
        (message_of (Stop.Text fault)) result }
{
    let named = write_on(err, Ok(()), b"pack: line ");
    let numbered = write_number(err, named, fault.line);
    let coded = write_on(err, numbered, b": code ");
    let written = write_number(err, coded, fault.code as u64);
    write_on(err, written, b"\n")
}
