//! Tests of sources and sinks: those in memory, and those over std's readers and writers.
use pack_streams::{
    DropSink, MemorySink, MemorySource, ReadAnswer, ReadStep, ReadStop, Sink, Source, StdSink,
    StdSource, WriteAnswer, WriteFault, WriteStep, read_up_to, write_all, write_number, write_on,
};
use std::io;
use std::test::Fail;

#[test]
fn a_planned_source_gives_what_its_steps_say(rt: HostRuntime) -> Result<(), Fail> {
    let alloc = rt.alloc();
    let plan = [ReadStep::Give(0), ReadStep::Fail, ReadStep::Give(3)];
    let mut source = MemorySource::new(
        Vec::from_slice(alloc, b"abcdefgh")?,
        Vec::from_slice(alloc, &plan)?,
    );
    let mut room = [0u8; 5];
    assert!(rt; source.read(&mut room) == ReadAnswer::Got(1));
    assert!(rt; source.read(&mut room) == ReadAnswer::Failed);
    assert!(rt; source.read(&mut room) == ReadAnswer::Got(3));
    assert!(rt; room == *b"bcd\0\0");
    assert!(rt; source.read(&mut room) == ReadAnswer::Got(4));
    assert!(rt; room == *b"efgh\0");
    assert!(rt; source.read(&mut room) == ReadAnswer::End);
    Ok(())
}

#[test]
fn a_planned_sink_takes_what_its_steps_say(rt: HostRuntime) -> Result<(), Fail> {
    let alloc = rt.alloc();
    let plan = [WriteStep::Take(0), WriteStep::Fail, WriteStep::Take(2)];
    let mut sink = MemorySink::new(alloc, 5, Vec::from_slice(alloc, &plan)?)?;
    assert!(rt; sink.write(b"abc") == WriteAnswer::Took(1));
    assert!(rt; sink.write(b"bcd") == WriteAnswer::Failed);
    assert!(rt; sink.write(b"bcd") == WriteAnswer::Took(2));
    assert!(rt; sink.write(b"defg") == WriteAnswer::Took(2));
    assert!(rt; sink.write(b"f") == WriteAnswer::Failed);
    assert!(rt; sink.written() == b"abcde".as_slice());
    Ok(())
}

#[test]
fn reading_ends_at_the_limit_and_at_a_failure(rt: HostRuntime) -> Result<(), Fail> {
    let alloc = rt.alloc();
    let mut whole = MemorySource::new(Vec::from_slice(alloc, b"abc")?, Vec::new(alloc));
    assert!(rt; read_up_to(alloc, &mut whole, 3)?.as_slice() == b"abc".as_slice());
    let mut long = MemorySource::new(Vec::from_slice(alloc, b"abc")?, Vec::new(alloc));
    assert!(rt; read_up_to(alloc, &mut long, 2).err() == Some(ReadStop::TooLong));
    let plan = [ReadStep::Give(2), ReadStep::Fail];
    let mut broken = MemorySource::new(
        Vec::from_slice(alloc, b"abc")?,
        Vec::from_slice(alloc, &plan)?,
    );
    assert!(rt; read_up_to(alloc, &mut broken, 3).err() == Some(ReadStop::ReadFault));
    Ok(())
}

#[test]
fn writing_ends_at_the_first_failure(rt: HostRuntime) -> Result<(), Fail> {
    let alloc = rt.alloc();
    let plan = [WriteStep::Take(2), WriteStep::Take(1), WriteStep::Fail];
    let mut sink = MemorySink::new(alloc, 9, Vec::from_slice(alloc, &plan)?)?;
    assert!(rt; write_all(&mut sink, b"abcde") == Err(WriteFault));
    assert!(rt; sink.written() == b"abc".as_slice());
    assert!(rt; write_on(&mut sink, Err(WriteFault), b"x") == Err(WriteFault));
    assert!(rt; sink.written() == b"abc".as_slice());
    assert!(rt; write_on(&mut sink, Ok(()), b"de") == Ok(()));
    assert!(rt; sink.written() == b"abcde".as_slice());
    assert!(rt; write_number(&mut sink, Ok(()), 2073) == Ok(()));
    assert!(rt; sink.written() == b"abcde2073".as_slice());
    assert!(rt; DropSink::new().write(b"abc") == WriteAnswer::Took(3));
    Ok(())
}

// Gives one byte, then the end, then fails.
#[derive(Drop)]
struct ShortReader {
    calls: u32,
}

impl io::Read for ShortReader {
    fn read(&mut self, into: &mut [u8]) -> io::Result<usize> {
        let call = self.calls;
        self.calls = call.wrapping_add(1);
        match call {
            0 if !into.is_empty() => {
                into[0] = b'a';
                Ok(1)
            }
            0 | 1 => Ok(0),
            _ => Err(io::Error::from(io::ErrorKind::Other)),
        }
    }
}

// Takes one byte, then nothing, then fails, and at last takes one byte that can't be flushed.
#[derive(Drop)]
struct ShortWriter {
    calls: u32,
    flushes: u32,
}

impl io::Write for ShortWriter {
    fn write(&mut self, piece: &[u8]) -> io::Result<usize> {
        let call = self.calls;
        self.calls = call.wrapping_add(1);
        match call {
            0 | 3 => Ok(piece.len().min(1)),
            1 => Ok(0),
            _ => Err(io::Error::from(io::ErrorKind::Other)),
        }
    }

    fn flush(&mut self) -> io::Result<()> {
        let flush = self.flushes;
        self.flushes = flush.wrapping_add(1);
        match flush {
            0 => Ok(()),
            _ => Err(io::Error::from(io::ErrorKind::Other)),
        }
    }
}

#[test]
fn a_reader_gives_its_bytes_its_end_and_its_failures(rt: HostRuntime) {
    let mut source = StdSource::new(ShortReader { calls: 0 });
    let mut room = [0u8; 4];
    assert!(rt; source.read(&mut room) == ReadAnswer::Got(1));
    assert!(rt; room[0] == b'a');
    assert!(rt; source.read(&mut room) == ReadAnswer::End);
    assert!(rt; source.read(&mut room) == ReadAnswer::Failed);
}

#[test]
fn a_writer_that_takes_nothing_or_cannot_flush_fails(rt: HostRuntime) {
    let mut sink = StdSink::new(ShortWriter {
        calls: 0,
        flushes: 0,
    });
    assert!(rt; sink.write(b"ab") == WriteAnswer::Took(1));
    assert!(rt; sink.write(b"b") == WriteAnswer::Failed);
    assert!(rt; sink.write(b"b") == WriteAnswer::Failed);
    assert!(rt; sink.write(b"b") == WriteAnswer::Failed);
}

// Gives one byte, then the end, and then another byte.
#[derive(Drop)]
struct PausedReader {
    calls: u32,
}

impl io::Read for PausedReader {
    fn read(&mut self, into: &mut [u8]) -> io::Result<usize> {
        let call = self.calls;
        self.calls = call.wrapping_add(1);
        if call == 1 || into.is_empty() {
            return Ok(0);
        }
        into[0] = b'a';
        Ok(1)
    }
}

#[test]
fn a_reader_is_asked_once_for_each_read(rt: HostRuntime) {
    let mut source = StdSource::new(PausedReader { calls: 0 });
    let mut room = [0u8; 4];
    assert!(rt; source.read(&mut room) == ReadAnswer::Got(1));
    assert!(rt; source.read(&mut room) == ReadAnswer::End);
    room[0] = 0;
    assert!(rt; source.read(&mut room) == ReadAnswer::Got(1));
    assert!(rt; room[0] == b'a');
}

// Can be flushed where something was written since it was flushed last.
#[derive(Drop)]
struct FlushedWriter {
    is_written: bool,
}

impl io::Write for FlushedWriter {
    fn write(&mut self, piece: &[u8]) -> io::Result<usize> {
        self.is_written = true;
        Ok(piece.len())
    }

    fn flush(&mut self) -> io::Result<()> {
        if !self.is_written {
            return Err(io::Error::from(io::ErrorKind::Other));
        }
        self.is_written = false;
        Ok(())
    }
}

#[test]
fn bytes_are_flushed_behind_each_write(rt: HostRuntime) {
    let mut sink = StdSink::new(FlushedWriter { is_written: false });
    assert!(rt; sink.write(b"ab") == WriteAnswer::Took(2));
    assert!(rt; sink.write(b"c") == WriteAnswer::Took(1));
}

// Is at its end, and counts its calls.
#[derive(Drop)]
struct EndedSource {
    calls: u32,
}

impl Source for EndedSource {
    ghost use Rattle.std.specs.Prelude.{None};
    ghost use Rattle.pack_streams.specs.Faults.{exactly};

    ghost left = { λ _. None };

    ghost faults = { λ _. exactly 0 };

    fn read(&mut self, _into: &mut [u8]) -> ReadAnswer {
        self.calls = self.calls.wrapping_add(1);
        ReadAnswer::End
    }
}

#[test]
fn nothing_is_read_behind_the_end(rt: HostRuntime) -> Result<(), Fail> {
    let alloc = rt.alloc();
    let mut source = EndedSource { calls: 0 };
    let bytes = read_up_to(alloc, &mut source, 9)?;
    assert!(rt; bytes.is_empty());
    assert!(rt; source.calls == 1);
    Ok(())
}

// Tries each failed read once more. Its count of faults isn't exact: it rises at a read that is
// mended, and by two at one that isn't.
#[derive(Drop)]
struct RetryingSource {
    source: MemorySource,
}

impl Source for RetryingSource {
    ghost use Rattle.std.specs.Prelude.{Some, false};

    ghost left = { λ s. Some s.source.left };

    ghost faults = { λ s. record { count = s.source.faults; is_exact = false } };

    fn read(&mut self, into: &mut [u8]) -> ReadAnswer {
        match self.source.read(into) {
            ReadAnswer::Failed => self.source.read(into),
            answer => answer,
        }
    }
}

// Tries each failed write once more, and counts both failures.
#[derive(Drop)]
struct RetryingSink {
    sink: MemorySink,
}

impl Sink for RetryingSink {
    ghost use Rattle.std.specs.Prelude.{Some, false};

    ghost written = { λ s. Some s.sink.written };

    ghost faults = { λ s. record { count = s.sink.faults; is_exact = false } };

    fn write(&mut self, piece: &[u8]) -> WriteAnswer {
        match self.sink.write(piece) {
            WriteAnswer::Failed => self.sink.write(piece),
            answer => answer,
        }
    }
}

#[test]
fn a_stream_that_retries_loses_nothing_at_one_failure(rt: HostRuntime) -> Result<(), Fail> {
    let alloc = rt.alloc();
    let reads = [ReadStep::Fail, ReadStep::Give(2), ReadStep::Fail];
    let mut source = RetryingSource {
        source: MemorySource::new(
            Vec::from_slice(alloc, b"abc")?,
            Vec::from_slice(alloc, &reads)?,
        ),
    };
    assert!(rt; read_up_to(alloc, &mut source, 3)?.as_slice() == b"abc".as_slice());
    let writes = [WriteStep::Fail, WriteStep::Take(2), WriteStep::Fail];
    let mut sink = RetryingSink {
        sink: MemorySink::new(alloc, 3, Vec::from_slice(alloc, &writes)?)?,
    };
    assert!(rt; write_all(&mut sink, b"abc") == Ok(()));
    assert!(rt; sink.sink.written() == b"abc".as_slice());
    Ok(())
}

#[test]
fn a_stream_that_retries_fails_at_two_failures(rt: HostRuntime) -> Result<(), Fail> {
    let alloc = rt.alloc();
    let reads = [ReadStep::Give(1), ReadStep::Fail, ReadStep::Fail];
    let mut source = RetryingSource {
        source: MemorySource::new(
            Vec::from_slice(alloc, b"abc")?,
            Vec::from_slice(alloc, &reads)?,
        ),
    };
    assert!(rt; read_up_to(alloc, &mut source, 3).err() == Some(ReadStop::ReadFault));
    let writes = [WriteStep::Take(1), WriteStep::Fail, WriteStep::Fail];
    let mut sink = RetryingSink {
        sink: MemorySink::new(alloc, 3, Vec::from_slice(alloc, &writes)?)?,
    };
    assert!(rt; write_all(&mut sink, b"abc") == Err(WriteFault));
    assert!(rt; sink.sink.written() == b"a".as_slice());
    Ok(())
}
