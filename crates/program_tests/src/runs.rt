//! Runs of the whole program over memory: words and bytes in, bytes and a status out.
use pack_command::run;
use pack_streams::{DropSink, MemorySink, MemorySource, ReadAnswer, ReadStep, Source, WriteStep};
use std::alloc::{AllocError, AllocGlobal, Global};
use std::sync::Wait;
use std::thread::Threads;
use work_share::{Gate, NoGate};

/// What a run answered and wrote, and what it left of its input.
#[derive(Drop)]
pub(crate) struct RunResult {
    pub(crate) status: u8,
    pub(crate) out: Vec<u8>,
    pub(crate) err: Vec<u8>,
    pub(crate) left: Vec<u8>,
}

impl RunResult {
    /// Whether the run ended with this status and wrote these lines alone.
    pub(crate) fn is_line(&self, status: u8, lines: &str) -> bool {
        self.status == status && self.out.as_slice() == lines.as_bytes() && self.err.is_empty()
    }

    /// Whether the run ended with this status, reported this cause, and wrote these bytes before.
    pub(crate) fn is_stop(&self, status: u8, cause: &str, out: &[u8]) -> bool {
        self.status == status
            && self.err.as_slice() == cause.as_bytes()
            && self.out.as_slice() == out
    }

    /// Whether the run ended with this status and wrote these bytes alone.
    pub(crate) fn is_as_written(&self, status: u8, out: &[u8]) -> bool {
        self.status == status && self.out.as_slice() == out && self.err.is_empty()
    }

    /// Whether the other run answered and wrote the same.
    pub(crate) fn is_as(&self, other: &RunResult) -> bool {
        self.status == other.status
            && self.out.as_slice() == other.out.as_slice()
            && self.err.as_slice() == other.err.as_slice()
    }

    /// Whether what was written is the document with this first line, these lines of the instance,
    /// and behind them these.
    pub(crate) fn is_document(&self, first: &[u8], instance: &[u8], rest: &[u8]) -> bool {
        let head = first.len();
        let body = head.saturating_add(instance.len());
        if self.out.len() != body.saturating_add(rest.len()) || !self.err.is_empty() {
            return false;
        }
        self.out.starts_with(first)
            && &self.out[head..body] == instance
            && &self.out[body..] == rest
    }

    /// How many lines begin with this byte.
    pub(crate) fn lines_from(&self, first: u8) -> u32 {
        let mut count = 0u32;
        let mut before = b'\n';
        for byte in &self.out {
            if before == b'\n' && *byte == first {
                count = count.saturating_add(1);
            }
            before = *byte;
        }
        count
    }
}

/// What the source and both sinks do, step by step, before they go on without a fault.
#[derive(Clone, Copy)]
pub(crate) struct Plans<'a> {
    pub(crate) reads: &'a [ReadStep],
    pub(crate) writes: &'a [WriteStep],
    pub(crate) messages: &'a [WriteStep],
}

impl<'a> Plans<'a> {
    /// Nothing fails.
    pub(crate) fn none() -> Plans<'a> {
        Plans {
            reads: &[],
            writes: &[],
            messages: &[],
        }
    }
}

/// Runs the words on the input, where the source and the sinks follow these plans and the workers
/// call the gate.
pub(crate) fn run_with<R: AllocGlobal + Threads + Wait + Sync, G: Gate + Sync>(
    rt: &R,
    words: &[&str],
    input: &[u8],
    plans: Plans<'_>,
    gate: &G,
) -> Result<RunResult, AllocError> {
    let given = owned(rt.alloc(), words)?;
    let mut source = source_of(rt.alloc(), input, plans.reads)?;
    told_into(rt, &given, &mut source, plans, gate)
}

// Runs the words on the source, where the sinks follow these plans.
fn told_into<R: AllocGlobal + Threads + Wait + Sync, G: Gate + Sync>(
    rt: &R,
    words: &[String],
    source: &mut MemorySource,
    plans: Plans<'_>,
    gate: &G,
) -> Result<RunResult, AllocError> {
    let alloc = rt.alloc();
    let mut out = sink_of(alloc, 65536, plans.writes)?;
    let mut err = sink_of(alloc, 256, plans.messages)?;
    let status = run(rt, alloc, words, source, &mut out, &mut err, gate);
    told_behind(alloc, status, &out, &err, source)
}

// The result of a run that left its source and its sinks so.
fn told_behind(
    alloc: Global,
    status: u8,
    out: &MemorySink,
    err: &MemorySink,
    source: &mut MemorySource,
) -> Result<RunResult, AllocError> {
    Ok(RunResult {
        status,
        out: Vec::from_slice(alloc, out.written())?,
        err: Vec::from_slice(alloc, err.written())?,
        left: rest_of(alloc, source)?,
    })
}

// The words as a command line holds them.
fn owned(alloc: Global, words: &[&str]) -> Result<Vec<String>, AllocError> {
    let mut given = Vec::new(alloc);
    for word in words {
        given.push(String::from_str(alloc, word)?)?;
    }
    Ok(given)
}

// A source of these bytes.
fn source_of(alloc: Global, input: &[u8], reads: &[ReadStep]) -> Result<MemorySource, AllocError> {
    let bytes = Vec::from_slice(alloc, input)?;
    Ok(MemorySource::new(bytes, Vec::from_slice(alloc, reads)?))
}

// A sink with room for `room` bytes at first.
fn sink_of(alloc: Global, room: usize, writes: &[WriteStep]) -> Result<MemorySink, AllocError> {
    let plan = Vec::from_slice(alloc, writes)?;
    let Ok(sink) = MemorySink::new(alloc, room, plan) else {
        return Err(AllocError);
    };
    Ok(sink)
}

/// Runs the words on the input, where the source and the sink follow these plans.
pub(crate) fn run_with_plans<R: AllocGlobal + Threads + Wait + Sync>(
    rt: &R,
    words: &[&str],
    input: &[u8],
    reads: &[ReadStep],
    writes: &[WriteStep],
) -> Result<RunResult, AllocError> {
    let plans = Plans {
        reads,
        writes,
        messages: &[],
    };
    run_with(rt, words, input, plans, &NoGate)
}

/// Runs the words on the input, where nothing fails.
pub(crate) fn run_on<R: AllocGlobal + Threads + Wait + Sync>(
    rt: &R,
    words: &[&str],
    input: &[u8],
) -> Result<RunResult, AllocError> {
    run_with(rt, words, input, Plans::none(), &NoGate)
}

/// Runs the words on the input, which comes byte by byte up to a fault behind `count` bytes.
pub(crate) fn run_with_read_fault<R: AllocGlobal + Threads + Wait + Sync>(
    rt: &R,
    words: &[&str],
    input: &[u8],
    count: usize,
) -> Result<RunResult, AllocError> {
    let mut reads = vec![in rt.alloc(); ReadStep::Give(1); count]?;
    reads.push(ReadStep::Fail)?;
    run_with_plans(rt, words, input, &reads, &[])
}

/// Runs the words on the input, where `count` bytes are taken one by one before a write fails.
pub(crate) fn run_with_write_fault<R: AllocGlobal + Threads + Wait + Sync>(
    rt: &R,
    words: &[&str],
    input: &[u8],
    count: usize,
) -> Result<RunResult, AllocError> {
    let mut writes = vec![in rt.alloc(); WriteStep::Take(1); count]?;
    writes.push(WriteStep::Fail)?;
    run_with_plans(rt, words, input, &[], &writes)
}

/// Runs the words on the input by `workers` workers, which call the gate.
pub(crate) fn run_with_workers<R: AllocGlobal + Threads + Wait + Sync, G: Gate + Sync>(
    rt: &R,
    words: &[&str],
    workers: &str,
    input: &[u8],
    gate: &G,
) -> Result<RunResult, AllocError> {
    let given = with_workers(rt.alloc(), words, workers)?;
    run_with(rt, &given, input, Plans::none(), gate)
}

// The words, and behind them `--workers` and the number of workers.
fn with_workers<'a>(
    alloc: Global,
    words: &[&'a str],
    workers: &'a str,
) -> Result<Vec<&'a str>, AllocError> {
    let mut given = Vec::from_slice(alloc, words)?;
    given.push("--workers")?;
    given.push(workers)?;
    Ok(given)
}

/// Whether ten runs by each of these numbers of workers answer and write what one worker does,
/// which is this status.
pub(crate) fn is_same_for_workers<R: AllocGlobal + Threads + Wait + Sync>(
    rt: &R,
    words: &[&str],
    input: &[u8],
    status: u8,
    workers: &[&str],
) -> Result<bool, AllocError> {
    let alone = run_with_workers(rt, words, "1", input, &NoGate)?;
    Ok(alone.status == status && are_all(rt, words, input, workers, &alone)?)
}

// Whether ten runs by each of these numbers of workers are this one.
fn are_all<R: AllocGlobal + Threads + Wait + Sync>(
    rt: &R,
    words: &[&str],
    input: &[u8],
    workers: &[&str],
    alone: &RunResult,
) -> Result<bool, AllocError> {
    for count in workers {
        for _ in 0..10 {
            if !run_with_workers(rt, words, count, input, &NoGate)?.is_as(alone) {
                return Ok(false);
            }
        }
    }
    Ok(true)
}

// A source in memory that counts how often it is read. That is its count of faults too, which so
// rises at reads that don't fail: `run` takes a source whose count isn't exact.
#[derive(Drop)]
struct CountingSource {
    source: MemorySource,
    reads: usize,
}

impl Source for CountingSource {
    ghost use Rattle.std.specs.Prelude.{Some, false};

    ghost left = { λ s. Some s.source.left };

    ghost faults = { λ s. record { count = s.reads; is_exact = false } };

    fn read(&mut self, into: &mut [u8]) -> ReadAnswer {
        self.reads = self.reads.saturating_add(1);
        self.source.read(into)
    }
}

/// How often a run of the words reads the input, of which each read takes what fits.
pub(crate) fn count_reads<R: AllocGlobal + Threads + Wait + Sync>(
    rt: &R,
    words: &[&str],
    input: &[u8],
) -> Result<usize, AllocError> {
    let given = owned(rt.alloc(), words)?;
    let mut source = CountingSource {
        source: source_of(rt.alloc(), input, &[])?,
        reads: 0,
    };
    let _status = run(
        rt,
        rt.alloc(),
        &given,
        &mut source,
        &mut DropSink::new(),
        &mut DropSink::new(),
        &NoGate,
    );
    Ok(source.reads)
}

// What the source gives yet, up to its end or its next failure.
fn rest_of(alloc: Global, source: &mut MemorySource) -> Result<Vec<u8>, AllocError> {
    let mut rest = Vec::new(alloc);
    let mut room = [0u8; 256];
    for _ in 0..64 {
        match source.read(&mut room) {
            ReadAnswer::Got(count) => rest.extend_from_slice(&room[..count])?,
            ReadAnswer::End | ReadAnswer::Failed => return Ok(rest),
        }
    }
    Ok(rest)
}
