//! What a run answers and writes, each asked by one call: what the run reported is compared and
//! dropped there, so that a test holds nothing.
use crate::runs::{run_on, run_with_read_fault, run_with_workers, run_with_write_fault};
use std::alloc::{AllocError, AllocGlobal};
use std::sync::Wait;
use std::thread::Threads;
use work_share::{Gate, NoGate};

/// Whether a run of the words on the input ends with this status.
pub(crate) fn ends<R: AllocGlobal + Threads + Wait + Sync>(
    rt: &R,
    words: &[&str],
    input: &[u8],
    status: u8,
) -> Result<bool, AllocError> {
    Ok(run_on(rt, words, input)?.status == status)
}

/// Whether a run of the words on the input ends with this status and writes these lines alone.
pub(crate) fn tells<R: AllocGlobal + Threads + Wait + Sync>(
    rt: &R,
    words: &[&str],
    input: &[u8],
    status: u8,
    lines: &str,
) -> Result<bool, AllocError> {
    Ok(run_on(rt, words, input)?.is_line(status, lines))
}

/// Whether a run of the words reads the input to its end, ends with this status and writes these
/// lines alone.
pub(crate) fn reads_all_and_prints<R: AllocGlobal + Threads + Wait + Sync>(
    rt: &R,
    words: &[&str],
    input: &[u8],
    status: u8,
    lines: &str,
) -> Result<bool, AllocError> {
    let answer = run_on(rt, words, input)?;
    Ok(answer.is_line(status, lines) && answer.left.is_empty())
}

/// Whether a run of the words on the input ends with this status and writes these bytes alone.
pub(crate) fn writes<R: AllocGlobal + Threads + Wait + Sync>(
    rt: &R,
    words: &[&str],
    input: &[u8],
    status: u8,
    out: &[u8],
) -> Result<bool, AllocError> {
    Ok(run_on(rt, words, input)?.is_as_written(status, out))
}

/// Whether a run of the words on the input is refused with this one line.
pub(crate) fn is_refused<R: AllocGlobal + Threads + Wait + Sync>(
    rt: &R,
    words: &[&str],
    input: &[u8],
    line: &str,
) -> Result<bool, AllocError> {
    Ok(run_on(rt, words, input)?.is_stop(2, line, b""))
}

/// Whether a run ends with a read fault and writes nothing, where the read behind `count` bytes of
/// the input fails.
pub(crate) fn stops_reading<R: AllocGlobal + Threads + Wait + Sync>(
    rt: &R,
    words: &[&str],
    input: &[u8],
    count: usize,
) -> Result<bool, AllocError> {
    Ok(run_with_read_fault(rt, words, input, count)?.is_stop(4, "pack: read fault\n", b""))
}

/// Whether a run ends with a write fault and leaves `count` bytes of the document, where the write
/// behind them fails.
pub(crate) fn stops_writing<R: AllocGlobal + Threads + Wait + Sync>(
    rt: &R,
    words: &[&str],
    input: &[u8],
    count: usize,
    document: &[u8],
) -> Result<bool, AllocError> {
    if count > document.len() {
        return Ok(false);
    }
    let answer = run_with_write_fault(rt, words, input, count)?;
    Ok(answer.is_stop(5, "pack: write fault\n", &document[..count]))
}

/// Whether a run of the words on the input answers, and writes a document of 128 boxes that ends
/// so.
pub(crate) fn has_128_boxes<R: AllocGlobal + Threads + Wait + Sync>(
    rt: &R,
    words: &[&str],
    input: &[u8],
    end: &[u8],
) -> Result<bool, AllocError> {
    let answer = run_on(rt, words, input)?;
    Ok(
        answer.status == 0
            && answer.lines_from(b'b') == 128
            && answer.lines_from(b'r') == 1
            && answer.out.ends_with(end),
    )
}

/// Whether a run by `workers` workers, which call the gate, answers and writes what one worker
/// does.
pub(crate) fn matches_one_worker<R: AllocGlobal + Threads + Wait + Sync, G: Gate + Sync>(
    rt: &R,
    words: &[&str],
    workers: &str,
    input: &[u8],
    gate: &G,
) -> Result<bool, AllocError> {
    let answer = run_with_workers(rt, words, workers, input, gate)?;
    Ok(answer.is_as(&run_with_workers(rt, words, "1", input, &NoGate)?))
}
