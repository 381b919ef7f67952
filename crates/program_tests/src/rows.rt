//! Tables of rows, each gone through by one loop.
use crate::runs::run_on;
use std::alloc::{AllocError, AllocGlobal};
use std::sync::Wait;
use std::thread::Threads;

/// Words, an instance in its one spelling, the status, and what the document has behind the
/// instance.
pub(crate) type Solved = (&'static [&'static str], &'static [u8], u8, &'static [u8]);

/// A document, and the line that `check` writes of it.
pub(crate) type Checked = (&'static [u8], &'static str);

/// Whether the document of a row is the one that it names, with this first line.
pub(crate) fn is_solved<R: AllocGlobal + Threads + Wait + Sync>(
    rt: &R,
    first: &[u8],
    row: &Solved,
) -> Result<bool, AllocError> {
    let (words, text, status, rest) = *row;
    let answer = run_on(rt, words, text)?;
    Ok(answer.status == status && answer.is_document(first, text, rest))
}

/// Whether `check` answers this status and writes the line of a row alone.
pub(crate) fn is_checked<R: AllocGlobal + Threads + Wait + Sync>(
    rt: &R,
    status: u8,
    row: &Checked,
) -> Result<bool, AllocError> {
    let (document, line) = *row;
    Ok(run_on(rt, &["check"], document)?.is_line(status, line))
}
