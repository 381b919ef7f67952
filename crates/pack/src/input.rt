//! Standard input behind a buffer: bytes that are read one at a time.
ghost use Rattle.std.specs.Prelude.{None};
ghost use Rattle.pack_streams.specs.Faults.{exactly};

use pack_streams::{ReadAnswer, Source};
use std::io::BufRead;

/// A source over a buffered reader, which states nothing of its bytes. A buffer that stays empty is
/// the end, and one that couldn't be filled counts as a fault.
///
/// `check` reads a byte at a time. It takes each from the buffer itself, where `StdSource` over the
/// same reader copies a slice of unknown length.
#[derive(Drop)]
pub struct BufferedSource<R: BufRead + Drop> {
    reader: R,
    faults: u64,
}

impl<R: BufRead + Drop> BufferedSource<R> {
    /// A source of what the reader gives, with no fault so far.
    pub fn new(reader: R) -> BufferedSource<R> {
        BufferedSource { reader, faults: 0 }
    }
}

impl<R: BufRead + Drop> Source for BufferedSource<R> {
    ghost left = { λ _. None };

    ghost faults = { λ s. exactly s.faults };

    #[inline]
    fn read(&mut self, into: &mut [u8]) -> ReadAnswer {
        let Ok(bytes) = self.reader.fill_buf() else {
            self.faults = self.faults.saturating_add(1);
            return ReadAnswer::Failed;
        };
        let count = bytes.len().min(into.len());
        if count == 0 {
            return ReadAnswer::End;
        }
        into[..count].copy_from_slice(&bytes[..count]);
        self.reader.consume(count);
        ReadAnswer::Got(count)
    }
}
