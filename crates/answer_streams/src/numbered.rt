//! Lines that give a number and coordinates: of each box its bin, or of each taken box its number.
ghost use Rattle.std.specs.Prelude.{◌<◌, ◌≤◌, ◌+◌, ◌*◌, ◌∷◌, [], suc, map, length, slice_index};
ghost use Rattle.std.specs.Fmt.{decimal};
ghost use Rattle.packing_terms.specs.Sums.{below};
ghost use Rattle.pack_streams.specs.Writing.{Continues};
ghost use Rattle.text_terms.specs.Spelling.{lines_text};
ghost use Rattle.instance_text.specs.Writing.{after_spaces};
ghost use Rattle.answer_terms.specs.Answers.{numbered_words};

use crate::documents::Written;
use pack_streams::{Sink, write_number, write_on};

// Writes the coordinates behind the number at `start`, each after a space.
fn write_behind<K: Sink>(
    sink: &mut K,
    so_far: Written,
    numbers: &[u32],
    start: usize,
    dims: u32,
) -> Written
    requires { start + dims < length numbers.now }
    ensures { Continues (K.written sink.old) (K.written sink.new) (K.faults sink.old)
        (K.faults sink.new)
        (after_spaces (map (λ i. decimal (slice_index numbers.now (start + (1 + i)))) (below dims)))
        so_far result }
{
    let mut now = so_far;
    for dim in 0..dims {
        let named = write_on(sink, now, b" ");
        now = write_number(sink, named, numbers[start + 1 + dim as usize] as u64);
    }
    now
}

// Writes the line of the number at `start`, which the text counts from 1, and its coordinates.
fn write_numbered<K: Sink>(
    sink: &mut K,
    so_far: Written,
    key: &[u8],
    numbers: &[u32],
    start: usize,
    dims: u32,
) -> Written
    requires { start + dims < length numbers.now }
    ensures { Continues (K.written sink.old) (K.written sink.new) (K.faults sink.old)
        (K.faults sink.new)
        (lines_text ((key.now ∷ decimal (suc (slice_index numbers.now start))
        ∷ map (λ i. decimal (slice_index numbers.now (start + (1 + i)))) (below dims)) ∷ [])) so_far
        result }
{
    let named = write_on(sink, so_far, key);
    let spaced = write_on(sink, named, b" ");
    let numbered = write_number(sink, spaced, numbers[start] as u64 + 1);
    let placed = write_behind(sink, numbered, numbers, start, dims);
    write_on(sink, placed, b"\n")
}

/// Writes `count` lines, each with a number and its coordinates.
pub(crate) fn write_all_numbered<K: Sink>(
    sink: &mut K,
    so_far: Written,
    key: &[u8],
    numbers: &[u32],
    count: usize,
    dims: u32,
) -> Written
    requires { count * (dims + 1) ≤ length numbers.now }
    ensures { Continues (K.written sink.old) (K.written sink.new) (K.faults sink.old)
        (K.faults sink.new)
        (lines_text (map (numbered_words key.now dims numbers.now) (below count))) so_far result }
{
    let width = dims as usize + 1;
    let mut now = so_far;
    for k in 0..count {
        now = write_numbered(sink, now, key, numbers, k * width, dims);
    }
    now
}
