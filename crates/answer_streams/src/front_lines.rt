//! The lines of a corner and of a point, in their one written spelling. Writing takes no memory.
ghost use Rattle.std.specs.Prelude.{◌≡◌, ◌*◌, ◌∷◌, [], map, length};
ghost use Rattle.pack_streams.specs.Writing.{Continues};
ghost use Rattle.verdict_terms.specs.Lines.{CornerAt, PointAt, PlaceAt};
ghost use Rattle.answer_terms.specs.WalkLines.{corner_lines, place_lines, point_lines};
ghost use Rattle.size_front.specs.Plain.{plain_corner, plain_point};
ghost use Rattle.answer_streams.specs.FrontTexts.{text_of, pair_text};

use crate::Written;
use pack_streams::{Sink, write_number, write_on};
use proof_tree::write_tokens_on;
use size_front::{Corner, Point};

// Writes a first word, two numbers and a line feed.
fn write_pair<K: Sink>(
    sink: &mut K,
    so_far: Written,
    word: &[u8],
    first: u32,
    second: u32,
) -> Written
    ensures { Continues (K.written sink.old) (K.written sink.new) (K.faults sink.old)
        (K.faults sink.new)
        (pair_text word.now first second) so_far result }
{
    let named = write_on(sink, so_far, word);
    let opened = write_number(sink, named, first as u64);
    let spaced = write_on(sink, opened, b" ");
    let closed = write_number(sink, spaced, second as u64);
    write_on(sink, closed, b"\n")
}

/// Writes a corner, and its tree.
pub(crate) fn write_corner<K: Sink>(sink: &mut K, so_far: Written, corner: &Corner) -> Written
    ensures { Continues (K.written sink.old) (K.written sink.new) (K.faults sink.old)
        (K.faults sink.new)
        (text_of (corner_lines (plain_corner corner.now))) so_far result }
{
    let named = write_pair(sink, so_far, b"corner ", corner.width, corner.height);
    write_tokens_on(sink, named, &corner.tokens)
}

// Writes places of `boxes` boxes.
fn write_places<K: Sink>(sink: &mut K, so_far: Written, boxes: u32, places: &[u32]) -> Written
    requires { length places.now ≡ 2 * boxes }
    ensures { Continues (K.written sink.old) (K.written sink.new) (K.faults sink.old)
        (K.faults sink.new)
        (text_of (place_lines places.now)) so_far result }
{
    let mut now = so_far;
    for k in 0..boxes as usize {
        now = write_pair(sink, now, b"place ", places[2 * k], places[2 * k + 1]);
    }
    now
}

/// Writes a point, and the places of `boxes` boxes.
pub(crate) fn write_point<K: Sink>(
    sink: &mut K,
    so_far: Written,
    boxes: u32,
    point: &Point,
) -> Written
    requires { length point.now.places.items ≡ 2 * boxes }
    ensures { Continues (K.written sink.old) (K.written sink.new) (K.faults sink.old)
        (K.faults sink.new)
        (text_of (point_lines (plain_point point.now))) so_far result }
{
    let named = write_pair(sink, so_far, b"point ", point.width, point.height);
    write_places(sink, named, boxes, &point.places)
}
