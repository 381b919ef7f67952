//! All lines of a front, in their order.
ghost use Rattle.std.specs.Prelude.{◌≡◌, ◌<◌, ◌*◌, map, length};
ghost use Rattle.std.specs.List.{AllByRecursion};
ghost use Rattle.pack_streams.specs.Writing.{Continues};
ghost use Rattle.answer_terms.specs.WalkLines.{step_lines, front_lines};
ghost use Rattle.size_front.specs.Plain.{plain_corner, plain_point, plain_front};
ghost use Rattle.answer_streams.specs.FrontTexts.{text_of, corner_at, point_at, AreAllPlaced};

use crate::Written;
use crate::front_lines::{write_corner, write_point};
use pack_streams::Sink;
use size_front::{Corner, Front, Point};

// Writes the corner of this index, if there is one.
fn write_corner_at<K: Sink>(sink: &mut K, so_far: Written, corners: &[Corner], k: usize) -> Written
    ensures { Continues (K.written sink.old) (K.written sink.new) (K.faults sink.old)
        (K.faults sink.new)
        (text_of (corner_at (map plain_corner corners.now) k)) so_far result }
{
    if k < corners.len() {
        write_corner(sink, so_far, &corners[k])
    } else {
        so_far
    }
}

// Writes the point of this index, if there is one.
fn write_point_at<K: Sink>(
    sink: &mut K,
    so_far: Written,
    boxes: u32,
    points: &[Point],
    k: usize,
) -> Written
    requires { AreAllPlaced boxes points.now }
    ensures { Continues (K.written sink.old) (K.written sink.new) (K.faults sink.old)
        (K.faults sink.new)
        (text_of (point_at (map plain_point points.now) k)) so_far result }
{
    if k < points.len() {
        write_point(sink, so_far, boxes, &points[k])
    } else {
        so_far
    }
}

// Writes each point behind its corner, and the closing corner last.
fn write_steps<K: Sink>(
    sink: &mut K,
    so_far: Written,
    boxes: u32,
    corners: &[Corner],
    points: &[Point],
) -> Written
    requires { AreAllPlaced boxes points.now }
    ensures { Continues (K.written sink.old) (K.written sink.new) (K.faults sink.old)
        (K.faults sink.new)
        (text_of (step_lines (map plain_corner corners.now) (map plain_point points.now)))
        so_far result }
{
    let mut now = so_far;
    for k in 0..corners.len().max(points.len()) {
        let cornered = write_corner_at(sink, now, corners, k);
        now = write_point_at(sink, cornered, boxes, points, k);
    }
    now
}

/// Writes the lines of a front: a first point of width 1 has no corner before it.
pub(crate) fn write_front_lines<K: Sink>(
    sink: &mut K,
    so_far: Written,
    boxes: u32,
    front: &Front,
) -> Written
    requires { AreAllPlaced boxes front.now.points.items }
    ensures { Continues (K.written sink.old) (K.written sink.new) (K.faults sink.old)
        (K.faults sink.new)
        (text_of (front_lines (plain_front front.now))) so_far result }
{
    let corners = front.corners.as_slice();
    let points = front.points.as_slice();
    if points.len() > 0 && points[0].width == 1 {
        let begun = write_point_at(sink, so_far, boxes, points, 0);
        return write_steps(sink, begun, boxes, corners, &points[1..]);
    }
    write_steps(sink, so_far, boxes, corners, points)
}
