//! The document of a front, and its status.
ghost use Rattle.std.specs.Prelude.{◌≡◌, ◌∷◌, ◌*◌, [], length, codes};
ghost use Rattle.std.specs.Fmt.{decimal};
ghost use Rattle.pack_streams.specs.Writing.{Continues, Writes};
ghost use Rattle.packing_terms.specs.Limits.{IsInstance};
ghost use Rattle.packing_terms.specs.Packing.{box_count};
ghost use Rattle.text_terms.specs.Spelling.{instance_text, lines_text};
ghost use Rattle.answer_terms.specs.FrontTexts.{front_text, front_result, front_status};
ghost use Rattle.size_front.specs.Plain.{plain_front};
ghost use Rattle.answer_streams.specs.FrontTexts.{AreAllPlaced, result_key};

use crate::front_steps::write_front_lines;
use crate::{Streamed, Written};
use box_instances::Instance;
use instance_text::write_instance;
use pack_streams::{Sink, write_number, write_on};
use size_front::Front;

/// The status of a front: 0 where all points were found and there is one, 1 where there is none, 3
/// where a decision was spent.
pub fn front_status(front: &Front) -> u8
    ensures { result ≡ front_status front.now.complete (length front.now.points.items) }
{
    if !front.complete {
        return 3;
    }
    if front.points.is_empty() { 1 } else { 0 }
}

/// The document of a front.
#[derive(Clone, Copy)]
pub struct FrontDocument<'a> {
    pub instance: &'a Instance,
    pub front: &'a Front,
}

// Writes the lines of the instance.
fn write_instance_on<K: Sink>(sink: &mut K, so_far: Written, instance: &Instance) -> Written
    requires { IsInstance instance.now }
    ensures { Continues (K.written sink.old) (K.written sink.new) (K.faults sink.old)
        (K.faults sink.new)
        (instance_text instance.now) so_far result }
{
    match so_far {
        Ok(()) => write_instance(instance, sink),
        Err(fault) => Err(fault),
    }
}

// What stands on the result line before the number of points.
fn result_key(complete: bool) -> &'static [u8]
    ensures { result.now ≡ result_key complete }
{
    if complete {
        b"result front "
    } else {
        b"result partial "
    }
}

// Writes the result line.
fn write_result<K: Sink>(sink: &mut K, so_far: Written, front: &Front) -> Written
    ensures { Continues (K.written sink.old) (K.written sink.new) (K.faults sink.old)
        (K.faults sink.new)
        (lines_text ((codes "result" ∷ front_result front.now.complete
        (length front.now.points.items)) ∷ [])) so_far result }
{
    let points = front.points.len() as u64;
    let said = write_on(sink, so_far, result_key(front.complete));
    let counted = write_number(sink, said, points);
    write_on(sink, counted, b"\n")
}

// Writes the document.
fn write_front<K: Sink>(sink: &mut K, instance: &Instance, front: &Front) -> Written
    requires limits { IsInstance instance.now }
    requires placed { AreAllPlaced (box_count instance.now) front.now.points.items }
    ensures { Writes (K.written sink.old) (K.written sink.new) (K.faults sink.old)
        (K.faults sink.new)
        (front_text instance.now (plain_front front.now)) result }
{
    let boxes = instance.len();
    let named = write_on(sink, Ok(()), b"front\n");
    let shown = write_instance_on(sink, named, instance);
    let said = write_result(sink, shown, front);
    let listed = write_front_lines(sink, said, boxes, front);
    write_on(sink, listed, b"end\n")
}

impl<'a> Streamed for FrontDocument<'a> {
    ghost text = { λ d. front_text d.instance.now (plain_front d.front.now) };

    ghost IsReady = { λ d. IsInstance d.instance.now
        × AreAllPlaced (box_count d.instance.now) d.front.now.points.items };

    fn write_to<K: Sink>(&self, sink: &mut K) -> Written {
        write_front(sink, self.instance, self.front)
    }
}
