//! The documents that answer `strip` by what their trees begin with, in their one written spelling.
//! Writing takes no memory.
ghost use Rattle.std.specs.Prelude.{◌≡◌, ◌<◌, ◌*◌, length};
ghost use Rattle.packing_terms.specs.Packing.{dims, box_count};
ghost use Rattle.packing_terms.specs.Limits.{IsInstance};
ghost use Rattle.pack_streams.specs.Writing.{Continues, Writes};
ghost use Rattle.text_terms.specs.Spelling.{lines_text};
ghost use Rattle.text_terms.specs.declared.claim.Claim.TheVariants.{LeastHeight, HeightBetween, NoHeight};
ghost use Rattle.answer_terms.specs.Answers.{place_lines, proved_lines};
ghost use Rattle.answer_terms.specs.Answers.Answer.{Claimed};
ghost use Rattle.answer_terms.specs.Solved.{none_answer};
ghost use Rattle.answer_streams.specs.Headed.{strip_line, headed_text};
ghost use Rattle.answer_streams.specs.Solutions.{AreAllPlaced, IsPlacedStrip, strip_found};

use crate::documents::{Written, write_places};
use crate::results::{
    write_between_line, write_least_line, write_none_line, write_opening, write_proof,
};
use crate::tree_start::TreeStart;
use box_instances::Instance;
use pack_streams::{Sink, write_on};
use proof_tree::CompactTokens;
use strip_solver::Strip;

// The first line of a document of `strip`.
fn strip_line(start: TreeStart) -> &'static [u8]
    ensures { result.now ≡ strip_line start }
{
    match start {
        TreeStart::Nothing => b"answer strip\n",
        TreeStart::Facts => b"reduced strip\n",
    }
}

// Writes the places of the placed height, and the refutation of the refuted one.
fn write_certificates<K: Sink>(
    sink: &mut K,
    so_far: Written,
    instance: &Instance,
    places: &[u32],
    tokens: &CompactTokens,
) -> Written
    requires { AreAllPlaced instance.now places.now }
    ensures { Continues (K.written sink.old) (K.written sink.new) (K.faults sink.old)
        (K.faults sink.new)
        (lines_text (proved_lines (place_lines instance.now places.now) tokens.now))
        so_far result }
{
    let placed = write_places(sink, so_far, instance, places);
    write_proof(sink, placed, tokens)
}

// Writes the document of a least height.
fn write_least<K: Sink>(
    sink: &mut K,
    start: TreeStart,
    instance: &Instance,
    height: u32,
    places: &[u32],
    tokens: &CompactTokens,
) -> Written
    requires limits { IsInstance instance.now }
    requires placed { AreAllPlaced instance.now places.now }
    ensures { Writes (K.written sink.old) (K.written sink.new) (K.faults sink.old)
        (K.faults sink.new)
        (headed_text start instance.now
        (Claimed (LeastHeight height) places.now tokens.now)) result }
{
    let begun = write_opening(sink, strip_line(start), instance);
    let said = write_least_line(sink, begun, height as u64);
    let shown = write_certificates(sink, said, instance, places, tokens);
    write_on(sink, shown, b"end\n")
}

// Writes the document of two heights between which the least one lies.
fn write_between<K: Sink>(
    sink: &mut K,
    start: TreeStart,
    instance: &Instance,
    refuted: u32,
    tokens: &CompactTokens,
    placed: u32,
    places: &[u32],
) -> Written
    requires limits { IsInstance instance.now }
    requires placed { AreAllPlaced instance.now places.now }
    ensures { Writes (K.written sink.old) (K.written sink.new) (K.faults sink.old)
        (K.faults sink.new)
        (headed_text start instance.now
        (Claimed (HeightBetween refuted placed) places.now tokens.now)) result }
{
    let begun = write_opening(sink, strip_line(start), instance);
    let said = write_between_line(sink, begun, refuted as u64, placed as u64);
    let shown = write_certificates(sink, said, instance, places, tokens);
    write_on(sink, shown, b"end\n")
}

// Writes the document that says that no height holds this box.
fn write_none<K: Sink>(
    sink: &mut K,
    start: TreeStart,
    instance: &Instance,
    box_no: u32,
    dim: u32,
) -> Written
    requires limits { IsInstance instance.now }
    requires there { box_no < box_count instance.now }
    requires in_range { dim < dims instance.now }
    ensures { Writes (K.written sink.old) (K.written sink.new) (K.faults sink.old)
        (K.faults sink.new)
        (headed_text start instance.now (none_answer NoHeight (box_no, dim))) result }
{
    let begun = write_opening(sink, strip_line(start), instance);
    let said = write_none_line(sink, begun, instance, box_no, dim);
    write_on(sink, said, b"end\n")
}

/// Writes the document of an answer of `strip`: the least height or two between
/// which it lies, with both certificates, or the box that no height holds.
pub(crate) fn write_strip<K: Sink>(
    sink: &mut K,
    start: TreeStart,
    instance: &Instance,
    strip: &Strip,
) -> Written
    requires limits { IsInstance instance.now }
    requires placed { IsPlacedStrip instance.now strip.now }
    ensures { Writes (K.written sink.old) (K.written sink.new) (K.faults sink.old)
        (K.faults sink.new)
        (headed_text start instance.now (strip_found strip.now)) result }
{
    match strip {
        Strip::Least {
            height,
            places,
            tokens,
        } => write_least(sink, start, instance, *height, places, tokens),
        Strip::Between {
            refuted,
            tokens,
            height,
            places,
        } => write_between(sink, start, instance, *refuted, tokens, *height, places),
        Strip::NoneFits { box_no, dim } => write_none(sink, start, instance, *box_no, *dim),
    }
}
