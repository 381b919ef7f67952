//! The documents that answer `bins`, in their one written spelling. Writing takes no memory.
ghost use Rattle.std.specs.Prelude.{◌≡◌, ◌<◌, ◌*◌, ◌+◌, length};
ghost use Rattle.packing_terms.specs.Packing.{dims, box_count};
ghost use Rattle.packing_terms.specs.Limits.{IsInstance};
ghost use Rattle.pack_streams.specs.Writing.{Continues, Writes};
ghost use Rattle.text_terms.specs.Spelling.{lines_text};
ghost use Rattle.text_terms.specs.declared.claim.Claim.TheVariants.{LeastBins, BinsBetween, NoBins};
ghost use Rattle.answer_terms.specs.Answers.{bin_lines, proved_lines, answer_text};
ghost use Rattle.answer_terms.specs.Answers.Answer.{Claimed};
ghost use Rattle.answer_terms.specs.Solved.{none_answer};
ghost use Rattle.answer_streams.specs.Solutions.{AreAllInBins, ArePlacedBins, bins_found};

use crate::documents::Written;
use crate::numbered::write_all_numbered;
use crate::results::{
    write_between_line, write_least_line, write_none_line, write_opening, write_proof,
};
use bin_knapsack::Bins;
use box_instances::Instance;
use pack_streams::{Sink, write_on};
use proof_tree::CompactTokens;

// Writes each box's bin and place, and the refutation of fewer bins.
fn write_certificates<K: Sink>(
    sink: &mut K,
    so_far: Written,
    instance: &Instance,
    numbers: &[u32],
    tokens: &CompactTokens,
) -> Written
    requires { AreAllInBins instance.now numbers.now }
    ensures { Continues (K.written sink.old) (K.written sink.new) (K.faults sink.old)
        (K.faults sink.new)
        (lines_text (proved_lines (bin_lines instance.now numbers.now) tokens.now))
        so_far result }
{
    let (boxes, dims) = (instance.len() as usize, instance.dims());
    let placed = write_all_numbered(sink, so_far, b"place", numbers, boxes, dims);
    write_proof(sink, placed, tokens)
}

// Writes the document of a least number of bins.
fn write_least<K: Sink>(
    sink: &mut K,
    instance: &Instance,
    bins: u32,
    numbers: &[u32],
    tokens: &CompactTokens,
) -> Written
    requires limits { IsInstance instance.now }
    requires placed { AreAllInBins instance.now numbers.now }
    ensures { Writes (K.written sink.old) (K.written sink.new) (K.faults sink.old)
        (K.faults sink.new)
        (answer_text instance.now (Claimed (LeastBins bins) numbers.now tokens.now))
        result }
{
    let begun = write_opening(sink, b"answer bins\n", instance);
    let said = write_least_line(sink, begun, bins as u64);
    let shown = write_certificates(sink, said, instance, numbers, tokens);
    write_on(sink, shown, b"end\n")
}

// Writes the document of two numbers of bins between which the least one lies.
fn write_between<K: Sink>(
    sink: &mut K,
    instance: &Instance,
    refuted: u32,
    tokens: &CompactTokens,
    placed: u32,
    numbers: &[u32],
) -> Written
    requires limits { IsInstance instance.now }
    requires placed { AreAllInBins instance.now numbers.now }
    ensures { Writes (K.written sink.old) (K.written sink.new) (K.faults sink.old)
        (K.faults sink.new)
        (answer_text instance.now
        (Claimed (BinsBetween refuted placed) numbers.now tokens.now)) result }
{
    let begun = write_opening(sink, b"answer bins\n", instance);
    let said = write_between_line(sink, begun, refuted as u64, placed as u64);
    let shown = write_certificates(sink, said, instance, numbers, tokens);
    write_on(sink, shown, b"end\n")
}

// Writes the document that says that no bin holds this box.
fn write_none<K: Sink>(sink: &mut K, instance: &Instance, box_no: u32, dim: u32) -> Written
    requires limits { IsInstance instance.now }
    requires there { box_no < box_count instance.now }
    requires in_range { dim < dims instance.now }
    ensures { Writes (K.written sink.old) (K.written sink.new) (K.faults sink.old)
        (K.faults sink.new)
        (answer_text instance.now (none_answer NoBins (box_no, dim))) result }
{
    let begun = write_opening(sink, b"answer bins\n", instance);
    let said = write_none_line(sink, begun, instance, box_no, dim);
    write_on(sink, said, b"end\n")
}

/// Writes the document of an answer of `bins`: the least number of bins or two between which it
/// lies, with both certificates, or the box that no bin holds.
pub(crate) fn write_bins<K: Sink>(sink: &mut K, instance: &Instance, bins: &Bins) -> Written
    requires limits { IsInstance instance.now }
    requires placed { ArePlacedBins instance.now bins.now }
    ensures { Writes (K.written sink.old) (K.written sink.new) (K.faults sink.old)
        (K.faults sink.new)
        (answer_text instance.now (bins_found bins.now)) result }
{
    match bins {
        Bins::Least {
            bins,
            numbers,
            tokens,
        } => write_least(sink, instance, *bins, numbers, tokens),
        Bins::Between {
            refuted,
            tokens,
            bins,
            numbers,
        } => write_between(sink, instance, *refuted, tokens, *bins, numbers),
        Bins::NoneFits { box_no, dim } => write_none(sink, instance, *box_no, *dim),
    }
}
