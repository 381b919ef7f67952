//! Texts that are streamed to a sink.
ghost use Rattle.std.specs.Prelude.{◌≡◌, ℕ, List};
ghost use Rattle.packing_terms.specs.Limits.{IsInstance};
ghost use Rattle.pack_streams.specs.Writing.{Writes};
ghost use Rattle.answer_streams.specs.Solutions.{solution_text, IsPlacedSolution};

use crate::bins_documents::write_bins;
use crate::block_buffer::{BlockBuffer, Flushed, SinkBrand, buffer_over, flush_and_unwrap};
use crate::documents::{Written, write_fit};
use crate::knapsack_documents::write_choice;
use crate::solution::Solution;
use crate::strip_documents::write_strip;
use crate::tree_start::TreeStart;
use box_instances::Instance;
use pack_streams::Sink;
use std::marker::Brand;

/// What is written as one text.
pub trait Streamed {
    /// The text.
    ghost text: { Self → List ℕ };

    /// What its writing needs.
    ghost IsReady: { Self → Type 0 };

    /// Writes the text.
    fn write_to<K: Sink>(&self, sink: &mut K) -> Written
        requires { IsReady self.now }
        ensures { Writes (K.written sink.old) (K.written sink.new) (K.faults sink.old)
            (K.faults sink.new) (text self.now) result };
}

/// The document of an answer.
#[derive(Clone, Copy)]
pub struct AnswerDocument<'a> {
    pub instance: &'a Instance,
    pub solution: &'a Solution,
}

impl<'a> Streamed for AnswerDocument<'a> {
    ghost text = { λ d. solution_text d.instance.now d.solution.now };

    ghost IsReady = { λ d. IsInstance d.instance.now
        × IsPlacedSolution d.instance.now d.solution.now };

    fn write_to<K: Sink>(&self, sink: &mut K) -> Written {
        match self.solution {
            Solution::Fit(outcome) => write_fit(sink, TreeStart::Nothing, self.instance, outcome),
            Solution::Strip(strip) => write_strip(sink, TreeStart::Nothing, self.instance, strip),
            Solution::Bins(bins) => write_bins(sink, self.instance, bins),
            Solution::Knapsack(choice) => write_choice(sink, self.instance, choice),
            Solution::Reduced(outcome) => {
                write_fit(sink, TreeStart::Facts, self.instance, outcome)
            }
            Solution::ReducedStrip(strip) => {
                write_strip(sink, TreeStart::Facts, self.instance, strip)
            }
        }
    }
}

// Writes the text through a buffer before the sink, which is named by the ghost name of the
// reference to it.
fn write_through<'a, K: Sink, T: Streamed, B: SinkBrand>(out: &'a mut K, text: &T) -> Flushed<'a, K>
    requires ready { T.IsReady text.now }
    requires name { out.ghost_name ≡ B.name }
    requires begun { K.written out.now ≡ B.begun }
    ensures same { result.out.ghost_name ≡ out.entry.ghost_name }
    ensures written { Writes (K.written out.entry.now) (K.written result.out.now)
        (K.faults out.entry.now) (K.faults result.out.now)
        (T.text text.now) result.result }
{
    let mut front: BlockBuffer<'a, K, B> = buffer_over(out);
    let written = text.write_to(&mut front);
    flush_and_unwrap(front, written)
}

/// Writes a text whole, unless a write fails: the first failure ends the writing. The text goes
/// through a block of 4,096 bytes, and no more of it is held. So the sink is offered pieces of that
/// length, the last one shorter, and next the rest of a piece of which it took a part; tests show
/// the pieces, and no clause says them.
pub fn stream<K: Sink, T: Streamed>(out: &mut K, text: &T) -> Written
    requires { T.IsReady text.now }
    ensures { Writes (K.written out.old) (K.written out.new) (K.faults out.old) (K.faults out.new)
        (T.text text.now) result }
{
    let done = write_through::<K, T, Brand>(out, text);
    done.result
}
