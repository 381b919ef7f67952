//! The documents `bounded knapsack`, in their one written spelling. Writing takes no memory.
ghost use Rattle.std.specs.Prelude.{◌≡◌, ◌<◌, ◌++◌, ◌∷◌, [], codes};
ghost use Rattle.packing_terms.specs.Limits.{IsInstance};
ghost use Rattle.pack_streams.specs.Writing.{Continues, Writes};
ghost use Rattle.text_terms.specs.Spelling.{lines_text};
ghost use Rattle.text_terms.specs.Claims.{result_words};
ghost use Rattle.verdict_terms.specs.BoundedLines.{bounded_token_text};
ghost use Rattle.bounded_tokens.specs.Plain.{plain_bounded_tokens};
ghost use Rattle.answer_terms.specs.BoundedAnswers.{bounded_claim, bounded_status, bounded_text};
ghost use Rattle.bounded_answers.specs.ValueLevels.{plain_levels, plain_proof};

use crate::documents::Written;
use crate::knapsack_documents::{write_greatest_line, write_taken};
use crate::results::{write_between_line, write_opening, write_proof};
use crate::streaming::Streamed;
use bounded_answers::{ValueLevels, ValueProof};
use bounded_tokens::{BoundedToken, write_bounded_token_on};
use box_instances::Instance;
use pack_streams::{Sink, write_on};

/// The status of an answer: 0 for the greatest value, 3 for two values between which it lies.
pub fn bounded_status(levels: &ValueLevels) -> u8
    requires { levels.now.placed < levels.now.refuted }
    ensures { result ≡ bounded_status (plain_levels levels.now) }
{
    if levels.are_closed() { 0 } else { 3 }
}

/// The document of an answer.
#[derive(Clone, Copy)]
pub struct BoundedDocument<'a> {
    pub instance: &'a Instance,
    pub levels: &'a ValueLevels,
}

// Writes the lines of tokens with priced leaves.
fn write_priced_tokens<K: Sink>(sink: &mut K, so_far: Written, tokens: &[BoundedToken]) -> Written
    ensures { Continues (K.written sink.old) (K.written sink.new) (K.faults sink.old)
        (K.faults sink.new)
        (bounded_token_text (plain_bounded_tokens tokens.now)) so_far result }
{
    let mut now = so_far;
    for k in 0..tokens.len() {
        now = write_bounded_token_on(sink, now, &tokens[k]);
    }
    now
}

// Writes the line `proof`, and the refutation.
fn write_value_proof<K: Sink>(sink: &mut K, so_far: Written, proof: &ValueProof) -> Written
    ensures { Continues (K.written sink.old) (K.written sink.new) (K.faults sink.old)
        (K.faults sink.new)
        (codes "proof\n" ++ bounded_token_text (plain_proof proof.now)) so_far result }
{
    match proof {
        ValueProof::Plain(tokens) => write_proof(sink, so_far, tokens),
        ValueProof::Priced(tokens) => {
            let split = write_on(sink, so_far, b"proof\n");
            write_priced_tokens(sink, split, tokens)
        }
    }
}

// Writes the result line.
fn write_result_line<K: Sink>(sink: &mut K, so_far: Written, levels: &ValueLevels) -> Written
    requires { levels.now.placed < levels.now.refuted }
    ensures { Continues (K.written sink.old) (K.written sink.new) (K.faults sink.old)
        (K.faults sink.new)
        (lines_text ((codes "result" ∷ result_words (bounded_claim (plain_levels levels.now)))
        ∷ [])) so_far result }
{
    if levels.are_closed() {
        write_greatest_line(sink, so_far, levels.placed)
    } else {
        write_between_line(sink, so_far, levels.placed, levels.refuted)
    }
}

// Writes the document.
fn write_bounded<K: Sink>(sink: &mut K, instance: &Instance, levels: &ValueLevels) -> Written
    requires limits { IsInstance instance.now }
    requires rising { levels.now.placed < levels.now.refuted }
    ensures { Writes (K.written sink.old) (K.written sink.new) (K.faults sink.old)
        (K.faults sink.new)
        (bounded_text instance.now (plain_levels levels.now)) result }
{
    let begun = write_opening(sink, b"bounded knapsack\n", instance);
    let said = write_result_line(sink, begun, levels);
    let taken = write_taken(sink, said, instance, &levels.numbers);
    let shown = write_value_proof(sink, taken, &levels.proof);
    write_on(sink, shown, b"end\n")
}

impl<'a> Streamed for BoundedDocument<'a> {
    ghost text = { λ d. bounded_text d.instance.now (plain_levels d.levels.now) };

    ghost IsReady = { λ d. IsInstance d.instance.now
        × (d.levels.now.placed < d.levels.now.refuted) };

    fn write_to<K: Sink>(&self, sink: &mut K) -> Written {
        write_bounded(sink, self.instance, self.levels)
    }
}
