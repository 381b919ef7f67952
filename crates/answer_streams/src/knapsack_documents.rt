//! The documents that answer `knapsack`, in their one written spelling. Writing takes no memory.
ghost use Rattle.std.specs.Prelude.{◌∷◌, [], codes};
ghost use Rattle.std.specs.Fmt.{decimal};
ghost use Rattle.packing_terms.specs.Limits.{IsInstance};
ghost use Rattle.pack_streams.specs.Writing.{Continues, Writes};
ghost use Rattle.text_terms.specs.Spelling.{lines_text};
ghost use Rattle.text_terms.specs.declared.claim.Claim.TheVariants.{GreatestValue, ValueBetween};
ghost use Rattle.answer_terms.specs.Answers.{take_lines, proved_lines, answer_text};
ghost use Rattle.answer_terms.specs.Answers.Answer.{Claimed};
ghost use Rattle.answer_streams.specs.Solutions.{choice_found};

use crate::documents::Written;
use crate::numbered::write_all_numbered;
use crate::results::{write_between_line, write_opening, write_proof};
use bin_knapsack::Choice;
use box_instances::Instance;
use pack_streams::{Sink, write_number, write_on};
use proof_tree::CompactTokens;

/// Writes the result line of a greatest value.
pub(crate) fn write_greatest_line<K: Sink>(sink: &mut K, so_far: Written, value: u64) -> Written
    ensures { Continues (K.written sink.old) (K.written sink.new) (K.faults sink.old)
        (K.faults sink.new)
        (lines_text ((codes "result" ∷ codes "greatest" ∷ decimal value ∷ []) ∷ [])) so_far result }
{
    let named = write_on(sink, so_far, b"result greatest ");
    let said = write_number(sink, named, value);
    write_on(sink, said, b"\n")
}

/// Writes a line for each taken box, with its place.
pub(crate) fn write_taken<K: Sink>(
    sink: &mut K,
    so_far: Written,
    instance: &Instance,
    numbers: &[u32],
) -> Written
    ensures { Continues (K.written sink.old) (K.written sink.new) (K.faults sink.old)
        (K.faults sink.new)
        (lines_text (take_lines instance.now numbers.now)) so_far result }
{
    let dims = instance.dims();
    let count = numbers.len() / (dims as usize + 1);
    write_all_numbered(sink, so_far, b"take", numbers, count, dims)
}

// Writes the taken boxes with their places, and the refutation of more value.
fn write_certificates<K: Sink>(
    sink: &mut K,
    so_far: Written,
    instance: &Instance,
    numbers: &[u32],
    tokens: &CompactTokens,
) -> Written
    ensures { Continues (K.written sink.old) (K.written sink.new) (K.faults sink.old)
        (K.faults sink.new)
        (lines_text (proved_lines (take_lines instance.now numbers.now) tokens.now))
        so_far result }
{
    let taken = write_taken(sink, so_far, instance, numbers);
    write_proof(sink, taken, tokens)
}

// Writes the document of a greatest value.
fn write_greatest<K: Sink>(
    sink: &mut K,
    instance: &Instance,
    value: u64,
    numbers: &[u32],
    tokens: &CompactTokens,
) -> Written
    requires { IsInstance instance.now }
    ensures { Writes (K.written sink.old) (K.written sink.new) (K.faults sink.old)
        (K.faults sink.new)
        (answer_text instance.now
        (Claimed (GreatestValue value) numbers.now tokens.now)) result }
{
    let begun = write_opening(sink, b"answer knapsack\n", instance);
    let said = write_greatest_line(sink, begun, value);
    let shown = write_certificates(sink, said, instance, numbers, tokens);
    write_on(sink, shown, b"end\n")
}

// Writes the document of two values between which the greatest one lies.
fn write_between<K: Sink>(
    sink: &mut K,
    instance: &Instance,
    placed: u64,
    numbers: &[u32],
    refuted: u64,
    tokens: &CompactTokens,
) -> Written
    requires { IsInstance instance.now }
    ensures { Writes (K.written sink.old) (K.written sink.new) (K.faults sink.old)
        (K.faults sink.new)
        (answer_text instance.now
        (Claimed (ValueBetween placed refuted) numbers.now tokens.now)) result }
{
    let begun = write_opening(sink, b"answer knapsack\n", instance);
    let said = write_between_line(sink, begun, placed, refuted);
    let shown = write_certificates(sink, said, instance, numbers, tokens);
    write_on(sink, shown, b"end\n")
}

/// Writes the document of an answer of `knapsack`: the greatest value or two between which it lies,
/// with both certificates.
pub(crate) fn write_choice<K: Sink>(sink: &mut K, instance: &Instance, choice: &Choice) -> Written
    requires { IsInstance instance.now }
    ensures { Writes (K.written sink.old) (K.written sink.new) (K.faults sink.old)
        (K.faults sink.new)
        (answer_text instance.now (choice_found choice.now)) result }
{
    match choice {
        Choice::Greatest {
            value,
            numbers,
            tokens,
        } => write_greatest(sink, instance, *value, numbers, tokens),
        Choice::Between {
            placed,
            numbers,
            refuted,
            tokens,
        } => write_between(sink, instance, *placed, numbers, *refuted, tokens),
    }
}
