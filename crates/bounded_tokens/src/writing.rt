//! The line of a token, in its one spelling.
ghost use Rattle.std.specs.Prelude.{◌∷◌, ◌++◌, [], map, codes};
ghost use Rattle.std.specs.List.{flat_map};
ghost use Rattle.std.specs.Fmt.{decimal};
ghost use Rattle.pack_streams.specs.Writing.{Continues, Writes};
ghost use Rattle.text_terms.specs.TokenLines.{function_words};
ghost use Rattle.instance_text.specs.Writing.{after_spaces};
ghost use Rattle.verdict_terms.specs.BoundedLines.{bounded_token_line};
ghost use Rattle.bounded_tokens.specs.Plain.{plain_bounded};

use crate::BoundedToken;
use instance_text::write_numbers;
use pack_streams::{Sink, WriteFault, write_on};
use packing_terms::ScaleFn;
use proof_tree::{write_functions, write_token_on};

// Each call below writes where no fault came before, and else does nothing.
type Written = Result<(), WriteFault>;

// Writes the line of weights and scale functions, with single spaces.
fn write_priced<K: Sink>(
    sink: &mut K,
    so_far: Written,
    weights: &[u32],
    functions: &[ScaleFn],
) -> Written
    ensures { Continues (K.written sink.old) (K.written sink.new) (K.faults sink.old)
        (K.faults sink.new)
        (((codes "u" ++ after_spaces (map decimal weights.now))
        ++ after_spaces (flat_map function_words functions.now)) ++ 10 ∷ []) so_far result }
{
    let named = write_on(sink, so_far, b"u");
    let weighed = write_numbers(sink, named, weights);
    let said = write_functions(sink, weighed, functions);
    write_on(sink, said, b"\n")
}

// Writes the line of the numbers of two boxes.
fn write_exchange<K: Sink>(sink: &mut K, so_far: Written, boxes: &[u32]) -> Written
    ensures { Continues (K.written sink.old) (K.written sink.new) (K.faults sink.old)
        (K.faults sink.new)
        ((codes "e" ++ after_spaces (map decimal boxes.now)) ++ 10 ∷ []) so_far result }
{
    let named = write_on(sink, so_far, b"e");
    let said = write_numbers(sink, named, boxes);
    write_on(sink, said, b"\n")
}

/// Writes the line of a token where no fault came before, and else does nothing and hands the fault
/// on.
pub fn write_bounded_token_on<K: Sink>(
    sink: &mut K,
    so_far: Written,
    token: &BoundedToken,
) -> Written
    ensures { Continues (K.written sink.old) (K.written sink.new) (K.faults sink.old)
        (K.faults sink.new)
        (bounded_token_line (plain_bounded token.now)) so_far result }
{
    match token {
        BoundedToken::Plain(token) => write_token_on(sink, so_far, token),
        BoundedToken::PricedOut {
            value_weight,
            share_weight,
            tuple,
        } => write_priced(
            sink,
            so_far,
            &[*value_weight, *share_weight],
            tuple.as_slice(),
        ),
        BoundedToken::Exchange { left_no, taken_no } => {
            write_exchange(sink, so_far, &[*left_no, *taken_no])
        }
    }
}

/// Writes the line of a token, and takes no memory.
///
/// After a `WriteFault`, which comes only where the sink's faults rose, a part from the front of
/// the line was written.
pub fn write_bounded_token<K: Sink>(token: &BoundedToken, sink: &mut K) -> Result<(), WriteFault>
    ensures { Writes (K.written sink.old) (K.written sink.new) (K.faults sink.old)
        (K.faults sink.new) (bounded_token_line (plain_bounded token.now)) result }
{
    write_bounded_token_on(sink, Ok(()), token)
}
