//! What the documents of `strip`, `bins` and `knapsack` share: their first lines, their result
//! lines, and the refutation.
ghost use Rattle.std.specs.Prelude.{◌≡◌, ◌<◌, ◌+◌, ◌++◌, ◌∷◌, [], codes};
ghost use Rattle.std.specs.Fmt.{decimal};
ghost use Rattle.packing_terms.specs.Packing.{dims, box_count};
ghost use Rattle.packing_terms.specs.Limits.{IsInstance};
ghost use Rattle.packing_terms.specs.Tokens.PlainToken.{TooLarge};
ghost use Rattle.pack_streams.specs.Writing.{Continues, Writes};
ghost use Rattle.text_terms.specs.Spelling.{instance_text, lines_text};
ghost use Rattle.proof_tree.specs.Lines.{token_line, token_text};

use crate::documents::{Written, write_instance_on};
use box_instances::Instance;
use pack_streams::{Sink, write_number, write_on};
use proof_tree::{CompactTokens, Token, write_token_on, write_tokens_on};

/// Writes the first line, and the lines of the instance.
pub(crate) fn write_opening<K: Sink>(sink: &mut K, first: &[u8], instance: &Instance) -> Written
    requires { IsInstance instance.now }
    ensures { Writes (K.written sink.old) (K.written sink.new) (K.faults sink.old)
        (K.faults sink.new)
        (first.now ++ instance_text instance.now) result }
{
    let named = write_on(sink, Ok(()), first);
    write_instance_on(sink, named, instance)
}

/// Writes the result line of a least level.
pub(crate) fn write_least_line<K: Sink>(sink: &mut K, so_far: Written, level: u64) -> Written
    ensures { Continues (K.written sink.old) (K.written sink.new) (K.faults sink.old)
        (K.faults sink.new)
        (lines_text ((codes "result" ∷ codes "least" ∷ decimal level ∷ []) ∷ [])) so_far result }
{
    let named = write_on(sink, so_far, b"result least ");
    let said = write_number(sink, named, level);
    write_on(sink, said, b"\n")
}

/// Writes the result line of two levels between which the best one lies.
pub(crate) fn write_between_line<K: Sink>(
    sink: &mut K,
    so_far: Written,
    low: u64,
    high: u64,
) -> Written
    ensures { Continues (K.written sink.old) (K.written sink.new) (K.faults sink.old)
        (K.faults sink.new)
        (lines_text ((codes "result" ∷ codes "between" ∷ decimal low ∷ decimal high ∷ []) ∷ []))
        so_far result }
{
    let named = write_on(sink, so_far, b"result between ");
    let first = write_number(sink, named, low);
    let spaced = write_on(sink, first, b" ");
    let second = write_number(sink, spaced, high);
    write_on(sink, second, b"\n")
}

/// Writes the line `proof`, and a refutation.
pub(crate) fn write_proof<K: Sink>(sink: &mut K, so_far: Written, tokens: &CompactTokens) -> Written
    ensures { Continues (K.written sink.old) (K.written sink.new) (K.faults sink.old)
        (K.faults sink.new)
        (codes "proof\n" ++ token_text tokens.now) so_far result }
{
    let split = write_on(sink, so_far, b"proof\n");
    write_tokens_on(sink, split, tokens)
}

/// Writes that there is no level, because of this box.
pub(crate) fn write_none_line<K: Sink>(
    sink: &mut K,
    so_far: Written,
    instance: &Instance,
    box_no: u32,
    dim: u32,
) -> Written
    requires there { box_no < box_count instance.now }
    requires in_range { dim < dims instance.now }
    ensures { Continues (K.written sink.old) (K.written sink.new) (K.faults sink.old)
        (K.faults sink.new)
        (codes "result none\n" ++ token_line (TooLarge (box_no + 1) (dim + 1))) so_far result }
{
    // For the proof alone: states the limits of the instance.
    let _boxes = instance.len();
    let said = write_on(sink, so_far, b"result none\n");
    let token = Token::TooLarge {
        box_no: box_no + 1,
        dim: dim + 1,
    };
    write_token_on(sink, said, &token)
}
