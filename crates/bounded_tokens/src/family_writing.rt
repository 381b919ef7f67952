//! The line of a token of a refutation with families, in its one spelling.
ghost use Rattle.std.specs.Prelude.{◌∷◌, ◌++◌, [], map, codes};
ghost use Rattle.std.specs.Fmt.{decimal};
ghost use Rattle.pack_streams.specs.Writing.{Continues, Writes};
ghost use Rattle.instance_text.specs.Writing.{after_spaces};
ghost use Rattle.verdict_terms.specs.FamilyLines.{family_token_line};
ghost use Rattle.bounded_tokens.specs.FamilyPlain.{plain_family};

use crate::family_token::FamilyToken;
use instance_text::write_numbers;
use pack_streams::{Sink, WriteFault, write_on};
use proof_tree::write_token_on;

// Each call below writes where no fault came before, and else does nothing.
type Written = Result<(), WriteFault>;

// Writes the line of a dimension and boxes, with single spaces.
fn write_family<K: Sink>(sink: &mut K, so_far: Written, dim: u32, boxes: &[u32]) -> Written
    ensures { Continues (K.written sink.old) (K.written sink.new) (K.faults sink.old)
        (K.faults sink.new)
        (((codes "k" ++ after_spaces (decimal dim ∷ [])) ++ after_spaces (map decimal boxes.now))
        ++ 10 ∷ []) so_far result }
{
    let named = write_on(sink, so_far, b"k");
    let begun = write_numbers(sink, named, &[dim]);
    let said = write_numbers(sink, begun, boxes);
    write_on(sink, said, b"\n")
}

/// Writes the line of a token where no fault came before, and else does nothing and hands the fault
/// on.
pub fn write_family_token_on<K: Sink>(sink: &mut K, so_far: Written, token: &FamilyToken) -> Written
    ensures { Continues (K.written sink.old) (K.written sink.new) (K.faults sink.old)
        (K.faults sink.new)
        (family_token_line (plain_family token.now)) so_far result }
{
    match token {
        FamilyToken::Plain(token) => write_token_on(sink, so_far, token),
        FamilyToken::Family { dim, boxes } => write_family(sink, so_far, *dim, boxes.as_slice()),
    }
}

/// Writes the line of a token, and takes no memory.
///
/// After a `WriteFault`, which comes only where the sink's faults rose, a part from the front of
/// the line was written.
pub fn write_family_token<K: Sink>(token: &FamilyToken, sink: &mut K) -> Result<(), WriteFault>
    ensures { Writes (K.written sink.old) (K.written sink.new) (K.faults sink.old)
        (K.faults sink.new) (family_token_line (plain_family token.now)) result }
{
    write_family_token_on(sink, Ok(()), token)
}
