//! The lines of a list of tokens, from the few bytes in which it holds them.
ghost use Rattle.std.specs.Prelude.{map};
ghost use Rattle.pack_streams.specs.Writing.{Continues};
ghost use Rattle.proof_tree.specs.Plain.{plain_token};
ghost use Rattle.proof_tree.specs.Lines.{token_text};
ghost use Rattle.proof_tree.specs.Shorts.{listed};

use crate::Token;
use crate::short::{Short, write_short};
use crate::writing::{Written, write_token_on};
use pack_streams::Sink;

// Writes the lines of a list with its wide tokens where no fault came before, and else does
// nothing.
pub(crate) fn write_listed<K: Sink>(
    sink: &mut K,
    so_far: Written,
    shorts: &[Short],
    wides: &[Token],
) -> Written
    ensures { Continues (K.written sink.old) (K.written sink.new) (K.faults sink.old)
        (K.faults sink.new)
        (token_text (listed shorts.now (map plain_token wides.now))) so_far result }
{
    let mut now = so_far;
    let mut next = 0;
    for k in 0..shorts.len() {
        let short = shorts[k];
        if short.is_wide() {
            if next < wides.len() {
                now = write_token_on(sink, now, &wides[next]);
                next += 1;
            }
        } else {
            now = write_short(sink, now, short);
        }
    }
    now
}
