//! The numbers of a line.
ghost use Rattle.std.specs.Prelude.{◌≡◌, ◌≤◌, ◌<◌, IfOk, length};
ghost use Rattle.verdict_terms.specs.Numbers.{numbers_line};
ghost use Rattle.document_lines.specs.Words.{items_of};

use crate::words::{FORM, number_at};
use arrayvec::ArrayVec;
use instance_text::{LineLexer, is_same};
use verdict_terms::Reason;

/// The `count` numbers after a first word, at most five.
pub(crate) fn read_numbers(
    line: &LineLexer,
    key: &[u8],
    count: u32,
) -> Result<ArrayVec<u128, 5>, Reason>
    requires few { count ≤ 5 }
    requires some { 1 ≤ length line.now.held.words }
    ensures numbers { items_of result ≡ numbers_line key.now count line.now.held.words }
    ensures count { IfOk result (λ ns. length ns.items ≡ count) }
{
    if line.word_count() != count + 1 {
        return Err(FORM);
    }
    if !is_same(line.word(0), key) {
        return Err(FORM);
    }
    let mut numbers = ArrayVec::new();
    for k in 0..count {
        let number = number_at(line, k + 1)?;
        numbers.push(number);
    }
    Ok(numbers)
}
