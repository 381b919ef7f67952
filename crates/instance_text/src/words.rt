//! The words of a line.
ghost use Rattle.std.specs.Prelude.{◌≡◌, ◌≤◌, length};
ghost use Rattle.text_terms.specs.Lines.{same_bytes};
ghost use Rattle.text_terms.specs.Texts.{first_word};
ghost use Rattle.text_terms.specs.Feeding.{ended_line};
ghost use Rattle.verdict_terms.specs.Stages.{is_blank, is_result, is_word};

use crate::{LineLexer, is_same};

/// Whether the line has neither a bad byte nor words.
pub fn is_blank(line: &LineLexer) -> bool
    ensures { result ≡ is_blank (ended_line line.now.held) }
{
    !line.bad_byte() & (line.word_count() == 0)
}

/// Whether the first word of the line is this one, which has a byte.
pub fn is_first(line: &LineLexer, key: &[u8]) -> bool
    requires { 1 ≤ length key.now }
    ensures { result ≡ same_bytes (first_word line.now.held.words) key.now }
{
    if line.word_count() == 0 {
        return false;
    }
    is_same(line.word(0), key)
}

/// Whether the line has no bad byte, and its first word is `result`.
pub fn is_result(line: &LineLexer) -> bool
    ensures { result ≡ is_result (ended_line line.now.held) }
{
    if line.bad_byte() {
        return false;
    }
    is_first(line, b"result")
}

/// Whether the line is this one word.
pub fn is_word(line: &LineLexer, key: &[u8]) -> bool
    ensures { result ≡ is_word key.now line.now.held.words }
{
    if line.word_count() != 1 {
        return false;
    }
    is_same(line.word(0), key)
}
