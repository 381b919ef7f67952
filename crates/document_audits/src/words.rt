//! The words of a line.
ghost use Rattle.std.specs.Prelude.{◌≡◌};
ghost use Rattle.verdict_terms.specs.ExplainedStages.{are_two};

use instance_text::{LineLexer, is_same};

/// Whether the line is these two words.
pub(crate) fn are_two(line: &LineLexer, key: &[u8], other: &[u8]) -> bool
    ensures { result ≡ are_two key.now other.now line.now.held.words }
{
    if line.word_count() != 2 {
        return false;
    }
    let first = is_same(line.word(0), key);
    let second = is_same(line.word(1), other);
    first & second
}
