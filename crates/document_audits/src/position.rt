//! Where the result line of a document stands.
ghost use Rattle.std.specs.Prelude.{◌≡◌, ◌<◌, ◌^◌, length};
ghost use Rattle.text_terms.specs.Lines.{text_lines};
ghost use Rattle.document_audits.specs.Rereading.{says_result};
ghost use Rattle.document_audits.specs.Refutations.{number_if, result_number};

use crate::refutation_reading::is_result;
use instance_text::{LexStep, LineLexer};

// The number of a line, where its first word is `result`.
fn number_if_result(line: &LineLexer) -> u64
    ensures { result ≡ number_if (says_result line.now.held.words) line.now.number }
{
    if is_result(line) {
        line.line_number()
    } else {
        0
    }
}

/// The number of the first line whose first word is `result`, counted from 1, and 0 where there is
/// none.
pub fn result_line(bytes: &[u8]) -> u64
    ensures { result ≡ result_number (text_lines bytes.now) }
{
    let mut lexer = LineLexer::new();
    for byte in bytes {
        match lexer.feed(*byte) {
            LexStep::More => {}
            LexStep::Line => {
                if is_result(&lexer) {
                    return lexer.line_number();
                }
            }
        }
    }
    match lexer.finish() {
        LexStep::More => 0,
        LexStep::Line => number_if_result(&lexer),
    }
}
