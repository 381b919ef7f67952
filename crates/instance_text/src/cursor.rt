//! A cursor over the lines of bytes in memory.
ghost use Rattle.std.specs.Prelude.{◌≡◌, ◌<◌, length, true};
ghost use Rattle.text_terms.specs.Feeding.{new_lexer};
ghost use Rattle.instance_text.specs.Lines.{IsAmong, IsNextLine, IsNextFilled, lines_left};

use crate::words::is_blank;
use crate::{LexStep, LineLexer};

/// Where the reading of bytes stands: the line that ended last, and how many bytes were taken.
#[derive(Drop)]
pub struct Cursor {
    pub line: LineLexer,
    pub given: usize,
}

impl Cursor {
    /// Before the first byte.
    pub fn start() -> Cursor
        ensures { result ≡ record { line = new_lexer; given = 0 } }
    {
        Cursor {
            line: LineLexer::new(),
            given: 0,
        }
    }
}

// Takes the bytes of the next line. Answers whether there was one.
fn next_line(bytes: &[u8], at: &mut Cursor) -> bool
    requires { IsAmong bytes.now at.old }
    ensures at { IsAmong bytes.now at.new }
    ensures line { IsNextLine bytes.now at.old at.new result }
{
    while at.given < bytes.len() {
        let byte = bytes[at.given];
        at.given += 1;
        match at.line.feed(byte) {
            LexStep::More => {}
            LexStep::Line => return true,
        }
    }
    match at.line.finish() {
        LexStep::More => false,
        LexStep::Line => true,
    }
}

/// Takes the lines up to the next one that isn't blank. Answers whether there was one.
pub fn next_filled(bytes: &[u8], at: &mut Cursor) -> bool
    requires { IsAmong bytes.now at.old }
    ensures at { IsAmong bytes.now at.new }
    ensures line { IsNextFilled bytes.now at.old at.new result }
    ensures fewer { result ≡ true
        → length (lines_left bytes.now at.new) < length (lines_left bytes.now at.old) }
{
    while next_line(bytes, at) {
        if !is_blank(&at.line) {
            return true;
        }
    }
    false
}
