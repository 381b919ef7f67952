//! The lines that are left, as the verdict takes them, and a line of a front by its words.
ghost use Rattle.std.specs.Prelude.{◌≡◌, ◌<◌, length, true, false, option_map};
ghost use Rattle.verdict_terms.specs.FrontDocumentVerdicts.{line_named};
ghost use Rattle.instance_text.specs.Lines.{IsAmong, lines_left};
ghost use Rattle.document_audits.specs.FrontAudits.{IsNextTaken};
ghost use Rattle.document_audits.specs.FrontNames.{pair_behind, plain_named};

use instance_text::{Cursor, LineLexer, is_first, next_filled};
use proof_tree::{Token, read_token};
use std::alloc::Global;
use text_terms::read_number;
use verdict_terms::{Reason, RefuseCode};

/// The line has another form than the place wants.
pub(crate) const FORM: Reason = Reason::Token {
    code: RefuseCode::Kind,
};

/// A number is out of its range.
pub(crate) const RANGE: Reason = Reason::Token {
    code: RefuseCode::Range,
};

/// The document was whole before the line.
pub(crate) const AFTER: Reason = Reason::Token {
    code: RefuseCode::After,
};

/// Takes the lines up to the next one that isn't blank. Answers whether there was one.
pub(crate) fn next_taken(bytes: &[u8], at: &mut Cursor) -> bool
    requires { IsAmong bytes.now at.old }
    ensures at { IsAmong bytes.now at.new }
    ensures line { IsNextTaken bytes.now at.old at.new result }
    ensures fewer { result ≡ true
        → length (lines_left bytes.now at.new) < length (lines_left bytes.now at.old) }
{
    next_filled(bytes, at)
}

/// A line of a front, by its words.
#[derive(Drop)]
pub(crate) enum NamedLine {
    Corner { width: u128, height: u128 },
    Point { width: u128, height: u128 },
    Place { first: u128, second: u128 },
    Tree(Token),
}

// The two numbers behind the first word.
fn pair_behind(line: &LineLexer) -> Option<(u128, u128)>
    ensures { result ≡ pair_behind line.now.held.words }
{
    if line.word_count() != 3 {
        return None;
    }
    let Some(first) = read_number(line.word(1)) else {
        return None;
    };
    let Some(second) = read_number(line.word(2)) else {
        return None;
    };
    Some((first, second))
}

/// The line of a front that a line is, if it is one.
pub(crate) fn named_line(alloc: Global, line: &LineLexer) -> Option<NamedLine>
    requires { line.now.held.bad ≡ false }
    ensures { option_map plain_named result ≡ line_named line.now.held.words }
{
    if is_first(line, b"corner") {
        let Some((width, height)) = pair_behind(line) else {
            return None;
        };
        return Some(NamedLine::Corner { width, height });
    }
    if is_first(line, b"point") {
        let Some((width, height)) = pair_behind(line) else {
            return None;
        };
        return Some(NamedLine::Point { width, height });
    }
    if is_first(line, b"place") {
        let Some((first, second)) = pair_behind(line) else {
            return None;
        };
        return Some(NamedLine::Place { first, second });
    }
    let Some(token) = read_token(alloc, line, 2) else {
        return None;
    };
    Some(NamedLine::Tree(token))
}
