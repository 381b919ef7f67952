//! The kind of a document.
ghost use Rattle.std.specs.Prelude.{◌≡◌};
ghost use Rattle.text_terms.specs.Feeding.{ended_line};
ghost use Rattle.verdict_terms.specs.Kinds.{begin_bounded, bounded_job, document_kind, kind_of_line, kind_told};
ghost use Rattle.instance_text.specs.Lines.{IsAmong, lines_left};

use crate::explained_lines::next_taken;
use crate::words::are_two;
use instance_text::{Cursor, LineLexer, is_word};
use text_terms::SolvingJob;
use verdict_terms::DocumentKind;

/// The kind of a document whose first line that isn't blank is this one.
pub(crate) fn kind_of_line(line: &LineLexer) -> DocumentKind
    ensures { result ≡ kind_of_line (ended_line line.now.held) }
{
    if line.bad_byte() {
        return DocumentKind::Reduced;
    }
    if are_two(line, b"explained", b"fit") {
        return DocumentKind::Explained;
    }
    if is_word(line, b"front") {
        return DocumentKind::Front;
    }
    if begins_bounded(line) {
        return DocumentKind::Bounded;
    }
    DocumentKind::Reduced
}

// Whether a bounded document begins with this line.
fn begins_bounded(line: &LineLexer) -> bool
    ensures { result ≡ begin_bounded line.now.held.words }
{
    are_two(line, b"bounded", b"knapsack") || are_two(line, b"bounded", b"strip")
}

/// The job of a bounded document whose first line that isn't blank is this one.
pub(crate) fn bounded_job(line: &LineLexer) -> SolvingJob
    ensures { result ≡ bounded_job line.now.held.words }
{
    if are_two(line, b"bounded", b"knapsack") {
        SolvingJob::Knapsack
    } else {
        SolvingJob::Strip
    }
}

// The kind that the lines that are left state.
fn kind_left(bytes: &[u8], at: &mut Cursor) -> DocumentKind
    requires { IsAmong bytes.now at.old }
    ensures { result ≡ kind_told (lines_left bytes.now at.old) }
{
    if !next_taken(bytes, at) {
        return DocumentKind::Reduced;
    }
    kind_of_line(&at.line)
}

/// The kind of the document of these bytes, by its first line that isn't blank.
pub fn document_kind(bytes: &[u8]) -> DocumentKind
    ensures { result ≡ document_kind bytes.now }
{
    let mut at = Cursor::start();
    kind_left(bytes, &mut at)
}
