//! The token of a refutation with families that a line is.
ghost use Rattle.std.specs.Prelude.{◌≡◌, ◌≤◌, length, drop, option_map};
ghost use Rattle.text_terms.specs.Feeding.{ended_line};
ghost use Rattle.text_terms.specs.TokenLines.{parameters, line_token};
ghost use Rattle.verdict_terms.specs.FamilyRefutation.{Plain};
ghost use Rattle.verdict_terms.specs.FamilyLines.{family_by, family_line_token};
ghost use Rattle.bounded_tokens.specs.FamilyPlain.{plain_family};

use crate::family_token::{FamilyToken, JoiningBoxes};
use instance_text::{LineLexer, is_same};
use proof_tree::{parameter_at, read_token};
use std::alloc::Global;

// The boxes whose numbers stand behind the second word of a line of 2 to 11 words.
fn joining_boxes(line: &LineLexer) -> Option<JoiningBoxes>
    requires some { 2 ≤ length line.now.held.words }
    requires few { length line.now.held.words ≤ 11 }
    ensures { option_map (λ boxes. boxes.items) result ≡ parameters (drop 2 line.now.held.words) }
{
    let mut boxes = JoiningBoxes::new();
    for k in 2..line.word_count() {
        let box_no = parameter_at(line, k)?;
        boxes.push(box_no);
    }
    Some(boxes)
}

// The boxes of a family whose dimension and numbers stand behind the first word: at least one, and
// at most nine.
fn family_token(line: &LineLexer) -> Option<FamilyToken>
    requires word { 1 ≤ length line.now.held.words }
    ensures { option_map plain_family result ≡ family_by (parameters (drop 1 line.now.held.words)) }
{
    let count = line.word_count();
    if count < 3 {
        return None;
    }
    if count > 11 {
        return None;
    }
    let dim = parameter_at(line, 1)?;
    let boxes = joining_boxes(line)?;
    Some(FamilyToken::Family { dim, boxes })
}

// The plain token that a line is.
fn plain_line(alloc: Global, line: &LineLexer, dims: u32) -> Option<FamilyToken>
    requires least { 2 ≤ dims }
    requires most { dims ≤ 4 }
    ensures { option_map plain_family result
        ≡ option_map (λ t. Plain t) (line_token dims (ended_line line.now.held)) }
{
    match read_token(alloc, line, dims) {
        Some(token) => Some(FamilyToken::Plain(token)),
        None => None,
    }
}

/// The token that a line is in an instance of `dims` dimensions, which are 2 to 4. `line` has
/// answered `Line`.
///
/// It answers `None` exactly where the line has a bad byte or is no token line: neither a plain
/// token nor `k I V1 .. Vm`, where I and V1 .. Vm are numbers from 0 to 4,294,967,295 and m is 1 to
/// 9. It takes no memory.
pub fn read_family_token(alloc: Global, line: &LineLexer, dims: u32) -> Option<FamilyToken>
    requires least { 2 ≤ dims }
    requires most { dims ≤ 4 }
    ensures { option_map plain_family result ≡ family_line_token dims (ended_line line.now.held) }
{
    if line.bad_byte() {
        return None;
    }
    if line.word_count() == 0 {
        return None;
    }
    if is_same(line.word(0), b"k") {
        return family_token(line);
    }
    plain_line(alloc, line, dims)
}
