//! The token of a bounded refutation that a line is.
ghost use Rattle.std.specs.Prelude.{◌≡◌, ◌≤◌, length, drop, option_map};
ghost use Rattle.text_terms.specs.Feeding.{ended_line};
ghost use Rattle.text_terms.specs.TokenLines.{line_token};
ghost use Rattle.verdict_terms.specs.BoundedRefutation.{Plain};
ghost use Rattle.verdict_terms.specs.BoundedLines.{priced_of, exchange_of, bounded_line_token};
ghost use Rattle.bounded_tokens.specs.Plain.{plain_bounded};

use crate::BoundedToken;
use instance_text::{LineLexer, is_same};
use proof_tree::{parameter_at, read_token, tuple_from};
use std::alloc::Global;

// The leaf whose two weights and whose tuple stand behind the first word.
fn priced_token(alloc: Global, line: &LineLexer, dims: u32) -> Option<BoundedToken>
    requires dims { dims ≤ 4 }
    requires word { 1 ≤ length line.now.held.words }
    ensures { option_map plain_bounded result ≡ priced_of dims (drop 1 line.now.held.words) }
{
    if line.word_count() < 3 {
        return None;
    }
    let value_weight = parameter_at(line, 1)?;
    let share_weight = parameter_at(line, 2)?;
    let tuple = tuple_from(alloc, line, dims, 3)?;
    Some(BoundedToken::PricedOut {
        value_weight,
        share_weight,
        tuple,
    })
}

// The exchange of the two boxes whose numbers stand behind the first word.
fn exchange_token(line: &LineLexer) -> Option<BoundedToken>
    requires word { 1 ≤ length line.now.held.words }
    ensures { option_map plain_bounded result ≡ exchange_of (drop 1 line.now.held.words) }
{
    if line.word_count() != 3 {
        return None;
    }
    let left_no = parameter_at(line, 1)?;
    let taken_no = parameter_at(line, 2)?;
    Some(BoundedToken::Exchange { left_no, taken_no })
}

// The plain token that a line is.
fn plain_line(alloc: Global, line: &LineLexer, dims: u32) -> Option<BoundedToken>
    requires least { 2 ≤ dims }
    requires most { dims ≤ 4 }
    ensures { option_map plain_bounded result
        ≡ option_map (λ t. Plain t) (line_token dims (ended_line line.now.held)) }
{
    match read_token(alloc, line, dims) {
        Some(token) => Some(BoundedToken::Plain(token)),
        None => None,
    }
}

/// The token that a line is in an instance of `dims` dimensions, which are 2 to 4. `line` has
/// answered `Line`.
///
/// It answers `None` exactly where the line has a bad byte or is no token line: neither a plain
/// token, nor `u Q P F1 .. Fd`, nor `e U V`, where Q, P, U and V are numbers from 0 to
/// 4,294,967,295 and F1 .. Fd is a function for each dimension. It takes no memory.
pub fn read_bounded_token(alloc: Global, line: &LineLexer, dims: u32) -> Option<BoundedToken>
    requires least { 2 ≤ dims }
    requires most { dims ≤ 4 }
    ensures { option_map plain_bounded result ≡ bounded_line_token dims (ended_line line.now.held) }
{
    if line.bad_byte() {
        return None;
    }
    if line.word_count() == 0 {
        return None;
    }
    if is_same(line.word(0), b"u") {
        return priced_token(alloc, line, dims);
    }
    if is_same(line.word(0), b"e") {
        return exchange_token(line);
    }
    plain_line(alloc, line, dims)
}
