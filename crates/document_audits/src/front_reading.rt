//! A token of a tree and a place, where one is wanted.
ghost use Rattle.std.specs.Prelude.{◌≡◌, ◌∷◌, ℕ, []};
ghost use Rattle.text_terms.specs.Feeding.{ended_line};
ghost use Rattle.verdict_terms.specs.Trees.{map_ok};
ghost use Rattle.document_audits.specs.FrontParts.{IsOpenTree, IsGrown, TakesPlace, place_of};

use crate::front_lines::{FORM, NamedLine, RANGE, named_line};
use instance_text::{LineLexer, is_word};
use refutation_check::Refuter;
use std::alloc::Global;
use verdict_terms::{FeedVerdict, Reason};

// The most that a coordinate is.
const MOST_COORDINATE: u128 = 4_294_967_295;

/// Gives a line to the refuter. Answers whether the tree is whole with it.
pub(crate) fn take_token(
    alloc: Global,
    refuter: &mut Refuter,
    line: &LineLexer,
) -> Result<bool, Reason>
    requires { IsOpenTree refuter.old }
    ensures { IsGrown refuter.old refuter.new (ended_line line.now.held) result }
{
    if line.bad_byte() {
        return Err(FORM);
    }
    if is_word(line, b"end") {
        return Err(Reason::TooShort);
    }
    let Some(NamedLine::Tree(token)) = named_line(alloc, line) else {
        return Err(FORM);
    };
    match refuter.feed(&token) {
        FeedVerdict::More => Ok(false),
        FeedVerdict::Done => Ok(true),
        FeedVerdict::Refused { code } => Err(Reason::Token { code }),
    }
}

/// Why a place wasn't taken.
#[derive(Clone, Copy, Debug, PartialEq, Eq)]
pub(crate) enum PlaceStop {
    Refused(Reason),
    NoMemory,
}

// The two coordinates of a place.
fn read_place(alloc: Global, line: &LineLexer) -> Result<(u32, u32), Reason>
    ensures { map_ok (λ (p : ℕ × ℕ). p.0 ∷ p.1 ∷ []) result ≡ place_of (ended_line line.now.held) }
{
    if line.bad_byte() {
        return Err(FORM);
    }
    if is_word(line, b"end") {
        return Err(FORM);
    }
    let Some(NamedLine::Place { first, second }) = named_line(alloc, line) else {
        return Err(FORM);
    };
    if (first > MOST_COORDINATE) | (second > MOST_COORDINATE) {
        return Err(RANGE);
    }
    Ok((first as u32, second as u32))
}

/// Puts the place of a line behind the others.
pub(crate) fn take_place(
    alloc: Global,
    places: &mut Vec<u32>,
    line: &LineLexer,
) -> Result<(), PlaceStop>
    ensures { TakesPlace places.old.items (ended_line line.now.held) places.new.items result }
{
    match read_place(alloc, line) {
        Ok((first, second)) => {
            if places.reserve(2).is_err() {
                return Err(PlaceStop::NoMemory);
            }
            places.push_reserved(first);
            places.push_reserved(second);
            Ok(())
        }
        Err(reason) => Err(PlaceStop::Refused(reason)),
    }
}
