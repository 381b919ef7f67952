//! The token that a line is.
ghost use Rattle.std.specs.Prelude.{◌≡◌, ◌<◌, ◌≤◌, ◌+◌, length, drop, slice_index_or, option_map, []};
ghost use Rattle.text_terms.specs.Feeding.{ended_line};
ghost use Rattle.text_terms.specs.TokenLines.{parameter, parameters, named_function, functions, of_none, set_token, line_token};
ghost use Rattle.proof_tree.specs.Plain.{plain_token};
ghost use Rattle.proof_tree.specs.Kinds.{kind_of, of_kind, only, two_only, three_only, tuple_only, IsFunctionAt};

use crate::Token;
use conservative_scales::ScaleTuple;
use instance_text::{LineLexer, is_same};
use packing_terms::ScaleFn;
use std::alloc::Global;
use text_terms::read_number;

// What the first word of a token line says.
#[derive(Clone, Copy, Debug, PartialEq, Eq)]
pub(crate) enum Kind {
    Apart,
    Order,
    Rules,
    TooLarge,
    Scales,
    Assign,
    Choose,
    SetRefuted,
    ValueShort,
    GlobalScales,
}

// A scale function that words are, and the number of the word behind it.
#[derive(Clone, Copy)]
pub(crate) struct Named {
    function: ScaleFn,
    next: u32,
}

// The kind of the token lines with this first word.
fn kind_of(word: &[u8]) -> Option<Kind>
    ensures { result ≡ kind_of word.now }
{
    if is_same(word, b"a") {
        return Some(Kind::Apart);
    }
    if is_same(word, b"d") {
        return Some(Kind::Order);
    }
    if is_same(word, b"x") {
        return Some(Kind::Rules);
    }
    if is_same(word, b"t") {
        return Some(Kind::TooLarge);
    }
    if is_same(word, b"v") {
        return Some(Kind::Scales);
    }
    if is_same(word, b"b") {
        return Some(Kind::Assign);
    }
    if is_same(word, b"c") {
        return Some(Kind::Choose);
    }
    if is_same(word, b"s") {
        return Some(Kind::SetRefuted);
    }
    if is_same(word, b"w") {
        return Some(Kind::ValueShort);
    }
    if is_same(word, b"g") {
        return Some(Kind::GlobalScales);
    }
    None
}

/// The parameter that word `k` of the line is, and none where that is no number of 32 bits.
pub fn parameter_at(line: &LineLexer, k: u32) -> Option<u32>
    requires { k < length line.now.held.words }
    ensures { result ≡ parameter (slice_index_or line.now.held.words k []) }
{
    // For the proof alone: states the limits of the line's words.
    let _count = line.word_count();
    let number = read_number(line.word(k))?;
    if number > u32::MAX as u128 {
        return None;
    }
    Some(number as u32)
}

/// The one parameter behind the first word, and none where there is another number of words, or the
/// word is no parameter.
pub fn one_parameter(line: &LineLexer) -> Option<u32>
    ensures { result ≡ only (parameters (drop 1 line.now.held.words)) }
{
    if line.word_count() != 2 {
        return None;
    }
    parameter_at(line, 1)
}

// The two parameters behind the first word.
fn two_parameters(line: &LineLexer) -> Option<(u32, u32)>
    ensures { result ≡ two_only (parameters (drop 1 line.now.held.words)) }
{
    if line.word_count() != 3 {
        return None;
    }
    let first = parameter_at(line, 1)?;
    let second = parameter_at(line, 2)?;
    Some((first, second))
}

/// The three parameters behind the first word, and none where there is another number of words, or
/// a word is no parameter.
pub fn three_parameters(line: &LineLexer) -> Option<(u32, u32, u32)>
    ensures { result ≡ three_only (parameters (drop 1 line.now.held.words)) }
{
    if line.word_count() != 4 {
        return None;
    }
    let first = parameter_at(line, 1)?;
    let second = parameter_at(line, 2)?;
    let third = parameter_at(line, 3)?;
    Some((first, second, third))
}

// The function of the name that is word `k` and of the parameter behind it.
fn named_at(line: &LineLexer, k: u32) -> Option<ScaleFn>
    requires { k + 1 < length line.now.held.words }
    ensures { result ≡ named_function (slice_index_or line.now.held.words k [])
        (slice_index_or line.now.held.words (k + 1) []) }
{
    // For the proof alone: states the limits of the line's words.
    let _count = line.word_count();
    let name = line.word(k);
    if is_same(name, b"step") {
        return Some(ScaleFn::Step(parameter_at(line, k + 1)?));
    }
    if is_same(name, b"cut") {
        return Some(ScaleFn::Cut(parameter_at(line, k + 1)?));
    }
    if is_same(name, b"count") {
        return Some(ScaleFn::Count(parameter_at(line, k + 1)?));
    }
    None
}

// The function whose name is word `k`.
fn function_at(line: &LineLexer, k: u32) -> Option<Named>
    requires { k < length line.now.held.words }
    ensures { IsFunctionAt line.now.held.words k result }
{
    let count = line.word_count();
    if is_same(line.word(k), b"id") {
        return Some(Named {
            function: ScaleFn::Id,
            next: k + 1,
        });
    }
    if k + 1 >= count.min(12) {
        return None;
    }
    let function = named_at(line, k)?;
    Some(Named {
        function,
        next: k + 2,
    })
}

/// The functions that the words from `first` on are, where there is one for each dimension and
/// nothing behind them; `None` otherwise. `first` is at most 3, and the line has as many words. It
/// takes no memory.
pub fn tuple_from(alloc: Global, line: &LineLexer, dims: u32, first: u32) -> Option<ScaleTuple>
    requires dims { dims ≤ 4 }
    requires few { first ≤ 3 }
    requires words { first ≤ length line.now.held.words }
    ensures { option_map (λ tuple. tuple.items) result
        ≡ tuple_only dims (functions (drop first line.now.held.words)) }
{
    let count = line.word_count();
    let mut tuple = ScaleTuple::new(alloc);
    let mut k = first;
    for _ in 0..dims {
        if k >= count {
            return None;
        }
        let named = function_at(line, k)?;
        tuple.push_reserved(named.function);
        k = named.next;
    }
    if k == count { Some(tuple) } else { None }
}

// This token, where no word stands behind the first.
fn token_alone(line: &LineLexer, token: Token) -> Option<Token>
    requires word { 1 ≤ length line.now.held.words }
    ensures { option_map plain_token result
        ≡ of_none (plain_token token) (parameters (drop 1 line.now.held.words)) }
{
    if line.word_count() == 1 {
        Some(token)
    } else {
        None
    }
}

// The token of a refuted set, and of its bin where one stands behind the first word.
fn set_refuted(line: &LineLexer) -> Option<Token>
    requires word { 1 ≤ length line.now.held.words }
    ensures { option_map plain_token result ≡ set_token (parameters (drop 1 line.now.held.words)) }
{
    if line.word_count() == 1 {
        return Some(Token::SetRefuted { bin: None });
    }
    match one_parameter(line) {
        Some(bin) => Some(Token::SetRefuted { bin: Some(bin) }),
        None => None,
    }
}

// The token of this kind whose parameters or functions stand behind the first word.
fn token_of(alloc: Global, line: &LineLexer, dims: u32, kind: Kind) -> Option<Token>
    requires dims { dims ≤ 4 }
    requires word { 1 ≤ length line.now.held.words }
    ensures { option_map plain_token result ≡ of_kind dims kind (drop 1 line.now.held.words) }
{
    match kind {
        Kind::Apart => {
            let (dim, u, v) = three_parameters(line)?;
            Some(Token::Apart { dim, u, v })
        }
        Kind::Order => {
            let (dim, u, v) = three_parameters(line)?;
            Some(Token::Order { dim, u, v })
        }
        Kind::Rules => token_alone(line, Token::Rules),
        Kind::TooLarge => {
            let (box_no, dim) = two_parameters(line)?;
            Some(Token::TooLarge { box_no, dim })
        }
        Kind::Scales => {
            let tuple = tuple_from(alloc, line, dims, 1)?;
            Some(Token::Scales(tuple))
        }
        Kind::Assign => {
            let box_no = one_parameter(line)?;
            Some(Token::Assign { box_no })
        }
        Kind::Choose => {
            let box_no = one_parameter(line)?;
            Some(Token::Choose { box_no })
        }
        Kind::SetRefuted => set_refuted(line),
        Kind::ValueShort => token_alone(line, Token::ValueShort),
        Kind::GlobalScales => {
            let tuple = tuple_from(alloc, line, dims, 1)?;
            Some(Token::GlobalScales(tuple))
        }
    }
}

/// The token that a line is in an instance of `dims` dimensions, which are 2 to 4. `line` has
/// answered `Line`.
///
/// It answers `None` exactly where the line has a bad byte or is no token line: another first word,
/// another number of parameters or of functions, or a parameter that isn't a number from 0 to
/// 4,294,967,295. It takes no memory.
pub fn read_token(alloc: Global, line: &LineLexer, dims: u32) -> Option<Token>
    requires least { 2 ≤ dims }
    requires most { dims ≤ 4 }
    ensures { option_map plain_token result ≡ line_token dims (ended_line line.now.held) }
{
    if line.bad_byte() {
        return None;
    }
    if line.word_count() == 0 {
        return None;
    }
    match kind_of(line.word(0)) {
        Some(kind) => token_of(alloc, line, dims, kind),
        None => None,
    }
}
