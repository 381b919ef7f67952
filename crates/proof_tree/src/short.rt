//! Tokens in a few bytes.
ghost use Rattle.std.specs.Prelude.{◌≡◌, Some, None, IfOk, IfSome, MatchOption};
ghost use Rattle.pack_streams.specs.Writing.{Continues};
ghost use Rattle.proof_tree.specs.Plain.{plain_token};
ghost use Rattle.proof_tree.specs.Shorts.{shown, is_none_shown, shown_line};

use crate::Token;
use crate::function::{ShortFn, byte, pair_of, tuple_of};
use crate::line::write_line;
use crate::writing::{Written, write_tuple};
use box_instances::NoMemory;
use pack_streams::Sink;
use std::alloc::Global;

/// A token whose numbers are below 256, and whose scale functions are of two dimensions, which
/// nearly all are; or `Wide`, in whose place another one stands.
#[derive(Clone, Copy)]
pub enum Short {
    Apart { dim: u8, u: u8, v: u8 },
    Order { dim: u8, u: u8, v: u8 },
    Rules,
    Scales { first: ShortFn, second: ShortFn },
    Assign { box_no: u8 },
    Choose { box_no: u8 },
    TakenRefuted,
    BinRefuted { bin: u8 },
    ValueShort,
    Wide,
}

impl Short {
    /// The token in a few bytes, if it is such a one.
    #[inline(always)]
    pub fn of(token: &Token) -> Option<Short>
        ensures { IfSome result (λ s. shown s ≡ Some (plain_token token.now)) }
    {
        match token {
            Token::Apart { dim, u, v } => {
                let (dim, u, v) = (byte(*dim)?, byte(*u)?, byte(*v)?);
                Some(Short::Apart { dim, u, v })
            }
            Token::Order { dim, u, v } => {
                let (dim, u, v) = (byte(*dim)?, byte(*u)?, byte(*v)?);
                Some(Short::Order { dim, u, v })
            }
            Token::Rules => Some(Short::Rules),
            Token::Scales(tuple) => {
                let (first, second) = pair_of(tuple.as_slice())?;
                Some(Short::Scales { first, second })
            }
            Token::Assign { box_no } => {
                let box_no = byte(*box_no)?;
                Some(Short::Assign { box_no })
            }
            Token::Choose { box_no } => {
                let box_no = byte(*box_no)?;
                Some(Short::Choose { box_no })
            }
            Token::SetRefuted { bin: None } => Some(Short::TakenRefuted),
            Token::SetRefuted { bin: Some(bin) } => {
                let bin = byte(*bin)?;
                Some(Short::BinRefuted { bin })
            }
            Token::ValueShort => Some(Short::ValueShort),
            _ => None,
        }
    }

    /// The token that it is, and none of a wide one.
    #[inline]
    pub fn token(self, alloc: Global) -> Result<Option<Token>, NoMemory>
        ensures { IfOk result (λ found. MatchOption found (shown self ≡ None)
            (λ t. shown self ≡ Some (plain_token t))) }
    {
        let token = match self {
            Short::Apart { dim, u, v } => Token::Apart {
                dim: u32::from(dim),
                u: u32::from(u),
                v: u32::from(v),
            },
            Short::Order { dim, u, v } => Token::Order {
                dim: u32::from(dim),
                u: u32::from(u),
                v: u32::from(v),
            },
            Short::Rules => Token::Rules,
            Short::Scales { first, second } => Token::Scales(tuple_of(alloc, first, second)?),
            Short::Assign { box_no } => Token::Assign {
                box_no: u32::from(box_no),
            },
            Short::Choose { box_no } => Token::Choose {
                box_no: u32::from(box_no),
            },
            Short::TakenRefuted => Token::SetRefuted { bin: None },
            Short::BinRefuted { bin } => Token::SetRefuted {
                bin: Some(u32::from(bin)),
            },
            Short::ValueShort => Token::ValueShort,
            Short::Wide => return Ok(None),
        };
        Ok(Some(token))
    }

    /// Whether another token stands in its place.
    #[inline]
    pub fn is_wide(self) -> bool
        ensures { result ≡ is_none_shown (shown self) }
    {
        matches!(self, Short::Wide)
    }
}

// Writes the line of a token where no fault came before, and nothing for a wide one.
pub(crate) fn write_short<K: Sink>(sink: &mut K, so_far: Written, short: Short) -> Written
    ensures { Continues (K.written sink.old) (K.written sink.new) (K.faults sink.old)
        (K.faults sink.new) (shown_line (shown short)) so_far result }
{
    match short {
        Short::Apart { dim, u, v } => write_line(
            sink,
            so_far,
            b'a',
            &[u32::from(dim), u32::from(u), u32::from(v)],
        ),
        Short::Order { dim, u, v } => write_line(
            sink,
            so_far,
            b'd',
            &[u32::from(dim), u32::from(u), u32::from(v)],
        ),
        Short::Rules => write_line(sink, so_far, b'x', &[]),
        Short::Scales { first, second } => {
            let functions = [first.function(), second.function()];
            write_tuple(sink, so_far, b"v", &functions)
        }
        Short::Assign { box_no } => write_line(sink, so_far, b'b', &[u32::from(box_no)]),
        Short::Choose { box_no } => write_line(sink, so_far, b'c', &[u32::from(box_no)]),
        Short::TakenRefuted => write_line(sink, so_far, b's', &[]),
        Short::BinRefuted { bin } => write_line(sink, so_far, b's', &[u32::from(bin)]),
        Short::ValueShort => write_line(sink, so_far, b'w', &[]),
        Short::Wide => so_far,
    }
}
