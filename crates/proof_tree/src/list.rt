//! Lists of tokens in a few bytes each.
ghost use Rattle.std.specs.Prelude.{◌≡◌, ◌≤◌, ◌<◌, ◌++◌, ◌∷◌, [], map, take, drop, length, IfOk, OnOk, OnErr};
ghost use Rattle.pack_streams.specs.Writing.{Continues};
ghost use Rattle.proof_tree.specs.Lines.{token_text};
ghost use Rattle.proof_tree.specs.Plain.{plain_token};
ghost use Rattle.proof_tree.specs.Shorts.{listed, wide_count, AreLonger};

use crate::list_lines::write_listed;
use crate::short::Short;
use crate::writing::Written;
use crate::{Token, copy_token};
use box_instances::NoMemory;
use pack_streams::Sink;
use std::alloc::Global;
use std::marker::Model;

/// A list of tokens, which grows behind. It is seen as its tokens.
///
/// A `Token` has room for a tuple of scale functions, and nearly all tokens of a refutation are
/// splits and conflicts of small numbers. So a list holds each in five bytes, and those with larger
/// numbers or another tuple beside these.
#[derive(Drop)]
pub struct CompactTokens {
    shorts: Vec<Short>,
    // Those in whose places the others have `Wide`, in the same order.
    wides: Vec<Token>,
}

impl Model for CompactTokens {
    ghost use Rattle.std.specs.Prelude.{List, ◌≡◌, length, map};
    ghost use Rattle.packing_terms.specs.Tokens.{PlainToken};
    ghost use Rattle.proof_tree.specs.Plain.{plain_token};
    ghost use Rattle.proof_tree.specs.Shorts.{listed, wide_count};

    ghost Value = { List PlainToken };

    ghost view = { λ l. listed l.shorts.items (map plain_token l.wides.items) };

    ghost invariant = { λ l. wide_count l.shorts.items ≡ length l.wides.items };
}

fn push_token(tokens: &mut Vec<Token>, token: Token) -> Result<(), NoMemory>
    ensures appends { OnOk result (map plain_token tokens.new.items
        ≡ map plain_token tokens.old.items ++ plain_token token ∷ []) }
    ensures front { take (length tokens.old.items) tokens.new.items ≡ tokens.old.items }
{
    let Ok(()) = tokens.push(token) else {
        return Err(NoMemory);
    };
    Ok(())
}

// Appends copies of tokens. Want of memory may leave some of them.
fn push_copies(alloc: Global, tokens: &mut Vec<Token>, more: &[Token]) -> Result<(), NoMemory>
    ensures appends { OnOk result (map plain_token tokens.new.items
        ≡ map plain_token tokens.old.items ++ map plain_token more.now) }
    ensures front { take (length tokens.old.items) tokens.new.items ≡ tokens.old.items }
{
    for token in more {
        push_token(tokens, copy_token(alloc, token)?)?;
    }
    Ok(())
}

// Room for one token where there is none: the one line of a set that its root refutes may be a wide
// one, which no other follows.
fn reserve_first(wides: &mut Vec<Token>) -> Result<(), NoMemory>
    ensures { wides.new.items ≡ wides.old.items }
{
    if wides.is_empty() {
        let Ok(()) = wides.reserve_exact(1) else {
            return Err(NoMemory);
        };
    }
    Ok(())
}

// How many of them stand for a wide one.
fn count_wide(shorts: &[Short]) -> usize
    ensures value { result ≡ wide_count shorts.now }
    ensures few { result ≤ length shorts.now }
{
    let mut count = 0;
    for short in shorts {
        if short.is_wide() {
            count += 1;
        }
    }
    count
}

// The tokens of a list with its wide ones.
fn tokens_of(alloc: Global, shorts: &[Short], wides: &[Token]) -> Result<Vec<Token>, NoMemory>
    ensures { IfOk result (λ tokens. map plain_token tokens.items
        ≡ listed shorts.now (map plain_token wides.now)) }
{
    let Ok(mut tokens) = Vec::with_capacity(alloc, shorts.len()) else {
        return Err(NoMemory);
    };
    let mut next = 0;
    for short in shorts {
        let found = short.token(alloc)?;
        match found {
            Some(token) => push_token(&mut tokens, token)?,
            None => {
                if next < wides.len() {
                    push_token(&mut tokens, copy_token(alloc, &wides[next])?)?;
                    next += 1;
                }
            }
        }
    }
    Ok(tokens)
}

impl CompactTokens {
    /// A list of no token. It takes no memory before the first comes.
    pub fn new(alloc: Global) -> CompactTokens
        ensures { result ≡ [] }
    {
        CompactTokens {
            shorts: Vec::new(alloc),
            wides: Vec::new(alloc),
        }
    }

    /// A list of one token.
    pub fn of_one(alloc: Global, token: Token) -> Result<CompactTokens, NoMemory>
        ensures { IfOk result (λ l. l ≡ plain_token token ∷ []) }
    {
        let mut list = CompactTokens::new(alloc);
        list.push(token)?;
        Ok(list)
    }

    /// A list of copies of tokens.
    pub fn from_slice(alloc: Global, tokens: &[Token]) -> Result<CompactTokens, NoMemory>
        ensures { IfOk result (λ l. l ≡ map plain_token tokens.now) }
    {
        let mut list = CompactTokens::new(alloc);
        list.extend_from_slice(alloc, tokens)?;
        Ok(list)
    }

    /// The same list once more.
    pub fn copy(&self, alloc: Global) -> Result<CompactTokens, NoMemory>
        ensures { IfOk result (λ l. l ≡ self.now) }
    {
        let mut list = CompactTokens::new(alloc);
        list.extend_from_list(alloc, self)?;
        Ok(list)
    }

    /// How many tokens there are.
    pub fn len(&self) -> usize
        ensures { result ≡ length self.now }
    {
        self.shorts.len()
    }

    /// The tokens, one after another.
    pub fn tokens(&self, alloc: Global) -> Result<Vec<Token>, NoMemory>
        ensures { IfOk result (λ tokens. map plain_token tokens.items ≡ self.now) }
    {
        tokens_of(alloc, self.shorts.as_slice(), self.wides.as_slice())
    }

    // Appends one that isn't wide.
    #[inline(always)]
    fn push_short(&mut self, short: Short) -> Result<(), NoMemory>
        requires { wide_count (short ∷ []) ≡ 0 }
        ensures appends { OnOk result (self.new ≡ self.old ++ listed (short ∷ []) []) }
        ensures back { OnErr result (self.new ≡ self.old) }
    {
        let Ok(()) = self.shorts.push(short) else {
            return Err(NoMemory);
        };
        Ok(())
    }

    // Appends one as a wide one.
    #[inline(never)]
    fn push_wide(&mut self, token: Token) -> Result<(), NoMemory>
        ensures appends { OnOk result (self.new ≡ self.old ++ plain_token token ∷ []) }
        ensures back { OnErr result (self.new ≡ self.old) }
    {
        reserve_first(&mut self.wides)?;
        let before = self.shorts.len();
        let Ok(()) = self.shorts.push(Short::Wide) else {
            return Err(NoMemory);
        };
        let Ok(()) = self.wides.push(token) else {
            self.shorts.truncate(before);
            return Err(NoMemory);
        };
        Ok(())
    }

    /// Appends a token. Where memory is refused, the list is as before.
    #[inline(always)]
    pub fn push(&mut self, token: Token) -> Result<(), NoMemory>
        ensures appends { OnOk result (self.new ≡ self.old ++ plain_token token ∷ []) }
        ensures back { OnErr result (self.new ≡ self.old) }
    {
        match Short::of(&token) {
            Some(short) => self.push_short(short),
            None => self.push_wide(token),
        }
    }

    // Appends a token once more.
    fn push_copy(&mut self, alloc: Global, token: &Token) -> Result<(), NoMemory>
        ensures appends { OnOk result (self.new ≡ self.old ++ plain_token token.now ∷ []) }
        ensures back { OnErr result (self.new ≡ self.old) }
    {
        match Short::of(token) {
            Some(short) => self.push_short(short),
            None => self.push_wide(copy_token(alloc, token)?),
        }
    }

    /// Appends copies of tokens. Want of memory may leave some of them.
    pub fn extend_from_slice(&mut self, alloc: Global, tokens: &[Token]) -> Result<(), NoMemory>
        ensures appends { OnOk result (self.new ≡ self.old ++ map plain_token tokens.now) }
        ensures front { OnErr result (AreLonger self.old self.new) }
    {
        // Room for all of them at once.
        let Ok(()) = self.shorts.reserve(tokens.len()) else {
            return Err(NoMemory);
        };
        for token in tokens {
            self.push_copy(alloc, token)?;
        }
        Ok(())
    }

    /// Appends copies of the tokens of another list. Where memory is refused, this one is as
    /// before.
    pub fn extend_from_list(&mut self, alloc: Global, other: &CompactTokens) -> Result<(), NoMemory>
        ensures appends { OnOk result (self.new ≡ self.old ++ other.now) }
        ensures back { OnErr result (self.new ≡ self.old) }
    {
        let before = self.wides.len();
        let Ok(()) = push_copies(alloc, &mut self.wides, other.wides.as_slice()) else {
            self.wides.truncate(before);
            return Err(NoMemory);
        };
        let Ok(()) = self.shorts.extend_from_slice(other.shorts.as_slice()) else {
            self.wides.truncate(before);
            return Err(NoMemory);
        };
        Ok(())
    }

    /// Appends the tokens of another list, which is used up. Where memory is refused, this one is
    /// as before.
    pub fn append(&mut self, other: CompactTokens) -> Result<(), NoMemory>
        ensures appends { OnOk result (self.new ≡ self.old ++ other) }
        ensures back { OnErr result (self.new ≡ self.old) }
    {
        let CompactTokens { shorts, mut wides } = other;
        let before = self.wides.len();
        let Ok(()) = self.wides.append(&mut wides) else {
            return Err(NoMemory);
        };
        let Ok(()) = self.shorts.extend_from_slice(shorts.as_slice()) else {
            self.wides.truncate(before);
            return Err(NoMemory);
        };
        Ok(())
    }

    /// Drops the first token. There is one.
    pub fn drop_first(&mut self)
        requires { 0 < length self.old }
        ensures { self.new ≡ drop 1 self.old }
    {
        if self.shorts.remove(0).is_wide() {
            let _token = self.wides.remove(0);
        }
    }

    /// The first `at` tokens, and the others. There are that many.
    pub fn split_at(self, at: usize) -> Result<(CompactTokens, CompactTokens), NoMemory>
        requires { at ≤ length self }
        ensures first { IfOk result (λ r. r.0 ≡ take at self) }
        ensures rest { IfOk result (λ r. r.1 ≡ drop at self) }
    {
        let CompactTokens {
            mut shorts,
            mut wides,
        } = self;
        let wide = count_wide(&shorts.as_slice()[..at]);
        let Ok(more_wides) = wides.split_off(wide) else {
            return Err(NoMemory);
        };
        let Ok(more_shorts) = shorts.split_off(at) else {
            return Err(NoMemory);
        };
        let first = CompactTokens { shorts, wides };
        let rest = CompactTokens {
            shorts: more_shorts,
            wides: more_wides,
        };
        Ok((first, rest))
    }
}

/// Writes the lines of tokens where no fault came before, and else returns that fault
/// and writes nothing.
pub fn write_tokens_on<K: Sink>(sink: &mut K, so_far: Written, tokens: &CompactTokens) -> Written
    ensures { Continues (K.written sink.old) (K.written sink.new) (K.faults sink.old)
        (K.faults sink.new) (token_text tokens.now) so_far result }
{
    write_listed(
        sink,
        so_far,
        tokens.shorts.as_slice(),
        tokens.wides.as_slice(),
    )
}
