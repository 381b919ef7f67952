//! Scale functions in two bytes.
ghost use Rattle.std.specs.Prelude.{◌≡◌, ◌∷◌, [], IfOk, IfSome};
ghost use Rattle.proof_tree.specs.Shorts.{shown_fn};

use box_instances::NoMemory;
use conservative_scales::ScaleTuple;
use packing_terms::ScaleFn;
use std::alloc::Global;

/// A scale function whose parameter is below 256.
#[derive(Clone, Copy)]
pub enum ShortFn {
    Id,
    Step(u8),
    Cut(u8),
    Count(u8),
}

// The number in a byte, where it is below 256.
#[inline]
pub(crate) fn byte(number: u32) -> Option<u8>
    ensures { IfSome result (λ b. b ≡ number) }
{
    if number < 256 {
        Some(number as u8)
    } else {
        None
    }
}

impl ShortFn {
    // The function in two bytes, if it is such a one.
    fn of(function: ScaleFn) -> Option<ShortFn>
        ensures { IfSome result (λ f. shown_fn f ≡ function) }
    {
        match function {
            ScaleFn::Id => Some(ShortFn::Id),
            ScaleFn::Step(k) => {
                let k = byte(k)?;
                Some(ShortFn::Step(k))
            }
            ScaleFn::Cut(e) => {
                let e = byte(e)?;
                Some(ShortFn::Cut(e))
            }
            ScaleFn::Count(e) => {
                let e = byte(e)?;
                Some(ShortFn::Count(e))
            }
        }
    }

    // The function that it is.
    pub(crate) fn function(self) -> ScaleFn
        ensures { result ≡ shown_fn self }
    {
        match self {
            ShortFn::Id => ScaleFn::Id,
            ShortFn::Step(k) => ScaleFn::Step(u32::from(k)),
            ShortFn::Cut(e) => ScaleFn::Cut(u32::from(e)),
            ShortFn::Count(e) => ScaleFn::Count(u32::from(e)),
        }
    }
}

// The functions of two dimensions in two bytes each, if they are such ones.
pub(crate) fn pair_of(tuple: &[ScaleFn]) -> Option<(ShortFn, ShortFn)>
    ensures { IfSome result (λ p. tuple.now ≡ shown_fn p.0 ∷ shown_fn p.1 ∷ []) }
{
    if tuple.len() != 2 {
        return None;
    }
    let first = ShortFn::of(tuple[0])?;
    let second = ShortFn::of(tuple[1])?;
    Some((first, second))
}

// The tuple that these two are.
pub(crate) fn tuple_of(
    alloc: Global,
    first: ShortFn,
    second: ShortFn,
) -> Result<ScaleTuple, NoMemory>
    ensures { IfOk result (λ tuple. tuple.items ≡ shown_fn first ∷ shown_fn second ∷ []) }
{
    let functions = [first.function(), second.function()];
    let Ok(tuple) = ScaleTuple::from_slice(alloc, &functions) else {
        return Err(NoMemory);
    };
    Ok(tuple)
}
