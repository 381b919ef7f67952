//! Reasons in eight bytes each.
ghost use Rattle.std.specs.Prelude.{◌≡◌, IfSome};
ghost use Rattle.refutation_steps.specs.ShortReasons.{shown_spot, shown_reason};

use crate::marks::Spot;
use crate::reasons::Reason;

/// A reason whose numbers are below 256, as those of all instances are, and whose boxes of a chain
/// begin at a position below 2^32.
///
/// A trace holds a reason for nearly every line that it writes, and a `Reason` takes 24 bytes.
#[derive(Clone, Copy)]
pub enum ShortReason {
    Pair {
        at: ShortSpot,
    },
    Apart {
        at: ShortSpot,
    },
    Triple {
        at: ShortSpot,
        x: u8,
    },
    Compose {
        at: ShortSpot,
        x: u8,
    },
    Cycle {
        at: ShortSpot,
        a: u8,
        c: u8,
    },
    Order {
        at: ShortSpot,
        a: u8,
        d: u8,
    },
    Chain {
        dim: u8,
        first: u8,
        second: u8,
        from: u32,
    },
}

/// A place in three bytes.
#[derive(Clone, Copy)]
pub struct ShortSpot {
    dim: u8,
    u: u8,
    v: u8,
}

// The number in a byte, where it is below 256.
fn byte(number: u32) -> Option<u8>
    ensures { IfSome result (λ b. b ≡ number) }
{
    if number < 256 {
        Some(number as u8)
    } else {
        None
    }
}

// The position in four bytes, where it is below 2^32.
fn position(from: usize) -> Option<u32>
    ensures { IfSome result (λ k. k ≡ from) }
{
    if from <= 4_294_967_295 {
        Some(from as u32)
    } else {
        None
    }
}

// Two numbers in a byte each.
fn two_bytes(x: u32, y: u32) -> Option<(u8, u8)>
    ensures { IfSome result (λ b. (b.0 ≡ x) × (b.1 ≡ y)) }
{
    let first = byte(x)?;
    let second = byte(y)?;
    Some((first, second))
}

// The place in three bytes, where its numbers are below 256.
fn short_spot(at: Spot) -> Option<ShortSpot>
    ensures { IfSome result (λ s. shown_spot s ≡ at) }
{
    let dim = byte(at.dim)?;
    let (u, v) = two_bytes(at.u, at.v)?;
    Some(ShortSpot { dim, u, v })
}

// The place that it is.
fn spot(at: ShortSpot) -> Spot
    ensures { result ≡ shown_spot at }
{
    Spot {
        dim: u32::from(at.dim),
        u: u32::from(at.u),
        v: u32::from(at.v),
    }
}

impl ShortReason {
    /// The reason in eight bytes, if it is such a one.
    // Longer than 40 lines: an arm for each rule.
    pub fn of(reason: Reason) -> Option<ShortReason>
        ensures { IfSome result (λ s. shown_reason s ≡ reason) }
    {
        match reason {
            Reason::Pair { at } => {
                let at = short_spot(at)?;
                Some(ShortReason::Pair { at })
            }
            Reason::Apart { at } => {
                let at = short_spot(at)?;
                Some(ShortReason::Apart { at })
            }
            Reason::Triple { at, x } => {
                let (at, x) = (short_spot(at)?, byte(x)?);
                Some(ShortReason::Triple { at, x })
            }
            Reason::Compose { at, x } => {
                let (at, x) = (short_spot(at)?, byte(x)?);
                Some(ShortReason::Compose { at, x })
            }
            Reason::Cycle { at, a, c } => {
                let at = short_spot(at)?;
                let (a, c) = two_bytes(a, c)?;
                Some(ShortReason::Cycle { at, a, c })
            }
            Reason::Order { at, a, d } => {
                let at = short_spot(at)?;
                let (a, d) = two_bytes(a, d)?;
                Some(ShortReason::Order { at, a, d })
            }
            Reason::Chain {
                dim,
                from,
                first,
                second,
            } => {
                let (dim, from) = (byte(dim)?, position(from)?);
                let (first, second) = two_bytes(first, second)?;
                Some(ShortReason::Chain {
                    dim,
                    first,
                    second,
                    from,
                })
            }
        }
    }

    /// The reason that it is.
    pub fn reason(self) -> Reason
        ensures { result ≡ shown_reason self }
    {
        match self {
            ShortReason::Pair { at } => Reason::Pair { at: spot(at) },
            ShortReason::Apart { at } => Reason::Apart { at: spot(at) },
            ShortReason::Triple { at, x } => Reason::Triple {
                at: spot(at),
                x: u32::from(x),
            },
            ShortReason::Compose { at, x } => Reason::Compose {
                at: spot(at),
                x: u32::from(x),
            },
            ShortReason::Cycle { at, a, c } => Reason::Cycle {
                at: spot(at),
                a: u32::from(a),
                c: u32::from(c),
            },
            ShortReason::Order { at, a, d } => Reason::Order {
                at: spot(at),
                a: u32::from(a),
                d: u32::from(d),
            },
            ShortReason::Chain {
                dim,
                first,
                second,
                from,
            } => Reason::Chain {
                dim: u32::from(dim),
                from: from as usize,
                first: u32::from(first),
                second: u32::from(second),
            },
        }
    }
}
