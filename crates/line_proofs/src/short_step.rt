//! Steps in a few bytes.
ghost use Rattle.std.specs.Prelude.{◌≡◌, ◌<◌, ℕ, List, length, map, IfSome};
ghost use Rattle.verdict_terms.specs.Steps.{PlainStep};
ghost use Rattle.verdict_terms.specs.Steps.PlainStep.{Plain as PlainPlain};
ghost use Rattle.proof_tree.specs.Plain.{plain_token};
ghost use Rattle.line_proofs.specs.Plain.{plain_step};
ghost use Rattle.line_proofs.specs.ShortSteps.{shown_step, IsWithin, IsShortOf, held_step};

use crate::Step;
use proof_tree::Token;

/// A step whose numbers are below 256, as those of all instances are; or `Wide`, the position of
/// another one among those that are held apart. It takes eight bytes.
#[derive(Clone, Copy)]
pub enum ShortStep {
    Pair { dim: u8, u: u8, v: u8 },
    Apart { dim: u8, u: u8, v: u8 },
    Triple { dim: u8, u: u8, v: u8, x: u8 },
    Compose { dim: u8, u: u8, v: u8, x: u8 },
    Cycle { dim: u8, a: u8, b: u8, c: u8, d: u8 },
    Order { dim: u8, a: u8, b: u8, c: u8, d: u8 },
    Chain { dim: u8, first: u8, second: u8 },
    On { box_no: u8 },
    Clash { dim: u8, u: u8, v: u8 },
    SplitApart { dim: u8, u: u8, v: u8 },
    SplitOrder { dim: u8, u: u8, v: u8 },
    Wide { index: u32 },
}

/// A step of a list: made from its few bytes, or where the list holds it.
#[derive(Drop)]
pub enum HeldStep<'a> {
    Made(Step),
    Kept(&'a Step),
}

impl<'a> HeldStep<'a> {
    /// The step.
    pub fn step(&self) -> &Step
        ensures { plain_step result.now ≡ held_step self.now }
    {
        match self {
            HeldStep::Made(step) => step,
            HeldStep::Kept(step) => step,
        }
    }
}

// The number in a byte, where it is below 256.
fn byte(number: u32) -> Option<u8>
    ensures { IfSome result (λ b. b ≡ number) }
{
    if number < 256 {
        Some(number as u8)
    } else {
        None
    }
}

// Two numbers in a byte each.
fn two_bytes(x: u32, y: u32) -> Option<(u8, u8)>
    ensures { IfSome result (λ b. (b.0 ≡ x) × (b.1 ≡ y)) }
{
    let first = byte(x)?;
    let second = byte(y)?;
    Some((first, second))
}

// Three numbers in a byte each.
fn three_bytes(x: u32, y: u32, z: u32) -> Option<(u8, u8, u8)>
    ensures { IfSome result (λ b. (b.0 ≡ x) × (b.1 ≡ y) × (b.2 ≡ z)) }
{
    let first = byte(x)?;
    let second = byte(y)?;
    let third = byte(z)?;
    Some((first, second, third))
}

// A split in a few bytes; other tokens are few, or hold a tuple.
fn short_token(token: &Token) -> Option<ShortStep>
    ensures { IfSome result (IsShortOf (PlainPlain (plain_token token.now))) }
{
    match token {
        Token::Apart { dim, u, v } => {
            let (dim, u, v) = three_bytes(*dim, *u, *v)?;
            Some(ShortStep::SplitApart { dim, u, v })
        }
        Token::Order { dim, u, v } => {
            let (dim, u, v) = three_bytes(*dim, *u, *v)?;
            Some(ShortStep::SplitOrder { dim, u, v })
        }
        _ => None,
    }
}

impl ShortStep {
    /// The step in a few bytes, if it is such a one.
    // Longer than 40 lines, as `held` is: an arm for each kind of line.
    pub fn of(step: &Step) -> Option<ShortStep>
        ensures { IfSome result (IsShortOf (plain_step step.now)) }
    {
        match step {
            Step::Pair { dim, u, v } => {
                let (dim, u, v) = three_bytes(*dim, *u, *v)?;
                Some(ShortStep::Pair { dim, u, v })
            }
            Step::Apart { dim, u, v } => {
                let (dim, u, v) = three_bytes(*dim, *u, *v)?;
                Some(ShortStep::Apart { dim, u, v })
            }
            Step::Triple { dim, u, v, x } => {
                let (dim, u) = two_bytes(*dim, *u)?;
                let (v, x) = two_bytes(*v, *x)?;
                Some(ShortStep::Triple { dim, u, v, x })
            }
            Step::Compose { dim, u, v, x } => {
                let (dim, u) = two_bytes(*dim, *u)?;
                let (v, x) = two_bytes(*v, *x)?;
                Some(ShortStep::Compose { dim, u, v, x })
            }
            Step::Cycle { dim, a, b, c, d } => {
                let (dim, a, b) = three_bytes(*dim, *a, *b)?;
                let (c, d) = two_bytes(*c, *d)?;
                Some(ShortStep::Cycle { dim, a, b, c, d })
            }
            Step::Order { dim, a, b, c, d } => {
                let (dim, a, b) = three_bytes(*dim, *a, *b)?;
                let (c, d) = two_bytes(*c, *d)?;
                Some(ShortStep::Order { dim, a, b, c, d })
            }
            Step::Chain { dim, first, second } => {
                let (dim, first, second) = three_bytes(*dim, *first, *second)?;
                Some(ShortStep::Chain { dim, first, second })
            }
            Step::On { box_no } => {
                let box_no = byte(*box_no)?;
                Some(ShortStep::On { box_no })
            }
            Step::Clash { dim, u, v } => {
                let (dim, u, v) = three_bytes(*dim, *u, *v)?;
                Some(ShortStep::Clash { dim, u, v })
            }
            Step::Plain(token) => short_token(token),
        }
    }

    /// The step that it is, or where that stands among those that are held apart.
    pub fn held<'a>(self, wides: &'a [Step]) -> HeldStep<'a>
        requires { IsWithin (length wides.now) self }
        ensures { held_step result ≡ shown_step (map plain_step wides.now) self }
    {
        let step = match self {
            ShortStep::Pair { dim, u, v } => Step::Pair {
                dim: u32::from(dim),
                u: u32::from(u),
                v: u32::from(v),
            },
            ShortStep::Apart { dim, u, v } => Step::Apart {
                dim: u32::from(dim),
                u: u32::from(u),
                v: u32::from(v),
            },
            ShortStep::Triple { dim, u, v, x } => Step::Triple {
                dim: u32::from(dim),
                u: u32::from(u),
                v: u32::from(v),
                x: u32::from(x),
            },
            ShortStep::Compose { dim, u, v, x } => Step::Compose {
                dim: u32::from(dim),
                u: u32::from(u),
                v: u32::from(v),
                x: u32::from(x),
            },
            ShortStep::Cycle { dim, a, b, c, d } => Step::Cycle {
                dim: u32::from(dim),
                a: u32::from(a),
                b: u32::from(b),
                c: u32::from(c),
                d: u32::from(d),
            },
            ShortStep::Order { dim, a, b, c, d } => Step::Order {
                dim: u32::from(dim),
                a: u32::from(a),
                b: u32::from(b),
                c: u32::from(c),
                d: u32::from(d),
            },
            ShortStep::Chain { dim, first, second } => Step::Chain {
                dim: u32::from(dim),
                first: u32::from(first),
                second: u32::from(second),
            },
            ShortStep::On { box_no } => Step::On {
                box_no: u32::from(box_no),
            },
            ShortStep::Clash { dim, u, v } => Step::Clash {
                dim: u32::from(dim),
                u: u32::from(u),
                v: u32::from(v),
            },
            ShortStep::SplitApart { dim, u, v } => Step::Plain(Token::Apart {
                dim: u32::from(dim),
                u: u32::from(u),
                v: u32::from(v),
            }),
            ShortStep::SplitOrder { dim, u, v } => Step::Plain(Token::Order {
                dim: u32::from(dim),
                u: u32::from(u),
                v: u32::from(v),
            }),
            ShortStep::Wide { index } => return HeldStep::Kept(&wides[index as usize]),
        };
        HeldStep::Made(step)
    }
}
