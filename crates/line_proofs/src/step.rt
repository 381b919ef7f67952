//! The lines of an explained refutation.
use proof_tree::Token;

/// A line of an explained refutation. An explained refutation is a flat list of lines in prefix
/// order; numbers are those of the written text, so boxes and dimensions count from 1.
///
/// `Pair` to `Order`: a step, an instance of the rule of that name with its boxes in the order of
/// the rule's text. `Chain`: a step by `first` boxes of a chain and `second` of another, each named
/// by an `On` behind it. `Clash`: a leaf, all three relations are excluded there. `Plain`: a token
/// of a refutation.
#[derive(Drop)]
pub enum Step {
    Pair {
        dim: u32,
        u: u32,
        v: u32,
    },
    Apart {
        dim: u32,
        u: u32,
        v: u32,
    },
    Triple {
        dim: u32,
        u: u32,
        v: u32,
        x: u32,
    },
    Compose {
        dim: u32,
        u: u32,
        v: u32,
        x: u32,
    },
    Cycle {
        dim: u32,
        a: u32,
        b: u32,
        c: u32,
        d: u32,
    },
    Order {
        dim: u32,
        a: u32,
        b: u32,
        c: u32,
        d: u32,
    },
    Chain {
        dim: u32,
        first: u32,
        second: u32,
    },
    On {
        box_no: u32,
    },
    Clash {
        dim: u32,
        u: u32,
        v: u32,
    },
    Plain(Token),
}
