//! Why a line of a document is refused.

use crate::RefuseCode;

/// The reason of a refusal. Numbers of boxes and dimensions are those of the text.
#[derive(Clone, Copy, Debug, PartialEq, Eq)]
pub enum Reason {
    /// The instance text has this fault.
    Text { code: u8 },
    /// A token is refused with this code. A line of another form, a number out of its range and a
    /// line behind the end share the words of the codes.
    Token { code: RefuseCode },
    /// The result line claims nothing.
    NoClaim,
    /// The box leaves the container in the dimension.
    OutsideAt { box_no: u32, dim: u32 },
    /// The two boxes aren't apart by the kerf.
    OverlapAt { first: u32, second: u32 },
    /// The taken boxes are worth less than the result says.
    TooLittle,
    /// The document ends where more is wanted.
    TooShort,
}
