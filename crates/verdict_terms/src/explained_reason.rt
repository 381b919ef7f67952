//! Why a line of an explained document is refused.

use crate::AuditCode;

/// The reason of a refusal.
#[derive(Clone, Copy, Debug, PartialEq, Eq)]
pub enum ExplainedReason {
    /// The instance text has this fault.
    Text { code: u8 },
    /// A line of the tree is refused with this code. A line of another form elsewhere and a line
    /// behind the end share the words of the codes.
    Line { code: AuditCode },
    /// The document ends where more is wanted.
    TooShort,
}
