//! The audit of a document that stands in memory.
ghost use Rattle.std.specs.Prelude.{◌≡◌, ◌≤◌, ◌<◌, length};
ghost use Rattle.pack_streams.specs.Faults.{exactly};
ghost use Rattle.pack_streams.specs.Moves.{ReadsPiece, CountsRead};
ghost use Rattle.document_check.specs.Audited.{IsAudited, IsTrueAudit};
ghost use Rattle.document_check.specs.Checked.{max_check_bytes};

use crate::check::{CheckEnd, check_document};
use pack_streams::{ReadAnswer, Source};
use std::alloc::Global;
use std::marker::Model;
use text_terms::Claim;
use verdict_terms::{Heading, Reason};

/// What the audit of a document came to.
#[derive(Clone, Copy, Debug, PartialEq, Eq)]
pub enum Audit {
    /// The bytes are a document of the claim.
    Verified(Claim),
    /// The first refused line, counted from 1, and why.
    Refused { line: u64, reason: Reason },
    /// Memory was refused.
    NoMemory,
}

// Bytes in memory, given one by one. No read fails.
#[derive(Drop)]
struct BytesSource<'a> {
    bytes: &'a [u8],
    given: usize,
}

impl<'a> Model for BytesSource<'a> {
    ghost use Rattle.std.specs.Prelude.{ℕ, List, ◌≤◌, drop, length};

    ghost Value = { List ℕ };

    ghost view = { λ s. drop s.given s.bytes.now };

    ghost invariant = { λ s. s.given ≤ length s.bytes.now };
}

impl<'a> BytesSource<'a> {
    // All bytes are still to come.
    fn new(bytes: &'a [u8]) -> BytesSource<'a>
        ensures { result ≡ bytes.now }
    {
        BytesSource { bytes, given: 0 }
    }
}

impl<'a> Source for BytesSource<'a> {
    ghost use Rattle.std.specs.Prelude.{Some};

    ghost left = { λ s. Some s };

    ghost faults = { λ s. exactly 0 };

    fn read(&mut self, into: &mut [u8]) -> ReadAnswer
        requires { 0 < length into.old }
        ensures moves { ReadsPiece (Some self.old) (Some self.new) result into.new }
        ensures count { CountsRead (exactly 0) (exactly 0) result }
    {
        if self.given == self.bytes.len() {
            return ReadAnswer::End;
        }
        into[0] = self.bytes[self.given];
        self.given += 1;
        ReadAnswer::Got(1)
    }
}

/// What the document of these bytes is that has to begin with this heading: verified with a claim,
/// or refused at its first refused line, exactly by the verdict on such documents. A claim that is
/// verified is true. Want of memory is the one other answer. There are at most 1,099,511,627,776
/// bytes.
pub fn audit_document(alloc: Global, heading: Heading, bytes: &[u8]) -> Audit
    requires { length bytes.now ≤ max_check_bytes }
    ensures audited { IsAudited heading bytes.now result }
    ensures truth { IsTrueAudit heading bytes.now result }
{
    let mut source = BytesSource::new(bytes);
    match check_document(alloc, heading, &mut source) {
        CheckEnd::Verified(claim) => Audit::Verified(claim),
        CheckEnd::Refused { line, reason } => Audit::Refused { line, reason },
        CheckEnd::NoMemory => Audit::NoMemory,
        CheckEnd::TooLong | CheckEnd::ReadFault => unreachable!(),
    }
}
