//! The verdict on a document of a front, and its one line.
ghost use Rattle.std.specs.Prelude.{◌≡◌};
ghost use Rattle.pack_streams.specs.Writing.{Writes};
ghost use Rattle.answer_streams.specs.Audited.{front_audit_text, front_reported_status, verified_front};

use crate::documents::Written;
use crate::verdict::{write_numbered, write_refusal};
use pack_streams::Sink;
use verdict_terms::Reason;

/// The verdict on a document of a front.
#[derive(Clone, Copy, Debug, PartialEq, Eq)]
pub enum FrontAudited {
    /// The document shows all points, or those of a part: `points` of them.
    Verified { complete: bool, points: u32 },
    /// The first refused line, counted from 1, and why.
    Refused { line: u64, reason: Reason },
}

impl FrontAudited {
    /// The status that an audit ends with.
    pub fn status(self) -> u8
        ensures { result ≡ front_reported_status self }
    {
        match self {
            FrontAudited::Verified {
                complete: _,
                points: _,
            } => 0,
            FrontAudited::Refused { line: _, reason: _ } => 1,
        }
    }
}

// What stands before the number of points.
fn verified_front(complete: bool) -> &'static [u8]
    ensures { result.now ≡ verified_front complete }
{
    if complete {
        b"verified front "
    } else {
        b"verified front partial "
    }
}

/// Writes the line of a verdict on a document of a front.
pub(crate) fn write_front_verdict<K: Sink>(sink: &mut K, verdict: FrontAudited) -> Written
    ensures { Writes (K.written sink.old) (K.written sink.new) (K.faults sink.old)
        (K.faults sink.new)
        (front_audit_text verdict) result }
{
    match verdict {
        FrontAudited::Verified { complete, points } => {
            write_numbered(sink, Ok(()), verified_front(complete), points as u64)
        }
        FrontAudited::Refused { line, reason } => write_refusal(sink, line, reason),
    }
}
