//! The verdict on the last token of a list, against the one that is wanted.
use verdict_terms::{FeedVerdict, RefuseCode};

/// Whether the verdict is a refusal with this code, or that the tree is whole where there is none.
pub(crate) fn is_wanted(verdict: FeedVerdict, wanted: Option<RefuseCode>) -> bool {
    match wanted {
        None => verdict == FeedVerdict::Done,
        Some(code) => verdict == FeedVerdict::Refused { code },
    }
}
