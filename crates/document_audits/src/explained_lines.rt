//! The lines that are left, as the verdict takes them.
ghost use Rattle.std.specs.Prelude.{◌≡◌, ◌<◌, length, true};
ghost use Rattle.instance_text.specs.Lines.{IsAmong, lines_left};
ghost use Rattle.document_audits.specs.ExplainedAudits.{IsNextTaken, IsKindTold};

use instance_text::{Cursor, next_filled};

/// Takes the lines up to the next one that isn't blank. Answers whether there was one.
pub(crate) fn next_taken(bytes: &[u8], at: &mut Cursor) -> bool
    requires { IsAmong bytes.now at.old }
    ensures at { IsAmong bytes.now at.new }
    ensures line { IsNextTaken bytes.now at.old at.new result }
    ensures kind { IsKindTold bytes.now at.old at.new result }
    ensures fewer { result ≡ true
        → length (lines_left bytes.now at.new) < length (lines_left bytes.now at.old) }
{
    next_filled(bytes, at)
}
