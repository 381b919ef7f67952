//! Where the reading of a document stands, and the reading of the lines of one judge.
ghost use Rattle.std.specs.Prelude.{◌≡◌, ◌+◌, ◌<◌, ◌^◌, true, false, None};
ghost use Rattle.text_terms.specs.Feeding.{new_lexer};
ghost use Rattle.document_lines.specs.Reading.{IsAt};
ghost use Rattle.document_check.specs.Passes.{IsPosition, Goes, end_of};

use crate::check::CheckEnd;
use document_lines::{LineJudge, ReadEnd, take_lines};
use instance_text::LineLexer;
use pack_streams::Source;
use text_terms::Claim;
use verdict_terms::Reason;

/// Where the reading of a document stands: what is held of the line begun, and how many bytes were
/// taken.
#[derive(Drop)]
pub struct Position {
    pub lexer: LineLexer,
    pub count: u64,
}

impl Position {
    /// Before the first byte.
    pub fn start() -> Position
        ensures { result ≡ record { lexer = new_lexer; count = 0 } }
    {
        Position {
            lexer: LineLexer::new(),
            count: 0,
        }
    }
}

// What the end of the text comes to after `lines` lines.
fn end_of(ended: Option<Claim>, lines: u64) -> CheckEnd
    requires { lines < 2 ^ 63 }
    ensures { result ≡ end_of ended lines }
{
    match ended {
        Some(claim) => CheckEnd::Verified(claim),
        None => CheckEnd::Refused {
            line: lines + 1,
            reason: Reason::TooShort,
        },
    }
}

/// Gives a judge its lines. `None` says that the next line is for another judge.
pub(crate) fn give_lines<S: Source, J: LineJudge>(
    input: &mut S,
    at: &mut Position,
    judge: &mut J,
) -> Option<CheckEnd>
    requires at { IsPosition at.old }
    requires takes { J.takes judge.old ≡ true }
    ensures at { result ≡ None → IsPosition at.new }
    ensures paused { result ≡ None → J.takes judge.new ≡ false }
    ensures behind { result ≡ None → IsAt (J.behind judge.old) (J.stage judge.new) }
    ensures goes { Goes (S.left input.old) (S.left input.new) (S.faults input.old)
        (S.faults input.new)
        at.old (J.stage judge.old) at.new (J.stage judge.new) result }
{
    match take_lines(input, judge, &mut at.lexer, &mut at.count) {
        ReadEnd::End => Some(end_of(judge.ended(), at.lexer.line_number())),
        ReadEnd::Paused => None,
        ReadEnd::Refused(reason) => Some(CheckEnd::Refused {
            line: at.lexer.line_number(),
            reason,
        }),
        ReadEnd::TooLong => Some(CheckEnd::TooLong),
        ReadEnd::ReadFault => Some(CheckEnd::ReadFault),
        ReadEnd::NoMemory => Some(CheckEnd::NoMemory),
    }
}
