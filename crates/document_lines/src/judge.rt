//! The lines of a document, taken one by one from a source.
ghost use Rattle.std.specs.Prelude.{◌≡◌, ◌≤◌, ◌<◌, ◌+◌, ◌^◌, ℕ, Bool, true, false, not, IsTrue, Option};
ghost use Rattle.text_terms.specs.Feeding.{new_lexer};
ghost use Rattle.verdict_terms.specs.Stages.{Stage};
ghost use Rattle.verdict_terms.specs.Stages.Stage.{Beginning};
ghost use Rattle.document_lines.specs.declared.judge.ReadEnd.TheVariants.{Paused};
ghost use Rattle.document_lines.specs.Reading.{Judges, IsAt, ended_claim, TakesByte, TakesEnd, IsReadBehind};

use instance_text::{LexStep, LineLexer};
use pack_streams::{ReadAnswer, Source};
use text_terms::Claim;
use verdict_terms::Reason;

/// Why a line wasn't taken.
#[derive(Clone, Copy, Debug, PartialEq, Eq)]
pub enum LineStop {
    Refused(Reason),
    NoMemory,
}

/// What reading a document came to.
#[derive(Clone, Copy, Debug, PartialEq, Eq)]
pub enum ReadEnd {
    End,
    Paused,
    Refused(Reason),
    TooLong,
    ReadFault,
    NoMemory,
}

/// What takes the lines of a document one by one.
pub trait LineJudge {
    /// Where the document stands.
    ghost stage: { Self → Stage };

    /// Whether the next line is for this judge.
    ghost takes: { Self → Bool };

    /// Where the document stands behind the lines of this judge, where that is known before.
    ghost behind: { Self → Option Stage };

    /// Takes the line that the lexer reports.
    fn line(&mut self, line: &LineLexer) -> Result<(), LineStop>
        requires { takes self.old ≡ true }
        ensures judges { Judges (stage self.old) line.now (stage self.new) result }
        ensures behind { behind self.new ≡ behind self.old };

    /// Whether the next line is for another judge.
    fn is_paused(&self) -> bool
        ensures paused { result ≡ not (takes self.now) }
        ensures behind { IsTrue result → IsAt (behind self.now) (stage self.now) };

    /// The claim, where `end` was read.
    fn ended(&self) -> Option<Claim>
        ensures { result ≡ ended_claim (stage self.now) };
}

/// The most bytes that are read.
pub(crate) const MOST_BYTES: u64 = 1 << 40;

// Takes a byte, and the line that it ends.
fn take_byte<J: LineJudge>(judge: &mut J, lexer: &mut LineLexer, byte: u8) -> Result<(), LineStop>
    requires number { lexer.old.number < 2 ^ 63 }
    requires takes { J.takes judge.old ≡ true }
    ensures byte { TakesByte lexer.old (J.stage judge.old) byte lexer.new (J.stage judge.new)
        result }
    ensures number { lexer.new.number ≤ lexer.old.number + 1 }
    ensures behind { J.behind judge.new ≡ J.behind judge.old }
{
    match lexer.feed(byte) {
        LexStep::More => Ok(()),
        LexStep::Line => judge.line(lexer),
    }
}

// Takes the line begun at the end of the bytes.
fn take_end<J: LineJudge>(judge: &mut J, lexer: &mut LineLexer) -> ReadEnd
    requires number { lexer.old.number < 2 ^ 63 }
    requires takes { J.takes judge.old ≡ true }
    ensures end { TakesEnd lexer.old (J.stage judge.old) lexer.new (J.stage judge.new) result }
    ensures number { lexer.new.number ≤ lexer.old.number + 1 }
{
    match lexer.finish() {
        LexStep::More => ReadEnd::End,
        LexStep::Line => match judge.line(lexer) {
            Ok(()) => ReadEnd::End,
            Err(LineStop::Refused(reason)) => ReadEnd::Refused(reason),
            Err(LineStop::NoMemory) => ReadEnd::NoMemory,
        },
    }
}

/// Reads a document byte by byte, behind the bytes that were taken before, up to its first refused
/// line, and gives each line to the judge as it ends.
///
/// No byte behind the line feed of a refused line is taken. By an exact count of faults, the first
/// read that fails is the last. `TooLong`, `ReadFault` and `NoMemory` come only where no line that
/// was whole before is refused, and `TooLong` takes one byte more than the limit. `Paused` leaves
/// what is held as another judge needs it.
pub fn take_lines<S: Source, J: LineJudge>(
    input: &mut S,
    judge: &mut J,
    lexer: &mut LineLexer,
    count: &mut u64,
) -> ReadEnd
    requires number { lexer.old.number ≤ count.old }
    requires few { count.old ≤ MOST_BYTES }
    requires takes { J.takes judge.old ≡ true }
    ensures paused { result ≡ Paused → J.takes judge.new ≡ false }
    ensures behind { result ≡ Paused → IsAt (J.behind judge.old) (J.stage judge.new) }
    ensures number { lexer.new.number ≤ count.new + 1 }
    ensures paused_number { result ≡ Paused → lexer.new.number ≤ count.new }
    ensures few { count.new ≤ MOST_BYTES }
    ensures read { IsReadBehind MOST_BYTES (S.left input.old) (S.left input.new)
        (S.faults input.old) (S.faults input.new) lexer.old (J.stage judge.old) count.old
        lexer.new (J.stage judge.new) count.new result }
{
    let mut piece = [0u8; 1];
    while *count < MOST_BYTES {
        match input.read(&mut piece) {
            ReadAnswer::Failed => return ReadEnd::ReadFault,
            ReadAnswer::End => return take_end(judge, lexer),
            ReadAnswer::Got(_) => match take_byte(judge, lexer, piece[0]) {
                Ok(()) => {}
                Err(LineStop::Refused(reason)) => return ReadEnd::Refused(reason),
                Err(LineStop::NoMemory) => return ReadEnd::NoMemory,
            },
        }
        *count += 1;
        if judge.is_paused() {
            return ReadEnd::Paused;
        }
    }
    match input.read(&mut piece) {
        ReadAnswer::Failed => ReadEnd::ReadFault,
        ReadAnswer::End => take_end(judge, lexer),
        ReadAnswer::Got(_) => ReadEnd::TooLong,
    }
}
