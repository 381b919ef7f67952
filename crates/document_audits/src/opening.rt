//! Reading the opening of a document, and the rest of one that is held whole.
ghost use Rattle.std.specs.Prelude.{◌≡◌, ◌≢◌, ◌<◌, ◌≤◌, ◌^◌, length, MatchBool};
ghost use Rattle.text_terms.specs.Feeding.{feed};
ghost use Rattle.document_audits.specs.Reading.{CountsOpening, IsOpened, IsOpeningRead, ReadsOn, ends_filled};

use crate::kind::{bounded_job, kind_of_line};
use instance_text::{LexStep, LineLexer, is_blank};
use pack_streams::{ReadAnswer, ReadStop, Source};
use std::alloc::Global;
use text_terms::SolvingJob;
use verdict_terms::DocumentKind;

/// What the opening of a document begins.
#[derive(Drop)]
pub enum Opened {
    /// A document that is held whole: all its bytes.
    Whole(Vec<u8>),
    /// A bounded document, of which the bytes up to the line feed of its heading were taken: how
    /// many they are, what is held behind them, and the job that the heading names.
    Begun {
        lexer: LineLexer,
        count: u64,
        job: SolvingJob,
    },
}

// The bytes up to the line feed of the first line that isn't blank, or up to the end: what is held
// behind them, and the kind of the document, where that line was ended.
#[derive(Drop)]
struct Opening {
    bytes: Vec<u8>,
    lexer: LineLexer,
    kind: Option<DocumentKind>,
}

// Reads a byte at a time, so that no byte behind the opening is taken. It takes one byte more than
// the limit before it answers `TooLong`.
fn read_opening<S: Source>(alloc: Global, input: &mut S, limit: usize) -> Result<Opening, ReadStop>
    requires { limit ≤ 16777216 }
    ensures moves { IsOpeningRead limit (S.left input.old) (S.left input.new) result }
    ensures count { CountsOpening (S.faults input.old) (S.faults input.new) result }
{
    let mut bytes = Vec::new(alloc);
    let mut lexer = LineLexer::new();
    let mut piece = [0u8; 1];
    loop {
        match input.read(&mut piece) {
            ReadAnswer::Failed => return Err(ReadStop::ReadFault),
            ReadAnswer::End => {
                return Ok(Opening {
                    bytes,
                    lexer,
                    kind: None,
                });
            }
            ReadAnswer::Got(_) => {}
        }
        let byte = piece[0];
        if bytes.push(byte).is_err() {
            return Err(ReadStop::NoMemory);
        }
        if bytes.len() > limit {
            return Err(ReadStop::TooLong);
        }
        if is_filled_at(&mut lexer, byte) {
            let kind = Some(kind_of_line(&lexer));
            return Ok(Opening { bytes, lexer, kind });
        }
    }
}

// Takes a byte. Answers whether it ends a line that isn't blank.
fn is_filled_at(lexer: &mut LineLexer, byte: u8) -> bool
    requires { lexer.old.number < 2 ^ 63 }
    ensures step { lexer.new ≡ feed byte lexer.old }
    ensures filled { result ≡ ends_filled byte lexer.new }
{
    match lexer.feed(byte) {
        LexStep::More => false,
        LexStep::Line => !is_blank(lexer),
    }
}

// Reads to the end of the source, behind the bytes that are held.
fn read_on<S: Source>(input: &mut S, held: Vec<u8>, limit: usize) -> Result<Vec<u8>, ReadStop>
    requires most { limit ≤ 16777216 }
    requires within { length held.items ≤ limit }
    ensures moves { ReadsOn limit held.items (S.left input.old) (S.left input.new) result }
    ensures count { CountsOpening (S.faults input.old) (S.faults input.new) result }
{
    let mut bytes = held;
    let mut room = [0u8; 4096];
    loop {
        match input.read(&mut room) {
            ReadAnswer::Got(count) => {
                if bytes.extend_from_slice(&room[..count]).is_err() {
                    return Err(ReadStop::NoMemory);
                }
                if bytes.len() > limit {
                    return Err(ReadStop::TooLong);
                }
            }
            ReadAnswer::End => return Ok(bytes),
            ReadAnswer::Failed => return Err(ReadStop::ReadFault),
        }
    }
}

// Whether it is the kind of a bounded document.
fn is_bounded(kind: DocumentKind) -> bool
    ensures { MatchBool result (kind ≡ DocumentKind.Bounded) (kind ≢ DocumentKind.Bounded) }
{
    match kind {
        DocumentKind::Bounded => true,
        DocumentKind::Explained | DocumentKind::Front | DocumentKind::Reduced => false,
    }
}

/// Reads the opening of a document, and the rest too unless it is a bounded one.
///
/// `Whole` has all bytes, at most `limit`, of a document of another kind, or of one that ended
/// before a line feed ended its heading. `Begun` comes behind the heading of a bounded document, of
/// which no byte more was taken. `TooLong` comes only where a document that is held whole has
/// more bytes than the limit, of which not more than 4,096 bytes beyond it were taken. `ReadFault`
/// comes where the source failed before, which ends the reading. `limit` is at most 16,777,216.
/// The bytes of an opening are copied once.
pub fn open_document<S: Source>(
    alloc: Global,
    input: &mut S,
    limit: usize,
) -> Result<Opened, ReadStop>
    requires { limit ≤ 16777216 }
    ensures moves { IsOpened limit (S.left input.old) (S.left input.new) result }
    ensures count { CountsOpening (S.faults input.old) (S.faults input.new) result }
{
    let opening = match read_opening(alloc, input, limit) {
        Ok(opening) => opening,
        Err(stop) => return Err(stop),
    };
    let Opening { bytes, lexer, kind } = opening;
    let Some(kind) = kind else {
        return Ok(Opened::Whole(bytes));
    };
    if is_bounded(kind) {
        let job = bounded_job(&lexer);
        let count = bytes.len() as u64;
        return Ok(Opened::Begun { lexer, count, job });
    }
    match read_on(input, bytes, limit) {
        Ok(bytes) => Ok(Opened::Whole(bytes)),
        Err(stop) => Err(stop),
    }
}
