//! A document that was verified, read again line by line.
ghost use Rattle.std.specs.Prelude.{◌≡◌, IfOk};
ghost use Rattle.text_terms.specs.Feeding.{ended_line, new_lexer, lines_fed};
ghost use Rattle.proof_tree.specs.Plain.{plain_tokens};
ghost use Rattle.document_audits.specs.Rereading.{says_result, plain_reading, reread_line, reread_lines, headed, described, proved_with};
ghost use Rattle.document_audits.specs.Rereading.Reread.{Unheaded, Proving};

use box_instances::{Instance, NoMemory};
use instance_text::{InstanceReader, LexStep, LineLexer, ReadTextError, is_first};
use proof_tree::{Token, read_token};
use std::alloc::Global;

/// Where the reading stands.
#[derive(Drop)]
pub(crate) enum Reading {
    /// The first line that isn't blank is still to come.
    Heading,
    /// The lines of the instance come, and then the result line.
    Describing(InstanceReader),
    /// The tokens come.
    Proving {
        instance: Instance,
        tokens: Vec<Token>,
    },
    /// The lines are no instance.
    Broken,
}

/// Whether the first word of the line is `result`.
pub(crate) fn is_result(line: &LineLexer) -> bool
    ensures { result ≡ says_result line.now.held.words }
{
    is_first(line, b"result")
}

// A line where the first one is wanted.
fn read_heading(alloc: Global, line: &LineLexer) -> Reading
    ensures { plain_reading result ≡ headed line.now.held.words }
{
    if line.word_count() == 0 {
        return Reading::Heading;
    }
    Reading::Describing(InstanceReader::new(alloc))
}

// The instance of the lines before the result line.
fn begin_proof(alloc: Global, reader: InstanceReader) -> Reading
    ensures { plain_reading result ≡ proved_with reader }
{
    match reader.finish(0) {
        Ok(instance) => Reading::Proving {
            instance,
            tokens: Vec::new(alloc),
        },
        Err(_) => Reading::Broken,
    }
}

// A line of the instance, or the result line.
fn describe(
    alloc: Global,
    mut reader: InstanceReader,
    line: &LineLexer,
) -> Result<Reading, NoMemory>
    ensures { IfOk result (λ r. plain_reading r
        ≡ reread_line (described reader) (ended_line line.now.held)) }
{
    if is_result(line) {
        return Ok(begin_proof(alloc, reader));
    }
    match reader.line(line) {
        Ok(()) => Ok(Reading::Describing(reader)),
        Err(ReadTextError::Fault(_)) => Ok(Reading::Broken),
        Err(ReadTextError::NoMemory) => Err(NoMemory),
    }
}

// A line behind the result line: its token is kept, if it has one.
fn prove(
    alloc: Global,
    instance: Instance,
    mut tokens: Vec<Token>,
    line: &LineLexer,
) -> Result<Reading, NoMemory>
    ensures { IfOk result (λ r. plain_reading r
        ≡ reread_line (Proving instance (plain_tokens tokens.items)) (ended_line line.now.held)) }
{
    if let Some(token) = read_token(alloc, line, instance.dims()) {
        let Ok(()) = tokens.push(token) else {
            return Err(NoMemory);
        };
    }
    Ok(Reading::Proving { instance, tokens })
}

// A line more.
fn read_line(alloc: Global, at: Reading, line: &LineLexer) -> Result<Reading, NoMemory>
    ensures { IfOk result (λ r. plain_reading r
        ≡ reread_line (plain_reading at) (ended_line line.now.held)) }
{
    match at {
        Reading::Heading => Ok(read_heading(alloc, line)),
        Reading::Describing(reader) => describe(alloc, reader, line),
        Reading::Proving { instance, tokens } => prove(alloc, instance, tokens, line),
        Reading::Broken => Ok(Reading::Broken),
    }
}

/// Reads all lines.
pub(crate) fn read_again(alloc: Global, bytes: &[u8]) -> Result<Reading, NoMemory>
    ensures { IfOk result (λ r. plain_reading r
        ≡ reread_lines Unheaded (lines_fed new_lexer bytes.now)) }
{
    let mut lexer = LineLexer::new();
    let mut at = Reading::Heading;
    for byte in bytes {
        match lexer.feed(*byte) {
            LexStep::More => {}
            LexStep::Line => at = read_line(alloc, at, &lexer)?,
        }
    }
    match lexer.finish() {
        LexStep::More => Ok(at),
        LexStep::Line => read_line(alloc, at, &lexer),
    }
}
