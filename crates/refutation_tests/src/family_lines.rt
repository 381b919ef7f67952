//! Lines of families, read, copied and written.
use bounded_tokens::{FamilyToken, copy_family_token, read_family_token, write_family_token};
use instance_text::LineLexer;
use pack_streams::MemorySink;
use std::alloc::Global;
use std::mem::size_of;
use std::test::Fail;

// The token of a line in two dimensions.
fn read(alloc: Global, line: &[u8]) -> Option<FamilyToken> {
    let mut lexer = LineLexer::new();
    for byte in line {
        let _ = lexer.feed(*byte);
    }
    let _ = lexer.finish();
    read_family_token(alloc, &lexer, 2)
}

// Whether the line is a token, and a copy of it is written so; an empty spelling is that of no
// token.
fn is_written_as(alloc: Global, line: &[u8], spelling: &[u8]) -> Result<bool, Fail> {
    let Some(token) = read(alloc, line) else {
        return Ok(spelling.is_empty());
    };
    let copy = copy_family_token(alloc, &token)?;
    let mut sink = MemorySink::new(alloc, 100, Vec::new(alloc))?;
    write_family_token(&copy, &mut sink)?;
    Ok(sink.written() == spelling)
}

// Lines, and how they are written.
const LINES: [(&[u8], &[u8]); 9] = [
    (b"k 2 4 1 012 # a family", b"k 2 4 1 12\n"),
    (b"k 1 7", b"k 1 7\n"),
    (b"k 0 0 4294967295\r", b"k 0 0 4294967295\n"),
    (b"k 2 1 2 3 4 5 6 7 8 9", b"k 2 1 2 3 4 5 6 7 8 9\n"),
    (b"k 2 1 2 3 4 5 6 7 8 9 10", b""),
    (b"k 2 1 2 3 4 5 6 7 8 9 10 11", b""),
    (b"k 2", b""),
    (b"k 2 1 4294967296", b""),
    (b"v id cut 7", b"v id cut 7\n"),
];

fn lines_are_written(alloc: Global) -> Result<bool, Fail> {
    for row in &LINES {
        if !is_written_as(alloc, row.0, row.1)? {
            return Ok(false);
        }
    }
    Ok(true)
}

#[test]
fn lines_of_families_are_read_and_written(rt: HostRuntime) -> Result<(), Fail> {
    assert!(rt; lines_are_written(rt.alloc())?);
    Ok(())
}

#[test]
fn a_token_takes_at_most_64_bytes(rt: HostRuntime) -> Result<(), Fail> {
    assert!(rt; size_of::<FamilyToken>() <= 64);
    Ok(())
}
