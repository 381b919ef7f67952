//! Tests of token lines, read and written.
ghost use Rattle.std.specs.Prelude.{◌≤◌};

use instance_text::LineLexer;
use pack_streams::MemorySink;
use packing_terms::ScaleFn;
use proof_tree::{Token, read_token, write_token};
use std::alloc::Global;
use std::mem::size_of;
use std::process::Abort;
use std::test::Fail;

// The token of a line.
fn read(alloc: Global, line: &[u8], dims: u32) -> Option<Token>
    requires least { 2 ≤ dims }
    requires most { dims ≤ 4 }
{
    let mut lexer = LineLexer::new();
    for byte in line {
        let _ = lexer.feed(*byte);
    }
    let _ = lexer.finish();
    read_token(alloc, &lexer, dims)
}

// Whether the line is a token, and is written so.
fn is_written_as(alloc: Global, line: &[u8], dims: u32, spelling: &[u8]) -> Result<bool, Fail>
    requires least { 2 ≤ dims }
    requires most { dims ≤ 4 }
{
    let Some(token) = read(alloc, line, dims) else {
        return Ok(false);
    };
    let mut sink = MemorySink::new(alloc, 100, Vec::new(alloc))?;
    write_token(&token, &mut sink)?;
    Ok(sink.written() == spelling)
}

#[test]
fn a_token_takes_at_most_64_bytes(rt: HostRuntime) -> Result<(), Fail> {
    assert!(rt; size_of::<Token>() <= 64);
    Ok(())
}

#[test]
fn token_lines_are_read_and_written(rt: HostRuntime) -> Result<(), Fail> {
    let alloc = rt.alloc();
    assert!(rt; is_written_as(alloc, b"a 1 02 3 # apart", 2, b"a 1 2 3\n")?);
    assert!(rt;
        is_written_as(
            alloc,
            b"\tv id  step 4 cut 0 count 4294967295\r",
            4,
            b"v id step 4 cut 0 count 4294967295\n"
        )?
    );
    assert!(rt; is_written_as(alloc, b"s", 2, b"s\n")?);
    let Some(Token::GlobalScales(tuple)) = read(alloc, b"g id cut 7", 2) else {
        assert!(rt; false);
        return Ok(());
    };
    assert!(rt; tuple.as_slice() == [ScaleFn::Id, ScaleFn::Cut(7)].as_slice());
    Ok(())
}

#[test]
fn other_lines_are_no_tokens(rt: HostRuntime) -> Result<(), Fail> {
    let alloc = rt.alloc();
    assert!(rt; read(alloc, b"", 2).is_none());
    assert!(rt; read(alloc, b"a 1 2", 2).is_none());
    assert!(rt; read(alloc, b"a 1 2 4294967296", 2).is_none());
    assert!(rt; read(alloc, b"x 1", 2).is_none());
    assert!(rt; read(alloc, b"v id id", 3).is_none());
    assert!(rt; read(alloc, b"v id step", 2).is_none());
    assert!(rt; read(alloc, b"x \xff", 2).is_none());
    Ok(())
}
