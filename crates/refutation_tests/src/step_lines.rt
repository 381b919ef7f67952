//! Lines of steps, read and written.
use instance_text::LineLexer;
use line_proofs::{Step, read_step, write_step};
use pack_streams::MemorySink;
use std::alloc::Global;
use std::test::Fail;

/// The step that a line is, in two dimensions.
pub(crate) fn read(alloc: Global, line: &[u8]) -> Option<Step> {
    let mut lexer = LineLexer::new();
    for byte in line {
        let _ = lexer.feed(*byte);
    }
    let _ = lexer.finish();
    read_step(alloc, &lexer, 2)
}

// Whether the line is a step, and is written so.
fn is_written_as(alloc: Global, line: &[u8], spelling: &[u8]) -> Result<bool, Fail> {
    let Some(step) = read(alloc, line) else {
        return Ok(false);
    };
    let mut sink = MemorySink::new(alloc, 100, Vec::new(alloc))?;
    write_step(&step, &mut sink)?;
    Ok(sink.written() == spelling)
}

#[test]
fn steps_are_read_and_written(rt: HostRuntime) -> Result<(), Fail> {
    let alloc = rt.alloc();
    assert!(rt; is_written_as(alloc, b"pair 1 02 3 # too long", b"pair 1 2 3\n")?);
    assert!(rt; is_written_as(alloc, b"apart 1 2 3", b"apart 1 2 3\n")?);
    assert!(rt; is_written_as(alloc, b"\ttriple 1 2 3  4\r", b"triple 1 2 3 4\n")?);
    assert!(rt; is_written_as(alloc, b"compose 1 2 3 4", b"compose 1 2 3 4\n")?);
    assert!(rt; is_written_as(alloc, b"cycle 1 2 3 4 5", b"cycle 1 2 3 4 5\n")?);
    assert!(rt; is_written_as(alloc, b"order 1 2 3 4 5", b"order 1 2 3 4 5\n")?);
    assert!(rt; is_written_as(alloc, b"chain 1 2 4294967295", b"chain 1 2 4294967295\n")?);
    assert!(rt; is_written_as(alloc, b"on 7", b"on 7\n")?);
    assert!(rt; is_written_as(alloc, b"x 1 2 3", b"x 1 2 3\n")?);
    assert!(rt; is_written_as(alloc, b"v id cut 3", b"v id cut 3\n")?);
    Ok(())
}

#[test]
fn other_lines_are_no_steps(rt: HostRuntime) -> Result<(), Fail> {
    let alloc = rt.alloc();
    let lines: &[&[u8]] = &[
        b"",
        b"x",
        b"s",
        b"w",
        b"b 1",
        b"g id id",
        b"end",
        b"pair 1 2",
        b"pair 1 2 3 4",
        b"on 4294967296",
        b"on",
        b"cycle 1 2 3 4",
        b"v id",
        b"pair 1 2 3\x7f",
        b"Pair 1 2 3",
    ];
    for line in lines {
        assert!(rt; read(alloc, line).is_none());
    }
    Ok(())
}
