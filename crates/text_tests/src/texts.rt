//! Tests of instance texts: the first fault of each, their spellings, and the calls of the lexer
//! and the reader.
use instance_text::{
    InstanceReader, LexStep, LineLexer, ReadTextError, TextFault, read_instance, write_instance,
};
use pack_streams::{MemorySink, WriteFault, WriteStep};
use std::alloc::{AllocError, Global};
use std::test::Fail;

// The line of the fault of a text and its code, or how many boxes it has and 0. Want of memory is
// code 255.
fn told(alloc: Global, text: &[u8]) -> (u64, u8) {
    match read_instance(alloc, text) {
        Ok(instance) => (instance.len() as u64, 0),
        Err(ReadTextError::Fault(fault)) => (fault.line, fault.code),
        Err(ReadTextError::NoMemory) => (0, 255),
    }
}

// Whole texts, each with the line of its fault and the code, or with the number of boxes and 0.
const TEXTS: [(&[u8], u64, u8); 18] = [
    (b"", 1, 7),
    (b"format 1\ncontainer 5 5\n", 3, 10),
    (b"format 1\ncontainer 5 1000001\n", 2, 4),
    (b"format 1\ncontainer 5 5\ncontainer 5 5\n", 3, 6),
    (b"format 1\nbox 1 1\n", 2, 5),
    (b"format 1\ncontainer 5\n", 2, 2),
    (b"\xff", 1, 8),
    (b"crate \x7f", 1, 8),
    (b"container", 1, 5),
    (b"format 1\nformat x y", 2, 6),
    (b"format 1 1\n", 1, 2),
    (b"format one\n", 1, 3),
    (b"format 3\n", 1, 4),
    (b"format 1\ncontainer 5 5 5 5 5\n", 2, 2),
    (b"format 2\nkerf 1 1\n", 2, 5),
    (b"kerf 1 1\n", 1, 1),
    (
        b"format 2\ncontainer 900000 5\nkerf 100000 0\nbox 1 1",
        1,
        0,
    ),
    (
        b"format 2\ncontainer 900001 5\nkerf 100000 0\nbox 1 1",
        3,
        4,
    ),
];

#[test]
fn the_first_faulty_line_is_told_with_its_code(rt: HostRuntime) -> Result<(), Fail> {
    let alloc = rt.alloc();
    for row in &TEXTS {
        let (text, number, code) = *row;
        assert!(rt; told(alloc, text) == (number, code));
    }
    Ok(())
}

// The outcome of reading a text of `count` boxes.
fn boxes_told(alloc: Global, count: u32) -> Result<(u64, u8), AllocError> {
    let mut text = Vec::from_slice(alloc, b"format 1\ncontainer 5 5\n")?;
    for _ in 0..count {
        text.extend_from_slice(b"box 1 1\n")?;
    }
    Ok(told(alloc, &text))
}

#[test]
fn there_are_at_most_128_boxes(rt: HostRuntime) -> Result<(), Fail> {
    assert!(rt; boxes_told(rt.alloc(), 128)? == (128, 0));
    assert!(rt; boxes_told(rt.alloc(), 129)? == (131, 9));
    Ok(())
}

#[test]
fn a_text_of_spaces_is_one_blank_line(rt: HostRuntime) -> Result<(), Fail> {
    let alloc = rt.alloc();
    let spaces = vec![in alloc; 32u8; 1048576]?;
    assert!(rt; told(alloc, &spaces) == (2, 7));
    Ok(())
}

// The outcome of reading a text of these lines and those behind them.
fn told_behind(alloc: Global, head: &[u8], lines: &[u8]) -> Result<(u64, u8), AllocError> {
    let mut text = Vec::from_slice(alloc, head)?;
    text.extend_from_slice(lines)?;
    Ok(told(alloc, &text))
}

// Lines behind a line `format 1` and a line `container 5 5`, each with the outcome of reading the
// text.
const THIRD_LINES: [(&[u8], u64, u8); 20] = [
    (b"box 0 1\n", 3, 4),
    (b"box 1 x\n", 3, 3),
    (b"crate 1 1\n", 3, 1),
    (b"box 1 1 1 x", 3, 1),
    (b"box 1 1 1", 3, 2),
    (b"box x 0", 3, 3),
    (b"box 0 x", 3, 4),
    (b"box 1 1 worth x", 3, 1),
    (b"box 1 1 value x", 3, 3),
    (b"box 1 1 value 1000000000", 1, 0),
    (b"box 1 1 value 1000000001", 3, 4),
    (b"box 1 1 1 1 1 1 1 1 1 1 1 1", 3, 2),
    (b"kerf 1 1", 3, 1),
    (b"box 1 1 times 2", 3, 1),
    (b"box 1 1 value 1 times 2", 3, 2),
    (b"box 1 1000000", 1, 0),
    (b"box 1 00000000000000000005", 1, 0),
    (b"box 1 000000000000000000005", 3, 3),
    (b"box 1 99999999999999999999", 3, 4),
    (b"box 1 +5", 3, 3),
];

#[test]
fn the_tests_of_a_line_have_their_order(rt: HostRuntime) -> Result<(), Fail> {
    let alloc = rt.alloc();
    for row in &THIRD_LINES {
        let (line, number, code) = *row;
        let head = b"format 1\ncontainer 5 5\n";
        assert!(rt; told_behind(alloc, head, line)? == (number, code));
    }
    Ok(())
}

// Texts behind a line `format 2` and a line `container 5 7`, each with the line of its fault and
// the code, or with the number of boxes and 0.
const FORMAT_2: [(&[u8], u64, u8); 24] = [
    (
        b"kerf 2 0\nbox 1 2 value 3 times 2\nbox 3 4 times 1\n",
        3,
        0,
    ),
    (b"box 1 1 times 128\n", 128, 0),
    (b"kerf 100000 1 # cut\n\nbox 900000 1\n", 1, 0),
    (b"kerf 1\n", 3, 2),
    (b"kerf 1 1 1\n", 3, 2),
    (b"kerf 1 x\n", 3, 3),
    (b"kerf 100001 0\n", 3, 4),
    (b"kerf 0 0\nkerf 0 0\n", 4, 6),
    (b"kerf 0 0\nkerf\n", 4, 6),
    (b"box 1 1\nkerf 1 1\n", 4, 5),
    (b"kerf 2 0\nbox 999999 1\n", 4, 4),
    (b"kerf 2 0\nbox 999998 1\n", 1, 0),
    (b"box 1 1 copies 2\n", 3, 1),
    (b"box 1 1 times 2 value 3\n", 3, 1),
    (b"box 1 1 value 3 value 3\n", 3, 1),
    (b"box 1 1 value 3 times\n", 3, 2),
    (b"box 1 1 value 3 times 2 times 2\n", 3, 2),
    (b"box 1 1 times x\n", 3, 3),
    (b"box 1 1 times 0\n", 3, 4),
    (b"box 1 1 times 129\n", 3, 4),
    (b"box 1 1 times 100\nbox 1 1 times 28\n", 128, 0),
    (b"box 1 1 times 100\nbox 1 1 times 29\n", 4, 9),
    (b"box 1 1 times 128\nbox\n", 4, 9),
    (b"kerf 0 0\n", 4, 10),
];

#[test]
fn a_kerf_and_repeats_are_read_in_format_2(rt: HostRuntime) -> Result<(), Fail> {
    let alloc = rt.alloc();
    for (lines, number, code) in FORMAT_2 {
        let head = b"format 2\ncontainer 5 7\n";
        assert!(rt; told_behind(alloc, head, lines)? == (number, code));
    }
    Ok(())
}

// A text of these lines of one instance text, each named by its number.
fn of_lines(alloc: Global, order: &[u8]) -> Result<Vec<u8>, AllocError> {
    let mut text = Vec::new(alloc);
    for number in order {
        match *number {
            b'1' => text.extend_from_slice(b"# a layer\n")?,
            b'2' => text.extend_from_slice(b"format 1\n")?,
            b'3' => text.extend_from_slice(b"container 9 8 7\n")?,
            b'4' => text.extend_from_slice(b"box 1 2 3\n")?,
            b'5' => text.extend_from_slice(b"box 4 5 6 value 0\n")?,
            _ => text.extend_from_slice(b"box 9 8 7\n")?,
        }
    }
    Ok(text)
}

// The lines of one text with some left out, doubled or swapped, each with the outcome of reading
// the text.
const ORDERS: [(&[u8], u64, u8); 30] = [
    (b"123456", 3, 0),
    (b"23456", 3, 0),
    (b"13456", 2, 5),
    (b"12456", 3, 5),
    (b"12356", 2, 0),
    (b"12346", 2, 0),
    (b"12345", 2, 0),
    (b"123", 4, 10),
    (b"12", 3, 7),
    (b"1123456", 3, 0),
    (b"1223456", 3, 6),
    (b"1233456", 4, 6),
    (b"1234456", 4, 0),
    (b"1234556", 4, 0),
    (b"1234566", 4, 0),
    (b"213456", 3, 0),
    (b"321456", 1, 5),
    (b"423156", 1, 5),
    (b"523416", 1, 5),
    (b"623451", 1, 5),
    (b"132456", 2, 5),
    (b"143256", 2, 5),
    (b"153426", 2, 5),
    (b"163452", 2, 5),
    (b"124356", 3, 5),
    (b"125436", 3, 5),
    (b"126453", 3, 5),
    (b"123546", 3, 0),
    (b"123654", 3, 0),
    (b"123465", 3, 0),
];

#[test]
fn each_line_left_out_doubled_or_swapped_gives_its_code(rt: HostRuntime) -> Result<(), Fail> {
    let alloc = rt.alloc();
    for row in &ORDERS {
        let (order, number, code) = *row;
        assert!(rt; told(alloc, &of_lines(alloc, order)?) == (number, code));
    }
    Ok(())
}

// Whether the text of an instance is written in this spelling.
fn is_written_as(alloc: Global, text: &[u8], spelling: &[u8]) -> Result<bool, Fail> {
    let instance = read_instance(alloc, text)?;
    let mut sink = MemorySink::new(alloc, 1000, Vec::new(alloc))?;
    write_instance(&instance, &mut sink)?;
    Ok(sink.written() == spelling)
}

const FOUR_DIMENSIONS: &[u8] = b"format 1\ncontainer 9 8 7 6\nbox 1 2 3 4 value 0\nbox 5 6 7 6\n";

#[test]
fn four_dimensions_and_the_value_0_come_back(rt: HostRuntime) -> Result<(), Fail> {
    let alloc = rt.alloc();
    assert!(rt; is_written_as(alloc, FOUR_DIMENSIONS, FOUR_DIMENSIONS)?);
    let bounds = b"format 1\ncontainer 1000000 1\nbox 1 1000000 value 1000000000\n";
    assert!(rt; is_written_as(alloc, bounds, bounds)?);
    Ok(())
}

#[test]
fn every_spelling_is_read_and_one_is_written(rt: HostRuntime) -> Result<(), Fail> {
    let alloc = rt.alloc();
    assert!(rt;
        is_written_as(
            alloc,
            b"\r\n#\r\nformat 01\r\n\tcontainer 9 8 7 0006 # c\xff\r\nbox 1 2 3 4 value 0\n box 5 6\t7 6  value 1#",
            FOUR_DIMENSIONS,
        )?
    );
    Ok(())
}

#[test]
fn format_2_is_written_exactly_where_some_kerf_is_not_0(rt: HostRuntime) -> Result<(), Fail> {
    let alloc = rt.alloc();
    assert!(rt;
        is_written_as(
            alloc,
            b"format 2\ncontainer 10 10\nkerf 0 01\nbox 5 5 times 2\nbox 1 1 value 3",
            b"format 2\ncontainer 10 10\nkerf 0 1\nbox 5 5\nbox 5 5\nbox 1 1 value 3\n",
        )?
    );
    assert!(rt;
        is_written_as(
            alloc,
            b"format 2\ncontainer 5 5\nkerf 0 0\nbox 1 1 times 2\n",
            b"format 1\ncontainer 5 5\nbox 1 1\nbox 1 1\n",
        )?
    );
    Ok(())
}

// Whether a text whose writing fails behind eleven bytes leaves these.
fn leaves(alloc: Global, text: &[u8], front: &[u8]) -> Result<bool, Fail> {
    let instance = read_instance(alloc, text)?;
    let plan = Vec::from_slice(alloc, &[WriteStep::Take(11), WriteStep::Fail])?;
    let mut sink = MemorySink::new(alloc, 1000, plan)?;
    let is_fault = write_instance(&instance, &mut sink) == Err(WriteFault);
    Ok(is_fault && sink.written() == front)
}

#[test]
fn a_write_fault_leaves_a_part_from_the_front(rt: HostRuntime) -> Result<(), Fail> {
    let text = b"format 1\ncontainer 9 8\nbox 1 2\n";
    assert!(rt; leaves(rt.alloc(), text, b"format 1\nco")?);
    Ok(())
}

// A lexer after this line, which has no line feed.
fn lexer_after(line: &[u8]) -> LineLexer {
    let mut lexer = LineLexer::new();
    for byte in line {
        let _ = lexer.feed(*byte);
    }
    let _ = lexer.finish();
    lexer
}

fn has_word(lexer: &LineLexer, k: u32, word: &[u8]) -> bool {
    if k < 12 && k < lexer.word_count() {
        return lexer.word(k) == word;
    }
    false
}

// Lines, how many words each has, the number of one of them and that word, and whether there is a
// bad byte.
const LEXED: [(&[u8], u32, u32, &[u8], bool); 7] = [
    (SPACED, 3, 0, b"ab", false),
    (SPACED, 3, 1, b"c12345678901234567890", false),
    (SPACED, 3, 2, b"d", false),
    (b"1 2 3 4 5 6 7 8 9 10 11 12 13 14\r", 13, 11, b"12", false),
    (b"a b\r\r", 2, 0, b"a", true),
    (b"a b\r#", 2, 0, b"a", true),
    (b"a b#\r\r", 2, 0, b"a", false),
];

const SPACED: &[u8] = b"ab \tc12345678901234567890x d # e \xff\r";

fn is_lexed(line: &[u8], words: u32, k: u32, word: &[u8], is_bad: bool) -> bool {
    let lexer = lexer_after(line);
    let is_counted = lexer.line_number() == 1 && lexer.word_count() == words;
    is_counted && lexer.bad_byte() == is_bad && has_word(&lexer, k, word)
}

#[test]
fn a_lexer_tells_its_line(rt: HostRuntime) -> Result<(), Fail> {
    for row in &LEXED {
        let (line, words, k, word, is_bad) = *row;
        assert!(rt; is_lexed(line, words, k, word, is_bad));
    }
    Ok(())
}

// Whether an empty line ends with its line feed alone.
fn ends_with_its_line_feed() -> bool {
    let mut lexer = LineLexer::new();
    let is_open = lexer.finish() == LexStep::More;
    let is_ended = lexer.feed(b'\n') == LexStep::Line;
    is_open && is_ended && lexer.line_number() == 1 && lexer.word_count() == 0
}

#[test]
fn an_empty_line_is_told_at_its_line_feed(rt: HostRuntime) -> Result<(), Fail> {
    assert!(rt; ends_with_its_line_feed());
    Ok(())
}

// Whether a reader that met a box before the format keeps that error.
fn keeps_its_error(alloc: Global) -> bool {
    let error = ReadTextError::Fault(TextFault { line: 1, code: 5 });
    let mut reader = InstanceReader::new(alloc);
    let is_told = reader.line(&lexer_after(b"box 1 1")) == Err(error);
    let is_kept = reader.line(&lexer_after(b"format 1")) == Err(error);
    is_told && is_kept && reader.finish(2).err() == Some(error)
}

#[test]
fn a_reader_keeps_its_error(rt: HostRuntime) -> Result<(), Fail> {
    assert!(rt; keeps_its_error(rt.alloc()));
    Ok(())
}

// How many boxes a reader of four lines, one of them empty, ends with.
fn read_line_by_line(alloc: Global) -> Result<u32, Fail> {
    let mut reader = InstanceReader::new(alloc);
    reader.line(&lexer_after(b"format 1"))?;
    reader.line(&lexer_after(b""))?;
    reader.line(&lexer_after(b"container 3 3"))?;
    reader.line(&lexer_after(b"box 1 1"))?;
    Ok(reader.finish(4)?.len())
}

#[test]
fn a_reader_takes_its_lines_one_by_one(rt: HostRuntime) -> Result<(), Fail> {
    assert!(rt; read_line_by_line(rt.alloc())? == 1);
    Ok(())
}
