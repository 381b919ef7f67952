//! Faults of the source and of the sink, while a document is checked, and what is read and written
//! around them.
use crate::asked::{reads_all_and_prints, stops_reading, stops_writing};
use crate::runs::{run_with_plans, run_with_read_fault};
use crate::texts::TWO_BOXES_FIT;
use pack_command::check_stream;
use pack_streams::{MemorySink, MemorySource, ReadStep, WriteStep};
use std::alloc::{AllocGlobal, Global};
use std::sync::Wait;
use std::test::Fail;
use std::thread::Threads;

const LINE: &[u8] = b"verified fit yes\n";

const FORM: &[u8] = b"answer pile\nformat 1\n";

const CHECK: &[&str] = &["check"];

#[test]
fn a_failed_read_before_a_refused_line_is_a_read_fault(rt: HostRuntime) -> Result<(), Fail> {
    for count in 0..12 {
        assert!(rt; stops_reading(&rt, CHECK, FORM, count)?, "{count}");
    }
    Ok(())
}

// Whether the refused line is reported under such reads, and what stands behind it is left.
fn leaves_the_rest<R: AllocGlobal + Threads + Wait + Sync>(
    rt: &R,
    reads: &[ReadStep],
) -> Result<bool, Fail> {
    let answer = run_with_plans(rt, CHECK, FORM, reads, &[])?;
    Ok(answer.is_line(1, "refused 1 form\n") && answer.left.as_slice() == b"format 1\n".as_slice())
}

#[test]
fn check_reads_no_byte_after_a_refused_line(rt: HostRuntime) -> Result<(), Fail> {
    let plans: [&[ReadStep]; 3] = [&[], &[ReadStep::Give(1); 12], &[ReadStep::Give(7); 12]];
    for plan in plans {
        assert!(rt; leaves_the_rest(&rt, plan)?);
    }
    assert!(rt; run_with_read_fault(&rt, CHECK, FORM, 12)?.is_line(1, "refused 1 form\n"));
    Ok(())
}

#[test]
fn a_failed_read_is_never_the_end_of_a_document(rt: HostRuntime) -> Result<(), Fail> {
    for count in 0..TWO_BOXES_FIT.len() + 1 {
        assert!(rt; stops_reading(&rt, CHECK, TWO_BOXES_FIT, count)?, "{count}");
    }
    Ok(())
}

#[test]
fn a_failed_write_leaves_a_part_of_the_line(rt: HostRuntime) -> Result<(), Fail> {
    for count in 0..LINE.len() {
        assert!(rt;
            stops_writing(&rt, CHECK, TWO_BOXES_FIT, count, LINE)?,
            "{count}"
        );
    }
    Ok(())
}

#[test]
fn a_line_is_given_in_one_piece(rt: HostRuntime) -> Result<(), Fail> {
    let documents: [(&[u8], u8, &str); 2] = [
        (TWO_BOXES_FIT, 0, "verified fit yes\n"),
        (FORM, 1, "refused 1 form\n"),
    ];
    let plan = [WriteStep::Take(4096), WriteStep::Fail];
    for (document, status, line) in documents {
        assert!(rt;
            run_with_plans(&rt, CHECK, document, &[], &plan)?.is_line(status, line),
            "{line}"
        );
    }
    Ok(())
}

// Whether a call without words verifies the two boxes.
fn is_checked_without_words(alloc: Global) -> Result<bool, Fail> {
    let mut source = MemorySource::new(Vec::from_slice(alloc, TWO_BOXES_FIT)?, Vec::new(alloc));
    let mut out = MemorySink::new(alloc, 64, Vec::new(alloc))?;
    let status = check_stream(alloc, &mut source, &mut out);
    Ok(status == 0 && out.written() == LINE)
}

#[test]
fn a_stream_is_checked_without_words(rt: HostRuntime) -> Result<(), Fail> {
    assert!(rt; is_checked_without_words(rt.alloc())?);
    assert!(rt; reads_all_and_prints(&rt, CHECK, TWO_BOXES_FIT, 0, "verified fit yes\n")?);
    Ok(())
}
