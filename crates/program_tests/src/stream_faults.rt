//! Faults of the source and of both sinks, while an instance is decided.
use crate::asked::{stops_reading, stops_writing};
use crate::runs::{Plans, run_with, run_with_plans, run_with_write_fault};
use crate::texts::{EIGHT_IN_A_ROW, TWO_BOXES, TWO_BOXES_FIT, UNIT};
use pack_streams::{ReadStep, WriteStep};
use std::alloc::AllocGlobal;
use std::sync::Wait;
use std::test::Fail;
use std::thread::Threads;
use work_share::NoGate;

#[test]
fn a_read_that_fails_at_each_byte_is_a_read_fault(rt: HostRuntime) -> Result<(), Fail> {
    for count in 0..TWO_BOXES.len() + 1 {
        assert!(rt; stops_reading(&rt, &["fit"], TWO_BOXES, count)?, "{count}");
    }
    Ok(())
}

#[test]
fn a_write_that_fails_at_each_byte_leaves_the_bytes_before(rt: HostRuntime) -> Result<(), Fail> {
    for count in 0..TWO_BOXES_FIT.len() {
        assert!(rt;
            stops_writing(&rt, &["fit"], TWO_BOXES, count, TWO_BOXES_FIT)?,
            "{count}"
        );
    }
    Ok(())
}

#[test]
fn a_write_that_would_fail_behind_the_document_is_no_fault(rt: HostRuntime) -> Result<(), Fail> {
    assert!(rt; TWO_BOXES_FIT.len() == 87);
    let answer = run_with_write_fault(&rt, &["fit"], TWO_BOXES, 87)?;
    assert!(rt; answer.is_stop(0, "", TWO_BOXES_FIT));
    Ok(())
}

#[test]
fn a_message_that_fails_changes_no_status(rt: HostRuntime) -> Result<(), Fail> {
    let plans = Plans {
        reads: &[],
        writes: &[],
        messages: &[WriteStep::Fail],
    };
    assert!(rt; run_with(&rt, &[], TWO_BOXES, plans, &NoGate)?.is_stop(2, "", b""));
    Ok(())
}

// Whether the run by these writes ends with a write fault, and leaves `count` bytes.
fn leaves_bytes<R: AllocGlobal + Threads + Wait + Sync>(
    rt: &R,
    words: &[&str],
    text: &[u8],
    writes: &[WriteStep],
    count: usize,
) -> Result<bool, Fail> {
    let answer = run_with_plans(rt, words, text, &[], writes)?;
    Ok(answer.status == 5 && answer.out.len() == count)
}

#[test]
fn a_failed_write_leaves_a_prefix(rt: HostRuntime) -> Result<(), Fail> {
    let plan = [WriteStep::Take(16), WriteStep::Fail];
    let answer = run_with_plans(&rt, &["fit"], TWO_BOXES, &[], &plan)?;
    assert!(rt; answer.is_stop(5, "pack: write fault\n", b"answer fit\nforma"));
    Ok(())
}

#[test]
fn a_long_document_is_given_in_pieces_of_4096_bytes(rt: HostRuntime) -> Result<(), Fail> {
    let words = ["fit", "--scales", "no"];
    let plans: [&[WriteStep]; 2] = [
        &[WriteStep::Take(5000), WriteStep::Fail],
        &[WriteStep::Take(16), WriteStep::Take(5000), WriteStep::Fail],
    ];
    for plan in plans {
        assert!(rt; leaves_bytes(&rt, &words, EIGHT_IN_A_ROW, plan, 4096)?);
    }
    Ok(())
}

// Whether the run by these reads ends with a read fault.
fn is_read_fault<R: AllocGlobal + Threads + Wait + Sync>(
    rt: &R,
    reads: &[ReadStep],
) -> Result<bool, Fail> {
    let answer = run_with_plans(rt, &["fit"], UNIT, reads, &[])?;
    Ok(answer.is_stop(4, "pack: read fault\n", b""))
}

#[test]
fn a_failed_read_is_never_the_end_of_the_input(rt: HostRuntime) -> Result<(), Fail> {
    let plans: [&[ReadStep]; 3] = [
        &[ReadStep::Fail],
        &[ReadStep::Give(31), ReadStep::Fail],
        &[ReadStep::Give(7), ReadStep::Fail],
    ];
    for plan in plans {
        assert!(rt; is_read_fault(&rt, plan)?);
    }
    Ok(())
}

const UNIT_FITS: &[u8] =
    b"answer fit\nformat 1\ncontainer 1 1\nbox 1 1\nresult yes\nplace 0 0\nend\n";

#[test]
fn input_in_single_bytes_gives_the_same_answer(rt: HostRuntime) -> Result<(), Fail> {
    let reads = [ReadStep::Give(1); 40];
    let writes = [WriteStep::Take(1); 99];
    let answer = run_with_plans(&rt, &["fit"], UNIT, &reads, &writes)?;
    assert!(rt; answer.is_as_written(0, UNIT_FITS));
    Ok(())
}
