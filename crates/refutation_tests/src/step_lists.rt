//! Lists of steps: each step is read back, whether it is held in a few bytes or apart.
use crate::step_lines::read;
use line_proofs::{StepList, write_step};
use pack_streams::MemorySink;
use std::alloc::Global;
use std::test::Fail;

// Each kind of line with numbers that a byte holds, some with one more, and tuples; and how it is
// written.
const ROWS: [(&[u8], &[u8]); 20] = [
    (b"pair 1 2 3", b"pair 1 2 3\n"),
    (b"pair 256 2 3", b"pair 256 2 3\n"),
    (b"apart 4 128 127", b"apart 4 128 127\n"),
    (b"triple 1 2 3 255", b"triple 1 2 3 255\n"),
    (b"triple 1 2 3 256", b"triple 1 2 3 256\n"),
    (b"compose 2 5 6 7", b"compose 2 5 6 7\n"),
    (b"cycle 1 2 3 4 5", b"cycle 1 2 3 4 5\n"),
    (b"cycle 1 2 256 4 5", b"cycle 1 2 256 4 5\n"),
    (b"v cut 3 id", b"v cut 3 id\n"),
    (b"order 3 6 7 8 9", b"order 3 6 7 8 9\n"),
    (b"order 3 6 7 8 4294967295", b"order 3 6 7 8 4294967295\n"),
    (b"chain 1 255 0", b"chain 1 255 0\n"),
    (b"chain 1 2 4294967295", b"chain 1 2 4294967295\n"),
    (b"on 255", b"on 255\n"),
    (b"on 256", b"on 256\n"),
    (b"x 1 2 3", b"x 1 2 3\n"),
    (b"a 2 4 6", b"a 2 4 6\n"),
    (b"d 2 4 6", b"d 2 4 6\n"),
    (b"t 7 2", b"t 7 2\n"),
    (b"v id step 5", b"v id step 5\n"),
];

// The steps of the lines, in a list that has memory for two.
fn listed(alloc: Global) -> Result<StepList, Fail> {
    let mut list = StepList::with_capacity(alloc, 2)?;
    for row in &ROWS {
        let (line, _) = *row;
        if let Some(step) = read(alloc, line) {
            list.push(step)?;
        }
    }
    Ok(list)
}

// Whether the step at a position is written so.
fn is_written_as(alloc: Global, list: &StepList, k: usize, spelling: &[u8]) -> Result<bool, Fail> {
    if k >= list.len() {
        return Ok(false);
    }
    let held = list.at(k);
    let mut sink = MemorySink::new(alloc, 100, Vec::new(alloc))?;
    write_step(held.step(), &mut sink)?;
    Ok(sink.written() == spelling)
}

// Whether each step is read back, and there are no others.
fn are_read_back(alloc: Global, list: &StepList) -> Result<bool, Fail> {
    for k in 0..ROWS.len() {
        let (_, spelling) = ROWS[k];
        if !is_written_as(alloc, list, k, spelling)? {
            return Ok(false);
        }
    }
    Ok(list.len() == ROWS.len())
}

#[test]
fn listed_steps_are_read_back(rt: HostRuntime) -> Result<(), Fail> {
    let list = listed(rt.alloc())?;
    assert!(rt; are_read_back(rt.alloc(), &list)?);
    Ok(())
}
