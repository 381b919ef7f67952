//! Explained trees, line by line.
use crate::step_lines::read;
use AuditVerdict::{Done, More};
use box_instances::Instance;
use instance_text::read_instance;
use line_proofs::Auditor;
use std::alloc::Global;
use std::test::Fail;
use verdict_terms::{AuditCode, AuditVerdict};

// The last verdict on the lines of a tree of an instance.
fn verdict(alloc: Global, instance: &Instance, lines: &[&[u8]]) -> Option<AuditVerdict> {
    let Ok(mut auditor) = Auditor::new(alloc, instance) else {
        return None;
    };
    let mut last = None;
    for line in lines {
        let step = read(alloc, line)?;
        last = Some(auditor.feed(&step));
    }
    last
}

fn refused(code: AuditCode) -> Option<AuditVerdict> {
    Some(AuditVerdict::Refused { code })
}

// Two boxes that are too long together in both dimensions.
const SQUARES: &[u8] = b"format 1\ncontainer 10 10\nbox 6 6\nbox 6 6\n";

// Three boxes in a row that is too short for them.
const ROW: &[u8] = b"format 1\ncontainer 10 10\nbox 4 6\nbox 4 6\nbox 4 6\n";

// Four boxes: neighbours in the cycle are too long together in the first dimension.
const RING: &[u8] = b"format 1\ncontainer 10 10\nbox 3 1\nbox 8 1\nbox 3 1\nbox 8 1\n";

// Four boxes: the first and the last are too long together in the first dimension.
const LONG: &[u8] = b"format 1\ncontainer 10 10\nbox 6 1\nbox 1 1\nbox 1 1\nbox 6 1\n";

#[test]
fn two_boxes_are_explained(rt: HostRuntime) -> Result<(), Fail> {
    let alloc = rt.alloc();
    let two = read_instance(alloc, SQUARES)?;
    let first: &[&[u8]] = &[b"pair 1 1 2"];
    assert!(rt; verdict(alloc, &two, first) == Some(More));
    let whole: &[&[u8]] = &[b"pair 1 1 2", b"pair 2 1 2", b"apart 1 1 2", b"x 1 1 2"];
    assert!(rt; verdict(alloc, &two, whole) == Some(Done));
    let turned: &[&[u8]] = &[b"pair 1 2 1", b"pair 2 2 1", b"apart 2 2 1", b"x 2 1 2"];
    assert!(rt; verdict(alloc, &two, turned) == Some(Done));
    let more: &[&[u8]] = &[
        b"pair 1 1 2",
        b"pair 2 1 2",
        b"apart 1 1 2",
        b"x 1 1 2",
        b"x 1 1 2",
    ];
    assert!(rt; verdict(alloc, &two, more) == refused(AuditCode::After));
    Ok(())
}

#[test]
fn lines_are_refused_by_their_first_test(rt: HostRuntime) -> Result<(), Fail> {
    let alloc = rt.alloc();
    let two = read_instance(alloc, SQUARES)?;
    let cases: &[(&[&[u8]], AuditCode)] = &[
        (&[b"on 1"], AuditCode::Kind),
        (&[b"chain 1 1 1", b"pair 0 0 0"], AuditCode::Kind),
        (&[b"pair 3 1 2"], AuditCode::Range),
        (&[b"pair 1 1 1"], AuditCode::Range),
        (&[b"pair 1 1 3"], AuditCode::Range),
        (&[b"x 1 2 1"], AuditCode::Range),
        (&[b"chain 1 0 1"], AuditCode::Range),
        (&[b"chain 1 1 3"], AuditCode::Range),
        (&[b"chain 1 1 1", b"on 3"], AuditCode::Range),
        (&[b"v id step 17"], AuditCode::Range),
        (&[b"pair 1 1 2", b"pair 1 1 2"], AuditCode::Step),
        (&[b"apart 1 1 2"], AuditCode::Step),
        (&[b"chain 1 1 1", b"on 1", b"on 1"], AuditCode::Step),
        (&[b"chain 1 2 1", b"on 1", b"on 1"], AuditCode::Step),
        (&[b"chain 1 2 1", b"on 1", b"on 2"], AuditCode::Step),
        (&[b"d 1 1 2"], AuditCode::Choice),
        (&[b"pair 1 1 2", b"a 1 1 2"], AuditCode::Choice),
        (&[b"x 1 1 2"], AuditCode::Conflict),
        (&[b"v id id"], AuditCode::Excess),
        (&[b"t 1 1"], AuditCode::Side),
    ];
    for case in cases {
        let (lines, code) = *case;
        assert!(rt; verdict(alloc, &two, lines) == refused(code));
    }
    Ok(())
}

#[test]
fn chains_of_two_and_one(rt: HostRuntime) -> Result<(), Fail> {
    let alloc = rt.alloc();
    let row = read_instance(alloc, ROW)?;
    let apart: &[&[u8]] = &[
        b"pair 2 1 2",
        b"pair 2 1 3",
        b"pair 2 2 3",
        b"apart 1 1 2",
        b"apart 1 1 3",
        b"apart 1 2 3",
        b"triple 1 1 2 3",
        b"x 1 1 2",
    ];
    assert!(rt; verdict(alloc, &row, apart) == Some(Done));
    let chains: &[&[u8]] = &[
        b"pair 2 1 2",
        b"pair 2 1 3",
        b"pair 2 2 3",
        b"apart 1 1 2",
        b"apart 1 1 3",
        b"apart 1 2 3",
        b"d 1 1 2",
        b"chain 1 2 1",
        b"on 1",
        b"on 2",
        b"on 3",
        b"chain 1 1 2",
        b"on 3",
        b"on 1",
        b"on 2",
        b"chain 1 2 1",
        b"on 1",
        b"on 3",
        b"on 2",
        b"x 1 2 3",
        b"chain 1 2 1",
        b"on 2",
        b"on 1",
        b"on 3",
        b"chain 1 1 2",
        b"on 3",
        b"on 2",
        b"on 1",
        b"chain 1 2 1",
        b"on 2",
        b"on 3",
        b"on 1",
        b"x 1 1 3",
    ];
    assert!(rt; verdict(alloc, &row, chains) == Some(Done));
    let composed: &[&[u8]] = &[
        b"pair 2 1 2",
        b"pair 2 1 3",
        b"pair 2 2 3",
        b"apart 1 1 2",
        b"apart 1 1 3",
        b"apart 1 2 3",
        b"d 1 1 2",
        b"d 1 2 3",
        b"compose 1 1 2 3",
    ];
    assert!(rt; verdict(alloc, &row, composed) == Some(More));
    Ok(())
}

#[test]
fn cycles_and_orders(rt: HostRuntime) -> Result<(), Fail> {
    let alloc = rt.alloc();
    let ring = read_instance(alloc, RING)?;
    let cycle: &[&[u8]] = &[
        b"pair 1 1 2",
        b"pair 1 2 3",
        b"pair 1 3 4",
        b"pair 1 4 1",
        b"a 1 1 3",
        b"cycle 1 1 2 3 4",
    ];
    assert!(rt; verdict(alloc, &ring, cycle) == Some(More));
    let open: &[&[u8]] = &[
        b"pair 1 1 2",
        b"pair 1 2 3",
        b"pair 1 3 4",
        b"pair 1 4 1",
        b"cycle 1 1 2 3 4",
    ];
    assert!(rt; verdict(alloc, &ring, open) == refused(AuditCode::Step));
    let long = read_instance(alloc, LONG)?;
    let order: &[&[u8]] = &[
        b"pair 1 1 4",
        b"a 1 1 2",
        b"d 1 1 2",
        b"a 1 3 4",
        b"d 1 3 4",
        b"order 1 1 2 3 4",
    ];
    assert!(rt; verdict(alloc, &long, order) == Some(More));
    Ok(())
}

#[test]
fn leaves_of_a_side_and_of_a_tuple(rt: HostRuntime) -> Result<(), Fail> {
    let alloc = rt.alloc();
    let wide = read_instance(alloc, b"format 1\ncontainer 10 10\nbox 11 1\n")?;
    let side: &[&[u8]] = &[b"t 1 1"];
    assert!(rt; verdict(alloc, &wide, side) == Some(Done));
    let full = read_instance(alloc, b"format 1\ncontainer 10 10\nbox 6 10\nbox 5 10\n")?;
    let tuple: &[&[u8]] = &[b"v id id"];
    assert!(rt; verdict(alloc, &full, tuple) == Some(Done));
    let split: &[&[u8]] = &[b"a 2 1 2", b"v id id", b"v id id"];
    assert!(rt; verdict(alloc, &full, split) == Some(Done));
    Ok(())
}
