//! Explained refutations that are written from refutations, each audited.
use box_instances::Instance;
use class_search::decide_alone;
use instance_text::read_instance;
use line_proofs::{Auditor, Step, StepList, write_step};
use pack_streams::MemorySink;
use proof_tree::{Outcome, Token, write_token};
use refutation_steps::explain;
use std::alloc::Global;
use std::test::Fail;
use verdict_terms::AuditVerdict;

// The tokens that the search refutes the instance by, and their explanation.
fn explained(
    alloc: Global,
    instance: &Instance,
    scales: bool,
) -> Result<(Vec<Token>, StepList), Fail> {
    let found = decide_alone(alloc, instance, 100_000, scales)?;
    match found {
        Outcome::No { tokens, .. } => {
            let tokens = tokens.tokens(alloc)?;
            let lines = explain(alloc, instance, tokens.as_slice())?;
            Ok((tokens, lines))
        }
        _ => Ok((Vec::new(alloc), StepList::new(alloc))),
    }
}

// Whether the auditor accepts the lines whole.
fn is_accepted(alloc: Global, instance: &Instance, lines: &StepList) -> Result<bool, Fail> {
    let mut auditor = Auditor::new(alloc, instance)?;
    let mut last = AuditVerdict::More;
    for k in 0..lines.len() {
        let held = lines.at(k);
        last = auditor.feed(held.step());
    }
    Ok(auditor.whole() && last == AuditVerdict::Done)
}

// The lines as they are written.
fn spelled(alloc: Global, lines: &StepList) -> Result<MemorySink, Fail> {
    let mut sink = MemorySink::new(alloc, 10_000_000, Vec::new(alloc))?;
    for k in 0..lines.len() {
        let held = lines.at(k);
        write_step(held.step(), &mut sink)?;
    }
    Ok(sink)
}

#[test]
fn two_large_boxes_take_four_lines(rt: HostRuntime) -> Result<(), Fail> {
    let alloc = rt.alloc();
    let two = read_instance(alloc, b"format 1\ncontainer 10 10\nbox 6 6\nbox 6 6\n")?;
    let (_, lines) = explained(alloc, &two, false)?;
    let told = spelled(alloc, &lines)?;
    assert!(rt; told.written() == b"pair 1 1 2\npair 2 1 2\napart 2 1 2\nx 2 1 2\n".as_slice());
    assert!(rt; is_accepted(alloc, &two, &lines)?);
    Ok(())
}

// Whether the lines without the steps are the tokens.
fn are_its_tokens(alloc: Global, lines: &StepList, tokens: &[Token]) -> Result<bool, Fail> {
    let mut among = MemorySink::new(alloc, 10_000_000, Vec::new(alloc))?;
    for k in 0..lines.len() {
        let held = lines.at(k);
        match held.step() {
            Step::Clash { .. } => write_token(&Token::Rules, &mut among)?,
            Step::Plain(token) => write_token(token, &mut among)?,
            _ => {}
        }
    }
    let mut given = MemorySink::new(alloc, 10_000_000, Vec::new(alloc))?;
    for token in tokens {
        write_token(token, &mut given)?;
    }
    Ok(among.written() == given.written())
}

// How many lines an explanation has that the auditor accepts and that has the tokens.
fn line_count(alloc: Global, text: &[u8], scales: bool) -> Result<Option<usize>, Fail> {
    let instance = read_instance(alloc, text)?;
    let (tokens, lines) = explained(alloc, &instance, scales)?;
    if !is_accepted(alloc, &instance, &lines)? {
        return Ok(None);
    }
    if !are_its_tokens(alloc, &lines, tokens.as_slice())? {
        return Ok(None);
    }
    Ok(Some(lines.len()))
}

#[test]
fn trees_are_explained(rt: HostRuntime) -> Result<(), Fail> {
    let alloc = rt.alloc();
    let rows: &[(&[u8], bool)] = &[
        (b"format 2\ncontainer 23 10\nbox 5 6 times 5\n", false),
        (
            b"format 2\ncontainer 10 10\nbox 5 4 times 3\nbox 4 5 times 3\n",
            false,
        ),
        (
            b"format 2\ncontainer 10 10\nbox 5 4 times 3\nbox 4 5 times 3\n",
            true,
        ),
        (b"format 2\ncontainer 17 10\nbox 3 6 times 6\n", false),
        (b"format 2\ncontainer 5 5 5\nbox 3 3 3 times 2\n", false),
        (b"format 2\ncontainer 5 5\nbox 6 1\n", true),
    ];
    for row in rows {
        let (text, scales) = *row;
        assert!(rt; line_count(alloc, text, scales)?.is_some());
    }
    Ok(())
}
