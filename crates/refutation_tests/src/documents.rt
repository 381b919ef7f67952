//! Explained documents that stand in memory, and the audit of each.
use document_audits::{ExplainedAudit, audit_explained, document_kind};
use std::alloc::Global;
use std::test::Fail;
use verdict_terms::{AuditCode, DocumentKind, ExplainedReason};

// Whether the audit refuses the document at this line for this reason.
fn refuses(alloc: Global, document: &[u8], at: u64, why: ExplainedReason) -> bool {
    match audit_explained(alloc, document) {
        ExplainedAudit::Refused { line, reason } => line == at && reason == why,
        _ => false,
    }
}

fn line(code: AuditCode) -> ExplainedReason {
    ExplainedReason::Line { code }
}

#[test]
fn documents_are_audited(rt: HostRuntime) -> Result<(), Fail> {
    let alloc = rt.alloc();
    let two =
        b"explained fit\nformat 1\ncontainer 10 10\nbox 6 6\nbox 6 6\nresult no\npair 1 1 2\npair 2 1 2\napart 1 1 2\nx 1 1 2\nend\n";
    assert!(rt; audit_explained(alloc, two) == ExplainedAudit::Verified);
    let spaced =
        b"\n# two boxes\n explained  fit\r\nformat 1\ncontainer 10 10\n\nbox 6 6\nbox 6 6\nresult no\n\npair 1 1 2\npair 2 1 2\napart 1 1 2\nx 1 1 2\nend\n# that's all";
    assert!(rt; audit_explained(alloc, spaced) == ExplainedAudit::Verified);
    assert!(rt; document_kind(spaced) == DocumentKind::Explained);
    let one =
        b"explained fit\nformat 1\ncontainer 10 10\nbox 6 6\nbox 6 6\nresult no\npair 1 1 2\napart 1 1 2\nx 1 1 2\nend\n";
    assert!(rt; refuses(alloc, one, 8, line(AuditCode::Step)));
    let early =
        b"explained fit\nformat 1\ncontainer 10 10\nbox 6 6\nbox 6 6\nresult no\npair 1 1 2\nend\n";
    assert!(rt; refuses(alloc, early, 8, ExplainedReason::TooShort));
    let behind =
        b"explained fit\nformat 1\ncontainer 10 10\nbox 11 1\nresult no\nt 1 1\non 1\nend\n";
    assert!(rt; refuses(alloc, behind, 7, line(AuditCode::After)));
    let outer = b"explained fit\nformat 1\ncontainer 10 10\nbox 11 1\nresult no\nt 1 1\nx\nend\n";
    assert!(rt; refuses(alloc, outer, 7, line(AuditCode::Kind)));
    let rest = b"explained fit\nformat 1\ncontainer 10 10\nbox 11 1\nresult no\nt 1 1\nend\n\x07\n";
    assert!(rt; refuses(alloc, rest, 8, line(AuditCode::After)));
    let text = b"explained fit\nformat 1\ncontainer 10 10\nbox 11\nresult no\nt 1 1\nend\n";
    assert!(rt; refuses(alloc, text, 4, ExplainedReason::Text { code: 2 }));
    let yes = b"explained fit\nformat 1\ncontainer 10 10\nbox 11 1\nresult yes\nt 1 1\nend\n";
    assert!(rt; refuses(alloc, yes, 5, line(AuditCode::Kind)));
    assert!(rt; refuses(alloc, b"reduced fit\n", 1, line(AuditCode::Kind)));
    assert!(rt; document_kind(b"reduced fit\n") == DocumentKind::Reduced);
    assert!(rt; document_kind(b"# least sizes\n\n front\nformat 1\n") == DocumentKind::Front);
    assert!(rt; document_kind(b"front 1\n") == DocumentKind::Reduced);
    assert!(rt; refuses(alloc, b"", 1, ExplainedReason::TooShort));
    Ok(())
}
