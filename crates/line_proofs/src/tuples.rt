//! The tests of a tuple of scale functions, in their order. The checker of refutations has the same
//! of its own: an auditor shares no test with what it is to audit.
ghost use Rattle.std.specs.Prelude.{◌≡◌, List, length};
ghost use Rattle.packing_terms.specs.declared.Exclusion.{Exclusion as PlainExclusion};
ghost use Rattle.packing_terms.specs.Packing.{dims};
ghost use Rattle.packing_terms.specs.Tokens.PlainToken.{Scales as PlainScales};
ghost use Rattle.verdict_terms.specs.Judging.{are_legal, tuple_refusal};
ghost use Rattle.verdict_terms.specs.ExplainedJudging.{audit_code, token_refusal};

use box_instances::Instance;
use conservative_scales::{ScaleFn, exceeds, legal};
use verdict_terms::{AuditCode, RefuseCode};

// Whether the tuple has a legal function for each dimension.
fn are_legal(instance: &Instance, tuple: &[ScaleFn]) -> bool
    requires { length tuple.now ≡ dims instance.now }
    ensures { result ≡ are_legal instance.now tuple.now }
{
    for dim in 0..instance.dims() {
        if !legal(tuple[dim as usize], instance.container_side(dim)) {
            return false;
        }
    }
    true
}

// The first test that the tuple fails.
fn judge_tuple(instance: &Instance, tuple: &[ScaleFn]) -> Option<RefuseCode>
    ensures { result ≡ tuple_refusal instance.now 1 tuple.now }
{
    if tuple.len() != instance.dims() as usize {
        return Some(RefuseCode::Kind);
    }
    if !are_legal(instance, tuple) {
        return Some(RefuseCode::Range);
    }
    if !instance.sides_fit() {
        return Some(RefuseCode::Excess);
    }
    if exceeds(instance, tuple, 1) {
        return None;
    }
    Some(RefuseCode::Excess)
}

// The code of a token's refusal.
fn audit_code(code: RefuseCode) -> AuditCode
    ensures { result ≡ audit_code code }
{
    match code {
        RefuseCode::Kind => AuditCode::Kind,
        RefuseCode::Range => AuditCode::Range,
        RefuseCode::Choice => AuditCode::Choice,
        RefuseCode::Conflict => AuditCode::Conflict,
        RefuseCode::Excess => AuditCode::Excess,
        RefuseCode::Side => AuditCode::Side,
        RefuseCode::Value => AuditCode::Kind,
        RefuseCode::Set => AuditCode::Kind,
        RefuseCode::After => AuditCode::Kind,
    }
}

/// Whether the tuple exceeds; else why not.
pub(crate) fn tuple_audit(instance: &Instance, tuple: &[ScaleFn]) -> Option<AuditCode>
    ensures { (es : List PlainExclusion)
        → result ≡ token_refusal instance.now es (PlainScales tuple.now) }
{
    match judge_tuple(instance, tuple) {
        None => None,
        Some(code) => Some(audit_code(code)),
    }
}
