//! The test of a proposed refutation with families.
ghost use Rattle.std.specs.Prelude.{◌≡◌, ◌≤◌, ◌∷◌, [], true, length, IfOk, IfSome, MatchBool};
ghost use Rattle.packing_terms.specs.Limits.{max_height};
ghost use Rattle.verdict_terms.specs.FamilyRefutation.{Free, RefutesFamilies};
ghost use Rattle.verdict_terms.specs.FamilyLines.{most_joining};
ghost use Rattle.bounded_tokens.specs.FamilyPlain.{plain_family, plain_family_tokens};
ghost use Rattle.answer_terms.specs.HeightAnswers.{AreJoining};
ghost use Rattle.bounded_answers.specs.Heights.{AreRefutedBy};

use bounded_proposals::propose_family;
use bounded_tokens::FamilyToken;
use box_instances::{Instance, NoMemory};
use outer_check::FamilyRefuter;
use std::alloc::Global;

/// Whether tokens are a refutation with families: the boxes don't fit the container.
pub fn is_family_refutation(
    alloc: Global,
    instance: &Instance,
    tokens: &[FamilyToken],
) -> Result<bool, NoMemory>
    ensures { IfOk result (λ r. MatchBool r
        (RefutesFamilies instance.now (Free []) (plain_family_tokens tokens.now))
        (¬ RefutesFamilies instance.now (Free []) (plain_family_tokens tokens.now))) }
{
    let mut refuter = FamilyRefuter::new(alloc, instance)?;
    for k in 0..tokens.len() {
        let _verdict = refuter.feed(&tokens[k]);
    }
    Ok(refuter.whole())
}

// Whether boxes make a line, which has at least one.
fn is_line(boxes: &[u32]) -> bool
    requires { length boxes.now ≤ most_joining }
    ensures { result ≡ true → (1 ≤ length boxes.now) × (length boxes.now ≤ most_joining) }
{
    1 <= boxes.len()
}

// Whether a token has a line.
fn is_joining(token: &FamilyToken) -> bool
    ensures { result ≡ true → AreJoining (plain_family token.now ∷ []) }
{
    match token {
        FamilyToken::Plain(_) => true,
        FamilyToken::Family { boxes, .. } => is_line(boxes.as_slice()),
    }
}

// Whether each token has a line.
fn are_joining(tokens: &[FamilyToken]) -> bool
    ensures { result ≡ true → AreJoining (plain_family_tokens tokens.now) }
{
    for k in 0..tokens.len() {
        if !is_joining(&tokens[k]) {
            return false;
        }
    }
    true
}

/// A tested refutation of a height by one family of boxes side by side, if one is found.
pub(crate) fn refuted_at(
    alloc: Global,
    instance: &Instance,
    height: u32,
) -> Result<Option<Vec<FamilyToken>>, NoMemory>
    requires { height ≤ max_height }
    ensures { IfOk result
        (λ found. IfSome found (λ tokens. AreRefutedBy instance.now height tokens.items)) }
{
    let tall = instance.with_last_side(alloc, height)?;
    let Some(tokens) = propose_family(alloc, &tall)? else {
        return Ok(None);
    };
    if !are_joining(&tokens) {
        return Ok(None);
    }
    if !is_family_refutation(alloc, &tall, &tokens)? {
        return Ok(None);
    }
    Ok(Some(tokens))
}
