//! The test of a proposed refutation.
ghost use Rattle.std.specs.Prelude.{◌≡◌, IfOk, false, map};
ghost use Rattle.proof_tree.specs.Plain.{plain_token};
ghost use Rattle.conflict_search.specs.Sizes.{IsSized};
ghost use Rattle.proposed_answers.specs.Behind.{plain_proposal, is_refutation, is_scale_line, has_scale_line, IsPlainProposal};

use box_instances::{Instance, NoMemory};
use conflict_search::Proposal;
use proof_tree::Token;
use refutation_check::Refuter;
use std::alloc::Global;

/// Whether tokens are a refutation of an instance.
pub fn is_refutation(alloc: Global, instance: &Instance, tokens: &[Token]) -> Result<bool, NoMemory>
    ensures { IfOk result (λ r. r ≡ is_refutation instance.now (map plain_token tokens.now)) }
{
    let mut refuter = Refuter::new(alloc, instance)?;
    for k in 0..tokens.len() {
        let _verdict = refuter.feed(&tokens[k]);
    }
    Ok(refuter.whole())
}

// Whether a token compares the images of scale functions.
fn is_scale_line(token: &Token) -> bool
    ensures { result ≡ is_scale_line (plain_token token.now) }
{
    matches!(token, Token::Scales(_) | Token::GlobalScales(_))
}

// Whether some token does.
fn has_scale_line(tokens: &[Token]) -> bool
    ensures { result ≡ has_scale_line (map plain_token tokens.now) }
{
    for k in 0..tokens.len() {
        if is_scale_line(&tokens[k]) {
            return true;
        }
    }
    false
}

/// The proposal, or none where it compares images of scale functions and these aren't wanted.
pub(crate) fn wanted(instance: &Instance, proposal: Proposal, scales: bool) -> Proposal
    requires sized { IsSized instance.now proposal }
    ensures sized { IsSized instance.now result }
    ensures plain { scales ≡ false → IsPlainProposal (plain_proposal result) }
{
    match proposal {
        Proposal::Tokens(tokens) => {
            if !scales && has_scale_line(&tokens) {
                Proposal::Nothing
            } else {
                Proposal::Tokens(tokens)
            }
        }
        Proposal::Places(places) => Proposal::Places(places),
        Proposal::Nothing => Proposal::Nothing,
    }
}
