//! The refutation that a verified document of `fit` holds.
ghost use Rattle.std.specs.Prelude.{◌≡◌, Ok, IfOk};
ghost use Rattle.text_terms.specs.declared.claim.Claim.TheVariants.{NotFitting};
ghost use Rattle.proof_tree.specs.Plain.{plain_tokens};
ghost use Rattle.verdict_terms.specs.Documents.{document_verdict};
ghost use Rattle.document_audits.specs.Refutations.{IsRefutationIn};

use crate::refutation_reading::{Reading, read_again};
use box_instances::{Instance, NoMemory};
use proof_tree::Token;
use std::alloc::Global;

/// An instance, and the tokens that refute it.
#[derive(Drop)]
pub struct ReadRefutation {
    pub instance: Instance,
    pub tokens: Vec<Token>,
}

/// The instance and the tokens of a document that is verified with the claim that nothing fits. The
/// tokens refute the instance. Want of memory is the one other answer.
pub fn read_refutation(alloc: Global, bytes: &[u8]) -> Result<ReadRefutation, NoMemory>
    requires { document_verdict bytes.now ≡ Ok NotFitting }
    ensures { IfOk result (λ r. IsRefutationIn bytes.now r.instance (plain_tokens r.tokens.items)) }
{
    match read_again(alloc, bytes)? {
        Reading::Proving { instance, tokens } => Ok(ReadRefutation { instance, tokens }),
        Reading::Heading => unreachable!(),
        Reading::Describing(_) => unreachable!(),
        Reading::Broken => unreachable!(),
    }
}
