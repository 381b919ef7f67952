//! The checkers of trees, as the readers of a document take them.
ghost use Rattle.std.specs.Prelude.{◌≡◌, true};
ghost use Rattle.proof_tree.specs.Plain.{plain_token};
ghost use Rattle.document_lines.specs.Proofs.{IsFed};
ghost use Rattle.document_lines.specs.Checkers.{shown_inner_tree, is_inner_open, shown_outer_tree, is_outer_open};

use crate::tree::TreeChecker;
use outer_check::OuterRefuter;
use proof_tree::Token;
use refutation_check::Refuter;
use verdict_terms::FeedVerdict;

impl<'a> TreeChecker for Refuter<'a> {
    ghost tree = { shown_inner_tree };

    ghost is_open = { is_inner_open };

    fn feed(&mut self, token: &Token) -> FeedVerdict
        requires { is_inner_open self.old ≡ true }
        ensures { IsFed (shown_inner_tree self.old) (plain_token token.now)
            (shown_inner_tree self.new) (is_inner_open self.new) result }
    {
        Refuter::feed(self, token)
    }
}

impl<'a> TreeChecker for OuterRefuter<'a> {
    ghost tree = { shown_outer_tree };

    ghost is_open = { is_outer_open };

    fn feed(&mut self, token: &Token) -> FeedVerdict
        requires { is_outer_open self.old ≡ true }
        ensures { IsFed (shown_outer_tree self.old) (plain_token token.now)
            (shown_outer_tree self.new) (is_outer_open self.new) result }
    {
        OuterRefuter::feed(self, token)
    }
}
