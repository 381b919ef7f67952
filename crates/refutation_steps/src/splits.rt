//! The two children of a split.
ghost use Rattle.std.specs.Prelude.{◌≡◌, ◌≤◌, ◌++◌, ◌∷◌, [], length, reverse, OnOk, Some, None};
ghost use Rattle.packing_terms.specs.Refutation.{exclusion_in_text};
ghost use Rattle.verdict_terms.specs.Steps.PlainStep.{Plain as PlainPlain};
ghost use Rattle.proof_tree.specs.Plain.{plain_token};
ghost use Rattle.refutation_steps.specs.Walks.{child_of, IsSplit, IsApartSplit, IsOrderSplit};

use crate::pending::{Pending, push_pending};
use crate::steps::write_line;
use crate::walk_state::Walk;
use box_instances::NoMemory;
use edge_state::{Exclusion, Mark, Rel};
use line_proofs::Step;
use proof_tree::Token;

/// An exclusion at a place that is given by the numbers of the text.
pub(crate) fn in_text(dim: u32, u: u32, v: u32, rel: Rel) -> Exclusion
    requires dim { 1 ≤ dim }
    requires u { 1 ≤ u }
    requires v { 1 ≤ v }
    ensures { result ≡ exclusion_in_text dim u v rel }
{
    Exclusion {
        dim: dim - 1,
        u: u - 1,
        v: v - 1,
        rel,
    }
}

// A child of the node that the walk is at.
fn child(walk: &Walk, closed: Mark, first: Exclusion, second: Option<Exclusion>) -> Pending
    ensures { result ≡ child_of walk.now closed first second }
{
    Pending {
        given: walk.given.mark(),
        held: walk.state.mark(),
        closed: Some(closed),
        first: Some(first),
        second,
    }
}

// The line of a split, and its two children.
fn split(walk: &mut Walk, token: Token, near: Pending, far: Pending) -> Result<(), NoMemory>
    ensures { OnOk result (IsSplit walk.old walk.new (plain_token token) near far) }
{
    write_line(&mut walk.lines, Step::Plain(token))?;
    push_pending(&mut walk.pending, far)?;
    push_pending(&mut walk.pending, near)
}

/// A split into apart and joined: the line, and the two children.
pub(crate) fn split_apart(
    walk: &mut Walk,
    closed: Mark,
    dim: u32,
    u: u32,
    v: u32,
) -> Result<(), NoMemory>
    requires dim { 1 ≤ dim }
    requires u { 1 ≤ u }
    requires v { 1 ≤ v }
    ensures { OnOk result (IsApartSplit walk.old walk.new closed dim u v) }
{
    let before = in_text(dim, u, v, Rel::Before);
    let after = in_text(dim, u, v, Rel::After);
    let overlap = in_text(dim, u, v, Rel::Overlap);
    let near = child(walk, closed, overlap, None);
    let far = child(walk, closed, before, Some(after));
    split(walk, Token::Apart { dim, u, v }, near, far)
}

/// A split of an ordered pair: the line, and the two children.
pub(crate) fn split_order(
    walk: &mut Walk,
    closed: Mark,
    dim: u32,
    u: u32,
    v: u32,
) -> Result<(), NoMemory>
    requires dim { 1 ≤ dim }
    requires u { 1 ≤ u }
    requires v { 1 ≤ v }
    ensures { OnOk result (IsOrderSplit walk.old walk.new closed dim u v) }
{
    let before = in_text(dim, u, v, Rel::Before);
    let after = in_text(dim, u, v, Rel::After);
    let near = child(walk, closed, after, None);
    let far = child(walk, closed, before, None);
    split(walk, Token::Order { dim, u, v }, near, far)
}
