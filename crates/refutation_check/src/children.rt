//! The children of a split.
ghost use Rattle.std.specs.Prelude.{◌≡◌, ◌+◌, ◌≤◌, ◌<◌, ◌^◌, ◌++◌, IsTrue, length, vec_capacity};
ghost use Rattle.proof_tree.specs.Plain.{plain_token};
ghost use Rattle.packing_terms.specs.Refutation.{exclusion_in_text as exclusion_of};
ghost use Rattle.refutation_check.specs.Nodes.{some_of, splits_after, splits_with, child_nodes, is_split};

use crate::node::OpenNode;
use edge_state::{Exclusion, Mark, Rel};
use proof_tree::Token;

// The exclusion at the numbers of a text.
fn exclusion_at(dim: u32, u: u32, v: u32, rel: Rel) -> Exclusion
    ensures { result ≡ exclusion_of dim u v rel }
{
    Exclusion {
        dim: dim.saturating_sub(1),
        u: u.saturating_sub(1),
        v: v.saturating_sub(1),
        rel,
    }
}

// Adds what may be there.
fn push_some(list: &mut Vec<Exclusion>, excluded: Option<Exclusion>)
    requires { length list.old.items + 1 ≤ vec_capacity list.old }
    ensures items { list.new.items ≡ list.old.items ++ some_of excluded }
    ensures capacity { vec_capacity list.new ≡ vec_capacity list.old }
{
    if let Some(e) = excluded {
        list.push_reserved(e);
    }
}

// The splits above the children of a node.
fn descend(splits: &mut Vec<Exclusion>, node: OpenNode)
    requires within { node.splits ≤ length splits.old.items }
    requires room { node.splits + 2 ≤ vec_capacity splits.old }
    ensures items { splits.new.items ≡ splits_with splits.old.items node }
    ensures capacity { vec_capacity splits.new ≡ vec_capacity splits.old }
{
    splits.truncate(node.splits as usize);
    push_some(splits, node.second);
    push_some(splits, node.first);
}

/// Puts the children of a split in the place of a node that was taken away.
pub(crate) fn replace(
    splits: &mut Vec<Exclusion>,
    nodes: &mut Vec<OpenNode>,
    node: OpenNode,
    mark: Mark,
    token: &Token,
)
    requires within { node.splits ≤ length splits.old.items }
    requires few { node.splits + 2 < 2 ^ 32 }
    requires split_room { IsTrue (is_split (plain_token token.now))
        → node.splits + 2 ≤ vec_capacity splits.old }
    requires node_room { IsTrue (is_split (plain_token token.now))
        → length nodes.old.items + 2 ≤ vec_capacity nodes.old }
    ensures splits { splits.new.items ≡ splits_after splits.old.items node (plain_token token.now) }
    ensures split_capacity { vec_capacity splits.new ≡ vec_capacity splits.old }
    ensures nodes { nodes.new.items ≡ nodes.old.items
        ++ child_nodes mark (length splits.new.items) (plain_token token.now) }
    ensures node_capacity { vec_capacity nodes.new ≡ vec_capacity nodes.old }
{
    match token {
        Token::Apart { dim, u, v } => {
            descend(splits, node);
            let count = splits.len() as u32;
            nodes.push_reserved(OpenNode {
                mark,
                splits: count,
                first: Some(exclusion_at(*dim, *u, *v, Rel::Before)),
                second: Some(exclusion_at(*dim, *u, *v, Rel::After)),
            });
            nodes.push_reserved(OpenNode {
                mark,
                splits: count,
                first: Some(exclusion_at(*dim, *u, *v, Rel::Overlap)),
                second: None,
            });
        }
        Token::Order { dim, u, v } => {
            descend(splits, node);
            let count = splits.len() as u32;
            nodes.push_reserved(OpenNode {
                mark,
                splits: count,
                first: Some(exclusion_at(*dim, *u, *v, Rel::Before)),
                second: None,
            });
            nodes.push_reserved(OpenNode {
                mark,
                splits: count,
                first: Some(exclusion_at(*dim, *u, *v, Rel::After)),
                second: None,
            });
        }
        _ => {}
    }
}
