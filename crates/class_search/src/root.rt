//! What the root alone is tested for.
ghost use Rattle.std.specs.Prelude.{◌≡◌, ◌<◌, Some, None, MatchOption, IfSome};
ghost use Rattle.std.specs.List.{find};
ghost use Rattle.packing_terms.specs.Packing.{dims, box_count, container_side, side};
ghost use Rattle.packing_terms.specs.Limits.{IsInternalInstance};
ghost use Rattle.packing_terms.specs.Scales.{SidesFit};
ghost use Rattle.packing_terms.specs.Sums.{below};
ghost use Rattle.packing_terms.specs.Rank.{ranked_pairs};
ghost use Rattle.tree_terms.specs.ClassTree.{first_too_large_box, exceeding_where, class_tree};
ghost use Rattle.class_search.specs.Rooted.{is_larger, IsExcessToken, IsArrival, IsTested};

use crate::search::Search;
use crate::visit::{NodeKind, next_kind};
use box_instances::Instance;
use conservative_scales::first_exceeding;
use edge_state::EdgeState;
use proof_tree::Token;
use rule_closure::{Closed, Closer};
use std::alloc::Global;

// What a path comes to: a root that one of its own tests refutes, or a node of the inner tree.
#[derive(Drop)]
pub(crate) enum Arrival {
    RefutedRoot(Token),
    Inner(NodeKind),
}

// Whether a box is longer than the container.
fn is_larger(instance: &Instance, v: u32, dim: u32) -> bool
    requires there { v < box_count instance.now }
    requires dim { dim < dims instance.now }
    ensures { result ≡ is_larger instance.now v dim }
{
    instance.container_side(dim) < instance.side(v, dim)
}

// The first dimension in which a box is longer than the container.
fn large_dim(instance: &Instance, v: u32) -> Option<u32>
    requires { v < box_count instance.now }
    ensures value { result ≡ find (is_larger instance.now v) (below (dims instance.now)) }
    ensures there { IfSome result (λ i. i < dims instance.now) }
{
    for dim in 0..instance.dims() {
        if is_larger(instance, v, dim) {
            return Some(dim);
        }
    }
    None
}

/// The first box that is longer than the container, and its first such dimension.
pub fn first_too_large(instance: &Instance) -> Option<(u32, u32)>
    ensures value { result ≡ first_too_large_box instance.now }
    ensures there { IfSome result (λ p. (p.0 < 128) × (p.1 < 4)) }
{
    for v in 0..instance.len() {
        if let Some(dim) = large_dim(instance, v) {
            return Some((v, dim));
        }
    }
    None
}

// The token of the first tuple of scale functions that exceeds, where scales are wanted.
fn scales_token(alloc: Global, instance: &Instance, scales: bool) -> Option<Token>
    requires { SidesFit instance.now }
    ensures { MatchOption result (exceeding_where instance.now 1 scales None ≡ None)
        (λ token. IsExcessToken instance.now scales token) }
{
    if !scales {
        return None;
    }
    let Some(tuple) = first_exceeding(alloc, instance, 1) else {
        return None;
    };
    Some(Token::Scales(tuple))
}

// What the tests of a root show: one of its own refutes it, its closure has a conflict, or it
// passed them and is closed.
#[derive(Drop)]
pub(crate) enum RootTest {
    Refuted(Token),
    Conflict,
    Passed,
}

// Tests the root of a class tree none of whose boxes is longer than the container. It closes the
// state.
fn test_fitting_root(
    alloc: Global,
    instance: &Instance,
    scales: bool,
    state: &mut EdgeState,
    closer: &mut Closer,
) -> RootTest
    requires dims { state.old.dims ≡ dims instance.now }
    requires boxes { state.old.boxes ≡ box_count instance.now }
    requires room { closer.old ≡ record { dims = state.old.dims; boxes = state.old.boxes } }
    requires none { first_too_large_box instance.now ≡ None }
    ensures sizes { state.new ≡ record state.old { trail = state.new.trail } }
    ensures closer { closer.new ≡ closer.old }
    ensures tested { IsTested instance.now scales state.old.trail state.new.trail result }
{
    match closer.close(instance, state) {
        Closed::Conflict => RootTest::Conflict,
        Closed::Stable => match scales_token(alloc, instance, scales) {
            Some(token) => RootTest::Refuted(token),
            None => RootTest::Passed,
        },
    }
}

// Tests the root of a class tree. It closes the state, but where a box is longer than the
// container. No order of pairs is needed for it: most sets of an outer search go no further.
pub(crate) fn test_root(
    alloc: Global,
    instance: &Instance,
    scales: bool,
    state: &mut EdgeState,
    closer: &mut Closer,
) -> RootTest
    requires dims { state.old.dims ≡ dims instance.now }
    requires boxes { state.old.boxes ≡ box_count instance.now }
    requires room { closer.old ≡ record { dims = state.old.dims; boxes = state.old.boxes } }
    ensures sizes { state.new ≡ record state.old { trail = state.new.trail } }
    ensures closer { closer.new ≡ closer.old }
    ensures tested { IsTested instance.now scales state.old.trail state.new.trail result }
{
    match first_too_large(instance) {
        Some((v, dim)) => RootTest::Refuted(Token::TooLarge {
            box_no: v + 1,
            dim: dim + 1,
        }),
        None => test_fitting_root(alloc, instance, scales, state, closer),
    }
}

// The root of a class tree. It closes the state, but where a box is longer than the container.
pub(crate) fn visit_class_root(
    search: &Search<'_>,
    scales: bool,
    state: &mut EdgeState,
    closer: &mut Closer,
) -> Arrival
    requires limits { IsInternalInstance search.now.instance.now }
    requires dims { state.old.dims ≡ dims search.now.instance.now }
    requires boxes { state.old.boxes ≡ box_count search.now.instance.now }
    requires room { closer.old ≡ record { dims = state.old.dims; boxes = state.old.boxes } }
    requires pairs { search.now.pairs.now ≡ ranked_pairs search.now.instance.now }
    ensures sizes { state.new ≡ record state.old { trail = state.new.trail } }
    ensures closer { closer.new ≡ closer.old }
    ensures root { IsArrival search.now.instance.now
        (Some (class_tree search.now.instance.now state.old.trail scales)) state.new.trail result }
{
    match test_root(search.alloc, search.instance, scales, state, closer) {
        RootTest::Refuted(token) => Arrival::RefutedRoot(token),
        RootTest::Conflict => Arrival::Inner(NodeKind::Conflict),
        RootTest::Passed => Arrival::Inner(next_kind(search, state, 0)),
    }
}
