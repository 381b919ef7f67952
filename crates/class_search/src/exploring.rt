//! What the tree of the node that a path came to gives.
ghost use Rattle.std.specs.Prelude.{◌≡◌, ◌∷◌, IfOk, []};
ghost use Rattle.packing_terms.specs.Packing.{dims, box_count};
ghost use Rattle.packing_terms.specs.Limits.{IsInternalInstance};
ghost use Rattle.packing_terms.specs.Rank.{ranked_pairs};
ghost use Rattle.proof_tree.specs.Plain.{plain_token};
ghost use Rattle.tree_terms.specs.Trees.{outcome, under_budget, Decided, No};
ghost use Rattle.tree_terms.specs.ClassTree.{class_tree};
ghost use Rattle.work_share.specs.Outcomes.{plain_outcome};
ghost use Rattle.class_search.specs.Rooted.{arrival_tree, IsKnownArrival};

use crate::rank::ranked_pairs;
use crate::root::{Arrival, RootTest, test_root, visit_class_root};
use crate::search::Search;
use crate::visit::next_kind;
use crate::walk::{End, Walk, resume_walk};
use box_instances::{Instance, NoMemory};
use edge_state::EdgeState;
use proof_tree::{CompactTokens, Outcome, Token};
use rule_closure::Closer;
use std::alloc::Global;

// What a refuted root gives.
fn leaf(alloc: Global, token: Token) -> Result<Outcome, NoMemory>
    ensures { IfOk result (λ r. plain_outcome r ≡ Decided (No (plain_token token ∷ []) 0)) }
{
    let tokens = CompactTokens::of_one(alloc, token)?;
    Ok(Outcome::No { tokens, count: 0 })
}

// What the tree of a node gives under a cap. This is what the path to it came to, and the node's
// closed state.
pub(crate) fn explored(
    search: &Search<'_>,
    state: &mut EdgeState,
    closer: &mut Closer,
    arrival: Arrival,
    cap: u64,
) -> Result<Outcome, NoMemory>
    requires limits { IsInternalInstance search.now.instance.now }
    requires dims { state.old.dims ≡ dims search.now.instance.now }
    requires boxes { state.old.boxes ≡ box_count search.now.instance.now }
    requires room { closer.old ≡ record { dims = state.old.dims; boxes = state.old.boxes } }
    requires pairs { search.now.pairs.now ≡ ranked_pairs search.now.instance.now }
    requires known { IsKnownArrival search.now.instance.now state.old.trail arrival }
    ensures sizes { state.new ≡ record state.old { trail = state.new.trail } }
    ensures closer { closer.new ≡ closer.old }
    ensures outcome { IfOk result
        (λ r. plain_outcome r ≡ under_budget cap (outcome
        (arrival_tree search.now.instance.now state.old.trail arrival))) }
{
    match arrival {
        Arrival::RefutedRoot(token) => leaf(search.alloc, token),
        Arrival::Inner(node) => {
            let walk = Walk::at(search.alloc, node);
            match resume_walk(search, state, closer, walk, cap)? {
                End::Whole(outcome) => Ok(outcome),
                End::Stopped(_) => Ok(Outcome::Past),
            }
        }
    }
}

// The outcome of an instance's class tree under a budget, in a state whose masks are full.
pub(crate) fn searched(
    search: &Search<'_>,
    state: &mut EdgeState,
    closer: &mut Closer,
    budget: u64,
    scales: bool,
) -> Result<Outcome, NoMemory>
    requires limits { IsInternalInstance search.now.instance.now }
    requires dims { state.old.dims ≡ dims search.now.instance.now }
    requires boxes { state.old.boxes ≡ box_count search.now.instance.now }
    requires full { state.old.trail ≡ [] }
    requires room { closer.old ≡ record { dims = state.old.dims; boxes = state.old.boxes } }
    requires pairs { search.now.pairs.now ≡ ranked_pairs search.now.instance.now }
    ensures sizes { state.new ≡ record state.old { trail = state.new.trail } }
    ensures closer { closer.new ≡ closer.old }
    ensures outcome { IfOk result
        (λ r. plain_outcome r ≡ under_budget budget (outcome
        (class_tree search.now.instance.now [] scales))) }
{
    let arrival = visit_class_root(search, scales, state, closer);
    explored(search, state, closer, arrival, budget)
}

// The same, where the pairs are put in order only once the root has passed its tests: most sets of
// an outer search are refuted there.
pub(crate) fn searched_alone(
    alloc: Global,
    instance: &Instance,
    state: &mut EdgeState,
    closer: &mut Closer,
    budget: u64,
    scales: bool,
) -> Result<Outcome, NoMemory>
    requires limits { IsInternalInstance instance.now }
    requires dims { state.old.dims ≡ dims instance.now }
    requires boxes { state.old.boxes ≡ box_count instance.now }
    requires full { state.old.trail ≡ [] }
    requires room { closer.old ≡ record { dims = state.old.dims; boxes = state.old.boxes } }
    ensures sizes { state.new ≡ record state.old { trail = state.new.trail } }
    ensures closer { closer.new ≡ closer.old }
    ensures outcome { IfOk result
        (λ r. plain_outcome r ≡ under_budget budget (outcome (class_tree instance.now [] scales))) }
{
    match test_root(alloc, instance, scales, state, closer) {
        RootTest::Refuted(token) => leaf(alloc, token),
        RootTest::Conflict => leaf(alloc, Token::Rules),
        RootTest::Passed => {
            let pairs = ranked_pairs(alloc, instance)?;
            let search = Search {
                alloc,
                instance,
                pairs: pairs.as_slice(),
            };
            let node = next_kind(&search, state, 0);
            explored(&search, state, closer, Arrival::Inner(node), budget)
        }
    }
}
