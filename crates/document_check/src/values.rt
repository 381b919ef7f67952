//! The rest of a document of a value behind its result line: the taken boxes, a tree that refutes
//! another value, and `end`.
ghost use Rattle.std.specs.Prelude.{◌≡◌, ◌≤◌, true, None, [], ◌∷◌};
ghost use Rattle.packing_terms.specs.Packing.{dims};
ghost use Rattle.packing_terms.specs.OuterRefutation.{no_choice};
ghost use Rattle.packing_terms.specs.OuterFeeding.{Outer};
ghost use Rattle.verdict_terms.specs.Stages.{value_stage};
ghost use Rattle.verdict_terms.specs.Stages.Stage.{Taking, Refuting, Bounding};
ghost use Rattle.verdict_terms.specs.Trees.{begun, ToReach};
ghost use Rattle.document_lines.specs.Checkers.{is_outer_open};
ghost use Rattle.document_lines.specs.Boundings.{IsForValue, at_nodes, behind_nodes};
ghost use Rattle.document_check.specs.Passes.{IsPosition, IsCheckedFrom, Goes};
ghost use Rattle.document_check.specs.Values.{IsValueClaim};

use crate::check::CheckEnd;
use crate::phases::check_tokens;
use crate::position::{Position, give_lines};
use crate::showing::read_taken;
use box_instances::Instance;
use document_lines::{BoundEndReader, BoundReader, Claimed, LineJudge};
use outer_check::{Goal, OuterRefuter};
use pack_streams::Source;
use std::alloc::Global;
use text_terms::Claim;
use verdict_terms::Heading;

// A tree that refutes that the instance reaches the value, and `end`.
fn check_plain_value<S: Source>(
    alloc: Global,
    input: &mut S,
    at: &mut Position,
    claim: Claim,
    instance: &Instance,
    refuted: u64,
) -> CheckEnd
    requires { IsPosition at.old }
    ensures { IsCheckedFrom (S.left input.old) (S.left input.new) (S.faults input.old)
        (S.faults input.new)
        at.old (Refuting claim (begun (ToReach instance.now refuted))) result }
{
    let dims = instance.dims();
    match OuterRefuter::new(alloc, instance, Goal::Value(refuted)) {
        Ok(refuter) => check_tokens(alloc, input, at, claim, dims, refuter),
        Err(_) => CheckEnd::NoMemory,
    }
}

// The tokens of a bounded refutation, of an instance of `dim_count` dimensions. `None` says that it
// is whole.
fn read_bounded<S: Source>(
    alloc: Global,
    input: &mut S,
    at: &mut Position,
    claim: Claim,
    dim_count: u32,
    refuter: OuterRefuter<'_>,
) -> Option<CheckEnd>
    requires at { IsPosition at.old }
    requires least { 2 ≤ dim_count }
    requires most { dim_count ≤ 4 }
    requires same_dims { dim_count ≡ dims refuter.instance }
    requires opens { is_outer_open refuter ≡ true }
    requires for_value { IsForValue refuter.tree }
    ensures at { result ≡ None → IsPosition at.new }
    ensures goes { Goes (S.left input.old) (S.left input.new) (S.faults input.old)
        (S.faults input.new)
        at.old (at_nodes claim refuter.entry) at.new (behind_nodes claim refuter.entry) result }
{
    let mut judge = BoundReader::new(alloc, claim, dim_count, refuter);
    give_lines(input, at, &mut judge)
}

// `end` behind a whole tree with priced leaves.
fn check_bound_end<S: Source>(
    alloc: Global,
    input: &mut S,
    at: &mut Position,
    claim: Claim,
    instance: &Instance,
    refuted: u64,
) -> CheckEnd
    requires { IsPosition at.old }
    ensures { IsCheckedFrom (S.left input.old) (S.left input.new) (S.faults input.old)
        (S.faults input.new)
        at.old (Bounding instance.now claim refuted []) result }
{
    let mut judge = BoundEndReader::new(alloc, instance, claim, refuted);
    match give_lines(input, at, &mut judge) {
        Some(end) => end,
        None => {
            // For the proof alone: states that it never pauses.
            let _never = judge.is_paused();
            unreachable!()
        }
    }
}

// A tree with priced leaves that refutes that the instance reaches the value, and `end`.
fn check_bounded_value<S: Source>(
    alloc: Global,
    input: &mut S,
    at: &mut Position,
    claim: Claim,
    instance: &Instance,
    refuted: u64,
) -> CheckEnd
    requires { IsPosition at.old }
    ensures { IsCheckedFrom (S.left input.old) (S.left input.new) (S.faults input.old)
        (S.faults input.new)
        at.old (Bounding instance.now claim refuted (Outer no_choice ∷ [])) result }
{
    let dims = instance.dims();
    let Ok(refuter) = OuterRefuter::new(alloc, instance, Goal::Value(refuted)) else {
        return CheckEnd::NoMemory;
    };
    match read_bounded(alloc, input, at, claim, dims, refuter) {
        Some(end) => end,
        None => check_bound_end(alloc, input, at, claim, instance, refuted),
    }
}

/// The taken boxes of one value, `proof`, a tree that refutes another value, and `end`. In a
/// bounded document leaves of the tree may be priced out.
pub(crate) fn check_values<S: Source>(
    alloc: Global,
    input: &mut S,
    at: &mut Position,
    head: &Claimed,
    reached: u64,
    refuted: u64,
) -> CheckEnd
    requires at { IsPosition at.old }
    requires says { IsValueClaim head.now.instance head.now.claim refuted }
    ensures { IsCheckedFrom (S.left input.old) (S.left input.new) (S.faults input.old)
        (S.faults input.new)
        at.old (Taking head.now.heading head.now.instance head.now.claim reached [] []) result }
{
    match read_taken(alloc, input, at, head, reached) {
        Some(end) => end,
        None => check_refuted(alloc, input, at, head, refuted),
    }
}

// What stands behind `proof`, by the heading.
fn check_refuted<S: Source>(
    alloc: Global,
    input: &mut S,
    at: &mut Position,
    head: &Claimed,
    refuted: u64,
) -> CheckEnd
    requires at { IsPosition at.old }
    requires says { IsValueClaim head.now.instance head.now.claim refuted }
    ensures { IsCheckedFrom (S.left input.old) (S.left input.new) (S.faults input.old)
        (S.faults input.new)
        at.old (value_stage head.now.heading head.now.instance head.now.claim) result }
{
    let instance = &head.instance;
    match head.heading {
        Heading::Answer | Heading::Reduced => {
            check_plain_value(alloc, input, at, head.claim, instance, refuted)
        }
        Heading::Bounded => check_bounded_value(alloc, input, at, head.claim, instance, refuted),
    }
}
