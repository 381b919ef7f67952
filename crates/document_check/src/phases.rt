//! The rest of a document behind its result line, phase by phase.
ghost use Rattle.std.specs.Prelude.{◌≡◌, ◌≤◌, true, Some, [], ◌∷◌, IfOk};
ghost use Rattle.packing_terms.specs.Packing.{dims, box_count};
ghost use Rattle.packing_terms.specs.Limits.{max_height};
ghost use Rattle.packing_terms.specs.Goals.{with_last_side};
ghost use Rattle.packing_terms.specs.Exclusions.{AreAtEdges};
ghost use Rattle.packing_terms.specs.Scales.{SidesFit};
ghost use Rattle.verdict_terms.specs.declared.heading.Heading.TheVariants.{Answer};
ghost use Rattle.verdict_terms.specs.Stages.{proving, placed, refutation_goal, claimed, start_exclusions};
ghost use Rattle.verdict_terms.specs.Stages.Stage.{Placing, Sharing, Taking, Proving, Refuting, Exceeding, Ending};
ghost use Rattle.verdict_terms.specs.Trees.Tree.{InnerTree};
ghost use Rattle.verdict_terms.specs.Trees.{begun, tree_dims, ToFit, ToFitIn, ToReach};
ghost use Rattle.document_lines.specs.Endings.{AreDims};
ghost use Rattle.document_lines.specs.Proofs.{refuted_by};
ghost use Rattle.document_lines.specs.Checkers.{shown_inner_tree, is_inner_open};
ghost use Rattle.document_check.specs.Passes.{IsPosition, IsCheckedFrom};

use crate::check::CheckEnd;
use crate::families::check_families;
use crate::position::{Position, give_lines};
use crate::showing::{read_exceeding, read_places, read_shares, read_taken};
use box_instances::{Instance, NoMemory};
use document_lines::{Claimed, EndReader, LineJudge, TreeChecker, TreeReader};
use edge_state::Exclusion;
use outer_check::{Goal, OuterRefuter};
use pack_streams::Source;
use refutation_check::Refuter;
use std::alloc::Global;
use symmetry_list::facts;
use text_terms::Claim;
use verdict_terms::Heading;

// `end`, after places, or after the tree of an instance of `tree_dims` dimensions.
fn check_end<S: Source>(
    alloc: Global,
    input: &mut S,
    at: &mut Position,
    claim: Claim,
    tree_dims: Option<u32>,
) -> CheckEnd
    requires at { IsPosition at.old }
    requires dims { AreDims tree_dims }
    ensures { IsCheckedFrom (S.left input.old) (S.left input.new) (S.faults input.old)
        (S.faults input.new)
        at.old (Ending claim tree_dims) result }
{
    let mut judge = EndReader::new(alloc, claim, tree_dims);
    match give_lines(input, at, &mut judge) {
        Some(end) => end,
        None => {
            // For the proof alone: states that it never pauses.
            let _never = judge.is_paused();
            unreachable!()
        }
    }
}

// A tree that is being read, of an instance of `dims` dimensions, and `end`.
fn check_tree<S: Source, C: TreeChecker + Drop>(
    alloc: Global,
    input: &mut S,
    at: &mut Position,
    claim: Claim,
    dims: u32,
    mut judge: TreeReader<C>,
) -> CheckEnd
    requires at { IsPosition at.old }
    requires least { 2 ≤ dims }
    requires most { dims ≤ 4 }
    requires takes { judge.takes ≡ true }
    requires behind { judge.behind ≡ Some (Ending claim (Some dims)) }
    ensures { IsCheckedFrom (S.left input.old) (S.left input.new) (S.faults input.old)
        (S.faults input.new)
        at.old judge.stage result }
{
    match give_lines(input, at, &mut judge) {
        Some(end) => end,
        None => check_end(alloc, input, at, claim, Some(dims)),
    }
}

// `proof`, the tree of an instance of `dims` dimensions, and `end`.
fn check_proof<S: Source, C: TreeChecker + Drop>(
    alloc: Global,
    input: &mut S,
    at: &mut Position,
    claim: Claim,
    dims: u32,
    checker: C,
) -> CheckEnd
    requires at { IsPosition at.old }
    requires least { 2 ≤ dims }
    requires most { dims ≤ 4 }
    requires same_dims { dims ≡ tree_dims (C.tree checker) }
    requires begun { begun (refuted_by (C.tree checker)) ≡ C.tree checker }
    requires opens { C.is_open checker ≡ true }
    ensures { IsCheckedFrom (S.left input.old) (S.left input.new) (S.faults input.old)
        (S.faults input.new)
        at.old (Proving claim (refuted_by (C.tree checker))) result }
{
    let judge = TreeReader::at_proof(alloc, claim, dims, checker);
    check_tree(alloc, input, at, claim, dims, judge)
}

/// The tree of an instance of `dims` dimensions, and `end`.
pub(crate) fn check_tokens<S: Source, C: TreeChecker + Drop>(
    alloc: Global,
    input: &mut S,
    at: &mut Position,
    claim: Claim,
    dims: u32,
    checker: C,
) -> CheckEnd
    requires at { IsPosition at.old }
    requires least { 2 ≤ dims }
    requires most { dims ≤ 4 }
    requires same_dims { dims ≡ tree_dims (C.tree checker) }
    requires opens { C.is_open checker ≡ true }
    ensures { IsCheckedFrom (S.left input.old) (S.left input.new) (S.faults input.old)
        (S.faults input.new)
        at.old (Refuting claim (C.tree checker)) result }
{
    let judge = TreeReader::at_tokens(alloc, claim, dims, checker);
    check_tree(alloc, input, at, claim, dims, judge)
}

// What the trees of an instance begin with.
fn start_exclusions(
    alloc: Global,
    heading: Heading,
    instance: &Instance,
) -> Result<Vec<Exclusion>, NoMemory>
    ensures { IfOk result (λ es. es.items ≡ start_exclusions heading instance.now) }
{
    match heading {
        Heading::Answer | Heading::Bounded => Ok(Vec::new(alloc)),
        Heading::Reduced => facts(alloc, instance),
    }
}

// The refuter of an instance in this container, from what the trees of the instance begin with.
fn begin_refuter<'a>(
    alloc: Global,
    heading: Heading,
    instance: &Instance,
    level: &'a Instance,
) -> Result<Refuter<'a>, NoMemory>
    requires { AreAtEdges level.now (start_exclusions heading instance.now) }
    ensures tree { IfOk result (λ r. shown_inner_tree r
        ≡ InnerTree level.now (start_exclusions heading instance.now ∷ [])) }
    ensures opens { IfOk result (λ r. is_inner_open r ≡ true) }
{
    let start = start_exclusions(alloc, heading, instance)?;
    Refuter::starting(alloc, level, start.as_slice())
}

// `proof`, a plain tree that refutes that the boxes fit at this level, and `end`.
fn check_plain_misfit<S: Source>(
    alloc: Global,
    input: &mut S,
    at: &mut Position,
    head: &Claimed,
    level: &Instance,
) -> CheckEnd
    requires at { IsPosition at.old }
    requires edges { AreAtEdges level.now
        (start_exclusions head.now.heading head.now.instance) }
    ensures { IsCheckedFrom (S.left input.old) (S.left input.new) (S.faults input.old)
        (S.faults input.new)
        at.old (Proving head.now.claim
        (ToFit level.now (start_exclusions head.now.heading head.now.instance))) result }
{
    let dims = level.dims();
    match begin_refuter(alloc, head.heading, &head.instance, level) {
        Ok(refuter) => check_proof(alloc, input, at, head.claim, dims, refuter),
        Err(_) => CheckEnd::NoMemory,
    }
}

// `proof`, a tree that refutes that the boxes fit at this level, and `end`. In a bounded document
// it is a tree with families.
fn check_misfit<S: Source>(
    alloc: Global,
    input: &mut S,
    at: &mut Position,
    head: &Claimed,
    level: &Instance,
) -> CheckEnd
    requires at { IsPosition at.old }
    requires edges { AreAtEdges level.now
        (start_exclusions head.now.heading head.now.instance) }
    ensures { IsCheckedFrom (S.left input.old) (S.left input.new) (S.faults input.old)
        (S.faults input.new)
        at.old (proving head.now.heading head.now.claim
        (ToFit level.now (start_exclusions head.now.heading head.now.instance))) result }
{
    match head.heading {
        Heading::Answer | Heading::Reduced => check_plain_misfit(alloc, input, at, head, level),
        Heading::Bounded => check_families(alloc, input, at, head.claim, level),
    }
}

// `proof`, a tree that refutes that the instance fits in `refuted` bins, and `end`.
fn check_few_bins<S: Source>(
    alloc: Global,
    input: &mut S,
    at: &mut Position,
    claim: Claim,
    instance: &Instance,
    refuted: u32,
) -> CheckEnd
    requires at { IsPosition at.old }
    requires sides { SidesFit instance.now }
    requires few { refuted ≤ box_count instance.now }
    ensures { IsCheckedFrom (S.left input.old) (S.left input.new) (S.faults input.old)
        (S.faults input.new)
        at.old (Proving claim (ToFitIn instance.now refuted)) result }
{
    let dims = instance.dims();
    match OuterRefuter::new(alloc, instance, Goal::Bins(refuted)) {
        Ok(refuter) => check_proof(alloc, input, at, claim, dims, refuter),
        Err(_) => CheckEnd::NoMemory,
    }
}

/// The places of all boxes, and `end`.
pub(crate) fn check_fitting<S: Source>(
    alloc: Global,
    input: &mut S,
    at: &mut Position,
    head: &Claimed,
) -> CheckEnd
    requires at { IsPosition at.old }
    requires is { head.now.claim ≡ Claim.Fitting }
    ensures { IsCheckedFrom (S.left input.old) (S.left input.new) (S.faults input.old)
        (S.faults input.new)
        at.old (claimed head.now.heading head.now.instance head.now.claim) result }
{
    match read_places(alloc, input, at, head, &head.instance) {
        Some(end) => end,
        None => check_end(alloc, input, at, Claim::Fitting, None),
    }
}

/// A tree that refutes that the instance fits, and `end`. In a reduced document it refutes that
/// under the symmetry facts.
pub(crate) fn check_not_fitting<S: Source>(
    alloc: Global,
    input: &mut S,
    at: &mut Position,
    head: &Claimed,
) -> CheckEnd
    requires at { IsPosition at.old }
    requires is { head.now.claim ≡ Claim.NotFitting }
    ensures { IsCheckedFrom (S.left input.old) (S.left input.new) (S.faults input.old)
        (S.faults input.new)
        at.old (claimed head.now.heading head.now.instance head.now.claim) result }
{
    let dims = head.instance.dims();
    match begin_refuter(alloc, head.heading, &head.instance, &head.instance) {
        Ok(refuter) => check_tokens(alloc, input, at, Claim::NotFitting, dims, refuter),
        Err(_) => CheckEnd::NoMemory,
    }
}

// The places of all boxes at the one level, `proof`, a tree that they don't fit at the other, and
// `end`.
fn check_placed<S: Source>(
    alloc: Global,
    input: &mut S,
    at: &mut Position,
    head: &Claimed,
    held: &Instance,
    lower: &Instance,
) -> CheckEnd
    requires at { IsPosition at.old }
    requires edges { AreAtEdges lower.now
        (start_exclusions head.now.heading head.now.instance) }
    requires says { placed head.now.heading head.now.claim
        (refutation_goal head.now.heading head.now.instance head.now.claim)
        ≡ proving head.now.heading head.now.claim
        (ToFit lower.now (start_exclusions head.now.heading head.now.instance)) }
    ensures { IsCheckedFrom (S.left input.old) (S.left input.new) (S.faults input.old)
        (S.faults input.new)
        at.old (Placing head.now.heading held.now head.now.claim
        (refutation_goal head.now.heading head.now.instance head.now.claim) []) result }
{
    match read_places(alloc, input, at, head, held) {
        Some(end) => end,
        None => check_misfit(alloc, input, at, head, lower),
    }
}

/// The places of all boxes at one height, `proof`, a tree that refutes another height, and `end`.
pub(crate) fn check_heights<S: Source>(
    alloc: Global,
    input: &mut S,
    at: &mut Position,
    head: &Claimed,
    reached: u32,
    refuted: u32,
) -> CheckEnd
    requires at { IsPosition at.old }
    requires high { reached ≤ max_height }
    requires low { refuted ≤ max_height }
    requires says { placed head.now.heading head.now.claim
        (refutation_goal head.now.heading head.now.instance head.now.claim)
        ≡ proving head.now.heading head.now.claim
        (ToFit (with_last_side head.now.instance refuted)
        (start_exclusions head.now.heading head.now.instance)) }
    ensures { IsCheckedFrom (S.left input.old) (S.left input.new) (S.faults input.old)
        (S.faults input.new)
        at.old (Placing head.now.heading (with_last_side head.now.instance reached) head.now.claim
        (refutation_goal head.now.heading head.now.instance head.now.claim) []) result }
{
    // For the proof alone: states that there is a last dimension.
    let _some_dims = head.instance.dims();
    let Ok(held) = head.instance.with_last_side(alloc, reached) else {
        return CheckEnd::NoMemory;
    };
    let Ok(lower) = head.instance.with_last_side(alloc, refuted) else {
        return CheckEnd::NoMemory;
    };
    check_placed(alloc, input, at, head, &held, &lower)
}

/// One token that a box exceeds the container in one of the first `dim_count` dimensions, and
/// `end`.
pub(crate) fn check_exceeding<S: Source>(
    alloc: Global,
    input: &mut S,
    at: &mut Position,
    instance: &Instance,
    claim: Claim,
    dim_count: u32,
) -> CheckEnd
    requires at { IsPosition at.old }
    requires few { dim_count ≤ dims instance.now }
    ensures { IsCheckedFrom (S.left input.old) (S.left input.new) (S.faults input.old)
        (S.faults input.new)
        at.old (Exceeding instance.now claim dim_count) result }
{
    match read_exceeding(alloc, input, at, instance, claim, dim_count) {
        Some(end) => end,
        None => check_end(alloc, input, at, claim, Some(instance.dims())),
    }
}

/// The places of all boxes in `bin_count` bins, `proof`, a tree that refutes `refuted` bins, and
/// `end`.
pub(crate) fn check_bins<S: Source>(
    alloc: Global,
    input: &mut S,
    at: &mut Position,
    instance: &Instance,
    claim: Claim,
    bin_count: u32,
    refuted: u32,
) -> CheckEnd
    requires at { IsPosition at.old }
    requires few { refuted ≤ box_count instance.now }
    requires says { placed Answer claim (refutation_goal Answer instance.now claim)
        ≡ Proving claim (ToFitIn instance.now refuted) }
    ensures { IsCheckedFrom (S.left input.old) (S.left input.new) (S.faults input.old)
        (S.faults input.new)
        at.old (Sharing instance.now claim bin_count [] []) result }
{
    match read_shares(alloc, input, at, instance, claim, bin_count) {
        Some(end) => end,
        None => check_few_bins(alloc, input, at, claim, instance, refuted),
    }
}
