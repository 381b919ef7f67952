//! What shows that a claim is reached: places, bins, taken boxes, a box that exceeds the container.
ghost use Rattle.std.specs.Prelude.{◌≡◌, ◌≤◌, true, None, Some, [], IfOk};
ghost use Rattle.packing_terms.specs.Packing.{dims};
ghost use Rattle.verdict_terms.specs.declared.heading.Heading.TheVariants.{Answer};
ghost use Rattle.verdict_terms.specs.Stages.{placed, refutation_goal, value_stage};
ghost use Rattle.verdict_terms.specs.Stages.Stage.{Beginning, Placing, Sharing, Taking, Exceeding, Ending};
ghost use Rattle.document_check.specs.Passes.{IsPosition, Goes, GoesBehind};
ghost use Rattle.document_lines.specs.Ranges.{IsRanged};
ghost use Rattle.document_lines.specs.Sharings.{HaveSides};

use crate::check::CheckEnd;
use crate::position::{Position, give_lines};
use box_instances::Instance;
use document_lines::{
    BinPlaceReader, Claimed, HeadReader, OversizeReader, PlaceReader, TakenReader,
};
use pack_streams::Source;
use std::alloc::Global;
use text_terms::Claim;
use verdict_terms::Heading;

/// The lines up to the result line, for a reader that wants the next one.
pub(crate) fn read_head<S: Source>(
    input: &mut S,
    at: &mut Position,
    head: HeadReader,
) -> Result<Claimed, CheckEnd>
    requires at { IsPosition at.old }
    requires takes { head.takes ≡ true }
    ensures at { IfOk result (λ c. IsPosition at.new) }
    ensures ranged { IfOk result (λ c. IsRanged c.instance c.claim) }
    ensures goes { GoesBehind head.stage (S.left input.old) (S.left input.new)
        (S.faults input.old) (S.faults input.new) at.old at.new result }
{
    let mut head = head;
    if let Some(end) = give_lines(input, at, &mut head) {
        return Err(end);
    }
    match head.into_claimed() {
        Some(claimed) => Ok(claimed),
        None => unreachable!(),
    }
}

/// The places of all boxes in a container that may have another last side. `None` says that they
/// are a packing.
pub(crate) fn read_places<S: Source>(
    alloc: Global,
    input: &mut S,
    at: &mut Position,
    head: &Claimed,
    held: &Instance,
) -> Option<CheckEnd>
    requires { IsPosition at.old }
    ensures at { result ≡ None → IsPosition at.new }
    ensures goes { Goes (S.left input.old) (S.left input.new) (S.faults input.old)
        (S.faults input.new)
        at.old (Placing head.now.heading held.now head.now.claim
        (refutation_goal head.now.heading head.now.instance head.now.claim) []) at.new
        (placed head.now.heading head.now.claim
        (refutation_goal head.now.heading head.now.instance head.now.claim))
        result }
{
    let mut judge = PlaceReader::new(alloc, head.heading, &head.instance, held, head.claim);
    give_lines(input, at, &mut judge)
}

/// The bins and places of all boxes. `None` says that they are a packing of `bin_count` bins.
pub(crate) fn read_shares<S: Source>(
    alloc: Global,
    input: &mut S,
    at: &mut Position,
    instance: &Instance,
    claim: Claim,
    bin_count: u32,
) -> Option<CheckEnd>
    requires { IsPosition at.old }
    ensures at { result ≡ None → IsPosition at.new }
    ensures sides { result ≡ None → HaveSides (placed Answer claim (refutation_goal Answer instance.now claim)) }
    ensures goes { Goes (S.left input.old) (S.left input.new) (S.faults input.old)
        (S.faults input.new)
        at.old (Sharing instance.now claim bin_count [] []) at.new
        (placed Answer claim (refutation_goal Answer instance.now claim)) result }
{
    let mut judge = BinPlaceReader::new(alloc, instance, claim, bin_count);
    let end = give_lines(input, at, &mut judge);
    // For the proof alone: states that no side exceeds the container's where all bins were taken.
    let _are_shared = judge.are_shared();
    end
}

/// The taken boxes, up to `proof`. `None` says that they are a packing of at least the value.
pub(crate) fn read_taken<S: Source>(
    alloc: Global,
    input: &mut S,
    at: &mut Position,
    head: &Claimed,
    value: u64,
) -> Option<CheckEnd>
    requires { IsPosition at.old }
    ensures at { result ≡ None → IsPosition at.new }
    ensures goes { Goes (S.left input.old) (S.left input.new) (S.faults input.old)
        (S.faults input.new)
        at.old (Taking head.now.heading head.now.instance head.now.claim value [] []) at.new
        (value_stage head.now.heading head.now.instance head.now.claim) result }
{
    let mut judge = TakenReader::new(alloc, head.heading, &head.instance, head.claim, value);
    give_lines(input, at, &mut judge)
}

/// The token that a box exceeds the container in one of the first `dim_count` dimensions. `None`
/// says that it does.
pub(crate) fn read_exceeding<S: Source>(
    alloc: Global,
    input: &mut S,
    at: &mut Position,
    instance: &Instance,
    claim: Claim,
    dim_count: u32,
) -> Option<CheckEnd>
    requires at { IsPosition at.old }
    requires few { dim_count ≤ dims instance.now }
    ensures at { result ≡ None → IsPosition at.new }
    ensures goes { Goes (S.left input.old) (S.left input.new) (S.faults input.old)
        (S.faults input.new)
        at.old (Exceeding instance.now claim dim_count) at.new
        (Ending claim (Some (dims instance.now))) result }
{
    let mut judge = OversizeReader::new(alloc, instance, claim, dim_count);
    give_lines(input, at, &mut judge)
}
