//! The rest of a bounded document of a height behind its places: `proof`, a refutation with
//! families of another height, and `end`.
ghost use Rattle.std.specs.Prelude.{◌≡◌, ◌≤◌, None, []};
ghost use Rattle.packing_terms.specs.Packing.{dims};
ghost use Rattle.verdict_terms.specs.Checking.{starting};
ghost use Rattle.verdict_terms.specs.FamilyRefutation.{Free};
ghost use Rattle.verdict_terms.specs.Stages.Stage.{ProvingFamilies, Gathering};
ghost use Rattle.document_lines.specs.Gatherings.{before_families, behind_families};
ghost use Rattle.document_check.specs.Passes.{IsPosition, IsCheckedFrom, Goes};

use crate::check::CheckEnd;
use crate::position::{Position, give_lines};
use box_instances::Instance;
use document_lines::{FamilyEndReader, FamilyReader, LineJudge};
use outer_check::FamilyRefuter;
use pack_streams::Source;
use std::alloc::Global;
use text_terms::Claim;

// `proof`, and the tokens of a refutation with families, of an instance of `dim_count` dimensions.
// `None` says that it is whole.
fn read_families<S: Source>(
    alloc: Global,
    input: &mut S,
    at: &mut Position,
    claim: Claim,
    dim_count: u32,
    refuter: FamilyRefuter<'_>,
) -> Option<CheckEnd>
    requires at { IsPosition at.old }
    requires least { 2 ≤ dim_count }
    requires most { dim_count ≤ 4 }
    requires same_dims { dim_count ≡ dims refuter.instance }
    requires begun { refuter.checked ≡ starting (Free []) }
    ensures at { result ≡ None → IsPosition at.new }
    ensures goes { Goes (S.left input.old) (S.left input.new) (S.faults input.old)
        (S.faults input.new)
        at.old (before_families claim refuter.entry) at.new (behind_families claim refuter.entry)
        result }
{
    let mut judge = FamilyReader::new(alloc, claim, dim_count, refuter);
    give_lines(input, at, &mut judge)
}

// `end` behind a whole tree with families.
fn check_family_end<S: Source>(
    alloc: Global,
    input: &mut S,
    at: &mut Position,
    claim: Claim,
    instance: &Instance,
) -> CheckEnd
    requires { IsPosition at.old }
    ensures { IsCheckedFrom (S.left input.old) (S.left input.new) (S.faults input.old)
        (S.faults input.new)
        at.old (Gathering instance.now claim []) result }
{
    let mut judge = FamilyEndReader::new(alloc, instance, claim);
    match give_lines(input, at, &mut judge) {
        Some(end) => end,
        None => {
            // For the proof alone: states that it never pauses.
            let _never = judge.is_paused();
            unreachable!()
        }
    }
}

/// `proof`, a tree with families that refutes that the boxes fit at this level, and `end`.
pub(crate) fn check_families<S: Source>(
    alloc: Global,
    input: &mut S,
    at: &mut Position,
    claim: Claim,
    level: &Instance,
) -> CheckEnd
    requires { IsPosition at.old }
    ensures { IsCheckedFrom (S.left input.old) (S.left input.new) (S.faults input.old)
        (S.faults input.new)
        at.old (ProvingFamilies level.now claim) result }
{
    let dims = level.dims();
    let Ok(refuter) = FamilyRefuter::new(alloc, level) else {
        return CheckEnd::NoMemory;
    };
    match read_families(alloc, input, at, claim, dims, refuter) {
        Some(end) => end,
        None => check_family_end(alloc, input, at, claim, level),
    }
}
