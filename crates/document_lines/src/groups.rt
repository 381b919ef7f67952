//! The places of sets of boxes.
ghost use Rattle.std.specs.Prelude.{◌≡◌, ◌*◌, ◌≤◌, ◌<◌, ◌++◌, All, length, [], ◌∷◌};
ghost use Rattle.packing_terms.specs.Packing.{dims, box_count};
ghost use Rattle.verdict_terms.specs.Placing.{place_verdict};
ghost use Rattle.verdict_terms.specs.Stages.{named_in, groups_reason};

use box_instances::Instance;
use placement_check::{PlaceVerdict, check_places};
use verdict_terms::Reason;

// The number of the text for a box of a set.
fn named_in(keep: &[u32], box_no: u32) -> u32
    requires there { box_no < length keep.now }
    requires few { All (λ v. v < 128) keep.now }
    ensures { result ≡ named_in keep.now box_no }
{
    keep[box_no as usize] + 1
}

/// Why the places of a set of boxes are refused, if they are; the set is an instance of its own.
pub(crate) fn group_reason(set: &Instance, keep: &[u32], places: &[u32]) -> Option<Reason>
    requires same { length keep.now ≡ box_count set.now }
    requires few { All (λ v. v < 128) keep.now }
    requires places { length places.now ≡ box_count set.now * dims set.now }
    ensures { result ≡ groups_reason ((keep.now, place_verdict set.now places.now) ∷ []) }
{
    // For the proof alone: states the limits of the set's instance.
    let _most_dims = set.dims();
    match check_places(set, places) {
        PlaceVerdict::Good => None,
        PlaceVerdict::Outside { box_no, dim } => Some(Reason::OutsideAt {
            box_no: named_in(keep, box_no),
            dim: dim + 1,
        }),
        PlaceVerdict::Overlap { first, second } => Some(Reason::OverlapAt {
            first: named_in(keep, first),
            second: named_in(keep, second),
        }),
    }
}
