//! What the root of a bin tree alone is tested for.
ghost use Rattle.std.specs.Prelude.{◌≡◌, ◌≤◌, None, MatchOption};
ghost use Rattle.packing_terms.specs.Scales.{SidesFit};
ghost use Rattle.packing_terms.specs.Packing.{box_count};
ghost use Rattle.tree_terms.specs.ClassTree.{first_exceeding};
ghost use Rattle.bin_search.specs.Trees.{IsExcess};

use box_instances::Instance;
use conservative_scales::first_exceeding;
use proof_tree::Token;
use std::alloc::Global;

// The token of the first tuple of scale functions that exceeds for `bins` bins, where scales are
// wanted.
pub(crate) fn scales_token(
    alloc: Global,
    instance: &Instance,
    bins: u32,
    scales: bool,
) -> Option<Token>
    requires fit { SidesFit instance.now }
    requires few { bins ≤ box_count instance.now }
    ensures { MatchOption result (first_exceeding instance.now bins scales ≡ None)
        (λ token. IsExcess (first_exceeding instance.now bins scales) token) }
{
    // For the proof alone: states the limits of the instance.
    let _limits = instance.len();
    if !scales {
        return None;
    }
    let Some(tuple) = first_exceeding(alloc, instance, bins) else {
        return None;
    };
    Some(Token::GlobalScales(tuple))
}
