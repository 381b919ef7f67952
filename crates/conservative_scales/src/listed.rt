//! The list of scale functions of a dimension, one after another.
ghost use Rattle.std.specs.Prelude.{◌≡◌, ◌<◌, ◌≤◌, ◌*◌, [], ◌∷◌, MatchOption, IfSome};
ghost use Rattle.packing_terms.specs.Packing.{dims, container_side};
ghost use Rattle.packing_terms.specs.Scales.{IsLegalScale};
ghost use Rattle.packing_terms.specs.Tuples.{thresholds_above, functions_after};
ghost use Rattle.conservative_scales.specs.Within.{from_next};

use box_instances::Instance;
use packing_terms::ScaleFn;

// The next parameter above the given one, where there is one.
fn next_edge(instance: &Instance, dim: u32, above: u32) -> Option<u32>
    requires { dim < dims instance.now }
    ensures next { MatchOption result (thresholds_above instance.now dim above ≡ [])
        (λ e. thresholds_above instance.now dim above ≡ e ∷ thresholds_above instance.now dim e) }
    ensures legal { IfSome result (λ e. (above < e) × (2 * e ≤ container_side instance.now dim)) }
{
    let half = instance.container_side(dim) / 2;
    if above >= half {
        return None;
    }
    let mut next = half;
    for box_no in 0..instance.len() {
        let side = instance.side(box_no, dim);
        if above < side && side < next {
            next = side;
        }
    }
    Some(next)
}

/// The function that stands after the given one in the list of a dimension.
pub(crate) fn next_function(instance: &Instance, dim: u32, f: ScaleFn) -> Option<ScaleFn>
    requires there { dim < dims instance.now }
    requires whole { 1 ≤ container_side instance.now dim }
    ensures next { functions_after instance.now dim f ≡ from_next instance.now dim result }
    ensures legal { IfSome result (λ g. IsLegalScale g (container_side instance.now dim)) }
{
    match f {
        ScaleFn::Id => Some(ScaleFn::Step(1)),
        ScaleFn::Step(k) => {
            if k < 4 {
                Some(ScaleFn::Step(k + 1))
            } else {
                match next_edge(instance, dim, 0) {
                    Some(e) => Some(ScaleFn::Cut(e)),
                    None => None,
                }
            }
        }
        ScaleFn::Cut(e) => match next_edge(instance, dim, e) {
            Some(next) => Some(ScaleFn::Cut(next)),
            None => match next_edge(instance, dim, 0) {
                Some(first) => Some(ScaleFn::Count(first)),
                None => None,
            },
        },
        ScaleFn::Count(e) => match next_edge(instance, dim, e) {
            Some(next) => Some(ScaleFn::Count(next)),
            None => None,
        },
    }
}
