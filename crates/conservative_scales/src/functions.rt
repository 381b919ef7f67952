//! The scale functions of one dimension.
ghost use Rattle.std.specs.Prelude.{◌≡◌, ◌≤◌, IsTrue, ◌↔◌};
ghost use Rattle.packing_terms.specs.Scales.{IsLegalScale, scale_image, scale_whole};

use packing_terms::ScaleFn;

/// Whether the parameter of the function is in its range for a container side: any for `Id`; 1 to
/// 16 for `Step`, where the side is at least 1; 1 to half of the side for `Cut` and `Count`.
pub fn legal(f: ScaleFn, whole_side: u32) -> bool
    ensures { IsTrue result ↔ IsLegalScale f whole_side }
{
    match f {
        ScaleFn::Id => true,
        ScaleFn::Step(k) => 1 <= k && k <= 16 && 1 <= whole_side,
        ScaleFn::Cut(e) | ScaleFn::Count(e) => 1 <= e && e <= whole_side / 2,
    }
}

/// What stands in place of the container's side: the most that the images of widths that fit beside
/// one another add up to. The function is legal for the side.
pub fn whole(f: ScaleFn, whole_side: u32) -> u64
    requires { IsLegalScale f whole_side }
    ensures { result ≡ scale_whole f whole_side }
{
    let side = whole_side as u64;
    match f {
        ScaleFn::Id | ScaleFn::Cut(_) => side,
        ScaleFn::Step(k) => k as u64 * side,
        ScaleFn::Count(e) => side / e as u64,
    }
}

/// What stands in place of the width `x`, which is at most the container's side. The function is
/// legal for that side.
///
/// `Id` keeps the width. `Step(k)` rounds `(k + 1) * x / whole_side` down and multiplies by the
/// side, but gives `k * x` where nothing is rounded. `Cut(e)` gives 0 to widths below `e` and the
/// whole side to those above the side less `e`. `Count(e)` counts how often `e` fits, in what is
/// left of the side where the width is more than half of it.
pub fn image(f: ScaleFn, whole_side: u32, x: u32) -> u64
    requires legal { IsLegalScale f whole_side }
    requires within { x ≤ whole_side }
    ensures { result ≡ scale_image f whole_side x }
{
    let side = whole_side as u64;
    let x = x as u64;
    match f {
        ScaleFn::Id => x,
        ScaleFn::Step(k) => {
            let k = k as u64;
            let steps = (k + 1) * x;
            if steps % side == 0 {
                k * x
            } else {
                side * (steps / side)
            }
        }
        ScaleFn::Cut(e) => {
            let e = e as u64;
            if x < e {
                0
            } else if x <= side - e {
                x
            } else {
                side
            }
        }
        ScaleFn::Count(e) => {
            let e = e as u64;
            if x < e {
                0
            } else if 2 * x <= side {
                1
            } else {
                side / e - (side - x) / e
            }
        }
    }
}
