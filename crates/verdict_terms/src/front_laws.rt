//! The laws over fronts, each the contract of a function with an empty body.
ghost use Rattle.verdict_terms.specs.Laws.{SizesAreMonotone, GoodLinesAreTrue};

/// What fits a container fits each that is at least as wide and as high.
pub fn sizes_are_monotone()
    ensures { SizesAreMonotone }
{}

/// Lines that are good are true: the points of a complete front are the front, and those of a front
/// that isn't complete are its part up to the last of them.
pub fn good_lines_are_true()
    ensures { GoodLinesAreTrue }
{}
