//! Where an outer tree stands.

/// Where an outer tree stands: at an outer node, in the inner tree of a set, or at its end.
#[derive(Clone, Copy, PartialEq, Eq)]
pub enum Point {
    AtNode,
    InSet,
    AtEnd,
}
