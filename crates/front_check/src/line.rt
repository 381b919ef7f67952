//! The lines of a front.
use box_instances::Sides;
use proof_tree::Token;

/// A line between the result line and the end of a document of a front.
#[derive(Drop)]
pub enum FrontLine {
    Corner { width: u32, height: u32 },
    Point { width: u32, height: u32 },
    Place(Sides),
    Tree(Token),
}
