//! A front with its certificates.
use proof_tree::CompactTokens;

/// A container of these written sides, and tokens that refute it.
#[derive(Drop)]
pub struct Corner {
    pub width: u32,
    pub height: u32,
    pub tokens: CompactTokens,
}

/// A container of these written sides, and places that are a packing in it.
#[derive(Drop)]
pub struct Point {
    pub width: u32,
    pub height: u32,
    pub places: Vec<u32>,
}

/// A front: whether all its points were found, its points by rising width, and the corners before
/// them and behind the last.
#[derive(Drop)]
pub struct Front {
    pub complete: bool,
    pub corners: Vec<Corner>,
    pub points: Vec<Point>,
}
