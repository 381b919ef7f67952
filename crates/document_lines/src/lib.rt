//! The lines of a document, judged one by one where the document stands: up to its result line, in
//! its places, bins or taken boxes, in a tree, and behind it.
#![tactic(auto)]

mod bin_places;
mod bins;
mod bounding;
mod checkers;
mod claim;
mod ending;
mod exceeding;
mod gathering;
mod groups;
mod head;
mod judge;
mod numbers;
mod places;
mod taking;
mod tree;
mod words;

pub use bin_places::BinPlaceReader;
pub use bins::bins_reason;
pub use bounding::{BoundEndReader, BoundReader};
pub use ending::EndReader;
pub use exceeding::OversizeReader;
pub use gathering::{FamilyEndReader, FamilyReader};
pub use head::{Claimed, HeadReader};
pub use judge::{LineJudge, LineStop, ReadEnd, take_lines};
pub use places::PlaceReader;
pub use taking::TakenReader;
pub use tree::{TreeChecker, TreeReader};
