//! How the searches of a job are run.

/// How a search is run: by how many workers, under which budget, and whether with conservative
/// scales.
///
/// `workers` is from 1 to 64. `budget` is the greatest count of branchings that a decision may
/// have, from 0 to 10,000,000. With `scales` the refutations by volume of scaled boxes are tried.
#[derive(Clone, Copy, Debug, PartialEq, Eq)]
pub struct Settings {
    pub workers: u32,
    pub budget: u64,
    pub scales: bool,
}
