//! How much is done at a level.
ghost use Rattle.std.specs.Prelude.{◌≡◌};

use work_share::Settings;

/// How much is done at a level: the root of the described tree alone, which the scale functions may
/// refute; or the described tree with at least the share of the budget, and behind it a proposal.
///
/// The tree comes before the proposal, since it decides most heights near the optimum, in 2 to 4 s
/// where a proposal takes 7 s and finds nothing (16 texts of 8 to 25 boxes).
#[derive(Clone, Copy, Debug, PartialEq, Eq)]
pub enum Effort {
    Root,
    Share,
}

/// The settings of a decision by the root alone.
pub(crate) fn at_root(settings: &Settings) -> Settings
    ensures { result.scales ≡ settings.now.scales }
{
    Settings {
        workers: 1,
        budget: 0,
        scales: settings.scales,
    }
}
