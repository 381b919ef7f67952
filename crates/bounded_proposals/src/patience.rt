//! How often sets that grew are asked.

// The most sets in a row that pass unasked.
const MAX_PASSES: u64 = 64;

/// After each set that stays undecided one more passes unasked before the next is asked, until one
/// is refuted. Where sets are of many small boxes nearly all stay undecided, and asking each of
/// them takes half of the time.
#[derive(Clone, Copy)]
pub(crate) struct Patience {
    undecided: u64,
    passes: u64,
}

impl Patience {
    pub(crate) fn new() -> Patience {
        Patience {
            undecided: 0,
            passes: 0,
        }
    }

    /// Whether the next set is asked.
    pub(crate) fn is_over(self) -> bool {
        self.passes == 0
    }

    /// The patience after a set that passed unasked.
    pub(crate) fn after_pass(self) -> Patience {
        Patience {
            undecided: self.undecided,
            passes: self.passes.saturating_sub(1),
        }
    }

    /// The patience after a set that stays undecided.
    pub(crate) fn after_undecided(self) -> Patience {
        let undecided = self.undecided.saturating_add(1).min(MAX_PASSES);
        Patience {
            undecided,
            passes: undecided,
        }
    }
}
