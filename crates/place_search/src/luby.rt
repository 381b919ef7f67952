//! Luby's numbers: 1, 1, 2, 1, 1, 2, 4, 1, ..
//!
//! Source: Luby, Sinclair and Zuckerman, Optimal speedup of Las Vegas algorithms (1993), in Knuth's
//! form of two counters.

/// Where the row of Luby's numbers stands.
#[derive(Clone, Copy, Debug, PartialEq, Eq)]
pub struct Luby {
    run: u64,
    number: u64,
}

impl Luby {
    /// At the first number.
    pub fn new() -> Luby {
        Luby { run: 1, number: 1 }
    }

    /// The number here, and the row behind it.
    pub fn next(self) -> (u64, Luby) {
        let here = self.number;
        let lowest = self.run & self.run.wrapping_neg();
        let behind = if lowest == here {
            Luby {
                run: self.run.wrapping_add(1),
                number: 1,
            }
        } else {
            Luby {
                run: self.run,
                number: here.wrapping_mul(2),
            }
        };
        (here, behind)
    }
}
