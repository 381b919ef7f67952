//! What the words of the command line ask for.
ghost use Rattle.pack_command.specs.Asked.{IsAsked};

use crate::stop::Stop;
use answer_terms::{DocumentJob, ReducedJob};
use pack_words::{Job, WordsError, read_words};
use std::alloc::Global;
use text_terms::SolvingJob;
use work_share::Settings;

/// What the words ask for.
#[derive(Clone, Copy, Debug, PartialEq, Eq)]
pub enum Asked {
    /// A job that answers with a document, and how it is to be run.
    Solving {
        job: DocumentJob,
        settings: Settings,
    },
    /// `check`.
    Checking,
    /// `audit`.
    Auditing,
    /// `explain`.
    Explaining,
    /// `front`, and how the containers are to be decided.
    Fronting {
        settings: Settings,
    },
    /// A solving job with proposals, and how the trees behind them are to be decided.
    Proposing {
        job: SolvingJob,
        settings: Settings,
    },
    /// `knapsack` with priced leaves, behind proposals or not, and how its trees are to be decided.
    Bounding {
        proposals: bool,
        settings: Settings,
    },
    /// `strip` with families, behind proposals or not, and how its trees are to be decided.
    BoundingHeights {
        proposals: bool,
        settings: Settings,
    },
    /// `make`, the number that it generates from, and how the instance is to be decided.
    Making {
        number: u32,
        settings: Settings,
    },
}

/// What the words ask for.
pub(crate) fn read_job(alloc: Global, words: &[String]) -> Result<Asked, Stop>
    ensures { IsAsked words.now result }
{
    let asked = match read_words(alloc, words) {
        Ok(asked) => asked,
        Err(WordsError::Refused) => return Err(Stop::Words),
        Err(WordsError::NoMemory) => return Err(Stop::NoMemory),
    };
    let settings = asked.settings;
    let job = match asked.job {
        Job::Fit => DocumentJob::Solving(SolvingJob::Fit),
        Job::Strip => DocumentJob::Solving(SolvingJob::Strip),
        Job::Bins => DocumentJob::Solving(SolvingJob::Bins),
        Job::Knapsack => DocumentJob::Solving(SolvingJob::Knapsack),
        Job::Reduced => DocumentJob::Reduced(ReducedJob::Fit),
        Job::ReducedStrip => DocumentJob::Reduced(ReducedJob::Strip),
        Job::Check => return Ok(Asked::Checking),
        Job::Audit => return Ok(Asked::Auditing),
        Job::Explain => return Ok(Asked::Explaining),
        Job::Front => return Ok(Asked::Fronting { settings }),
        Job::Proposed(job) => return Ok(Asked::Proposing { job, settings }),
        Job::Bounded { proposals } => {
            return Ok(Asked::Bounding {
                proposals,
                settings,
            });
        }
        Job::BoundedStrip { proposals } => {
            return Ok(Asked::BoundingHeights {
                proposals,
                settings,
            });
        }
        Job::Make => {
            return Ok(Asked::Making {
                number: asked.number,
                settings,
            });
        }
    };
    Ok(Asked::Solving { job, settings })
}
