//! From texts to a job and its settings.
ghost use Rattle.std.specs.Prelude.{◌≡◌, option_map};
ghost use Rattle.pack_words.specs.Job.{job_of_name, takes_settings, takes_number, takes_proposals, takes_facts, takes_bounds, are_taken, number_or, scales_in, asked_in, proposed, by_proposals, from_facts, by_ways, bounded, by_bounds, settings_of, job_of_texts};
ghost use Rattle.pack_words.specs.Said.{plain_found};

use crate::job::{Job, JobWords};
use crate::words::Found;
use text_terms::{Settings, SolvingJob, read_number};

fn job_of_name(word: &str) -> Option<Job>
    ensures { result ≡ job_of_name word.now }
{
    match word {
        "fit" => Some(Job::Fit),
        "strip" => Some(Job::Strip),
        "bins" => Some(Job::Bins),
        "knapsack" => Some(Job::Knapsack),
        "check" => Some(Job::Check),
        "make" => Some(Job::Make),
        "audit" => Some(Job::Audit),
        "explain" => Some(Job::Explain),
        "reduced" => Some(Job::Reduced),
        "front" => Some(Job::Front),
        _ => None,
    }
}

// Whether each option that is given is one that the job takes.
fn are_taken(job: Job, found: Found<'_>) -> bool
    ensures { result ≡ are_taken job (plain_found found.entry) }
{
    let has_settings = found.workers.is_some() | found.budget.is_some() | found.scales.is_some();
    let factless = found.facts.is_none();
    let boundless = found.bounds.is_none();
    let plain = found.proposals.is_none() & (factless & boundless);
    match job {
        Job::Check | Job::Audit | Job::Explain => { !has_settings & found.number.is_none() & plain }
        Job::Make => plain,
        Job::Strip => found.number.is_none(),
        Job::Fit | Job::Bins => found.number.is_none() & factless & boundless,
        Job::Knapsack => found.number.is_none() & factless,
        _ => found.number.is_none() & plain,
    }
}

// The number that a value is, in its range with both ends included, or the default where none is
// given.
fn number_or(low: u32, high: u32, default: u32, value: Option<&str>) -> Option<u32>
    ensures { result ≡ number_or low high default (option_map (λ s. s.now) value.entry) }
{
    match value {
        None => Some(default),
        Some(text) => {
            let number = read_number(text.as_bytes())?;
            if low as u128 <= number && number <= high as u128 {
                Some(number as u32)
            } else {
                None
            }
        }
    }
}

fn scales_in(value: Option<&str>) -> Option<bool>
    ensures { result ≡ scales_in (option_map (λ s. s.now) value.entry) }
{
    match value {
        None => Some(true),
        Some("yes") => Some(true),
        Some("no") => Some(false),
        Some(_) => None,
    }
}

// Whether an option is asked for that isn't by default.
fn asked_in(value: Option<&str>) -> Option<bool>
    ensures { result ≡ asked_in (option_map (λ s. s.now) value.entry) }
{
    match value {
        None => Some(false),
        Some("yes") => Some(true),
        Some("no") => Some(false),
        Some(_) => None,
    }
}

// A job with proposals, if it is a solving job.
fn proposed(job: Job) -> Job
    ensures { result ≡ proposed job }
{
    match job {
        Job::Fit => Job::Proposed(SolvingJob::Fit),
        Job::Strip => Job::Proposed(SolvingJob::Strip),
        Job::Bins => Job::Proposed(SolvingJob::Bins),
        Job::Knapsack => Job::Proposed(SolvingJob::Knapsack),
        other => other,
    }
}

// A job, with proposals or without.
fn by_proposals(proposals: bool, job: Job) -> Job
    ensures { result ≡ by_proposals proposals job }
{
    if proposals { proposed(job) } else { job }
}

// A job from the symmetry facts on, if it takes them.
fn from_facts(job: Job) -> Job
    ensures { result ≡ from_facts job }
{
    match job {
        Job::Strip => Job::ReducedStrip,
        other => other,
    }
}

// A job with proposals, from the symmetry facts on, or with neither; none with both.
fn by_ways(proposals: bool, facts: bool, job: Job) -> Option<Job>
    ensures { result ≡ by_ways proposals facts job }
{
    if !facts {
        return Some(by_proposals(proposals, job));
    }
    if proposals {
        return None;
    }
    Some(from_facts(job))
}

// A job whose bounds may have the further leaves, if it takes them: with proposals where it has
// them. There is none from the symmetry facts on.
fn bounded(job: Job) -> Option<Job>
    ensures { result ≡ bounded job }
{
    match job {
        Job::Strip => Some(Job::BoundedStrip { proposals: false }),
        Job::Proposed(SolvingJob::Strip) => Some(Job::BoundedStrip { proposals: true }),
        Job::Knapsack => Some(Job::Bounded { proposals: false }),
        Job::Proposed(SolvingJob::Knapsack) => Some(Job::Bounded { proposals: true }),
        Job::ReducedStrip => None,
        other => Some(other),
    }
}

// A job, with the further leaves or without.
fn by_bounds(bounds: bool, job: Job) -> Option<Job>
    ensures { result ≡ by_bounds bounds job }
{
    if bounds { bounded(job) } else { Some(job) }
}

fn settings_of(job: Job, found: Found<'_>) -> Option<JobWords>
    ensures { result ≡ settings_of job (plain_found found.entry) }
{
    let workers = number_or(1, 64, 1, found.workers)?;
    let budget = number_or(0, 10_000_000, 1_000_000, found.budget)?;
    let scales = scales_in(found.scales)?;
    let number = number_or(0, 2_147_483_647, 0, found.number)?;
    let proposals = asked_in(found.proposals)?;
    let facts = asked_in(found.facts)?;
    let bounds = asked_in(found.bounds)?;
    let way = by_ways(proposals, facts, job)?;
    let job = by_bounds(bounds, way)?;
    let settings = Settings {
        workers,
        budget: budget as u64,
        scales,
    };
    Some(JobWords {
        job,
        settings,
        number,
    })
}

/// The job that these texts give.
pub(crate) fn job_in(found: Found<'_>) -> Option<JobWords>
    ensures { result ≡ job_of_texts (plain_found found.entry) }
{
    let job = job_of_name(found.job?)?;
    if !are_taken(job, found) {
        return None;
    }
    settings_of(job, found)
}
