//! Tests of command lines: each job with its options, and words that are refused.
use pack_words::{Job, JobWords, SolvingJob, WordsError, read_words};
use std::alloc::{AllocError, Global};
use std::test::Fail;
use text_terms::Settings;

// The words of a command line, which are given with one space between two of them.
fn words_of(alloc: Global, line: &str) -> Result<Vec<String>, AllocError> {
    let mut words = Vec::new(alloc);
    for word in line.split(' ') {
        words.push(String::from_str(alloc, word)?)?;
    }
    Ok(words)
}

fn job_of(alloc: Global, line: &str) -> Result<JobWords, WordsError> {
    match words_of(alloc, line) {
        Ok(words) => read_words(alloc, &words),
        Err(_) => Err(WordsError::NoMemory),
    }
}

// A job with its settings, and the number 0.
fn with(job: Job, workers: u32, budget: u64, scales: bool) -> Result<JobWords, WordsError> {
    Ok(JobWords {
        job,
        settings: Settings {
            workers,
            budget,
            scales,
        },
        number: 0,
    })
}

fn by_default(job: Job) -> Result<JobWords, WordsError> {
    with(job, 1, 1_000_000, true)
}

const REFUSED: Result<JobWords, WordsError> = Err(WordsError::Refused);

#[test]
fn each_job_has_its_name_and_defaults(rt: HostRuntime) -> Result<(), Fail> {
    let alloc = rt.alloc();
    assert!(rt; job_of(alloc, "fit") == by_default(Job::Fit));
    assert!(rt; job_of(alloc, "strip") == by_default(Job::Strip));
    assert!(rt; job_of(alloc, "bins") == by_default(Job::Bins));
    assert!(rt; job_of(alloc, "knapsack") == by_default(Job::Knapsack));
    assert!(rt; job_of(alloc, "check") == by_default(Job::Check));
    assert!(rt; job_of(alloc, "make") == by_default(Job::Make));
    Ok(())
}

#[test]
fn options_stand_in_one_word_or_in_two(rt: HostRuntime) -> Result<(), Fail> {
    let alloc = rt.alloc();
    assert!(rt; job_of(alloc, "fit --workers=08") == with(Job::Fit, 8, 1_000_000, true));
    assert!(rt; job_of(alloc, "fit --budget=5") == with(Job::Fit, 1, 5, true));
    assert!(rt;
        job_of(alloc, "--scales no --workers 64 bins --budget 10000000")
            == with(Job::Bins, 64, 10_000_000, false)
    );
    assert!(rt; job_of(alloc, "--budget 0 -- strip") == with(Job::Strip, 1, 0, true));
    let made = job_of(alloc, "make --number 2147483647 --scales=yes")?;
    assert!(rt; (made.job, made.number) == (Job::Make, 2_147_483_647));
    Ok(())
}

#[test]
fn no_words_are_refused(rt: HostRuntime) -> Result<(), Fail> {
    let none: Vec<String> = Vec::new(rt.alloc());
    assert!(rt; read_words(rt.alloc(), &none) == REFUSED);
    Ok(())
}

// Words that name no job, and others that are almost one.
const NO_JOBS: [&str; 32] = [
    "pile",
    "fit fit",
    "fit --workers 65",
    "fit --workers 0",
    "fit --number 3",
    "check --budget 5",
    "fit --budget 5 --budget 5",
    "fit --scales maybe",
    "fit --work 2",
    "fit --budget",
    "",
    "--help",
    "fit --help",
    "fit -h",
    "--version",
    "Fit",
    "fit -- --budget 5",
    "fit -- --",
    "fit --budget=",
    "fit --budget=-5",
    "fit --budget -5",
    "fit --budget --scales",
    "fit --budget -",
    "-",
    "fit --budget=5 --budget 5",
    "fit --budget=5=5",
    "fit --budget 10000001",
    "fit --budget 000000000000000000005",
    "make --number 2147483648",
    "fit --scales=",
    "fit --Budget 5",
    "fit --job strip",
];

#[test]
fn words_that_name_no_job_are_refused(rt: HostRuntime) -> Result<(), Fail> {
    for line in NO_JOBS {
        assert!(rt; job_of(rt.alloc(), line) == REFUSED, "{line}");
    }
    assert!(rt; job_of(rt.alloc(), "fit --") == by_default(Job::Fit));
    Ok(())
}

// What `knapsack` and `strip` with bounds name.
const BOUNDED: [(&str, Job); 8] = [
    ("strip --bounds yes", Job::BoundedStrip { proposals: false }),
    (
        "strip --bounds=yes --proposals yes",
        Job::BoundedStrip { proposals: true },
    ),
    ("strip --bounds no", Job::Strip),
    ("strip --bounds no --facts yes", Job::ReducedStrip),
    ("knapsack --bounds yes", Job::Bounded { proposals: false }),
    (
        "knapsack --bounds=yes --proposals yes",
        Job::Bounded { proposals: true },
    ),
    ("knapsack --bounds no", Job::Knapsack),
    (
        "knapsack --bounds no --proposals yes",
        Job::Proposed(SolvingJob::Knapsack),
    ),
];

#[test]
fn bounds_stand_with_proposals_or_without(rt: HostRuntime) -> Result<(), Fail> {
    for row in &BOUNDED {
        let (line, job) = *row;
        assert!(rt; job_of(rt.alloc(), line) == by_default(job), "{line}");
    }
    Ok(())
}

// Bounds for jobs that take none, beside facts, with a value that is neither `yes` nor `no`, and
// given twice.
const NO_BOUNDS: [&str; 7] = [
    "strip --bounds yes --facts yes",
    "bins --bounds yes",
    "fit --bounds no",
    "check --bounds no",
    "knapsack --bounds yes --facts yes",
    "knapsack --bounds maybe",
    "knapsack --bounds yes --bounds yes",
];

#[test]
fn bounds_that_no_job_takes_are_refused(rt: HostRuntime) -> Result<(), Fail> {
    for line in NO_BOUNDS {
        assert!(rt; job_of(rt.alloc(), line) == REFUSED, "{line}");
    }
    Ok(())
}
