//! The job of the words of a command line.
ghost use Rattle.std.specs.Prelude.{◌≡◌, None, IfOk, map, string_bytes};
ghost use Rattle.pack_words.specs.Job.{job_of_words, job_of_texts, IsJobAnswer};
ghost use Rattle.pack_words.specs.Said.{plain_found};

use crate::command::matches_for;
use crate::job::{JobWords, WordsError};
use crate::texts::job_in;
use clap::error::ErrorKind;
use std::alloc::Global;

/// The text of the job word, and that of each option that is given.
#[derive(Clone, Copy)]
pub(crate) struct Found<'a> {
    pub job: Option<&'a str>,
    pub workers: Option<&'a str>,
    pub budget: Option<&'a str>,
    pub scales: Option<&'a str>,
    pub number: Option<&'a str>,
    pub proposals: Option<&'a str>,
    pub facts: Option<&'a str>,
    pub bounds: Option<&'a str>,
}

// The texts that the words say, where they are well formed and none stands twice.
fn found_in<'a>(alloc: Global, words: &'a [String]) -> Result<Found<'a>, WordsError>
    ensures refused { result ≡ Err WordsError.Refused
        → job_of_words (map string_bytes words.entry.now) ≡ None }
    ensures ok { IfOk result
        (λ f. job_of_words (map string_bytes words.entry.now) ≡ job_of_texts (plain_found f)) }
{
    match matches_for(alloc, words) {
        Ok(matches) => Ok(Found {
            job: matches.get_str("job"),
            workers: matches.get_str("workers"),
            budget: matches.get_str("budget"),
            scales: matches.get_str("scales"),
            number: matches.get_str("number"),
            proposals: matches.get_str("proposals"),
            facts: matches.get_str("facts"),
            bounds: matches.get_str("bounds"),
        }),
        Err(error) => {
            if error.kind() == ErrorKind::OutOfMemory {
                return Err(WordsError::NoMemory);
            }
            Err(WordsError::Refused)
        }
    }
}

/// The job that the words of a command line name, with its settings and its number. The words don't
/// contain the program's name.
///
/// Up to a word `--`, `--NAME VALUE` and `--NAME=VALUE` are options, with `NAME` one of `workers`,
/// `budget`, `scales`, `number`, `proposals`, `facts` and `bounds`; a value in a word of its own
/// doesn't begin with `-`. Every other word is a job word, of which there must be exactly one:
/// `fit`, `strip`, `bins`, `knapsack`, `check`, `make`, `explain`, `audit`, `reduced` or `front`.
/// Each option stands at most once. `workers` is from 1 to 64, `budget` from 0 to 10,000,000,
/// `scales`, `proposals`, `facts` and `bounds` are `yes` or `no`, and `number` is from 0 to
/// 2,147,483,647. `check`, `explain` and `audit` take no option, `make` alone takes `number`,
/// `fit`, `strip`, `bins` and `knapsack` alone take `proposals`, `strip` alone takes `facts`, and
/// `strip` and `knapsack` alone take `bounds`. `facts` with `yes` allows neither `proposals` nor
/// `bounds` with `yes`; these two may stand together. It answers `Refused` exactly where the words
/// name no job by these rules.
pub fn read_words(alloc: Global, words: &[String]) -> Result<JobWords, WordsError>
    ensures { IsJobAnswer (job_of_words (map string_bytes words.now)) result }
{
    match found_in(alloc, words) {
        Ok(found) => match job_in(found) {
            Some(job) => Ok(job),
            None => Err(WordsError::Refused),
        },
        Err(error) => Err(error),
    }
}
