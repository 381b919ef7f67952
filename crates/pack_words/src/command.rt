//! The command line of `pack`, as it is declared to `clap`.
ghost use Rattle.std.specs.Prelude.{◌≡◌, IfOk, map, string_bytes, false};
ghost use Rattle.clap.specs.Words.{FailsBy, app_of, fault_of, found_of, matches_of, rows_of, rule_of};
ghost use Rattle.pack_words.specs.Command.{pack_app, bare_app, option_rule, job_rule};

use clap::{Arg, ArgAction, ArgMatches, Command, Error};
use std::alloc::{AllocError, Global};

// `--NAME VALUE` or `--NAME=VALUE`. All values are kept as texts.
fn option_arg<'a>(alloc: Global, name: &'a str) -> Arg<'a>
    ensures rule { rule_of result ≡ option_rule name.entry.now }
    ensures local { result.global ≡ false }
{
    Arg::new(alloc, name).long(name).action(ArgAction::Set)
}

fn job_arg<'a>(alloc: Global) -> Arg<'a>
    ensures rule { rule_of result ≡ job_rule }
    ensures local { result.global ≡ false }
{
    Arg::new(alloc, "job").required(true).action(ArgAction::Set)
}

// A command whose words don't begin with the program's name, and for which `--help` is no option.
fn bare_command<'a>(alloc: Global) -> Command<'a>
    ensures { app_of result ≡ bare_app }
{
    Command::new(alloc, "pack")
        .no_binary_name(true)
        .disable_help_flag(true)
}

fn pack_command<'a>(alloc: Global) -> Result<Command<'a>, AllocError>
    ensures { IfOk result (λ c. app_of c ≡ pack_app) }
{
    bare_command(alloc)
        .arg(option_arg(alloc, "workers"))?
        .arg(option_arg(alloc, "budget"))?
        .arg(option_arg(alloc, "scales"))?
        .arg(option_arg(alloc, "number"))?
        .arg(option_arg(alloc, "proposals"))?
        .arg(option_arg(alloc, "facts"))?
        .arg(option_arg(alloc, "bounds"))?
        .arg(job_arg(alloc))
}

/// What `clap` finds in the words.
pub(crate) fn matches_for<'a>(alloc: Global, words: &'a [String]) -> Result<ArgMatches<'a>, Error>
    ensures fails { FailsBy (fault_of pack_app (map string_bytes words.entry.now)) result }
    ensures rows { IfOk result
        (λ m. rows_of (found_of m) ≡ matches_of pack_app (map string_bytes words.entry.now)) }
{
    pack_command(alloc)?.try_get_matches_from(words)
}
