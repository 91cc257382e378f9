// The options of a command, read by the parser of command lines.
ghost use Rattle.std.specs.Prelude.{◌≡◌, ◌≢◌, ◌⊎◌, Bool, List, ℕ, IfOk, map, codes};
ghost use Rattle.std.specs.List.{list_any};
ghost use Rattle.std.specs.Str.{bytes_eq};
ghost use Rattle.clap.specs.Words.{app_of, found_of, first_of, one_of, rows_of, with_rule};
ghost use Rattle.site_words.specs.Commands.{IsFlag, Tells, jobs_app, long_option, options_app, plain_app, settings_app};
ghost use Rattle.site_words.specs.Numbers.{number_in};
ghost use Rattle.site_words.specs.Words.{AnswersOptions, Given, has_jobs, jobs_of, options_in, options_of};

use crate::faults::{UsageKind, WordsError};
use crate::numbers::number_in;
use crate::orders::Options;
use clap::error::ErrorKind;
use clap::{Arg, ArgAction, ArgMatches, Command};
use site_base::Settings;
use std::alloc::{AllocError, Global};

const MOST_JOBS: u64 = 64;

/// Which options a command takes.
#[derive(Clone, Copy)]
pub(crate) enum Takes {
    /// `--drafts` and `--future`.
    Settings,
    /// `--jobs` and `--why` besides.
    Jobs,
}

// The options that words are, where they are nothing else. The error is a fault of the options, or want of memory.
pub(crate) fn read_options<'a>(
    alloc: Global,
    words: &'a [&'a str],
    takes: Takes,
) -> Result<Options, WordsError>
    ensures { AnswersOptions (options_in (has_jobs takes) (map (λ word. word.now) words.entry.now)) result }
{
    // The parser takes `--` for the end of the options.
    if has_dashes(words) {
        return Err(WordsError::Usage(UsageKind::Option));
    }
    let Ok(command) = options_command(alloc, takes) else {
        return Err(WordsError::Memory);
    };
    match command.try_get_matches_from(words) {
        Ok(matches) => options_given(&matches),
        Err(error) => Err(refusal(error.kind())),
    }
}

fn has_dashes(words: &[&str]) -> bool
    ensures { result ≡ list_any (λ word. bytes_eq word (codes "--")) (map (λ word. word.now) words.entry.now) }
{
    words.iter().any(|word| *word == "--")
}

// A command that knows `--drafts` and `--future`.
fn settings_command<'a>(alloc: Global) -> Result<Command<'a>, AllocError>
    ensures { IfOk result (λ command. app_of command ≡ settings_app) }
{
    let with_drafts = with_option(alloc, plain_command(alloc), "drafts", ArgAction::SetTrue)?;
    with_option(alloc, with_drafts, "future", ArgAction::SetTrue)
}

// A command that knows `--jobs N` and `--why` besides.
fn jobs_command<'a>(alloc: Global) -> Result<Command<'a>, AllocError>
    ensures { IfOk result (λ command. app_of command ≡ jobs_app) }
{
    let with_jobs = with_option(alloc, settings_command(alloc)?, "jobs", ArgAction::Set)?;
    with_option(alloc, with_jobs, "why", ArgAction::SetTrue)
}

// A command that knows no option.
fn plain_command<'a>(alloc: Global) -> Command<'a>
    ensures { app_of result ≡ plain_app }
{
    Command::new(alloc, "sitebuild")
        .no_binary_name(true)
        .disable_help_flag(true)
        .disable_version_flag(true)
}

// The command with one more option, of this long name.
fn with_option<'a>(
    alloc: Global,
    command: Command<'a>,
    name: &'a str,
    action: ArgAction,
) -> Result<Command<'a>, AllocError>
    ensures { IfOk result (λ made. app_of made ≡ with_rule (app_of command.entry) (long_option name.entry.now action)) }
{
    command.arg(Arg::new(alloc, name).long(name).action(action))
}

fn options_command<'a>(alloc: Global, takes: Takes) -> Result<Command<'a>, AllocError>
    ensures { IfOk result (λ command. app_of command ≡ options_app (has_jobs takes)) }
{
    match takes {
        Takes::Jobs => jobs_command(alloc),
        Takes::Settings => settings_command(alloc),
    }
}

// Why the parser refused the words.
fn refusal(kind: ErrorKind) -> WordsError
    ensures { (result ≡ WordsError.Memory)
        ⊎ ((result ≡ WordsError.Usage UsageKind.Option) × (kind ≢ ErrorKind.OutOfMemory)) }
{
    match kind {
        ErrorKind::OutOfMemory => WordsError::Memory,
        _ => WordsError::Usage(UsageKind::Option),
    }
}

// The options that the parser found, unless the number of `--jobs` is wrong.
fn options_given(matches: &ArgMatches<'_>) -> Result<Options, WordsError>
    ensures { (given : Given) → Tells (rows_of (found_of matches.now)) given → AnswersOptions (options_of given) result }
{
    let Some(jobs) = jobs_given(matches) else {
        return Err(WordsError::Usage(UsageKind::Option));
    };
    let settings = Settings {
        drafts: is_given(matches, "drafts"),
        future: is_given(matches, "future"),
    };
    let why = is_given(matches, "why");
    Ok(Options {
        jobs,
        settings,
        why,
    })
}

fn jobs_given(matches: &ArgMatches<'_>) -> Option<u32>
    ensures { result ≡ jobs_of (first_of (codes "jobs") (rows_of (found_of matches.now))) }
{
    match matches.get_str("jobs") {
        None => Some(1),
        Some(number) => jobs_in(number),
    }
}

fn jobs_in(number: &str) -> Option<u32>
    ensures { result ≡ number_in 1 64 number.now }
{
    match number_in(number, 1, MOST_JOBS) {
        Some(jobs) => Some(jobs as u32),
        None => None,
    }
}

fn is_given(matches: &ArgMatches<'_>, id: &str) -> bool
    ensures { (b : Bool) → IsFlag (one_of id.now (rows_of (found_of matches.now))) b → result ≡ b }
{
    matches.get_flag(id)
}
