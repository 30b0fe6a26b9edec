//! The options of `run`, read by clap.

ghost use Rattle.std.specs.Prelude.{◌≡◌, ◌⊎◌, ◌↔◌, ◌≤◌, ℕ, Ok, Some, IfOk, IfSome, IsErr, IsTrue, false, map, string_bytes};
ghost use Rattle.clap.specs.Words.{app_of, found_of, kind_of, one_text, rule_of};
ghost use Rattle.sgt_command_line.specs.Options.{ReadsNumber, SaysRun, number_rule, run_line};
ghost use Rattle.sgt_command_line.specs.private.Found.{FindsRun};
ghost use Rattle.sgt_command_line.specs.private.Runs.{IsRunOf};

use crate::choice::Choice;
use crate::commands::MORE;
use clap::builder::ValueParser;
use clap::error::ErrorKind;
use clap::{Arg, ArgMatches, Command, Error};
use sgt_names::{MAX_TRIES, MAX_WORKERS};
use std::alloc::{AllocError, Global};

const RUN: &str =
    "Runs scripts by threads, and writes a line for each, audit's line on the run's own bundle, then `---` and the bundle";

const USAGE: &str =
    "sgt run [--workers N] [--tries N] [--why] [--bundle FILE] [-o FILE] [FILE]\n  e.g. sgt run --workers 4 scripts.txt";

/// An option with a number from 1 to `most`.
pub fn number_option<'a>(
    alloc: Global,
    name: &'a str,
    most: u64,
    default: &'a str,
    help: &'a str,
) -> Arg<'a>
    ensures rule { rule_of result ≡ number_rule name.entry.now most default.entry.now }
    ensures own { result.global ≡ false }
{
    Arg::new(alloc, name)
        .long(name)
        .value_name("N")
        .value_parser(ValueParser::unsigned(1, most))
        .default_value(default)
        .help(help)
}

/// The command line of `run`, for its words and for the help.
pub fn run_line<'a>(alloc: Global) -> Result<Command<'a>, AllocError>
    ensures { IfOk result (λ line. app_of line ≡ run_line) }
{
    let workers = number_option(
        alloc,
        "workers",
        MAX_WORKERS,
        "1",
        "How many threads run scripts, from 1 to 16",
    );
    let tries = number_option(
        alloc,
        "tries",
        MAX_TRIES,
        "4",
        "How often a script is tried until it isn't refused, from 1 to 4",
    );
    Command::new(alloc, "run")
        .about(RUN)
        .override_usage(USAGE)
        .after_help(MORE)
        .bin_name("sgt run")?
        .arg(workers)?
        .arg(tries)
}

// The number that clap found for the option, where it is in its range.
fn number_of(matches: &ArgMatches, name: &str, most: u64) -> Option<u64>
    ensures found { IfSome result
        (λ n. ReadsNumber (one_text (found_of matches.now) name.now) n × (1 ≤ n) × (n ≤ most)) }
    ensures all { (n : ℕ) → ReadsNumber (one_text (found_of matches.now) name.now) n → 1 ≤ n
        → n ≤ most → result ≡ Some n }
{
    let number = matches.get_one::<u64>(name)?;
    if 1 <= number && number <= most {
        return Some(number);
    }
    None
}

// The workers and the tries that clap found, where they are in their ranges.
fn numbers_of(matches: &ArgMatches) -> Option<(u64, u64)>
    ensures found { IfSome result (λ n. FindsRun matches.now n.0 n.1) }
    ensures all { (workers tries : ℕ) → FindsRun matches.now workers tries
        → result ≡ Some (workers, tries) }
{
    let workers = number_of(matches, "workers", MAX_WORKERS)?;
    let tries = number_of(matches, "tries", MAX_TRIES)?;
    Some((workers, tries))
}

/// Whether clap's fault is want of memory.
pub fn lacks_memory(error: &Error) -> bool
    ensures { IsTrue result ↔ (kind_of error.now ≡ ErrorKind.OutOfMemory) }
{
    error.kind() == ErrorKind::OutOfMemory
}

/// What `run` and its options ask for; the first word is `run` itself.
pub fn choose_run(alloc: Global, words: &[String]) -> Result<Option<Choice>, AllocError>
    ensures some { IfOk result
        (λ found. IfSome found (IsRunOf (map string_bytes words.now))) }
    ensures all { (workers tries : ℕ) → SaysRun (map string_bytes words.now) workers tries
        → (result ≡ Ok (Some (Choice.Run workers tries))) ⊎ IsErr result }
{
    let mut line = run_line(alloc)?;
    let matches = match line.try_get_matches_from_mut(words) {
        Ok(matches) => matches,
        Err(error) if lacks_memory(&error) => return Err(AllocError),
        Err(_) => return Ok(None),
    };
    match numbers_of(&matches) {
        Some((workers, tries)) => Ok(Some(Choice::Run { workers, tries })),
        None => Ok(None),
    }
}
