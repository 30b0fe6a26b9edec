//! What is said of words that ask for no command: help, or how the commands are used.

ghost use Rattle.std.specs.Prelude.{◌≡◌, ◌<◌, ◌↔◌, ℕ, Any, IfOk, IsSome, IsTrue, List, length, map, string_bytes};
ghost use Rattle.sgt_command_line.specs.Words.{AsksHelp, HasText, IsUsage, NamesHelp, TellsHelp};

use crate::choice::NoChoice;
use crate::commands::{command, listing_line};
use crate::options::lacks_memory;
use clap::error::ErrorKind;
use clap::{Command, Error};
use sgt_line::{CommandName, behind_first, first_of, named, only_of};
use std::alloc::{AllocError, Global};

// What is wrong with words of which clap has nothing to say.
const NO_COMMAND: &str = "the words are no command";

const NO_TX: &str = "transactions are numbered from 1 to 4294967295";

const TOGETHER: &str = "--tx, --all and a rule don't go together";

const NO_RULE: &str =
    "rules are F1 to F19, K1 to K4, E1 to E12, L1 to L3, C1, V1 to V10, P1 to P3, no-order, no-ranks, no-walk, and the names of anomalies, as G1a";

// The text, or this where there is none.
fn some_text(alloc: Global, text: String) -> Result<String, AllocError>
    ensures { IfOk result (λ text. 0 < length (string_bytes text)) }
{
    if text.is_empty() {
        return String::from_str(alloc, "sgt: see --help\n");
    }
    Ok(text)
}

// Whether the word asks for help or for the version.
fn names_help(word: &str) -> bool
    ensures { IsTrue result ↔ NamesHelp word.now }
{
    let is_help = word == "--help" || word == "-h";
    is_help || word == "--version" || word == "-V"
}

// The first of the words that does.
fn help_word(words: &[String]) -> Option<&str>
    ensures { IsSome result ↔ Any NamesHelp (map string_bytes words.now) }
{
    let (word, behind) = first_of(words)?;
    if names_help(word) {
        return Some(word);
    }
    help_word(behind)
}

// The words of the command that these begin with, or of all.
fn line_of<'a>(alloc: Global, words: &[String]) -> Result<Command<'a>, AllocError> {
    if let Some((first, _)) = first_of(words) {
        if let Some(name) = named(first) {
            return listing_line(alloc, name);
        }
    }
    command(alloc)
}

// The help that the word asks for, of the command that these words begin with, or of all.
fn help_text(alloc: Global, words: &[String], word: &str) -> Result<String, AllocError>
    ensures { IfOk result (λ text. 0 < length (string_bytes text)) }
{
    let text = match word {
        "--version" | "-V" => command(alloc)?.render_version()?,
        _ => line_of(alloc, words)?.render_help()?,
    };
    some_text(alloc, text)
}

// The usage text for what clap says against the words.
fn refused(alloc: Global, error: &Error) -> Result<NoChoice, AllocError>
    ensures text { IfOk result HasText }
    ensures usage { IfOk result IsUsage }
{
    if lacks_memory(error) {
        return Err(AllocError);
    }
    let text = some_text(alloc, error.to_string(alloc)?)?;
    Ok(NoChoice::Usage(text))
}

// Whether one of the words asks for a transaction.
fn has_tx(words: &[String]) -> bool {
    for word in words {
        if word.as_str() == "--tx" || word.starts_with("--tx=") {
            return true;
        }
    }
    false
}

// What is wrong with these words behind `explain`.
fn wrong_explain(options: &[String]) -> &'static str {
    if options.len() > 2 {
        return TOGETHER;
    }
    if has_tx(options) {
        return NO_TX;
    }
    match only_of(options) {
        Some(_) => NO_RULE,
        None => NO_COMMAND,
    }
}

// What is wrong with these words behind the program's name, of which clap has nothing to say.
fn wrong_words(words: &[String]) -> &'static str {
    let Some((first, options)) = first_of(words) else {
        return NO_COMMAND;
    };
    match named(first) {
        Some(CommandName::Explain) => wrong_explain(options),
        Some(CommandName::Draw) if has_tx(options) => NO_TX,
        _ => NO_COMMAND,
    }
}

// The usage text for words of which none asks for help. What clap would take here, as `audit --`, is no command.
fn usage(alloc: Global, words: &[String]) -> Result<NoChoice, AllocError>
    ensures text { IfOk result HasText }
    ensures usage { IfOk result IsUsage }
{
    if let Err(error) = command(alloc)?.try_get_matches_from_mut(words) {
        if error.use_stderr() {
            return refused(alloc, &error);
        }
    }
    let behind = behind_first(words);
    let mut line = line_of(alloc, behind)?;
    let error = line.error(ErrorKind::UnknownArgument, wrong_words(behind))?;
    refused(alloc, &error)
}

// The help that the word asks for, if there is memory for it.
fn help(alloc: Global, words: &[String], word: &str) -> NoChoice
    ensures text { HasText result }
    ensures help { (given : List (List ℕ)) → AsksHelp given → TellsHelp given result }
{
    match help_text(alloc, words, word) {
        Ok(text) => NoChoice::Help(text),
        Err(_) => NoChoice::Memory,
    }
}

/// The help or the usage text for words that ask for no command, the program's name first.
pub fn no_choice(alloc: Global, words: &[String]) -> NoChoice
    ensures text { HasText result }
    ensures help { TellsHelp (map string_bytes words.now) result }
    ensures memory { result ≡ NoChoice.Memory → AsksHelp (map string_bytes words.now) }
{
    let behind = behind_first(words);
    match help_word(behind) {
        Some(word) => help(alloc, behind, word),
        None => match usage(alloc, words) {
            Ok(said) => said,
            Err(_) => NoChoice::Bare,
        },
    }
}
