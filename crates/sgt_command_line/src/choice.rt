//! What the words of the command line ask for.

ghost use Rattle.std.specs.Prelude.{◌≡◌, ◌↔◌, ◌⊎◌, Ok, Err, Some, IfOk, IfErr, IfSome, IsErr, IsTrue, OnErr, map, string_bytes};
ghost use Rattle.sgt_command_line.specs.declared.choice.Choice.{Choice};
ghost use Rattle.sgt_line.specs.declared.name.CommandName.TheVariants as command;
ghost use Rattle.sgt_command_line.specs.Words.{Asks, AsksFor, AsksTalk, BeginsRun, HasText, MayLackMemory, TellsHelp, command_of};

use crate::behind::choice_behind;
use crate::check::CheckWanted;
use crate::help::no_choice;
use crate::options::choose_run;
use sgt_explain::{Asked, Topic};
use sgt_line::{CommandName, behind_first, first_of, named, only_of};
use sgt_names::Tx;
use std::alloc::{AllocError, Global};

/// What the words ask for.
#[derive(Clone, Copy, Debug, PartialEq, Eq)]
pub enum Choice {
    /// Judge a bundle.
    Audit,
    /// The same, with so many sections judged at once.
    AuditWith { workers: u64 },
    /// Judge a bundle, and run it serially where it is valid.
    Serial,
    /// Serve events, and write what is answered and the bundle that they leave.
    Replay,
    /// Make the certificate of logs that have none, or say why there is none.
    Certify,
    /// Judge a bundle or logs without a certificate, and say what the verdict means, and what is asked for besides.
    Explain(Asked),
    /// Say what a rule is.
    Rule(Topic),
    /// Judge a bundle or logs without a certificate, and draw what is valid, or the cycle that says why it isn't.
    Draw,
    /// The same, of this refused transaction's cycle alone, or as Graphviz text.
    DrawWith { tx: Option<Tx>, is_dot: bool },
    /// Judge a history of a database.
    Check(CheckWanted),
    /// Run scripts by so many workers, each of them tried so often at most, and write what became of them and the
    /// bundle.
    Run { workers: u64, tries: u64 },
}

/// Why there is nothing to run. A text is never empty.
#[derive(Drop)]
pub enum NoChoice {
    /// Help was asked for: its text, for standard output.
    Help(String),
    /// The words are no command: the usage text, for the error stream.
    Usage(String),
    /// The same, and a growth was refused while that text was made.
    Bare,
    /// A growth was refused while a run's words were read, or help was written.
    Memory,
}

impl From<AllocError> for NoChoice {
    ghost use Rattle.std.specs.Prelude.{◌≡◌};
    ghost use Rattle.sgt_command_line.specs.declared.choice.NoChoice.TheVariants.{Memory};

    ghost from_gives = { λ _ e. e ≡ Memory };

    fn from(_error: AllocError) -> NoChoice {
        NoChoice::Memory
    }
}

// What the words behind the program's name ask for, if they ask for something. An Err comes of a run's words alone.
fn choice_of(alloc: Global, words: &[String]) -> Result<Option<Choice>, AllocError>
    ensures some { IfOk result (λ found. IfSome found (Asks (map string_bytes words.now))) }
    ensures all { (choice : Choice) → Asks (map string_bytes words.now) choice
        → (result ≡ Ok (Some choice)) ⊎ (IsErr result × (command_of choice ≡ command.Run)) }
    ensures run { OnErr result (BeginsRun (map string_bytes words.now)) }
{
    let Some((word, options)) = first_of(words) else {
        return Ok(Some(Choice::Audit));
    };
    match named(word) {
        Some(CommandName::Run) => choose_run(alloc, words),
        Some(name) => Ok(choice_behind(name, options)),
        None => Ok(None),
    }
}

/// Whether the words ask to serve events, which takes a reader and a writer that know of one another: behind the
/// program's name
/// `serve` stands, alone.
pub fn asks_talk(words: &[String]) -> bool
    ensures { IsTrue result ↔ AsksTalk (map string_bytes words.now) }
{
    match only_of(behind_first(words)) {
        Some(word) => word == "serve",
        None => false,
    }
}

/// What the words ask for; the first word is the program's name. The options of `run` are read by clap, `audit` may
/// have
/// `--workers N` behind it, `explain` a rule's name, `--all` or `--tx N`, `draw` `--tx N` and `--dot`, and `check` `--order`, `--real-time` and `--sessions`;
/// else a command stands alone (`serve` is no choice: see `asks_talk`). Other words are help, where one of them asks
/// for it, or no command.
pub fn choose(alloc: Global, words: &[String]) -> Result<Choice, NoChoice>
    ensures only { IfOk result (AsksFor (map string_bytes words.now)) }
    ensures all { (choice : Choice) → AsksFor (map string_bytes words.now) choice
        → (result ≡ Ok choice)
        ⊎ ((result ≡ Err NoChoice.Memory) × (command_of choice ≡ command.Run)) }
    ensures help { IfErr result (TellsHelp (map string_bytes words.now)) }
    ensures text { IfErr result HasText }
    ensures memory { result ≡ Err NoChoice.Memory → MayLackMemory (map string_bytes words.now) }
{
    match choice_of(alloc, behind_first(words))? {
        Some(choice) => Ok(choice),
        None => Err(no_choice(alloc, words)),
    }
}
