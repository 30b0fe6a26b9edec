//! The commands with their words, and the texts of their help.

use crate::options::{number_option, run_line};
use clap::{Arg, ArgAction, Command};
use sgt_line::CommandName;
use sgt_names::MAX_WORKERS;
use std::alloc::{AllocError, Global};

const VERSION: &str = "0.5.0 (bundles: sgt 1, sgt 2)";

const ABOUT: &str =
    "Audits the logs of certified runs, explains and draws them, makes the certificate of logs that have none, replays runs from events, answers events one by one for a service, runs scripts, and judges histories of databases.";

const AUDIT: &str =
    "Writes `yes C committed R refused W withdrawn` for a valid bundle, else `no line L FN` (the default)";

const SERIAL: &str =
    "Runs a valid bundle's committed transactions one after another by rank, else writes audit's `no` line";

const REPLAY: &str =
    "Reads sites and events, and writes a reply to each event, then `---` and the bundle, or `! E8`";

const SERVE: &str =
    "Answers each event at once, for a service in any language, and hands its logs out as bundles: docs/SERVICE.md";

const CERTIFY: &str =
    "Makes the certificate of logs that have none, and writes the bundle, or why there is no certificate";

const EXPLAIN: &str = "Writes audit's line on a bundle, or certify's on logs, and what it means";

const CHECK: &str =
    "Writes `yes C committed A aborted` for a serializable history, else the anomaly with what shows it: docs/HISTORIES.md";

const DRAW: &str =
    "Draws a valid bundle as SVG: transactions by rank, their conflicts, and refused ones with their cycles; of logs the bundle that certify makes, or the cycle that excludes one; else writes the `no` line";

// The usage of each command, with an example. What of it is a file or about files is taken out of the words before.
const AUDIT_USAGE: &str =
    "sgt audit [-q] [--workers N] [--expect-committed N] [--json] [--why] [--progress] [-o FILE] [FILE]...\n       sgt audit --chain [-q] [--expect-committed N] [--json] [--why] [--progress] [-o FILE] FILE...\n  e.g. sgt audit bundle.txt";

const SERIAL_USAGE: &str =
    "sgt serial [-q] [--why] [--progress] [-o FILE] [FILE]\n  e.g. sgt serial bundle.txt";

const REPLAY_USAGE: &str =
    "sgt replay [--strict] [--why] [--progress] [--bundle FILE] [-o FILE] [FILE]\n  e.g. sgt replay --bundle bundle.txt events.txt";

const SERVE_USAGE: &str = "sgt serve [--bundles DIR] [FILE]\n  e.g. sgt serve --bundles bundles";

const CHECK_USAGE: &str =
    "sgt check [--order] [--real-time] [--sessions] [--svg FILE] [-q] [--json | --html] [--why] [--progress] [-o FILE] [FILE]\n       sgt check --against ORDER [--real-time] [--sessions] [-q] [--json | --html] [--why] [-o FILE] [FILE]\n  e.g. sgt check history.jsonl";

const CERTIFY_USAGE: &str =
    "sgt certify [-q] [--json] [--why] [--progress] [-o FILE] [FILE]\n  e.g. sgt certify -o bundle.txt logs.txt";

const EXPLAIN_USAGE: &str =
    "sgt explain [--tx N | --all] [--json | --html] [--why] [-o FILE] [FILE]\n       sgt explain RULE\n  e.g. sgt explain bundle.txt";

const DRAW_USAGE: &str =
    "sgt draw [--tx N] [--dot] [--why] [-o FILE] [FILE]\n  e.g. sgt draw -o bundle.svg bundle.txt";

/// What the help of each command ends with.
pub const MORE: &str =
    "Behind each command a FILE may stand; with none, or -, standard input is read. Where standard error is a terminal, audit, serial, replay, certify and check tell it of each million lines read, as with --progress; and behind a no it is told what to type to learn more, as with --why. sgt COMMAND --help lists all options of a command.

L is the first line with a fault and FN the fault: docs/FORMAT.md has the faults and the formats of a bundle, a replay and scripts.

Exit status:
  0  yes or done, or help was asked for
  1  no: the bundle is not valid, no certificate was made, a history is not serializable, a transaction that explain is asked for is nowhere, a replay ended with a transaction active or refused an event under --strict, a script was not committed, or a fault ended a run
  2  the words are no command and nothing was read, or `! LN line L`: line L of events, scripts or a history is the first that can't be read
  3  want of memory
  4  a read or a write failed";

// A word that a command takes, with its help.
#[derive(Clone, Copy)]
enum Taken {
    // An option without a value.
    Flag(&'static str, &'static str),
    // The same, with a letter.
    Letter(char, &'static str, &'static str),
    // An option with a value, which the help calls by the second name.
    Value(&'static str, &'static str, &'static str),
    // The same, with a letter.
    LetterValue(char, &'static str, &'static str, &'static str),
    // A word alone, at most once.
    Word(&'static str, &'static str),
    // Words alone.
    Words(&'static str, &'static str),
}

const FILE: Taken = Taken::Word("FILE", "Is read in place of standard input");

const WHY: Taken = Taken::Flag(
    "why",
    "Tells standard error behind a no what to type to learn more",
);

const PROGRESS: Taken = Taken::Flag(
    "progress",
    "Tells standard error of each million lines read",
);

const QUIET: Taken = Taken::Letter('q', "quiet", "Answers by the status alone");

const QUIET_EACH: Taken = Taken::Letter(
    'q',
    "quiet",
    "Answers by the status alone; of several files, with a line for each that fails",
);

const OUTPUT: Taken = Taken::LetterValue(
    'o',
    "output",
    "FILE",
    "Writes the answer to this file in place of standard output",
);

const JSON: Taken = Taken::Flag("json", "Writes the answer as an object of JSON");

const JSON_EACH: Taken = Taken::Flag(
    "json",
    "Writes the answer as an object of JSON, a line for each file",
);

const PAGE: Taken = Taken::Flag(
    "html",
    "Writes the answer as a page of HTML, with its picture",
);

const BUNDLE: Taken = Taken::Value(
    "bundle",
    "FILE",
    "Writes the bundle to this file, once all is done",
);

// What stands behind `explain`, `draw` and `check`, and is left for the program.
const EXPLAIN_WORDS: [Taken; 3] = [
    Taken::Word(
        "RULE",
        "Says what F1 to F19, K1 to K4 or C1 is, a reply's E8, L1 or V9, an anomaly as G1a, or no-ranks",
    ),
    Taken::Value(
        "tx",
        "N",
        "Says what transaction N did; status 1 if it is nowhere",
    ),
    Taken::Flag(
        "all",
        "Explains all refused transactions, not the first hundred alone",
    ),
];

const DRAW_WORDS: [Taken; 2] = [
    Taken::Value(
        "tx",
        "N",
        "Draws transaction N alone: a refused one's cycle, a committed one with its neighbours",
    ),
    Taken::Flag("dot", "Writes Graphviz text in place of SVG"),
];

const CHECK_WORDS: [Taken; 3] = [
    Taken::Flag(
        "order",
        "Writes behind a yes `---` and the ids in an order that serves",
    ),
    Taken::Flag(
        "real-time",
        "Asks for an order in which who was done before another began stands before it",
    ),
    Taken::Flag(
        "sessions",
        "Asks for an order in which the transactions of a session stand as they do in the history",
    ),
];

// What is taken out of the words before: of files, and what main alone does.
const AUDIT_TAKEN: [Taken; 8] = [
    Taken::Words(
        "FILE",
        "Are read in place of standard input; of several, a line each",
    ),
    QUIET_EACH,
    Taken::Flag(
        "chain",
        "Takes the files for one system's bundles in a row: each begins where the one before ends",
    ),
    Taken::Value(
        "expect-committed",
        "N",
        "Ends a yes of another number of committed transactions with status 1",
    ),
    JSON_EACH,
    WHY,
    PROGRESS,
    OUTPUT,
];

const SERIAL_TAKEN: [Taken; 5] = [FILE, QUIET, WHY, PROGRESS, OUTPUT];

const REPLAY_TAKEN: [Taken; 6] = [
    FILE,
    Taken::Flag("strict", "Ends with status 1 where an event was refused"),
    WHY,
    PROGRESS,
    BUNDLE,
    OUTPUT,
];

const SERVE_TAKEN: [Taken; 2] = [
    FILE,
    Taken::Value(
        "bundles",
        "DIR",
        "Writes each bundle into this folder, as 00000001.sgt and so on",
    ),
];

const RUN_TAKEN: [Taken; 4] = [FILE, WHY, BUNDLE, OUTPUT];

const CHECK_TAKEN: [Taken; 9] = [
    FILE,
    Taken::Value(
        "against",
        "ORDER",
        "Judges the order in this file, an id a line as --order writes it",
    ),
    Taken::Value(
        "svg",
        "FILE",
        "Draws the circle of a no in this file, as SVG; without a circle it stays as it is",
    ),
    QUIET,
    JSON,
    PAGE,
    WHY,
    PROGRESS,
    OUTPUT,
];

const CERTIFY_TAKEN: [Taken; 6] = [FILE, QUIET, JSON, WHY, PROGRESS, OUTPUT];

const EXPLAIN_TAKEN: [Taken; 5] = [FILE, JSON, PAGE, WHY, OUTPUT];

const DRAW_TAKEN: [Taken; 3] = [FILE, WHY, OUTPUT];

// The word, for clap.
fn arg_of<'a>(alloc: Global, taken: Taken) -> Arg<'a> {
    match taken {
        Taken::Flag(name, help) => flag(alloc, name, help),
        Taken::Letter(letter, name, help) => flag(alloc, name, help).short(letter),
        Taken::Value(name, value, help) => valued(alloc, name, value, help),
        Taken::LetterValue(letter, name, value, help) => {
            valued(alloc, name, value, help).short(letter)
        }
        Taken::Word(name, help) => Arg::new(alloc, name).help(help),
        Taken::Words(name, help) => Arg::new(alloc, name).help(help).action(ArgAction::Append),
    }
}

fn flag<'a>(alloc: Global, name: &'a str, help: &'a str) -> Arg<'a> {
    Arg::new(alloc, name)
        .long(name)
        .action(ArgAction::SetTrue)
        .help(help)
}

fn valued<'a>(alloc: Global, name: &'a str, value: &'a str, help: &'a str) -> Arg<'a> {
    Arg::new(alloc, name)
        .long(name)
        .value_name(value)
        .help(help)
}

// The command, which takes these words too.
fn with_taken<'a>(
    alloc: Global,
    line: Command<'a>,
    taken: &[Taken],
) -> Result<Command<'a>, AllocError> {
    let mut line = line;
    for word in taken {
        line = line.arg(arg_of(alloc, *word))?;
    }
    Ok(line)
}

// A command of this name, which takes these words.
fn line_of<'a>(
    alloc: Global,
    name: &'a str,
    about: &'a str,
    usage: &'a str,
    taken: &[Taken],
) -> Result<Command<'a>, AllocError> {
    let line = Command::new(alloc, name)
        .about(about)
        .override_usage(usage)
        .after_help(MORE);
    with_taken(alloc, line, taken)
}

fn audit_line<'a>(alloc: Global) -> Result<Command<'a>, AllocError> {
    let workers = number_option(
        alloc,
        "workers",
        MAX_WORKERS,
        "1",
        "How many sections are judged at once, from 1 to 16",
    );
    line_of(alloc, "audit", AUDIT, AUDIT_USAGE, &[])?.arg(workers)
}

// The command with the words that are left for the program.
fn own_line<'a>(alloc: Global, name: CommandName) -> Result<Command<'a>, AllocError> {
    match name {
        CommandName::Audit => audit_line(alloc),
        CommandName::Serial => line_of(alloc, "serial", SERIAL, SERIAL_USAGE, &[]),
        CommandName::Replay => line_of(alloc, "replay", REPLAY, REPLAY_USAGE, &[]),
        CommandName::Run => run_line(alloc),
        CommandName::Certify => line_of(alloc, "certify", CERTIFY, CERTIFY_USAGE, &[]),
        CommandName::Explain => line_of(alloc, "explain", EXPLAIN, EXPLAIN_USAGE, &EXPLAIN_WORDS),
        CommandName::Draw => line_of(alloc, "draw", DRAW, DRAW_USAGE, &DRAW_WORDS),
        CommandName::Serve => line_of(alloc, "serve", SERVE, SERVE_USAGE, &[]),
        CommandName::Check => line_of(alloc, "check", CHECK, CHECK_USAGE, &CHECK_WORDS),
    }
}

// In the order in which the help lists them.
const COMMANDS: [CommandName; 9] = [
    CommandName::Audit,
    CommandName::Serial,
    CommandName::Replay,
    CommandName::Serve,
    CommandName::Run,
    CommandName::Certify,
    CommandName::Check,
    CommandName::Explain,
    CommandName::Draw,
];

/// All that is left for the program of the words.
pub fn command<'a>(alloc: Global) -> Result<Command<'a>, AllocError> {
    let mut line = Command::new(alloc, "sgt")
        .about(ABOUT)
        .after_help(MORE)
        .version(VERSION)
        .disable_help_subcommand(true);
    for name in COMMANDS {
        line = line.subcommand(own_line(alloc, name)?)?;
    }
    Ok(line)
}

/// The words of a command with those that are taken out before, for its help.
pub fn listing_line<'a>(alloc: Global, name: CommandName) -> Result<Command<'a>, AllocError> {
    let line = own_line(alloc, name)?;
    match name {
        CommandName::Audit => with_taken(alloc, line, &AUDIT_TAKEN),
        CommandName::Serial => with_taken(alloc, line, &SERIAL_TAKEN),
        CommandName::Replay => with_taken(alloc, line, &REPLAY_TAKEN),
        CommandName::Run => with_taken(alloc, line, &RUN_TAKEN),
        CommandName::Serve => with_taken(alloc, line, &SERVE_TAKEN),
        CommandName::Check => with_taken(alloc, line, &CHECK_TAKEN),
        CommandName::Certify => with_taken(alloc, line, &CERTIFY_TAKEN),
        CommandName::Explain => with_taken(alloc, line, &EXPLAIN_TAKEN),
        CommandName::Draw => with_taken(alloc, line, &DRAW_TAKEN),
    }
}
