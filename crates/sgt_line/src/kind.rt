//! What a word is, behind a command.

ghost use Rattle.std.specs.Prelude.{◌≡◌, ◌↔◌, ◌++◌, ℕ, IfNone, IfSome, IsTrue, List};
ghost use Rattle.sgt_line.specs.Kinds.{IsKind, IsNoted, IsOption, IsSwitch, JoinsPlace, TellsLines};
ghost use Rattle.sgt_line.specs.declared.kind.Kind.{Kind};
ghost use Rattle.sgt_line.specs.declared.kind.Kind.TheVariants as kind;

use crate::name::CommandName;
use crate::rule::names_rule;

/// What a word is, behind a command.
#[derive(Clone, Copy, Debug, PartialEq, Eq)]
pub enum Kind {
    /// It is left for the program.
    Plain,
    /// So it is, with the number behind it.
    Numbered,
    /// Such an option and its number in one word.
    Joined,
    /// An option of a place, and the file or folder that is to be written, in one word.
    JoinedPlace,
    /// It is left for the program, which says what the rule is.
    RuleName,
    /// A file to be read.
    File,
    /// Behind it stands a file or a folder to be written.
    Place,
    /// Behind it stands the file of an order.
    Against,
    /// Behind it stands how many transactions are to be committed.
    Expected,
    /// Behind it stands the file of an answer.
    Output,
    /// The status alone is answered.
    Quiet,
    /// A refused event is a no.
    Strict,
    /// The files are the bundles of a chain.
    Chain,
    /// Lines are told as they are read.
    Progress,
    /// Behind a no it is told what to type to learn more.
    Why,
    /// The answer is written as an object of JSON.
    Json,
    /// The answer is written as a page of HTML.
    Page,
    /// Behind it each word is a file.
    Dashes,
}

fn begins(text: &[u8], front: &[u8]) -> bool
    ensures { IsTrue result ↔ ((rest : List ℕ) × (text.now ≡ front.now ++ rest)) }
{
    text.starts_with(front)
}

fn is_rule(command: CommandName, word: &str) -> bool
    ensures { IsTrue result ↔ IsNoted command word.now kind.RuleName }
{
    command == CommandName::Explain && names_rule(word)
}

fn is_file(command: CommandName, word: &str) -> bool
    ensures { IsTrue result ↔ IsNoted command word.now kind.File }
{
    !is_rule(command, word) && (word == "-" || !begins(word.as_bytes(), b"-"))
}

fn is_quiet(command: CommandName, word: &str) -> bool
    ensures { IsTrue result ↔ IsNoted command word.now kind.Quiet }
{
    match command {
        CommandName::Audit | CommandName::Check => word == "-q" || word == "--quiet",
        CommandName::Certify | CommandName::Serial => word == "-q" || word == "--quiet",
        _ => false,
    }
}

fn is_strict(command: CommandName, word: &str) -> bool
    ensures { IsTrue result ↔ IsNoted command word.now kind.Strict }
{
    command == CommandName::Replay && word == "--strict"
}

fn is_chain(command: CommandName, word: &str) -> bool
    ensures { IsTrue result ↔ IsNoted command word.now kind.Chain }
{
    command == CommandName::Audit && word == "--chain"
}

/// Whether the command tells of the lines that it reads, where it is asked to.
pub fn tells_lines(command: CommandName) -> bool
    ensures { IsTrue result ↔ TellsLines command }
{
    match command {
        CommandName::Audit | CommandName::Check => true,
        CommandName::Serial | CommandName::Replay => true,
        CommandName::Certify => true,
        _ => false,
    }
}

fn is_progress(command: CommandName, word: &str) -> bool
    ensures { IsTrue result ↔ IsNoted command word.now kind.Progress }
{
    tells_lines(command) && word == "--progress"
}

fn is_why(command: CommandName, word: &str) -> bool
    ensures { IsTrue result ↔ IsNoted command word.now kind.Why }
{
    command != CommandName::Serve && word == "--why"
}

fn is_json(command: CommandName, word: &str) -> bool
    ensures { IsTrue result ↔ IsNoted command word.now kind.Json }
{
    match command {
        CommandName::Audit | CommandName::Certify => word == "--json",
        CommandName::Explain | CommandName::Check => word == "--json",
        _ => false,
    }
}

fn is_page(command: CommandName, word: &str) -> bool
    ensures { IsTrue result ↔ IsNoted command word.now kind.Page }
{
    (command == CommandName::Explain || command == CommandName::Check) && word == "--html"
}

fn is_place(command: CommandName, word: &str) -> bool
    ensures { IsTrue result ↔ IsNoted command word.now kind.Place }
{
    match command {
        CommandName::Replay | CommandName::Run => word == "--bundle",
        CommandName::Serve => word == "--bundles",
        CommandName::Check => word == "--svg",
        _ => false,
    }
}

fn is_against(command: CommandName, word: &str) -> bool
    ensures { IsTrue result ↔ IsNoted command word.now kind.Against }
{
    command == CommandName::Check && word == "--against"
}

fn is_output(command: CommandName, word: &str) -> bool
    ensures { IsTrue result ↔ IsNoted command word.now kind.Output }
{
    command != CommandName::Serve && (word == "-o" || word == "--output")
}

fn is_expected(command: CommandName, word: &str) -> bool
    ensures { IsTrue result ↔ IsNoted command word.now kind.Expected }
{
    command == CommandName::Audit && word == "--expect-committed"
}

fn takes_number(command: CommandName, word: &str) -> bool
    ensures { IsTrue result ↔ IsNoted command word.now kind.Numbered }
{
    match command {
        CommandName::Audit => word == "--workers",
        CommandName::Run => word == "--workers" || word == "--tries",
        CommandName::Explain | CommandName::Draw => word == "--tx",
        _ => false,
    }
}

fn is_joined(command: CommandName, word: &str) -> bool
    ensures { IsTrue result ↔ IsNoted command word.now kind.Joined }
{
    command == CommandName::Audit && begins(word.as_bytes(), b"--workers=")
}

/// The file or folder in the word, where that is the option of a place.
pub fn place_in(command: CommandName, word: &str) -> Option<&str>
    ensures some { IfSome result (λ file. JoinsPlace command word.now file.now) }
    ensures none { IfNone result ((file : List ℕ) → JoinsPlace command word.now file → ⊥) }
{
    match command {
        CommandName::Replay | CommandName::Run => word.strip_prefix("--bundle="),
        CommandName::Serve => word.strip_prefix("--bundles="),
        CommandName::Check => word.strip_prefix("--svg="),
        _ => None,
    }
}

fn is_joined_place(command: CommandName, word: &str) -> bool
    ensures { IsTrue result ↔ IsNoted command word.now kind.JoinedPlace }
{
    place_in(command, word).is_some()
}

// The kind of an option that takes a word behind it, or has it in itself.
fn option_of(command: CommandName, word: &str) -> Option<Kind>
    ensures some { IfSome result (IsNoted command word.now) }
    ensures none { IfNone result ((noted : Kind) → IsOption noted → IsNoted command word.now noted → ⊥) }
{
    if is_place(command, word) {
        Some(Kind::Place)
    } else if is_against(command, word) {
        Some(Kind::Against)
    } else if is_expected(command, word) {
        Some(Kind::Expected)
    } else if is_output(command, word) {
        Some(Kind::Output)
    } else if takes_number(command, word) {
        Some(Kind::Numbered)
    } else if is_joined(command, word) {
        Some(Kind::Joined)
    } else if is_joined_place(command, word) {
        Some(Kind::JoinedPlace)
    } else {
        None
    }
}

// The kind of a switch.
fn switch_of(command: CommandName, word: &str) -> Option<Kind>
    ensures some { IfSome result (IsNoted command word.now) }
    ensures none { IfNone result ((noted : Kind) → IsSwitch noted → IsNoted command word.now noted → ⊥) }
{
    if is_quiet(command, word) {
        Some(Kind::Quiet)
    } else if is_strict(command, word) {
        Some(Kind::Strict)
    } else if is_chain(command, word) {
        Some(Kind::Chain)
    } else if is_progress(command, word) {
        Some(Kind::Progress)
    } else if is_why(command, word) {
        Some(Kind::Why)
    } else if is_json(command, word) {
        Some(Kind::Json)
    } else if is_page(command, word) {
        Some(Kind::Page)
    } else if word == "--" {
        Some(Kind::Dashes)
    } else {
        None
    }
}

/// What the word is.
pub fn kind_of(command: CommandName, word: &str) -> Kind
    ensures { IsKind command word.now result }
{
    if is_rule(command, word) {
        return Kind::RuleName;
    }
    if is_file(command, word) {
        return Kind::File;
    }
    if let Some(kind) = option_of(command, word) {
        return kind;
    }
    match switch_of(command, word) {
        Some(kind) => kind,
        None => Kind::Plain,
    }
}
