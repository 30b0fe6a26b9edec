//! What stands behind a command's name.

ghost use Rattle.std.specs.Prelude.{◌≡◌, ◌≢◌, ◌↔◌, ◌∷◌, [], ℕ, Bool, Option, Some, IfNone, IfSome, IsTrue, codes, map, string_bytes};
ghost use Rattle.sgt_explain.specs.Topics.{topic_name};
ghost use Rattle.sgt_explain.specs.declared.topics.Topic.{Topic};
ghost use Rattle.sgt_command_line.specs.declared.choice.Choice.{Choice};
ghost use Rattle.sgt_line.specs.declared.name.CommandName.TheVariants as command;
ghost use Rattle.sgt_command_line.specs.Words.{Says, SaysTx, SaysWorkers, TellsPicture, TellsTx, command_of};

use crate::check::check_wanted;
use crate::choice::Choice;
use sgt_explain::{Asked, Topic};
use sgt_line::{CommandName, first_of, last_of, only_of};
use sgt_names::{MAX_WORKERS, Tx};

// The number of workers that the word is.
fn workers_of(word: &str) -> Option<u64>
    ensures some { IfSome result (SaysWorkers word.now) }
    ensures all { (n : ℕ) → SaysWorkers word.now n → result ≡ Some n }
{
    match word.parse::<u64>() {
        Ok(number) if 1 <= number && number <= MAX_WORKERS => Some(number),
        _ => None,
    }
}

// The transaction whose number the word is.
fn tx_of(word: &str) -> Option<Tx>
    ensures some { IfSome result (SaysTx word.now) }
    ensures all { (tx : ℕ) → SaysTx word.now tx → result ≡ Some tx }
{
    match word.parse::<u64>() {
        Ok(number) => Tx::new(number).ok(),
        Err(_) => None,
    }
}

// The transaction that the words tell.
fn tx_told(words: &[String]) -> Option<Tx>
    ensures some { IfSome result (TellsTx (map string_bytes words.now)) }
    ensures all { (tx : ℕ) → TellsTx (map string_bytes words.now) tx → result ≡ Some tx }
{
    let (word, behind) = first_of(words)?;
    if word == "--tx" {
        return tx_of(only_of(behind)?);
    }
    tx_of(only_of(words)?.strip_prefix("--tx=")?)
}

fn is_dot(word: &str) -> bool
    ensures { IsTrue result ↔ (word.now ≡ codes "--dot") }
{
    word == "--dot"
}

// Of which transaction a picture is, if not of all, and whether as Graphviz text.
fn picture_told(options: &[String]) -> Option<(Option<Tx>, bool)>
    ensures some { IfSome result (λ told. TellsPicture (map string_bytes options.now) told.0 told.1) }
    ensures all { (tx : Option ℕ) → (is_dot : Bool)
        → TellsPicture (map string_bytes options.now) tx is_dot → result ≡ Some (tx, is_dot) }
{
    let (first, behind) = first_of(options)?;
    if is_dot(first) {
        if behind.is_empty() {
            return Some((None, true));
        }
        return Some((Some(tx_told(behind)?), true));
    }
    let (before, last) = last_of(options)?;
    if is_dot(last) {
        return Some((Some(tx_told(before)?), true));
    }
    Some((Some(tx_told(options)?), false))
}

// What stands behind `audit`.
fn audit_behind(options: &[String]) -> Option<Choice>
    ensures some { IfSome result (λ choice. (command_of choice ≡ command.Audit)
        × Says (map string_bytes options.now) choice) }
    ensures all { (choice : Choice) → command_of choice ≡ command.Audit
        → Says (map string_bytes options.now) choice → result ≡ Some choice }
{
    let Some((word, behind)) = first_of(options) else {
        return Some(Choice::Audit);
    };
    if word != "--workers" {
        return None;
    }
    let workers = workers_of(only_of(behind)?)?;
    Some(Choice::AuditWith { workers })
}

// The rule that the one word names.
fn rule_told(options: &[String]) -> Option<Topic>
    ensures some { IfSome result
        (λ topic. map string_bytes options.now ≡ topic_name topic ∷ []) }
    ensures none { IfNone result
        ((topic : Topic) → map string_bytes options.now ≢ topic_name topic ∷ []) }
{
    Topic::find(only_of(options)?)
}

// Whether all refused transactions are asked for.
fn asks_all(options: &[String]) -> bool
    ensures { IsTrue result ↔ (map string_bytes options.now ≡ codes "--all" ∷ []) }
{
    match only_of(options) {
        Some(word) => word == "--all",
        None => false,
    }
}

// What stands behind `explain`.
fn explain_behind(options: &[String]) -> Option<Choice>
    ensures some { IfSome result (λ choice. (command_of choice ≡ command.Explain)
        × Says (map string_bytes options.now) choice) }
    ensures all { (choice : Choice) → command_of choice ≡ command.Explain
        → Says (map string_bytes options.now) choice → result ≡ Some choice }
{
    if options.is_empty() {
        return Some(Choice::Explain(Asked::First));
    }
    if asks_all(options) {
        return Some(Choice::Explain(Asked::All));
    }
    match rule_told(options) {
        Some(topic) => Some(Choice::Rule(topic)),
        None => Some(Choice::Explain(Asked::Transaction(tx_told(options)?))),
    }
}

// What stands behind `draw`.
fn draw_behind(options: &[String]) -> Option<Choice>
    ensures some { IfSome result (λ choice. (command_of choice ≡ command.Draw)
        × Says (map string_bytes options.now) choice) }
    ensures all { (choice : Choice) → command_of choice ≡ command.Draw
        → Says (map string_bytes options.now) choice → result ≡ Some choice }
{
    if options.is_empty() {
        return Some(Choice::Draw);
    }
    let (tx, is_dot) = picture_told(options)?;
    Some(Choice::DrawWith { tx, is_dot })
}

// What stands behind `check`.
fn check_behind(options: &[String]) -> Option<Choice>
    ensures some { IfSome result (λ choice. (command_of choice ≡ command.Check)
        × Says (map string_bytes options.now) choice) }
    ensures all { (choice : Choice) → command_of choice ≡ command.Check
        → Says (map string_bytes options.now) choice → result ≡ Some choice }
{
    Some(Choice::Check(check_wanted(options)?))
}

/// What the words behind a command's name ask for; of `run` see `choose_run`.
pub fn choice_behind(name: CommandName, options: &[String]) -> Option<Choice>
    requires { name ≢ command.Run }
    ensures some { IfSome result (λ choice. (command_of choice ≡ name)
        × Says (map string_bytes options.now) choice) }
    ensures all { (choice : Choice) → command_of choice ≡ name
        → Says (map string_bytes options.now) choice → result ≡ Some choice }
{
    let alone = match name {
        CommandName::Audit => return audit_behind(options),
        CommandName::Explain => return explain_behind(options),
        CommandName::Draw => return draw_behind(options),
        CommandName::Check => return check_behind(options),
        CommandName::Serial => Choice::Serial,
        CommandName::Replay => Choice::Replay,
        CommandName::Certify => Choice::Certify,
        CommandName::Serve => return None,
        CommandName::Run => unreachable!(),
    };
    if options.is_empty() {
        return Some(alone);
    }
    None
}
