//! A verdict in a sentence.

ghost use Rattle.std.specs.Prelude.{◌≡◌, IfOk, string_bytes};
ghost use Rattle.sgt_page.specs.Verdict.{IsVerdict, fault_text, sentence_of_history, sentence_of_logs};

use crate::verdict::{OfHistory, OfLogs, of_history, of_logs};
use std::alloc::{AllocError, Global};

// For a history of a database.
fn history_sentence(alloc: Global, said: OfHistory<'_>) -> Result<String, AllocError>
    ensures { IfOk result (λ s. string_bytes s ≡ sentence_of_history said.entry) }
{
    match said {
        OfHistory::Serializable(counts) => {
            format!(in alloc; "Yes: the history is serializable, with {counts}.")
        }
        OfHistory::Unread(place) => format!(in alloc; "The history can't be read: {place}."),
        OfHistory::AgainstOrder => {
            String::from_str(
                alloc,
                "No: the order that is given doesn't explain the history.",
            )
        }
        OfHistory::KeptNot(name) => {
            format!(in alloc;
                "No: no order explains the history and keeps what is asked for ({name})."
            )
        }
        OfHistory::Anomalous(name) => {
            format!(in alloc; "No: the history is not serializable ({name}).")
        }
        OfHistory::Other(line) => String::from_str(alloc, line),
    }
}

// For the first line with a fault.
fn fault_sentence(alloc: Global, number: &str, fault: &str) -> Result<String, AllocError>
    ensures { IfOk result (λ s. string_bytes s ≡ fault_text number.now fault.now) }
{
    format!(in alloc; "No: line {number} is the first with a fault, {fault}.")
}

// For a bundle, or for logs.
fn logs_sentence(alloc: Global, said: OfLogs<'_>) -> Result<String, AllocError>
    ensures { IfOk result (λ s. string_bytes s ≡ sentence_of_logs said.entry) }
{
    match said {
        OfLogs::Valid(counts) => format!(in alloc; "Yes: the bundle is valid, with {counts}."),
        OfLogs::Certified(counts) => {
            format!(in alloc; "Yes: a certificate exists for these logs, with {counts}.")
        }
        OfLogs::Faulty(number, fault) => fault_sentence(alloc, number, fault),
        OfLogs::Uncertified(line) => {
            format!(in alloc; "No: there is no certificate for these logs ({line}).")
        }
        OfLogs::Other(line) => String::from_str(alloc, line),
    }
}

/// The verdict of which this is the first line, in a sentence.
pub(crate) fn sentence(alloc: Global, command: &str, first: &str) -> Result<String, AllocError>
    ensures { IfOk result (λ s. IsVerdict command.now first.now (string_bytes s)) }
{
    if command == "check" {
        history_sentence(alloc, of_history(first))
    } else {
        logs_sentence(alloc, of_logs(first))
    }
}
