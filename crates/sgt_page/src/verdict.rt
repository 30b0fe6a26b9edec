//! What the first line of an answer says.

ghost use Rattle.std.specs.Prelude.{◌≡◌, ◌++◌, ◌↔◌, ℕ, codes, IsTrue, List, MatchOption};
ghost use Rattle.sgt_page.specs.Verdict.{KeepsNotAsked, SaysOfHistory, SaysOfLogs, TellsFault, TellsNoFault};

use crate::cut::{behind, ends_so};

/// What `sgt check` says of a history by its first line.
#[derive(Clone, Copy)]
pub enum OfHistory<'a> {
    /// It is serializable, with these counts.
    Serializable(&'a str),
    /// A line of it can't be read.
    Unread(&'a str),
    /// The order that is given doesn't explain it.
    AgainstOrder,
    /// It is serializable, but no order keeps the sessions or the real time that was asked for: by this name.
    KeptNot(&'a str),
    /// It isn't serializable: by the anomaly of this name.
    Anomalous(&'a str),
    /// Another line.
    Other(&'a str),
}

/// What `sgt explain` says of a bundle, or of logs, by its first line.
#[derive(Clone, Copy)]
pub enum OfLogs<'a> {
    /// The bundle is valid, with these counts.
    Valid(&'a str),
    /// The logs have a certificate, with these counts.
    Certified(&'a str),
    /// The line of this number is the first with a fault, of this name.
    Faulty(&'a str, &'a str),
    /// The logs have no certificate: by this line.
    Uncertified(&'a str),
    /// Another line.
    Other(&'a str),
}

// Whether the name is of a history that is serializable: the sessions or real time alone aren't kept.
fn keeps_not_asked(name: &str) -> bool
    ensures { IsTrue result ↔ KeepsNotAsked name.now }
{
    ends_so(name, "-process") || ends_so(name, "-realtime")
}

// Of a line `no NAME`.
fn denied(name: &str) -> OfHistory<'_>
    ensures { (first : List ℕ) → first ≡ codes "no " ++ name.entry.now → SaysOfHistory first result }
{
    if name == "order" {
        OfHistory::AgainstOrder
    } else if keeps_not_asked(name) {
        OfHistory::KeptNot(name)
    } else {
        OfHistory::Anomalous(name)
    }
}

/// What the first line says of a history.
pub(crate) fn of_history(first: &str) -> OfHistory<'_>
    ensures { SaysOfHistory first.entry.now result }
{
    if let Some(counts) = behind(first, "yes ") {
        return OfHistory::Serializable(counts);
    }
    if let Some(place) = behind(first, "! ") {
        return OfHistory::Unread(place);
    }
    match behind(first, "no ") {
        Some(name) => denied(name),
        None => OfHistory::Other(first),
    }
}

// The number of the line with the first fault, and the fault.
fn fault_in(first: &str) -> Option<(&str, &str)>
    ensures { MatchOption result (TellsNoFault first.entry.now)
        (λ f. TellsFault first.entry.now f.0.now f.1.now) }
{
    match behind(first, "no line ") {
        Some(place) => place.split_once(' '),
        None => None,
    }
}

/// What the first line says of a bundle or of logs.
pub(crate) fn of_logs(first: &str) -> OfLogs<'_>
    ensures { SaysOfLogs first.entry.now result }
{
    if let Some(counts) = behind(first, "yes ") {
        return OfLogs::Valid(counts);
    }
    if let Some(counts) = behind(first, "a certificate exists: ") {
        return OfLogs::Certified(counts);
    }
    if behind(first, "no ").is_none() {
        return OfLogs::Other(first);
    }
    match fault_in(first) {
        Some((number, fault)) => OfLogs::Faulty(number, fault),
        None => OfLogs::Uncertified(first),
    }
}
