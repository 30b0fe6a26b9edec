//! The rule that an answer names.

ghost use Rattle.std.specs.Prelude.{◌≡◌, MatchOption, None, Some, option_map};
ghost use Rattle.sgt_page.specs.Verdict.{rule_of_history, rule_of_logs};
ghost use Rattle.sgt_page.specs.Rule.{IsNamedBelow, IsRuleIn, IsRuleOfFirst, IsRuleOfLogs, NamesNoneBelow};

use crate::cut::{cut_at_line, ends_so, first_word};
use crate::verdict::{OfHistory, OfLogs, of_history, of_logs};

// The anomaly of a history, or what is wrong with a line that can't be read.
fn history_rule(said: OfHistory<'_>) -> Option<&str>
    ensures { option_map (λ r. r.now) result ≡ rule_of_history said.entry }
{
    match said {
        OfHistory::Unread(place) => Some(first_word(place)),
        OfHistory::KeptNot(name) | OfHistory::Anomalous(name) => Some(name),
        OfHistory::Serializable(_) | OfHistory::AgainstOrder | OfHistory::Other(_) => None,
    }
}

// The fault of a line, or why there is no certificate.
fn logs_rule(said: OfLogs<'_>) -> Option<&str>
    ensures { option_map (λ r. r.now) result ≡ rule_of_logs said.entry }
{
    match said {
        OfLogs::Faulty(_, fault) => Some(fault),
        OfLogs::Uncertified(line) => Some(line),
        OfLogs::Valid(_) | OfLogs::Certified(_) | OfLogs::Other(_) => None,
    }
}

// What the answer's last words name: `sgt explain NAME`.
fn named_below(answer: &str) -> Option<&str>
    ensures { MatchOption result (NamesNoneBelow answer.entry.now)
        (λ name. IsNamedBelow answer.entry.now name.now) }
{
    match answer.split_once("\n`sgt explain ") {
        Some((_, behind)) => match behind.split_once('`') {
            Some((name, _)) => Some(name),
            None => None,
        },
        None => None,
    }
}

// What the first line names.
fn rule_of_first(answer: &str) -> Option<&str>
    ensures { IsRuleOfFirst answer.entry.now (option_map (λ r. r.now) result) }
{
    logs_rule(of_logs(cut_at_line(answer).0))
}

// The anomaly that is named below the verdict, and else what the verdict names.
fn rule_in_logs(answer: &str) -> Option<&str>
    ensures { IsRuleOfLogs answer.entry.now (option_map (λ r. r.now) result) }
{
    match named_below(answer) {
        Some(name) => {
            if ends_so(name, "BUNDLE") {
                rule_of_first(answer)
            } else {
                Some(name)
            }
        }
        None => rule_of_first(answer),
    }
}

/// The rule that the answer names, as `sgt explain` takes it.
pub fn rule_in<'a>(command: &str, answer: &'a str) -> Option<&'a str>
    ensures { IsRuleIn command.now answer.entry.now (option_map (λ r. r.now) result) }
{
    if command == "check" {
        history_rule(of_history(cut_at_line(answer).0))
    } else {
        rule_in_logs(answer)
    }
}
