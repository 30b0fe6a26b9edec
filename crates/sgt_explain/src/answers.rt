//! What an input is explained by, before it is written.

ghost use Rattle.std.specs.Prelude.{◌≡◌, ◌++◌, [], IfOk, OnOk, string_bytes};
ghost use Rattle.sgt_audit.specs.Verdict.{IsVerdict, text_of};
ghost use Rattle.sgt_explain.specs.Asked.{IsFound, TellsAsked, TellsIfYes};
ghost use Rattle.sgt_explain.specs.Explained.{outcome_of, Tells, MeansOf};

use crate::asked::{Asked, Explained};
use crate::noes::push_no;
use crate::yeses::{push_transaction, push_yes};
use sgt_audit::Verdict;
use sgt_names::Outcome;
use std::alloc::{AllocError, Global};

/// The line of the verdict, and what it means.
#[derive(Drop)]
pub struct Answer {
    pub explained: Explained,
    pub line: String,
    pub meaning: String,
}

/// A text, and whether the transaction that is asked for was found; so is none.
#[derive(Drop)]
struct Said {
    text: String,
    is_found: bool,
}

fn outcome(verdict: Verdict) -> Outcome
    ensures { result ≡ outcome_of verdict }
{
    match verdict {
        Verdict::Yes { .. } => Outcome::Yes,
        Verdict::No { .. } => Outcome::No,
    }
}

/// What the verdict on the bytes means. Of a yes nothing, where one transaction is asked for or none was refused.
fn push_verdict(
    alloc: Global,
    out: &mut String,
    bytes: &[u8],
    verdict: Verdict,
    asked: Asked,
) -> Result<(), AllocError>
    ensures told { OnOk result (Tells bytes.now verdict (string_bytes out.old) (string_bytes out.new)) }
    ensures cycles { OnOk result
        (TellsIfYes bytes.now asked verdict (string_bytes out.old) (string_bytes out.new)) }
{
    match verdict {
        Verdict::No { line, fault } => push_no(alloc, out, bytes, line, fault),
        Verdict::Yes { refused, .. } => push_yes(alloc, out, bytes, refused, asked),
    }
}

/// What the verdict on the bytes means, as a text of its own.
fn told_of(
    alloc: Global,
    bytes: &[u8],
    verdict: Verdict,
    asked: Asked,
) -> Result<String, AllocError>
    ensures told { IfOk result (λ told. Tells bytes.now verdict [] (string_bytes told)) }
    ensures cycles { IfOk result (λ told. TellsIfYes bytes.now asked verdict [] (string_bytes told)) }
{
    let mut told = String::new(alloc);
    push_verdict(alloc, &mut told, bytes, verdict, asked)?;
    Ok(told)
}

/// What is said of the transaction, if one is asked for. Ok: whether the text has it.
fn push_asked(
    alloc: Global,
    out: &mut String,
    bytes: &[u8],
    verdict: Verdict,
    asked: Asked,
) -> Result<bool, AllocError>
    ensures told { OnOk result
        (TellsAsked bytes.now verdict asked (string_bytes out.old) (string_bytes out.new)) }
    ensures found { IfOk result
        (λ found. IsVerdict bytes.now verdict → IsFound bytes.now verdict asked found) }
{
    match asked {
        Asked::Transaction(tx) => push_transaction(alloc, out, bytes, verdict, tx),
        Asked::First | Asked::All => Ok(true),
    }
}

/// The same, as a text of its own.
fn dealings_of(
    alloc: Global,
    bytes: &[u8],
    verdict: Verdict,
    asked: Asked,
) -> Result<Said, AllocError>
    ensures told { IfOk result (λ said. TellsAsked bytes.now verdict asked [] (string_bytes said.text)) }
    ensures found { IfOk result
        (λ said. IsVerdict bytes.now verdict → IsFound bytes.now verdict asked said.is_found) }
{
    let mut text = String::new(alloc);
    let is_found = push_asked(alloc, &mut text, bytes, verdict, asked)?;
    Ok(Said { text, is_found })
}

fn joined(alloc: Global, first: &str, second: &str) -> Result<String, AllocError>
    ensures { IfOk result (λ both. string_bytes both ≡ first.now ++ second.now) }
{
    let mut both = String::new(alloc);
    both.push_str(first)?;
    both.push_str(second)?;
    Ok(both)
}

/// What the verdict on the bytes means, and behind it what is said of the transaction, if one is asked for.
fn meaning_of(
    alloc: Global,
    bytes: &[u8],
    verdict: Verdict,
    asked: Asked,
) -> Result<Said, AllocError>
    ensures means { IfOk result (λ said. MeansOf bytes.now asked verdict (string_bytes said.text)) }
    ensures found { IfOk result
        (λ said. IsVerdict bytes.now verdict → IsFound bytes.now verdict asked said.is_found) }
{
    let told = told_of(alloc, bytes, verdict, asked)?;
    let dealings = dealings_of(alloc, bytes, verdict, asked)?;
    Ok(Said {
        text: joined(alloc, told.as_str(), dealings.text.as_str())?,
        is_found: dealings.is_found,
    })
}

/// The answer to bytes with this verdict.
pub fn answer_to(
    alloc: Global,
    bytes: &[u8],
    verdict: Verdict,
    asked: Asked,
) -> Result<Answer, AllocError>
    ensures outcome { IfOk result (λ answer. answer.explained.outcome ≡ outcome_of verdict) }
    ensures found { IfOk result (λ answer. IsVerdict bytes.now verdict
        → IsFound bytes.now verdict asked answer.explained.is_found) }
    ensures line { IfOk result (λ answer. string_bytes answer.line ≡ text_of verdict) }
    ensures meaning { IfOk result
        (λ answer. MeansOf bytes.now asked verdict (string_bytes answer.meaning)) }
{
    let line = verdict.to_line(alloc)?;
    let meaning = meaning_of(alloc, bytes, verdict, asked)?;
    Ok(Answer {
        explained: Explained {
            outcome: outcome(verdict),
            is_found: meaning.is_found,
        },
        line,
        meaning: meaning.text,
    })
}
