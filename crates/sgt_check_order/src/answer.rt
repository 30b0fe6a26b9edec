//! The answer to an order and a history.

ghost use Rattle.std.specs.Prelude.{◌≡◌, ◌≢◌, ℕ, List, Err, IfOk, IfSome};
ghost use Rattle.json.specs.Json.{Json};
ghost use Rattle.sgt_history.specs.Flaws.{IsFaultless, IsFirstFault};
ghost use Rattle.sgt_history.specs.History.{closed_of};
ghost use Rattle.sgt_history.specs.Serial.{IsOrder};
ghost use Rattle.sgt_history_text.specs.Ids.{AreIds};
ghost use Rattle.sgt_history_text.specs.Reading.{IsReading, IsToldOf};
ghost use Rattle.sgt_history_text.specs.declared.wanted.Wanted.{Wanted};
ghost use Rattle.sgt_check.specs.Text.{aborted_of, committed_of, counts_text};
ghost use Rattle.sgt_check.specs.Told.{IsFaultyTold, spelled};
ghost use Rattle.sgt_check_order.specs.Answer.{IsAnswer, IsJudged};
ghost use Rattle.sgt_check_order.specs.Order.{NameEach, lines_of};
ghost use Rattle.sgt_check_order.specs.Told.{AreRuns, IsNamed, IsTold, kept_of};
ghost use Rattle.sgt_names.specs.declared.outcome.Outcome.TheVariants.{No, Yes};
ghost use Rattle.sgt_devices.specs.Devices.{LeavesReader};

use crate::breaking::first_break;
use crate::order::{Named, read_order};
use crate::texts::{break_lines, stray_line};
use sgt_check::{Naming, push_counts, push_fault, unread_text};
use sgt_check_kept::Setting;
use sgt_history::History;
use sgt_history_faults::{Fault, Judged, judge};
use sgt_history_kept::Asked;
use sgt_history_text::{HistoryText, Ids, Reading};
use sgt_names::{EngineFail, Outcome, Source};
use std::alloc::{AllocError, Global};

/// What is written, and how the exit status tells it.
#[derive(Drop)]
pub struct Answer {
    pub outcome: Outcome,
    pub text: Vec<u8>,
}

/// The answer to a history with a fault.
fn faulty_answer(
    alloc: Global,
    naming: &Naming,
    history: &History,
    fault: Fault,
) -> Result<Answer, AllocError>
    requires { IsFirstFault (closed_of history.now) fault.line fault.flaw fault.place }
    ensures { IfOk result (λ a. (a.outcome ≡ No) × IsFaultyTold naming.now (closed_of history.now) a.text.items) }
{
    let mut text = Vec::new(alloc);
    push_fault(&mut text, naming, history, fault)?;
    Ok(Answer {
        outcome: Outcome::No,
        text,
    })
}

/// The answer where an order serves and keeps what it is to.
fn served_answer(alloc: Global, history: &History) -> Result<Answer, AllocError>
    ensures { IfOk result (λ a. (a.outcome ≡ Yes)
        × (a.text.items ≡ counts_text (committed_of (closed_of history.now)) (aborted_of (closed_of history.now)))) }
{
    let mut text = Vec::new(alloc);
    push_counts(&mut text, history.lines.as_slice())?;
    Ok(Answer {
        outcome: Outcome::Yes,
        text,
    })
}

/// The answer to an order of all committed transactions, of a history without faults.
fn order_answer(
    alloc: Global,
    setting: &Setting,
    history: &History,
    order: &[u32],
) -> Result<Answer, AllocError>
    requires { IsFaultless (closed_of history.now) }
    ensures { IfOk result (λ a. (js : List Json) (bytes : List ℕ) → IsOrder (closed_of history.now) order.now
        → NameEach js (lines_of bytes) order.now
        → AreRuns setting.now.asked.times.items
        → IsJudged bytes js (spelled setting.now.naming) (kept_of setting.now) (closed_of history.now) a.outcome
        a.text.items) }
{
    let told = first_break(alloc, setting, history, order)?;
    match told {
        None => served_answer(alloc, history),
        Some(found) => {
            let text = break_lines(alloc, setting, &found)?;
            Ok(Answer {
                outcome: Outcome::No,
                text,
            })
        }
    }
}

/// The answer to what an order names, of a history without faults.
fn named_answer(
    alloc: Global,
    setting: &Setting,
    history: &History,
    named: Named,
) -> Result<Answer, AllocError>
    requires { IsFaultless (closed_of history.now) }
    ensures { IfOk result (λ a. (js : List Json) (bytes : List ℕ) → IsNamed (closed_of history.now) js bytes named
        → AreRuns setting.now.asked.times.items
        → IsJudged bytes js (spelled setting.now.naming) (kept_of setting.now) (closed_of history.now) a.outcome
        a.text.items) }
{
    match named {
        Named::Each(order) => order_answer(alloc, setting, history, order.as_slice()),
        Named::Stray(number) => {
            let text = stray_line(alloc, number)?;
            Ok(Answer {
                outcome: Outcome::No,
                text,
            })
        }
    }
}

/// The answer to a history whose ids are found so.
fn history_answer<R: Source>(
    alloc: Global,
    reader: &mut R,
    ids: &Ids,
    setting: &Setting,
    history: &History,
) -> Result<Answer, EngineFail>
    ensures answer { IfOk result (λ a. (js : List Json) → AreIds ids.now js → AreRuns setting.now.asked.times.items
        → IfSome (R.tells reader.old)
        (λ lines. IsTold lines js setting.now (closed_of history.now) a.outcome a.text.items)) }
    ensures reader { LeavesReader R.tells R.failures R.asked result reader.old reader.new }
    ensures write_fault { result ≢ Err EngineFail.WriteFault }
{
    let judged = judge(alloc, history)?;
    match judged {
        Judged::Faulty(fault) => {
            let answer = faulty_answer(alloc, &setting.naming, history, fault)?;
            Ok(answer)
        }
        Judged::Faultless(touches) => {
            drop(touches);
            let named = read_order(alloc, reader, ids, history)?;
            let answer = named_answer(alloc, setting, history, named)?;
            Ok(answer)
        }
    }
}

/// The answer to a history that was read.
fn reading_answer<R: Source>(
    alloc: Global,
    reader: &mut R,
    reading: Reading,
) -> Result<Answer, EngineFail>
    ensures answer { IfOk result (λ a. (wanted : Wanted) (bytes : List ℕ) → IsReading wanted bytes reading
        → IfSome (R.tells reader.old) (λ lines. IsAnswer wanted lines bytes a.outcome a.text.items)) }
    ensures reader { LeavesReader R.tells R.failures R.asked result reader.old reader.new }
    ensures write_fault { result ≢ Err EngineFail.WriteFault }
{
    let Reading {
        history,
        ids,
        items,
        values,
        times,
        sessions,
        session_names,
    } = reading;
    let found = Ids::new(alloc, &ids)?;
    let setting = Setting {
        naming: Naming { ids, items, values },
        sessions: session_names,
        asked: Asked { times, sessions },
    };
    history_answer(alloc, reader, &found, &setting, &history)
}

/// The answer to the text of a history, and to the order that the reader gives.
pub(crate) fn answer_against<R: Source>(
    alloc: Global,
    reader: &mut R,
    text: HistoryText,
) -> Result<Answer, EngineFail>
    ensures answer { IfOk result (λ a. (wanted : Wanted) (bytes : List ℕ) → IsToldOf wanted bytes text
        → IfSome (R.tells reader.old) (λ lines. IsAnswer wanted lines bytes a.outcome a.text.items)) }
    ensures reader { LeavesReader R.tells R.failures R.asked result reader.old reader.new }
    ensures write_fault { result ≢ Err EngineFail.WriteFault }
{
    match text {
        HistoryText::Read(reading) => reading_answer(alloc, reader, reading),
        HistoryText::Unreadable { line, fault } => Ok(Answer {
            outcome: Outcome::Unreadable,
            text: unread_text(alloc, line, fault)?,
        }),
    }
}
