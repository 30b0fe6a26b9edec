//! The answer to a text, where orders are to keep something.

ghost use Rattle.std.specs.Prelude.{◌≡◌, ◌≤◌, ◌^◌, ℕ, List, IfOk};
ghost use Rattle.sgt_check.specs.Told.{IsCyclicTold};
ghost use Rattle.sgt_check_kept.specs.Answer.{IsKeptAnswer};
ghost use Rattle.sgt_check_kept.specs.Told.{AreAsked, AreLinked, IsKeptTold, IsLinksTold};
ghost use Rattle.sgt_history.specs.Conflicts.{HasCycle, IsCycle};
ghost use Rattle.sgt_history.specs.History.{closed_of};
ghost use Rattle.sgt_history.specs.Transaction.{Transaction};
ghost use Rattle.sgt_history.specs.declared.named.Graph.TheVariants.{Whole};
ghost use Rattle.sgt_history_faults.specs.Judged.{IsFaultlessBy};
ghost use Rattle.sgt_history_kept.specs.Sooner.{IsCycleKeeping};
ghost use Rattle.sgt_history_text.specs.Reading.{IsReading, IsToldOf};
ghost use Rattle.sgt_history_text.specs.declared.wanted.Wanted.{Wanted};
ghost use Rattle.sgt_history_time.specs.Steps.{StandsBefore};
ghost use Rattle.sgt_history_verdict.specs.Decided.{IsDecidedFrom};
ghost use Rattle.sgt_names.specs.declared.outcome.Outcome.TheVariants.{No};

use crate::deciding::{Decision, decided};
use crate::link::Link;
use crate::links::links_along;
use crate::setting::Setting;
use crate::text::cycle_text;
use sgt_check::{
    Answer, Naming, Options, cyclic_text, faulty_text, ranks_of, serial_text, unread_text,
};
use sgt_history::History;
use sgt_history_conflicts::pairs_of;
use sgt_history_faults::{Judged, Touch, judge};
use sgt_history_kept::Asked;
use sgt_history_text::{HistoryText, Reading};
use sgt_history_verdict::{Verdict, conflicts_along, decide_faultless};
use sgt_names::Outcome;
use std::alloc::{AllocError, Global};

/// The answer to so many lines whose conflicts alone form a cycle, by their touches.
fn conflicts_answer(
    alloc: Global,
    naming: &Naming,
    lines: usize,
    touches: Vec<Touch>,
) -> Result<Answer, AllocError>
    requires few { lines ≤ 2 ^ 32 }
    requires from { (h : List (Transaction ℕ ℕ)) × IsDecidedFrom h lines touches.items × HasCycle h Whole }
    ensures { IfOk result (λ a. (a.outcome ≡ No) × ((h : List (Transaction ℕ ℕ)) → IsDecidedFrom h lines touches.items
        → IsCyclicTold naming.now h a.text.items)) }
{
    match decide_faultless(alloc, lines, touches)? {
        Verdict::Serial(_) => unreachable!(),
        Verdict::Faulty(_) => unreachable!(),
        Verdict::Cyclic(cyclic) => Ok(Answer {
            outcome: Outcome::No,
            text: cyclic_text(alloc, naming, cyclic)?,
        }),
    }
}

/// The steps of a cycle of these lines.
fn links_of(
    alloc: Global,
    setting: &Setting,
    touches: &[Touch],
    cycle: &[u32],
) -> Result<Vec<Link>, AllocError>
    ensures { IfOk result (λ links. (h : List (Transaction ℕ ℕ)) → IsFaultlessBy h touches.now
        → IsCycle (StandsBefore h setting.now.asked.times.items setting.now.asked.sessions.items) cycle.now
        → AreLinked setting.now.naming.items h setting.now.asked cycle.now links.items) }
{
    let ranks = ranks_of(alloc, &setting.naming.items)?;
    let pairs = pairs_of(alloc, touches)?;
    let conflicts = conflicts_along(alloc, touches, &pairs, ranks.as_slice(), cycle)?;
    links_along(alloc, &setting.asked, conflicts.as_slice(), cycle)
}

/// The text of a cycle of these lines.
fn links_text(
    alloc: Global,
    setting: &Setting,
    touches: &[Touch],
    cycle: &[u32],
) -> Result<Vec<u8>, AllocError>
    ensures { IfOk result (λ text. (h : List (Transaction ℕ ℕ)) → IsFaultlessBy h touches.now → (HasCycle h Whole → ⊥)
        → IsCycleKeeping h setting.now.asked.times.items setting.now.asked.sessions.items cycle.now
        → IsLinksTold setting.now h text.items) }
{
    let links = links_of(alloc, setting, touches, cycle)?;
    cycle_text(alloc, setting, links.as_slice())
}

/// The answer to a history without faults, by its touches.
fn faultless_answer(
    alloc: Global,
    setting: &Setting,
    history: History,
    touches: Vec<Touch>,
    options: Options,
) -> Result<Answer, AllocError>
    requires { IsFaultlessBy (closed_of history) touches.items }
    ensures { IfOk result (λ a. AreAsked (closed_of history) setting.now.asked
        → IsKeptTold options setting.now (closed_of history) a.outcome a.text.items) }
{
    let History { operations, lines } = history;
    drop(operations);
    match decided(alloc, &setting.asked, lines.len(), touches.as_slice())? {
        Decision::Serial(order) => Ok(Answer {
            outcome: Outcome::Yes,
            text: serial_text(
                alloc,
                &setting.naming,
                lines.as_slice(),
                order.as_slice(),
                options,
            )?,
        }),
        Decision::Conflicting => conflicts_answer(alloc, &setting.naming, lines.len(), touches),
        Decision::Cyclic(cycle) => Ok(Answer {
            outcome: Outcome::No,
            text: links_text(alloc, setting, touches.as_slice(), cycle.as_slice())?,
        }),
    }
}

/// The answer to a history.
fn history_answer(
    alloc: Global,
    setting: &Setting,
    history: History,
    options: Options,
) -> Result<Answer, AllocError>
    ensures { IfOk result (λ a. AreAsked (closed_of history) setting.now.asked
        → IsKeptTold options setting.now (closed_of history) a.outcome a.text.items) }
{
    let judged = judge(alloc, &history)?;
    match judged {
        Judged::Faulty(fault) => Ok(Answer {
            outcome: Outcome::No,
            text: faulty_text(alloc, &setting.naming, &history, fault)?,
        }),
        Judged::Faultless(touches) => faultless_answer(alloc, setting, history, touches, options),
    }
}

/// The answer to a text that was read.
fn reading_answer(alloc: Global, reading: Reading, options: Options) -> Result<Answer, AllocError>
    ensures { IfOk result (λ a. (wanted : Wanted) (bytes : List ℕ) → IsReading wanted bytes reading
        → IsKeptAnswer wanted options bytes a.outcome a.text.items) }
{
    let Reading {
        history,
        ids,
        items,
        values,
        times,
        sessions,
        session_names,
    } = reading;
    let setting = Setting {
        naming: Naming { ids, items, values },
        sessions: session_names,
        asked: Asked { times, sessions },
    };
    history_answer(alloc, &setting, history, options)
}

/// The answer to a text.
pub(crate) fn answer_to(
    alloc: Global,
    text: HistoryText,
    options: Options,
) -> Result<Answer, AllocError>
    ensures { IfOk result (λ a. (wanted : Wanted) (bytes : List ℕ) → IsToldOf wanted bytes text
        → IsKeptAnswer wanted options bytes a.outcome a.text.items) }
{
    match text {
        HistoryText::Read(reading) => reading_answer(alloc, reading, options),
        HistoryText::Unreadable { line, fault } => Ok(Answer {
            outcome: Outcome::Unreadable,
            text: unread_text(alloc, line, fault)?,
        }),
    }
}
