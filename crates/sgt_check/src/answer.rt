//! The answer to a text.

ghost use Rattle.std.specs.Prelude.{◌≡◌, ℕ, List, IfOk};
ghost use Rattle.sgt_check.specs.Answer.{IsAnswer, neither};
ghost use Rattle.sgt_check.specs.Text.{line_fault_text, unreadable_text};
ghost use Rattle.sgt_check.specs.Told.{AreShown, IsCyclicTold, IsFaultyTold, IsTold, yes_text};
ghost use Rattle.sgt_history.specs.Flaws.{IsFirstFault};
ghost use Rattle.sgt_history.specs.History.{closed_of};
ghost use Rattle.sgt_history.specs.Transaction.{Transaction};
ghost use Rattle.sgt_history_faults.specs.Judged.{IsFaultlessBy};
ghost use Rattle.sgt_history_text.specs.Reading.{IsReading, IsToldOf};
ghost use Rattle.sgt_history_verdict.specs.Verdict.{IsCyclic};

use crate::cycle::push_cycle;
use crate::fault::push_fault;
use crate::naming::Naming;
use crate::options::Options;
use crate::ranks::ranks_of;
use crate::yes::{push_counts, push_order};
use sgt_history::{History, Line};
use sgt_history_faults::{Fault, Judged, Touch, judge};
use sgt_history_text::{HistoryText, LineFault, Reading};
use sgt_history_verdict::{Cyclic, Decided, Step, Verdict, decide_judged, steps_of};
use sgt_names::Outcome;
use sgt_notation::push_number;
use std::alloc::{AllocError, Global};

/// What is written, and how the exit status tells it.
#[derive(Drop)]
pub struct Answer {
    pub outcome: Outcome,
    pub text: Vec<u8>,
}

/// The text of the first fault.
pub fn faulty_text(
    alloc: Global,
    naming: &Naming,
    history: &History,
    fault: Fault,
) -> Result<Vec<u8>, AllocError>
    requires { IsFirstFault (closed_of history.now) fault.line fault.flaw fault.place }
    ensures { IfOk result (λ text. IsFaultyTold naming.now (closed_of history.now) text.items) }
{
    let mut text = Vec::new(alloc);
    push_fault(&mut text, naming, history, fault)?;
    Ok(text)
}

/// The steps of a cycle. What they were found by is let go.
fn shown_steps(alloc: Global, naming: &Naming, cyclic: Cyclic) -> Result<Vec<Step>, AllocError>
    requires { (h : List (Transaction ℕ ℕ)) × IsCyclic h cyclic }
    ensures { IfOk result (λ steps. (h : List (Transaction ℕ ℕ)) → IsCyclic h cyclic
        → AreShown naming.now h cyclic.graph steps.items) }
{
    let ranks = ranks_of(alloc, &naming.items)?;
    let steps = steps_of(alloc, &cyclic, ranks.as_slice())?;
    Ok(steps)
}

/// The text of a cycle.
pub fn cyclic_text(alloc: Global, naming: &Naming, cyclic: Cyclic) -> Result<Vec<u8>, AllocError>
    requires { (h : List (Transaction ℕ ℕ)) × IsCyclic h cyclic }
    ensures { IfOk result (λ text. (h : List (Transaction ℕ ℕ)) → IsCyclic h cyclic
        → IsCyclicTold naming.now h text.items) }
{
    let steps = shown_steps(alloc, naming, cyclic)?;
    let mut text = Vec::new(alloc);
    push_cycle(&mut text, naming, steps.as_slice())?;
    Ok(text)
}

/// The text of a yes: how many lines commit and abort, and the order, where it is asked for.
pub fn serial_text(
    alloc: Global,
    naming: &Naming,
    lines: &[Line],
    order: &[u32],
    options: Options,
) -> Result<Vec<u8>, AllocError>
    ensures { IfOk result (λ text. text.items ≡ yes_text options naming.now lines.now order.now) }
{
    let mut text = Vec::new(alloc);
    push_counts(&mut text, lines)?;
    if options.order {
        push_order(&mut text, naming, lines, order)?;
    }
    Ok(text)
}

/// The answer to a history without faults, by its touches.
fn faultless_answer(
    alloc: Global,
    naming: &Naming,
    history: History,
    touches: Vec<Touch>,
    options: Options,
) -> Result<Answer, AllocError>
    requires { IsFaultlessBy (closed_of history) touches.items }
    ensures { IfOk result (λ a. IsTold options naming.now (closed_of history) a.outcome a.text.items) }
{
    let Decided { verdict, lines } = decide_judged(alloc, history, touches)?;
    match verdict {
        Verdict::Serial(order) => Ok(Answer {
            outcome: Outcome::Yes,
            text: serial_text(alloc, naming, lines.as_slice(), order.as_slice(), options)?,
        }),
        Verdict::Faulty(_) => unreachable!(),
        Verdict::Cyclic(cyclic) => Ok(Answer {
            outcome: Outcome::No,
            text: cyclic_text(alloc, naming, cyclic)?,
        }),
    }
}

/// The answer to a history.
fn history_answer(
    alloc: Global,
    naming: &Naming,
    history: History,
    options: Options,
) -> Result<Answer, AllocError>
    ensures { IfOk result (λ a. IsTold options naming.now (closed_of history) a.outcome a.text.items) }
{
    let judged = judge(alloc, &history)?;
    match judged {
        Judged::Faulty(fault) => Ok(Answer {
            outcome: Outcome::No,
            text: faulty_text(alloc, naming, &history, fault)?,
        }),
        Judged::Faultless(touches) => faultless_answer(alloc, naming, history, touches, options),
    }
}

/// The answer to a text that was read.
fn reading_answer(alloc: Global, reading: Reading, options: Options) -> Result<Answer, AllocError>
    ensures { IfOk result (λ a. (bytes : List ℕ) → IsReading neither bytes reading
        → IsAnswer options bytes a.outcome a.text.items) }
{
    let Reading {
        history,
        ids,
        items,
        values,
        times: _,
        sessions: _,
        session_names: _,
    } = reading;
    let naming = Naming { ids, items, values };
    history_answer(alloc, &naming, history, options)
}

/// The front of the line of a fault of reading.
fn fault_word(fault: LineFault) -> &'static [u8]
    ensures { result.now ≡ line_fault_text fault }
{
    match fault {
        LineFault::NotALine => b"! L1 line ",
        LineFault::TooLong => b"! L2 line ",
        LineFault::IdAgain => b"! L3 line ",
    }
}

/// The text of the first line that can't be read.
pub fn unread_text(alloc: Global, line: u64, fault: LineFault) -> Result<Vec<u8>, AllocError>
    ensures { IfOk result (λ text. text.items ≡ unreadable_text line fault) }
{
    let mut text = Vec::from_slice(alloc, fault_word(fault))?;
    push_number(&mut text, line)?;
    text.extend_from_slice(b"\n")?;
    Ok(text)
}

/// The answer to a text.
pub fn answer_to(alloc: Global, text: HistoryText, options: Options) -> Result<Answer, AllocError>
    ensures { IfOk result (λ a. (bytes : List ℕ) → IsToldOf neither bytes text
        → IsAnswer options bytes a.outcome a.text.items) }
{
    match text {
        HistoryText::Read(reading) => reading_answer(alloc, reading, options),
        HistoryText::Unreadable { line, fault } => Ok(Answer {
            outcome: Outcome::Unreadable,
            text: unread_text(alloc, line, fault)?,
        }),
    }
}
