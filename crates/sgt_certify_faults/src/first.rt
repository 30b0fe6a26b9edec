//! The first fault of a text of logs that no certificate mends.

ghost use Rattle.std.specs.Prelude.{◌≡◌, ◌-◌, ◌≤◌, ◌∷◌, ◌++◌, ℕ, List, IsTrue, IfOk, IfErr, IfSome, IfNone};
ghost use Rattle.sgt_notation.specs.Spelling.{HasNoLf};
ghost use Rattle.sgt_bundle.specs.Text.{format_line};
ghost use Rattle.sgt_certify_faults.specs.Faults.{GoesOn, HasNoFaultWithin, IsFaultless, IsFirstFault};
ghost use Rattle.sgt_certify_faults.specs.private.Asked.{AreDecidedAsAsked};
ghost use Rattle.sgt_certify_faults.specs.private.Reading.{HasRead};
ghost use Rattle.sgt_certify_logs.specs.Sound.{SpellsSoundLogs};

use crate::asked::decided_as_asked;
use crate::reading::Reading;
use sgt_audit::{Fault, read_format};
use sgt_audit_decisions::Decided;
use sgt_names::MAX_LINE;
use sgt_notation::split_line;
use std::alloc::{AllocError, Global};

/// The first line of a text with a fault that no certificate mends, and the least of its faults.
#[derive(Clone, Copy, Debug, PartialEq, Eq)]
pub struct FirstFault {
    pub line: usize,
    pub fault: Fault,
}

/// The fault of a text without an LF.
fn fault_of_end(text: &[u8], all: bool) -> Fault
    ensures { HasNoLf text.now → (more : List ℕ) → GoesOn all more
        → IsFirstFault (text.now ++ more) 1 result }
{
    if all && text.len() <= MAX_LINE {
        Fault::Truncated
    } else {
        Fault::Format
    }
}

/// What is left of the lines of a text: what stands behind the last of them, in the line of this number.
#[derive(Drop)]
struct Left<'a> {
    line: usize,
    rest: &'a [u8],
}

/// Reads the lines that stand whole behind the first line, by a decision on each transaction: the first fault, or what is
/// left.
fn read_lines<'a>(
    reading: &mut Reading,
    decided: &Decided,
    second: bool,
    bytes: &'a [u8],
) -> Result<Result<Left<'a>, FirstFault>, AllocError>
    requires asked { AreDecidedAsAsked second bytes.now decided.now.decisions }
    requires read { HasRead second decided.now.decisions bytes.now 0 reading.old bytes.now }
    ensures left { IfOk result (λ r. IfOk r (λ left. HasNoLf left.rest.now × (2 ≤ left.line)
        × HasRead second decided.now.decisions bytes.now (left.line - 2) reading.new left.rest.now)) }
    ensures fault { IfOk result (λ r. IfErr r (λ first. (more : List ℕ)
        → IsFirstFault (format_line second ++ 10 ∷ (bytes.now ++ more)) first.line first.fault)) }
{
    let mut rest = bytes;
    let mut line: usize = 2;
    'lines: while let Some((next, more)) = split_line(rest) {
        if let Some(fault) = reading.next(decided, second, next)? {
            return Ok(Err(FirstFault { line, fault }));
        }
        rest = more;
        line += 1;
    }
    Ok(Ok(Left { line, rest }))
}

/// The first fault behind the first line, by a decision on each transaction.
fn fault_behind(
    alloc: Global,
    decided: &Decided,
    second: bool,
    bytes: &[u8],
    all: bool,
) -> Result<Option<FirstFault>, AllocError>
    requires { AreDecidedAsAsked second bytes.now decided.now.decisions }
    ensures found { IfOk result (λ found. IfSome found (λ first. (more : List ℕ) → GoesOn all more
        → IsFirstFault (format_line second ++ 10 ∷ (bytes.now ++ more)) first.line first.fault)) }
    ensures none { IfOk result
        (λ found. IfNone found (IsTrue all × IsFaultless (format_line second ++ 10 ∷ bytes.now)
        × SpellsSoundLogs (format_line second ++ 10 ∷ bytes.now))) }
{
    let mut reading = Reading::new(alloc, decided)?;
    let Left { line, rest } = match read_lines(&mut reading, decided, second, bytes)? {
        Ok(left) => left,
        Err(first) => return Ok(Some(first)),
    };
    if !all {
        let fault = reading.too_long();
        return Ok(Some(FirstFault { line, fault }));
    }
    match reading.end(rest) {
        Some(fault) => Ok(Some(FirstFault { line, fault })),
        None => Ok(None),
    }
}

/// The first fault of the lines that stand whole in a text of logs, whatever comes behind them; None where no line of
/// them has one. Err: memory ran out.
pub fn fault_within(alloc: Global, text: &[u8]) -> Result<Option<FirstFault>, AllocError>
    ensures found { IfOk result (λ found. IfSome found (λ first. (more : List ℕ)
        → IsFirstFault (text.now ++ more) first.line first.fault)) }
    ensures none { IfOk result (λ found. IfNone found (HasNoFaultWithin text.now)) }
{
    let Some((first, behind)) = split_line(text) else {
        return Ok(None);
    };
    let Some(second) = read_format(first) else {
        return Ok(Some(FirstFault {
            line: 1,
            fault: Fault::Format,
        }));
    };
    let decided = decided_as_asked(alloc, second, behind)?;
    let mut reading = Reading::new(alloc, &decided)?;
    match read_lines(&mut reading, &decided, second, behind)? {
        Ok(_) => Ok(None),
        Err(first) => Ok(Some(first)),
    }
}

/// The first line of a text of logs with a fault that no certificate mends, and the least of its faults; None where
/// no line has one, and so the text spells sound logs. Behind the text comes nothing more, where that is all, else a
/// line that is too long. Err: memory ran out.
pub fn first_fault(alloc: Global, text: &[u8], all: bool) -> Result<Option<FirstFault>, AllocError>
    ensures found { IfOk result (λ found. IfSome found (λ first. (more : List ℕ) → GoesOn all more
        → IsFirstFault (text.now ++ more) first.line first.fault)) }
    ensures none { IfOk result
        (λ found. IfNone found (IsTrue all × IsFaultless text.now × SpellsSoundLogs text.now)) }
{
    let Some((first, behind)) = split_line(text) else {
        let fault = fault_of_end(text, all);
        return Ok(Some(FirstFault { line: 1, fault }));
    };
    let Some(second) = read_format(first) else {
        return Ok(Some(FirstFault {
            line: 1,
            fault: Fault::Format,
        }));
    };
    let decided = decided_as_asked(alloc, second, behind)?;
    fault_behind(alloc, &decided, second, behind, all)
}
