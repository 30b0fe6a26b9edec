//! Logs, read as far as tells what `certify` answers of them.

ghost use Rattle.std.specs.Prelude.{◌≡◌, ◌≢◌, ◌<◌, ◌≤◌, ◌+◌, ◌++◌, ℕ, List, Err, length, take, drop, IfNone, IfOk, IfSome};
ghost use Rattle.std.specs.Io.KnownBytes.{prepend_known};
ghost use Rattle.sgt_names.specs.Limits.{max_line};
ghost use Rattle.sgt_notation.specs.Lines.{IsLongerThan};
ghost use Rattle.sgt_devices.specs.Devices.{LeavesKeptReader};
ghost use Rattle.sgt_certify.specs.Reach.{IsJudgedTo, IsWithinRoom};
ghost use Rattle.sgt_certify_faults.specs.Faults.{IsFirstFault};
ghost use Rattle.sgt_explain_logs.specs.Taken.{AreReadOf, IsCut, StopsSoon};

use sgt_certify::Early;
use sgt_certify_faults::{FirstFault, first_fault};
use sgt_explain::{empty_buffer, take_some};
use sgt_names::{EngineFail, MAX_LINE, MOST_READS, Source};
use sgt_notation::find_lf;
use std::alloc::{AllocError, Global};

/// Logs as far as they were read: all of them, or as much as has a first fault, whatever follows.
#[derive(Drop)]
pub struct Logs {
    pub text: Vec<u8>,
    /// That fault, where one was found.
    pub first: Option<FirstFault>,
}

/// How far a text was cut into lines.
#[derive(Clone, Copy)]
struct Cut {
    /// So many bytes are lines with their LFs, none of them too long.
    lines: usize,
    /// No LF stands behind these lines before this place.
    seen: usize,
}

impl Cut {
    /// Goes on over the lines that are whole now, up to the first one that is too long.
    fn advance(&mut self, text: &[u8])
        requires { IsCut self.old text.now }
        ensures cut { IsCut self.new text.now }
        ensures on { self.old.lines ≤ self.new.lines }
        ensures long { self.new.lines + max_line < length text.now
            → IsLongerThan max_line (drop self.new.lines text.now) }
    {
        'lines: while let Some(n) = find_lf(&text[self.seen..]) {
            let end = self.seen + n;
            if end - self.lines > MAX_LINE {
                return;
            }
            self.lines = end + 1;
            self.seen = end + 1;
        }
        self.seen = text.len();
    }
}

/// The first fault of the text, whatever follows, where one is looked for and found.
fn fault_so_far(
    alloc: Global,
    early: &mut Early,
    cut: Cut,
    text: &[u8],
) -> Result<Option<FirstFault>, AllocError>
    requires cut { IsCut cut text.now }
    requires long { cut.lines + max_line < length text.now
        → IsLongerThan max_line (drop cut.lines text.now) }
    ensures found { IfOk result (λ found. IfSome found (λ first. (more : List ℕ)
        → IsFirstFault (text.now ++ more) first.line first.fault)) }
    ensures judged { (before piece : List ℕ) → take cut.lines text.now ≡ before ++ piece
        → IsJudgedTo before early.old.judged
        → IfOk result (λ found. IfNone found (IsJudgedTo (take cut.lines text.now) early.new.judged)) }
    ensures room { IfOk result
        (λ found. IfNone found (IsWithinRoom early.new.judged cut.lines × (length text.now ≤ cut.lines + max_line))) }
{
    let lines = &text[..cut.lines];
    if let Some(first) = early.look(lines)? {
        return Ok(Some(first));
    }
    if text.len() - cut.lines <= MAX_LINE {
        return Ok(None);
    }
    first_fault(alloc, lines, false)
}

/// Reads logs behind a text that was read before, as `certify` reads them: all, or no further than to a line with a fault
/// that no certificate mends, where that is found before the next read, or into a line that is too long. ReadFault where
/// a read failed or too many were needed (`MOST_READS` of sgt_names); Memory where a growth was refused.
pub fn read_logs<R: Source>(
    alloc: Global,
    reader: &mut R,
    text: Vec<u8>,
) -> Result<Logs, EngineFail>
    ensures read { IfOk result
        (λ logs. IfSome (prepend_known text.items (R.tells reader.old)) (λ bytes. AreReadOf bytes logs)) }
    ensures alone { IfOk result (λ logs. AreReadOf logs.text.items logs) }
    ensures reads { IfOk result (λ _. StopsSoon R.tells R.last text.items reader.old reader.new) }
    ensures reader { LeavesKeptReader R.tells R.failures result reader.old reader.new }
    ensures write_fault { result ≢ Err EngineFail.WriteFault }
{
    let mut buffer = empty_buffer(alloc)?;
    let mut early = Early::new(alloc, reader.flow())?;
    let mut text = text;
    let mut cut = Cut { lines: 0, seen: 0 };
    let mut reads = 0u32;
    'reads: while reads < MOST_READS {
        cut.advance(text.as_slice());
        let found = fault_so_far(alloc, &mut early, cut, text.as_slice())?;
        if let Some(first) = found {
            return Ok(Logs {
                text,
                first: Some(first),
            });
        }
        if take_some(reader, buffer.as_mut_slice(), &mut text)? == 0 {
            return Ok(Logs { text, first: None });
        }
        reads += 1;
    }
    Err(EngineFail::ReadFault)
}
