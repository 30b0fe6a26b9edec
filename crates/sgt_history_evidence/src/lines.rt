//! The transactions of a history's lines.

ghost use Rattle.std.specs.Prelude.{◌≡◌, ◌<◌, ◌≤◌, ◌^◌, ℕ, length, take, Some, slice_get};
ghost use Rattle.sgt_history.specs.Cut.{end_of};
ghost use Rattle.sgt_history.specs.Conflicts.{IsOperation};
ghost use Rattle.sgt_history.specs.History.{closed_of};
ghost use Rattle.sgt_history.specs.Transaction.{Transaction};
ghost use Rattle.sgt_history.specs.declared.history.Operation.{Operation};

use sgt_history::{History, Line, Operation};

/// Where the operations of the line begin.
fn begin_of(history: &History, line: usize) -> usize
    requires { line < length history.now.lines.items }
    ensures { result ≡ end_of 0 (take line history.now.lines.items) }
{
    if line == 0 {
        0
    } else {
        history.lines[line - 1].end
    }
}

/// The line, whose operations begin there.
fn line_at(history: &History, line: usize, begin: usize) -> Line
    requires line { line < length history.now.lines.items }
    requires begin { begin ≡ end_of 0 (take line history.now.lines.items) }
    ensures is { slice_get history.now.lines.items line ≡ Some result }
    ensures begin { begin ≤ result.end }
    ensures end { result.end ≤ length history.now.operations.items }
{
    history.lines[line]
}

/// Whether the line's transaction commits, and its operations.
pub fn transaction_of(history: &History, line: usize) -> (bool, &[Operation<u32, u32>])
    requires { line < length history.now.lines.items }
    ensures is { slice_get (closed_of history.now) line
        ≡ Some (record { commits = result.0; operations = result.1.now }) }
    ensures few { length result.1.now < 2 ^ 32 }
{
    let begin = begin_of(history, line);
    let Line { end, commits } = line_at(history, line, begin);
    (commits, &history.operations.as_slice()[begin..end])
}

/// The operation at the place of the line's transaction, which commits.
pub fn operation_at(history: &History, line: u32, place: u32) -> Operation<u32, u32>
    requires { (t : Transaction ℕ ℕ) × (o : Operation ℕ ℕ) × IsOperation (closed_of history.now) line place t o }
    ensures { (t : Transaction ℕ ℕ) (o : Operation ℕ ℕ) → IsOperation (closed_of history.now) line place t o
        → o ≡ result }
{
    let (_, operations) = transaction_of(history, line as usize);
    operations[place as usize]
}
