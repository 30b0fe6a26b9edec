//! The names of cycles.

ghost use Rattle.std.specs.Prelude.{◌≡◌};
ghost use Rattle.sgt_history_verdict.specs.Named.{is_read_write, is_write_read, named, named_by, read_writes, write_reads};

use crate::step::Step;
use sgt_history::Conflict;

/// The name that the field gives to a cycle, where no graph with less conflicts has one.
#[derive(Clone, Copy, Debug, PartialEq, Eq)]
pub enum Anomaly {
    /// Of ww alone.
    G0,
    /// Of ww and wr.
    G1c,
    /// With exactly one rw.
    GSingle,
    /// With more.
    G2Item,
}

/// Whether the conflict is a wr.
fn is_wr(kind: Conflict) -> bool
    ensures { result ≡ is_write_read kind }
{
    match kind {
        Conflict::WriteRead => true,
        _ => false,
    }
}

/// Whether the conflict is a rw.
fn is_rw(kind: Conflict) -> bool
    ensures { result ≡ is_read_write kind }
{
    match kind {
        Conflict::ReadWrite => true,
        _ => false,
    }
}

/// How many of the steps are wr.
fn count_wr(steps: &[Step]) -> usize
    ensures { result ≡ write_reads steps.now }
{
    let mut count = 0;
    for step in steps {
        if is_wr(step.kind) {
            count += 1;
        }
    }
    count
}

/// How many of the steps are rw.
fn count_rw(steps: &[Step]) -> usize
    ensures { result ≡ read_writes steps.now }
{
    let mut count = 0;
    for step in steps {
        if is_rw(step.kind) {
            count += 1;
        }
    }
    count
}

/// The name of a cycle by how many of its steps are wr, and rw.
fn anomaly_by(wr: usize, rw: usize) -> Anomaly
    ensures { result ≡ named_by wr rw }
{
    if rw == 0 {
        if wr == 0 { Anomaly::G0 } else { Anomaly::G1c }
    } else if rw == 1 {
        Anomaly::GSingle
    } else {
        Anomaly::G2Item
    }
}

/// The name of a cycle of these steps.
pub fn anomaly_of(steps: &[Step]) -> Anomaly
    ensures { result ≡ named steps.now }
{
    anomaly_by(count_wr(steps), count_rw(steps))
}
