//! A step of a walk that is no conflict of the logs, and what is said of it.

ghost use Rattle.std.specs.Prelude.{◌<◌};

use sgt_bundle::Step;
use sgt_explain_lines::Logged;
use sgt_names::{Kind, Tx};

/// A conflict of a kind that two entries are in.
#[derive(Clone, Copy)]
pub struct Met {
    pub kind: Kind,
    pub first: Logged,
    pub second: Logged,
}

/// A step of the walk of a refused transaction: the number of the decision, the place of the step from 0 and the
/// count of steps, the transaction that it starts from; of the entries of its two transactions those that there are;
/// and the conflict of another kind that the log has there.
#[derive(Clone, Copy)]
pub struct Unmet {
    pub tx: Tx,
    pub number: usize,
    pub place: usize,
    pub count: usize,
    pub from: Tx,
    pub step: Step,
    pub first: Option<Logged>,
    pub second: Option<Logged>,
    pub other: Option<Met>,
    ghost within: { place < count },
}
