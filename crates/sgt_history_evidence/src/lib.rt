//! What stands behind a fault of a history: which line wrote the version, or gave another value.
#![tactic(auto)]

mod evidence;
mod laws;
mod lines;
mod values;
mod writers;

pub use evidence::{Evidence, evidence_of};
pub use laws::{
    names_change_no_conflict, names_change_no_cycle, names_change_no_evidence,
    names_change_no_fault,
};
pub use lines::{operation_at, transaction_of};
