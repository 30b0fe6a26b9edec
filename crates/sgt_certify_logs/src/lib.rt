//! The logs of sites without a certificate: whether one makes them valid, and what shows that none does.
#![tactic(auto)]

mod checks;
mod laws;
mod logs;

pub use checks::{ConflictStep, EndStep, Spot, is_conflict_cycle, is_end_cycle};
pub use laws::{
    conflicts_in_a_cycle_have_no_certificate, ends_in_a_cycle_have_no_certificate,
    logs_are_bundles_without_a_line, no_bytes_spell_two_logs, steps_show_cycles,
    stuck_logs_have_no_certificate,
};
pub use logs::stands_in;
