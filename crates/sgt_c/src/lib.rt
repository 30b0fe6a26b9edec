//! The auditor, the certificate maker and the check of histories for C: the exports of a static library. `sgt.h`
//! declares them.
#![tactic(auto)]

mod answers;
mod audits;
mod certificates;
mod explanations;
mod histories;
mod serials;
#[cfg(test)]
mod tests;
mod texts;

pub use answers::{
    SGT_LONG, SGT_MEMORY, SGT_NO, SGT_ROOM, SGT_UNREADABLE, SGT_VERSION, SGT_YES, SgtVerdict,
    sgt_version,
};
pub use audits::sgt_audit;
pub use certificates::{sgt_certify, sgt_certify_len};
pub use explanations::{sgt_explain, sgt_explain_len};
pub use histories::{sgt_check, sgt_check_len};
pub use serials::{sgt_serial, sgt_serial_len};
