//! What a history comes with.

use sgt_check::Naming;
use sgt_history_kept::Asked;
use sgt_history_text::Names;

/// How a history's names are written, also those of its sessions, and what orders are asked to keep.
#[derive(Drop)]
pub struct Setting {
    pub naming: Naming,
    /// The sessions by number.
    pub sessions: Names,
    pub asked: Asked,
}
