//! What the input of a replay says.

use sgt_names::Listed;
use sgt_notation::{EventLine, NotationFault, SiteLine};

/// What an input says.
#[derive(Drop)]
pub struct Input {
    /// The sites that the replay starts from, numbered from 0.
    pub sites: Listed<SiteLine>,
    /// What is asked, in order.
    pub events: Listed<EventLine>,
}

/// What an input was read as.
#[derive(Drop)]
pub enum Reading {
    /// It says this.
    Readable(Input),
    /// It says nothing: its first line that can't be read, with its number from 1. The fault is L1 or L2.
    Unreadable { line: u64, fault: NotationFault },
}
