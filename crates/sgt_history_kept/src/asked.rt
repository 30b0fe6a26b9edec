//! What is asked of an order besides that it serves.

ghost use Rattle.std.specs.Prelude.{IfOk};
ghost use Rattle.sgt_history_kept.specs.Decided.{IsAskedAlone};

use sgt_history_time::Times;
use std::alloc::{AllocError, Global};

/// What an order is to keep: when transactions ran, and of which session each one is, by line, with an entry for
/// those alone that commit. Sessions are numbered. What isn't asked for is an empty list.
#[derive(Drop)]
pub struct Asked {
    pub times: Vec<Option<Times>>,
    pub sessions: Vec<Option<u32>>,
}

/// The sessions that are asked for, without times.
pub(crate) fn without_times(alloc: Global, asked: &Asked) -> Result<Asked, AllocError>
    ensures { IfOk result (IsAskedAlone asked.now) }
{
    let sessions = Vec::from_slice(alloc, asked.sessions.as_slice())?;
    Ok(Asked {
        times: Vec::new(alloc),
        sessions,
    })
}
