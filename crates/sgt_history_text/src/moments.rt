//! What lines tell besides their transactions: when these ran, and their sessions, by line.

ghost use Rattle.std.specs.Prelude.{◌≡◌, ◌∷◌, ◌++◌, [], IfOk, IfSome, List, OnOk, Option, ℕ};
ghost use Rattle.json.specs.Json.{Json};
ghost use Rattle.json.specs.Tree.{HasNumbers};
ghost use Rattle.sgt_history.specs.Transaction.{Transaction, renamed_value};
ghost use Rattle.sgt_history_text.specs.Built.{AreMoments, AreSessions};
ghost use Rattle.sgt_history_text.specs.Moment.{HasSession, HasTimes, IsWantedEntry, with_entry};
ghost use Rattle.sgt_history_text.specs.Parsed.{seen};
ghost use Rattle.sgt_history_text.specs.declared.wanted.Wanted.{Wanted};

use crate::building::number_given;
use crate::moment::LentMoment;
use crate::table::Table;
use crate::wanted::Wanted;
use json::Value;
use sgt_history_time::Times;
use std::alloc::{AllocError, Global};

/// What was read so far of what is wanted.
#[derive(Drop)]
pub(crate) struct Moments {
    pub wanted: Wanted,
    /// By line, where this is wanted.
    pub times: Vec<Option<Times>>,
    /// By line, where this is wanted, numbered.
    pub sessions: Vec<Option<u32>>,
    pub names: Table,
}

/// No line yet.
pub(crate) fn no_moments(alloc: Global, wanted: Wanted) -> Result<Moments, AllocError>
    ensures wanted { IfOk result (λ m. m.wanted ≡ wanted) }
    ensures none { IfOk result (λ m. AreMoments m.wanted m [] []) }
{
    Ok(Moments {
        wanted,
        times: Vec::new(alloc),
        sessions: Vec::new(alloc),
        names: Table::new(alloc)?,
    })
}

/// When one more transaction ran, where that is wanted.
fn add_times(
    wanted: bool,
    times: &mut Vec<Option<Times>>,
    entry: Option<Times>,
) -> Result<(), AllocError>
    ensures { OnOk result (times.new.items ≡ with_entry wanted times.old.items entry) }
{
    if wanted {
        times.push(entry)?;
    }
    Ok(())
}

/// Its session likewise.
fn add_session(
    alloc: Global,
    wanted: bool,
    names: &mut Table,
    sessions: &mut Vec<Option<u32>>,
    entry: Option<&Value<'_>>,
) -> Result<(), AllocError>
    requires { IfSome (renamed_value seen entry) HasNumbers }
    ensures { (entries : List (Option Json)) → AreSessions names.old sessions.old.items entries
        → OnOk result
        (AreSessions names.new sessions.new.items (with_entry wanted entries (renamed_value seen entry.entry))) }
{
    if !wanted {
        return Ok(());
    }
    let number = number_given(alloc, names, entry)?;
    sessions.push(number)?;
    Ok(())
}

/// What one more line tells.
pub(crate) fn add_moment(
    alloc: Global,
    moments: &mut Moments,
    lent: &LentMoment<'_, '_>,
) -> Result<(), AllocError>
    requires { IfSome (renamed_value seen lent.now.session) HasNumbers }
    ensures { (w : Wanted) (lines : List (List ℕ)) (h : List (Transaction Json Json)) (line : List ℕ)
        (t : Transaction Json Json)
        → AreMoments w moments.old lines h
        → IsWantedEntry (HasTimes line) w.real_time t.commits lent.now.times
        → IsWantedEntry (HasSession line) w.sessions t.commits (renamed_value seen lent.now.session)
        → OnOk result (AreMoments w moments.new (lines ++ line ∷ []) (h ++ t ∷ [])) }
{
    add_times(moments.wanted.real_time, &mut moments.times, lent.times)?;
    add_session(
        alloc,
        moments.wanted.sessions,
        &mut moments.names,
        &mut moments.sessions,
        lent.session,
    )
}
