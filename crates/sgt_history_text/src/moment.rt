//! What a line tells besides its transaction: when this ran, and its session.

ghost use Rattle.std.specs.Prelude.{MatchOption};
ghost use Rattle.json.specs.Json.{Json};
ghost use Rattle.json.specs.Value.{value_view};
ghost use Rattle.sgt_history.specs.Transaction.{renamed_value};
ghost use Rattle.sgt_history_time.specs.declared.times.Times.{Times};
ghost use Rattle.sgt_history_text.specs.Moment.{IsWantedEntry, LacksEntry};
ghost use Rattle.sgt_history_text.specs.Parsed.{AreTimes, IsMoment, IsSession, LacksMoment, seen};

use crate::fault::MOST_ITEM_BYTES;
use crate::values::{is_key, version};
use crate::wanted::Wanted;
use json::Value;
use sgt_history_time::Times;

/// When a transaction ran, and its session, lent; none of what isn't wanted.
#[derive(Drop)]
pub(crate) struct LentMoment<'v, 'a> {
    pub times: Option<Times>,
    pub session: Option<&'v Value<'a>>,
}

/// When the transaction ran.
fn times_of(value: &Value<'_>) -> Option<Times>
    ensures { MatchOption result ((x : Times) → AreTimes (value_view value.now) x
        → ⊥) (AreTimes (value_view value.now)) }
{
    let begin = version(value.get("begin")?)?;
    let done = version(value.get("done")?)?;
    if done < begin {
        return None;
    }
    Some(Times { begin, done })
}

/// Its session.
fn session_of<'v, 'a>(value: &'v Value<'a>) -> Option<&'v Value<'a>>
    ensures { MatchOption result ((s : Json) → IsSession (value_view value.now) s → ⊥)
        (λ s. IsSession (value_view value.now) (seen s)) }
{
    let session = value.get("session")?;
    if is_key(session, 0, MOST_ITEM_BYTES) {
        Some(session)
    } else {
        None
    }
}

/// When the transaction ran, if that is wanted and it commits.
fn wanted_times(wanted: bool, commits: bool, value: &Value<'_>) -> Option<Option<Times>>
    ensures { MatchOption result (LacksEntry (AreTimes (value_view value.now)) wanted commits)
        (IsWantedEntry (AreTimes (value_view value.now)) wanted commits) }
{
    if !wanted {
        return Some(None);
    }
    if !commits {
        return Some(None);
    }
    let times = times_of(value)?;
    Some(Some(times))
}

/// Its session likewise.
fn wanted_session<'v, 'a>(
    wanted: bool,
    commits: bool,
    value: &'v Value<'a>,
) -> Option<Option<&'v Value<'a>>>
    ensures { MatchOption result (LacksEntry (IsSession (value_view value.now)) wanted commits)
        (λ s. IsWantedEntry (IsSession (value_view value.now)) wanted commits (renamed_value seen s)) }
{
    if !wanted {
        return Some(None);
    }
    if !commits {
        return Some(None);
    }
    let session = session_of(value)?;
    Some(Some(session))
}

/// What is wanted of the line, none of what isn't, or of a line that doesn't commit.
pub(crate) fn moment<'v, 'a>(
    wanted: Wanted,
    commits: bool,
    value: &'v Value<'a>,
) -> Option<LentMoment<'v, 'a>>
    ensures { MatchOption result (LacksMoment wanted commits (value_view value.now))
        (IsMoment wanted commits (value_view value.now)) }
{
    let times = wanted_times(wanted.real_time, commits, value)?;
    let session = wanted_session(wanted.sessions, commits, value)?;
    Some(LentMoment { times, session })
}
