//! The exit status of several things that were done.

ghost use Rattle.std.specs.Prelude.{◌≡◌, ◌≤◌, max, unwrap_or};
ghost use Rattle.sgt_status.specs.Status.{IsUnexpected};

/// The status of two answers: the greater.
pub fn greater(one: u8, other: u8) -> u8
    ensures { result ≡ max one other }
{
    one.max(other)
}

/// The status of what ended with this one, and behind which a write failed with the other, if it failed: a failed write
/// wins.
pub fn behind(status: u8, failed: Option<u8>) -> u8
    ensures { result ≡ unwrap_or failed status }
{
    match failed {
        Some(failed) => failed,
        None => status,
    }
}

/// The status of an audit that ended with this one and says that so many were committed, if it is a yes, where so many
/// were expected: a yes of more or of fewer is a no.
pub fn expected(status: u8, committed: Option<u64>, expected: Option<u64>) -> u8
    ensures unexpected { IsUnexpected status committed expected → result ≡ 1 }
    ensures other { (IsUnexpected status committed expected → ⊥) → result ≡ status }
    ensures bound { status ≤ 4 → result ≤ 4 }
{
    match (committed, expected) {
        (Some(count), Some(wanted)) if status == 0 && count != wanted => 1,
        _ => status,
    }
}
