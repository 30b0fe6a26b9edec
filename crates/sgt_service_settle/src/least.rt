//! The least of some numbers.

ghost use Rattle.std.specs.Prelude.{◌≡◌};
ghost use Rattle.sgt_service_settle.specs.private.Words.{lesser};

/// The lesser, where there is a first.
pub(crate) fn lesser(least: Option<u64>, number: u64) -> u64
    ensures { result ≡ lesser least number }
{
    match least {
        Some(least) if least < number => least,
        _ => number,
    }
}
