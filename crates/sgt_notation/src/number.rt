//! Numbers, each in its one spelling: digits with no leading zero and no sign.

ghost use Rattle.std.specs.Prelude.{◌≡◌, IfSome, decimal};
ghost use Rattle.sgt_notation.specs.Reading.{Finds};
ghost use Rattle.sgt_notation.specs.Spelling.{IsSite, IsTx, IsValue};

use core::dec2flt::read_digits;
use fast_float::parse_u64;
use sgt_names::{SiteNo, Tx, Value};

/// A number of up to nineteen digits.
#[inline(always)]
fn short_value(bytes: &[u8]) -> Option<Value>
    ensures { IfSome result (λ value. IsValue value × (bytes.now ≡ decimal value)) }
{
    let (n, value) = read_digits(bytes, 0, 0);
    if n == 0 || n > 19 || n < bytes.len() || (n > 1 && bytes[0] == b'0') {
        return None;
    }
    Some(value)
}

/// A whole number below 2^64.
pub(crate) fn find_value(bytes: &[u8]) -> Option<Value>
    ensures { Finds IsValue decimal bytes.now result }
{
    if let Some(value) = short_value(bytes) {
        return Some(value);
    }
    if bytes.is_empty() {
        return None;
    }
    let first = bytes[0];
    if first == b'+' {
        return None;
    }
    if first == b'0' {
        return if bytes.len() == 1 { Some(0) } else { None };
    }
    parse_u64(bytes).ok()
}

/// The number of a transaction.
pub(crate) fn find_tx(bytes: &[u8]) -> Option<Tx>
    ensures { Finds IsTx decimal bytes.now result }
{
    let number = find_value(bytes)?;
    Tx::new(number).ok()
}

/// The number of a site.
pub(crate) fn find_site(bytes: &[u8]) -> Option<SiteNo>
    ensures { Finds IsSite decimal bytes.now result }
{
    let number = find_value(bytes)?;
    SiteNo::new(number).ok()
}
