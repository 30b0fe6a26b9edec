//! A line, put together from its end.

ghost use Rattle.std.specs.Prelude.{◌≡◌, ◌+◌, ◌<◌, ◌≤◌, [], ◌∷◌, ◌++◌, codes, decimal, drop, length};
ghost use Rattle.sgt_serial.specs.Text.{place_text, operation_line, final_line};
ghost use Rattle.sgt_serial.specs.private.Written.{with_lf};

use crate::report::SiteValue;
use itoa::write_digits;
use sgt_names::Tx;
use sgt_notation::{LINE_ROOM, put_byte, put_bytes, put_last_number};

/// Puts the site and the item.
#[inline(always)]
fn put_place(line: &mut [u8; LINE_ROOM], at: usize, value: &SiteValue) -> usize
    requires { (19 ≤ at) × (at ≤ 64) }
    ensures start { (at ≤ result + 19) × (result ≤ at) }
    ensures put { drop result line.new ≡ place_text value.now ++ drop at line.old }
{
    let at = put_bytes(line, at, value.item.as_bytes());
    let at = put_byte(line, at, b'.');
    write_digits(u64::from(value.site.number()), line, at)
}

/// Puts a whole line of this letter, of the transaction.
#[inline(always)]
pub fn put_operation(line: &mut [u8; LINE_ROOM], letter: u8, tx: Tx, value: &SiteValue) -> usize
    ensures start { result ≤ 64 }
    ensures put { drop result line.new ≡ with_lf (operation_line (letter ∷ []) tx value.now) }
{
    let at = put_last_number(line, value.value);
    let at = put_bytes(line, at, b"]=");
    let at = put_place(line, at, value);
    let at = put_byte(line, at, b'[');
    let at = write_digits(u64::from(tx.number()), line, at);
    put_byte(line, at, letter)
}

/// Puts a whole line of a transaction's number.
pub fn put_head(line: &mut [u8; LINE_ROOM], tx: Tx) -> usize
    ensures start { result ≤ 64 }
    ensures put { drop result line.new ≡ with_lf (codes "t" ++ decimal tx) }
{
    let at = put_last_number(line, u64::from(tx.number()));
    put_byte(line, at, b't')
}

/// Puts a whole line of a final value.
pub fn put_final(line: &mut [u8; LINE_ROOM], value: &SiteValue) -> usize
    ensures start { result ≤ 64 }
    ensures put { drop result line.new ≡ with_lf (final_line value.now) }
{
    let at = put_last_number(line, value.value);
    let at = put_byte(line, at, b'=');
    let at = put_place(line, at, value);
    put_bytes(line, at, b"final ")
}
