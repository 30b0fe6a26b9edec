//! Digits at the front of eight bytes, read at once from one word.

ghost use Rattle.std.specs.Prelude.{◌≡◌, ℕ, ◌-◌, ◌*◌, ◌%◌, ◌^◌, ◌<◌, ◌≤◌, List, take, nat_le};
ghost use Rattle.std.specs.Str.Parse.{digits_value};
ghost use Rattle.std.specs.Float.Numeral.{digits_len};
ghost use Rattle.core.specs.Dec2flt.Digits.{IsEightBytes, IsEightDigits};
ghost use Rattle.core.specs.Int.Digits.{number_from_digits};
ghost use Rattle.core.specs.Slice.Scan.{digits_from, flag_word};
ghost use lib.Lanes.{number_l};

/// The number that eight digits write, the first of them in the lowest byte.
#[inline(always)]
fn value_of_eight(word: u64) -> u64
    ensures { (ds : List ℕ) → IsEightDigits ds → word ≡ number_l 256 ds
        → result ≡ number_from_digits 10 ds }
{
    let pairs = word.wrapping_mul(10).wrapping_add(word >> 8);
    let first = (pairs & 0x0000_00ff_0000_00ff).wrapping_mul(100 + (1_000_000 << 32));
    let second = ((pairs >> 16) & 0x0000_00ff_0000_00ff).wrapping_mul(1 + (10_000 << 32));
    first.wrapping_add(second) >> 32
}

/// The high bit of each byte that is 10 or more. No sum carries into the next byte.
#[inline(always)]
fn flags_from_ten(word: u64) -> u64
    ensures { (byte : ℕ → ℕ) → ((k : ℕ) → byte k < 256) → word ≡ digits_from byte 0 8
        → result ≡ flag_word (λ k. nat_le 10 (byte k)) }
{
    ((word & 0x7f7f_7f7f_7f7f_7f7f) + 0x7676_7676_7676_7676 | word) & 0x8080_8080_8080_8080
}

/// The word with its first `count` bytes moved up to the end.
#[inline(always)]
fn keep_first(word: u64, count: u32) -> u64
    requires { count < 8 }
    ensures { result ≡ word * 256 ^ (8 - count) % 2 ^ 64 }
{
    // two shifts, since a shift by 64 is not defined
    word << (56 - 8 * count) << 8
}

/// How many of the word's bytes are digits from the lowest on, and the number that they write if they are not all
/// digits.
#[inline(always)]
pub(crate) fn up_to_seven(word: u64) -> (usize, u64)
    ensures most { result.0 ≤ 8 }
    ensures read { (xs : List ℕ) → IsEightBytes xs → word ≡ number_l 256 xs → result.0 < 8
        → (result.0 ≡ digits_len xs) × (result.1 ≡ digits_value 10 (take result.0 xs)) }
{
    let lanes = word ^ 0x3030_3030_3030_3030;
    let others = flags_from_ten(lanes);
    if others == 0 {
        return (8, 0);
    }
    let count = others.trailing_zeros() / 8;
    (count as usize, value_of_eight(keep_first(lanes, count)))
}
