//! How far a number, a JSON value or a text goes.

ghost use Rattle.std.specs.Prelude.{◌≡◌, ◌≤◌, IfSome, leb, ◌&&◌, length};
ghost use Rattle.sgt_json.specs.Scan.{begins, blanks, digits, end_of, in_string, is_digit, json_end};

/// Whether the text begins so.
pub(crate) fn begins(text: &[u8], front: &[u8]) -> bool
    ensures { result ≡ begins text.now front.now }
{
    text.starts_with(front)
}

fn is_digit(byte: u8) -> bool
    ensures { result ≡ is_digit byte }
{
    48 <= byte && byte <= 57
}

/// How many digits stand at the front.
pub(crate) fn digits(text: &[u8]) -> usize
    ensures is { result ≡ digits text.now }
    ensures within { result ≤ length text.now }
{
    match text.split_first() {
        Some((byte, behind)) if is_digit(*byte) => digits(behind) + 1,
        _ => 0,
    }
}

/// How many blanks stand at the front.
pub(crate) fn blanks(text: &[u8]) -> usize
    ensures is { result ≡ blanks text.now }
    ensures within { result ≤ length text.now }
{
    match text.split_first() {
        Some((byte, behind)) if *byte == b' ' => blanks(behind) + 1,
        _ => 0,
    }
}

// Where a string ends of which this is what stands behind its first quote; behind it, if it doesn't end.
fn in_string(text: &[u8], is_escaped: bool) -> usize
    ensures is { result ≡ in_string is_escaped text.now }
    ensures within { result ≤ length text.now }
{
    let Some((byte, behind)) = text.split_first() else {
        return 0;
    };
    if is_escaped {
        return in_string(behind, false) + 1;
    }
    if *byte == b'"' {
        return 1;
    }
    in_string(behind, *byte == b'\\') + 1
}

/// How far a string or a whole number goes that stands at the front.
pub(crate) fn json_end(text: &[u8]) -> usize
    ensures is { result ≡ json_end text.now }
    ensures within { result ≤ length text.now }
{
    match text.split_first() {
        Some((byte, behind)) if *byte == b'"' => in_string(behind, false) + 1,
        _ => digits(text),
    }
}

/// Where this text ends that stands in the other, the first one.
pub(crate) fn end_of(mark: &[u8], text: &[u8]) -> Option<usize>
    ensures is { result ≡ end_of mark.now text.now }
    ensures within { IfSome result (λ end. (length mark.now ≤ end) × (end ≤ length text.now)) }
{
    let Some((_, behind)) = text.split_first() else {
        return None;
    };
    if begins(text, mark) {
        return Some(mark.len());
    }
    match end_of(mark, behind) {
        Some(end) => Some(end + 1),
        None => None,
    }
}
