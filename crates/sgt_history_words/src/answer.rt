//! The answer to a history with a line that can't be read.

/// Why a line can't be read.
#[derive(Clone, Copy, Debug, PartialEq, Eq)]
pub enum Unread {
    /// L1: it is no transaction.
    NotALine,
    /// L2: it is too long.
    TooLong,
    /// L3: an earlier line has its id.
    IdAgain,
}

fn unread_of(name: &str) -> Option<Unread> {
    match name {
        "L1" => Some(Unread::NotALine),
        "L2" => Some(Unread::TooLong),
        "L3" => Some(Unread::IdAgain),
        _ => None,
    }
}

/// Which line can't be read, and why, if the bytes begin as such an answer does: `! L1 line 4`.
pub fn answered(bytes: &[u8]) -> Option<(Unread, u64)> {
    let text = std::str::from_utf8(bytes).ok()?;
    let (name, rest) = text.strip_prefix("! ")?.split_once(" line ")?;
    let (digits, _) = rest.split_once('\n')?;
    Some((unread_of(name)?, digits.parse::<u64>().ok()?))
}
