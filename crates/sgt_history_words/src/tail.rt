//! What was read last of a text.

use memchr::{memchr, memrchr};
use std::alloc::Global;

/// The bytes since the start of the line that had begun when the last bytes came, and no more.
#[derive(Drop)]
pub struct Tail {
    bytes: Vec<u8>,
    // how many lines stand in front of them
    lines: u64,
    // whether a growth was refused
    is_lost: bool,
}

// So many bytes are counted at once: their count fits a byte, and many are counted side by side.
const PART: usize = 192;

// How many LFs there are among so few bytes.
fn count_part(bytes: &[u8]) -> u8 {
    let mut count: u8 = 0;
    for byte in bytes {
        count = count.wrapping_add(u8::from(*byte == b'\n'));
    }
    count
}

// How many LFs there are.
fn count(bytes: &[u8]) -> u64 {
    let mut count: u64 = 0;
    for part in bytes.chunks(PART) {
        count = count.saturating_add(u64::from(count_part(part)));
    }
    count
}

// The bytes behind the first LF, if there is one.
fn behind_line(bytes: &[u8]) -> Option<&[u8]> {
    let place = memchr(b'\n', bytes)?;
    bytes.get(place.saturating_add(1)..)
}

impl Tail {
    /// Nothing came.
    pub fn new(alloc: Global) -> Tail {
        Tail {
            bytes: Vec::new(alloc),
            lines: 0,
            is_lost: false,
        }
    }

    // The lines that have ended are given up.
    fn forget(&mut self) {
        let Some(place) = memrchr(b'\n', self.bytes.as_slice()) else {
            return;
        };
        let ended = place.saturating_add(1).min(self.bytes.len());
        self.lines = self
            .lines
            .saturating_add(count(&self.bytes.as_slice()[..ended]));
        let left = self.bytes.len() - ended;
        self.bytes.as_mut_slice().copy_within(ended.., 0);
        self.bytes.truncate(left);
    }

    /// These bytes come next. Where there is no memory for them, no line is found from then on.
    pub fn pass(&mut self, bytes: &[u8]) {
        if self.is_lost {
            return;
        }
        self.forget();
        if self.bytes.extend_from_slice(bytes).is_err() {
            self.is_lost = true;
            self.bytes.clear();
        }
    }

    /// The line of this number, counted from 1, without its LF; as far as it came.
    pub fn line(&self, number: u64) -> Option<&[u8]> {
        if self.is_lost || number <= self.lines {
            return None;
        }
        let mut rest = self.bytes.as_slice();
        for _ in self.lines + 1..number {
            rest = behind_line(rest)?;
        }
        match memchr(b'\n', rest) {
            Some(end) => rest.get(..end),
            None => Some(rest),
        }
    }
}
