//! The lines that were read, told as they pass.

use crate::streams::Streams;
use sgt_status::Lines;

const MILLION: u64 = 1_000_000;

const SITE: &[u8] = b"site ";

// What stands in front of the next byte of a line.
#[derive(Clone, Copy, PartialEq, Eq)]
enum Place {
    // So many bytes of `site `, and nothing else.
    Word(usize),
    // `site ` and this number.
    Number(u64),
    // Something else.
    Other,
}

impl Place {
    fn behind(self, byte: u8) -> Place {
        match self {
            Place::Word(count) if SITE.get(count) == Some(&byte) => {
                let next = count.saturating_add(1);
                if next == SITE.len() {
                    Place::Number(0)
                } else {
                    Place::Word(next)
                }
            }
            Place::Number(number) if byte.is_ascii_digit() => {
                let digit = u64::from(byte.saturating_sub(b'0'));
                Place::Number(number.saturating_mul(10).saturating_add(digit))
            }
            _ => Place::Other,
        }
    }
}

/// Counts the lines of a text, and tells standard error of each million, with the site whose section they stand in.
#[derive(Drop)]
pub struct Progress<'a, S> {
    streams: &'a S,
    lines: Lines,
    site: Option<u64>,
    place: Place,
}

impl<'a, S: Streams> Progress<'a, S> {
    /// Nothing was read.
    pub(crate) fn new(streams: &'a S) -> Progress<'a, S> {
        Progress {
            streams,
            lines: Lines::new(),
            site: None,
            place: Place::Word(0),
        }
    }

    fn tell(&self) {
        let millions = self.lines.count() / MILLION;
        let (thousands, rest) = (millions / 1_000, millions % 1_000);
        let _ = match (thousands, self.site) {
            (0, None) => eprintln!(self.streams; "sgt: {rest},000,000 lines"),
            (0, Some(site)) => eprintln!(self.streams; "sgt: {rest},000,000 lines, site {site}"),
            (_, None) => eprintln!(self.streams; "sgt: {thousands},{rest:03},000,000 lines"),
            (_, Some(site)) => {
                eprintln!(self.streams; "sgt: {thousands},{rest:03},000,000 lines, site {site}")
            }
        };
    }

    /// These bytes were read.
    pub(crate) fn pass(&mut self, bytes: &[u8]) {
        for byte in bytes {
            self.lines.pass(*byte);
            if *byte != b'\n' {
                self.place = self.place.behind(*byte);
                continue;
            }
            if let Place::Number(site) = self.place {
                self.site = Some(site);
            }
            self.place = Place::Word(0);
            if self.lines.count() % MILLION == 0 {
                self.tell();
            }
        }
    }
}
