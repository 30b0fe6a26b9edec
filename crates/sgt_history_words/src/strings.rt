//! Why a string isn't one.

// What stands in front of the next byte of a string.
#[derive(Clone, Copy, PartialEq, Eq)]
enum Step {
    Plain,
    Slash,
    // So many digits of a unit, and their number.
    Unit(u8, u16),
}

// A place in a string, and where its last escape began; whether the first half of a pair stands in front.
#[derive(Clone, Copy)]
struct Scan {
    step: Step,
    escape: usize,
    half: Option<usize>,
}

/// Why no string stands there, and at which byte of it.
#[derive(Clone, Copy, Debug, PartialEq, Eq)]
pub(crate) enum Broken {
    NoEnd,
    Control(usize),
    Escape(usize),
    Half(usize),
}

enum Moved {
    On(Scan),
    Ended,
    Stopped(Broken),
}

fn digit_of(byte: u8) -> Option<u16> {
    match byte {
        b'0'..=b'9' => Some(u16::from(byte - b'0')),
        b'a'..=b'f' => Some(u16::from(byte - b'a') + 10),
        b'A'..=b'F' => Some(u16::from(byte - b'A') + 10),
        _ => None,
    }
}

impl Scan {
    // A plain byte, or one that begins or ends something.
    fn plain(self, place: usize, byte: u8) -> Moved {
        if byte == b'\\' {
            return Moved::On(Scan {
                step: Step::Slash,
                escape: place,
                half: self.half,
            });
        }
        if let Some(half) = self.half {
            return Moved::Stopped(Broken::Half(half));
        }
        match byte {
            b'"' => Moved::Ended,
            0..=31 => Moved::Stopped(Broken::Control(place)),
            _ => Moved::On(self),
        }
    }

    // The byte behind a backslash.
    fn slash(self, byte: u8) -> Moved {
        let step = match byte {
            b'u' => Step::Unit(0, 0),
            b'"' | b'\\' | b'/' | b'b' | b'f' | b'n' | b'r' | b't' => Step::Plain,
            _ => return Moved::Stopped(Broken::Escape(self.escape)),
        };
        match self.half {
            Some(half) if step == Step::Plain => Moved::Stopped(Broken::Half(half)),
            _ => Moved::On(Scan { step, ..self }),
        }
    }

    // Behind the last digit of a unit.
    fn unit(self, unit: u16) -> Moved {
        let is_first = (0xd800..0xdc00).contains(&unit);
        let is_second = (0xdc00..0xe000).contains(&unit);
        match self.half {
            Some(half) if !is_second => Moved::Stopped(Broken::Half(half)),
            None if is_second => Moved::Stopped(Broken::Half(self.escape)),
            _ => Moved::On(Scan {
                step: Step::Plain,
                escape: self.escape,
                half: if is_first { Some(self.escape) } else { None },
            }),
        }
    }

    fn digit(self, count: u8, number: u16, byte: u8) -> Moved {
        let Some(digit) = digit_of(byte) else {
            return Moved::Stopped(Broken::Escape(self.escape));
        };
        let number = number.wrapping_mul(16).wrapping_add(digit);
        if count >= 3 {
            return self.unit(number);
        }
        Moved::On(Scan {
            step: Step::Unit(count + 1, number),
            ..self
        })
    }

    fn behind(self, place: usize, byte: u8) -> Moved {
        match self.step {
            Step::Plain => self.plain(place, byte),
            Step::Slash => self.slash(byte),
            Step::Unit(count, number) => self.digit(count, number, byte),
        }
    }
}

/// Why the bytes behind a quotation mark are no string, if they aren't.
pub(crate) fn why_broken(bytes: &[u8]) -> Option<Broken> {
    let mut scan = Scan {
        step: Step::Plain,
        escape: 0,
        half: None,
    };
    for (place, byte) in bytes.iter().enumerate() {
        match scan.behind(place, *byte) {
            Moved::On(next) => scan = next,
            Moved::Ended => return None,
            Moved::Stopped(broken) => return Some(broken),
        }
    }
    Some(Broken::NoEnd)
}
