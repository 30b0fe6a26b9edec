//! Where a line leaves the compact text of a certificate.

use sgt_names::Item;

/// A place of a line where it isn't what the compact text of a certificate has there, and what
/// that is.
#[derive(Clone, Copy)]
pub struct Turn {
    pub at: usize,
    pub wanted: &'static str,
}

/// The greatest site of the steps so far, and where it stands.
#[derive(Clone, Copy)]
struct Farthest {
    site: u64,
    at: usize,
}

/// A line, and whether spaces between its words are passed over.
#[derive(Clone, Copy)]
struct Followed<'a> {
    line: &'a [u8],
    skips: bool,
}

impl Followed<'_> {
    fn byte(self, at: usize) -> Option<u8> {
        self.line.get(at).copied()
    }

    /// The place behind the spaces here, where they are passed over.
    fn behind_spaces(self, from: usize) -> usize {
        let mut at = from;
        for _ in 0..self.line.len() {
            match self.byte(at) {
                Some(b' ' | b'\t' | b'\r') if self.skips => at = at.saturating_add(1),
                _ => return at,
            }
        }
        at
    }

    /// The place behind this word.
    fn word(self, from: usize, word: &'static str) -> Result<usize, Turn> {
        let mut at = from;
        for byte in word.as_bytes() {
            at = self.behind_spaces(at);
            if self.byte(at) != Some(*byte) {
                return Err(Turn { at, wanted: word });
            }
            at = at.saturating_add(1);
        }
        Ok(at)
    }

    /// The number here, of twenty digits at most, and the place behind it.
    fn digits(self, from: usize) -> (u64, usize) {
        let mut at = from;
        let mut number = 0u64;
        for _ in 0..20 {
            match self.byte(at) {
                Some(digit @ b'0'..=b'9') => {
                    let more = u64::from(digit.saturating_sub(b'0'));
                    number = number.saturating_mul(10).saturating_add(more);
                    at = at.saturating_add(1);
                }
                _ => return (number, at),
            }
        }
        (number, at)
    }

    /// A number in this range, and the place behind it.
    fn number(
        self,
        from: usize,
        least: u64,
        most: u64,
        wanted: &'static str,
    ) -> Result<(u64, usize), Turn> {
        let at = self.behind_spaces(from);
        let (number, to) = self.digits(at);
        if to > at && matches!(self.byte(to), Some(b'.' | b'e' | b'E')) {
            let wanted = "a whole number, with no fraction and no exponent";
            return Err(Turn { at: to, wanted });
        }
        let length = to.saturating_sub(at);
        let is_plain = length == 1 || (length > 1 && self.byte(at) != Some(b'0'));
        if is_plain && number >= least && number <= most {
            Ok((number, to))
        } else {
            Err(Turn { at, wanted })
        }
    }

    /// The number of a transaction.
    fn tx(self, from: usize) -> Result<usize, Turn> {
        let wanted = "a transaction, 1 to 4294967295";
        let (_, to) = self.number(from, 1, 4_294_967_295, wanted)?;
        Ok(to)
    }

    /// The name of an item, and the place of the quote behind it.
    fn name(self, from: usize) -> Result<usize, Turn> {
        let rest = self.line.get(from..).unwrap_or(b"");
        let length = rest.iter().position(|byte| *byte == b'"').unwrap_or(0);
        match rest.get(..length) {
            Some(name) if Item::new(name).is_ok() => Ok(from.saturating_add(length)),
            _ => Err(Turn {
                at: from,
                wanted: "a name: a letter a to z, then up to 15 of a to z, 0 to 9 and _",
            }),
        }
    }

    /// The kind of a step.
    fn kind(self, from: usize) -> Result<usize, Turn> {
        if let Ok(to) = self.word(from, "wr") {
            return Ok(to);
        }
        if let Ok(to) = self.word(from, "rw") {
            return Ok(to);
        }
        match self.word(from, "ww") {
            Ok(to) => Ok(to),
            Err(_) => Err(Turn {
                at: from,
                wanted: "wr, rw or ww",
            }),
        }
    }

    /// A step of a walk.
    fn step(self, from: usize, far: Farthest) -> Result<(Farthest, usize), Turn> {
        let at = self.word(from, "{\"item\":\"")?;
        let at = self.name(at)?;
        let at = self.word(at, "\",\"kind\":\"")?;
        let at = self.kind(at)?;
        let place = self.word(at, "\",\"site\":")?;
        let (site, at) = self.number(place, 0, 63, "a site, 0 to 63")?;
        let at = self.word(at, ",\"to\":")?;
        let at = self.tx(at)?;
        let at = self.word(at, "}")?;
        if site > far.site {
            Ok((Farthest { site, at: place }, at))
        } else {
            Ok((far, at))
        }
    }

    /// Steps with commas between, up to the bracket behind them.
    fn steps(self, from: usize, far: Farthest) -> Result<(Farthest, usize), Turn> {
        let mut far = far;
        let mut at = self.behind_spaces(from);
        if self.byte(at) == Some(b']') {
            return Ok((far, at));
        }
        for _ in 0..self.line.len() {
            let (next, to) = self.step(at, far)?;
            far = next;
            at = self.behind_spaces(to);
            if self.byte(at) != Some(b',') {
                break;
            }
            at = at.saturating_add(1);
        }
        Ok((far, at))
    }

    /// A refusal, from its first word on.
    fn refusal(self, from: usize, far: Farthest) -> Result<(Farthest, usize), Turn> {
        let at = self.word(from, "refuse\":")?;
        let at = self.tx(at)?;
        let at = self.word(at, ",\"walk\":[")?;
        let (far, at) = self.steps(at, far)?;
        let at = self.word(at, "]}")?;
        Ok((far, at))
    }

    /// A commit or a withdrawal, from its first word on.
    fn commit(self, from: usize) -> Result<usize, Turn> {
        let at = self.word(from, "commit\":")?;
        let at = self.tx(at)?;
        let at = self.word(at, ",\"rank\":")?;
        let (_, at) = self.number(at, 0, 4_294_967_295, "a rank, 0 to 4294967295")?;
        self.word(at, "}")
    }

    fn withdrawal(self, from: usize) -> Result<usize, Turn> {
        let at = self.word(from, "withdraw\":")?;
        let at = self.tx(at)?;
        self.word(at, "}")
    }

    /// Whether this name stands here.
    fn has(self, at: usize, name: &[u8]) -> bool {
        self.line.get(at..).unwrap_or(b"").starts_with(name)
    }

    /// A decision.
    fn decision(self, from: usize, far: Farthest) -> Result<(Farthest, usize), Turn> {
        let at = self.word(from, "{\"")?;
        if self.has(at, b"commit") {
            let to = self.commit(at)?;
            return Ok((far, to));
        }
        if self.has(at, b"withdraw") {
            let to = self.withdrawal(at)?;
            return Ok((far, to));
        }
        if self.has(at, b"refuse") {
            return self.refusal(at, far);
        }
        Err(Turn {
            at,
            wanted: "commit, refuse or withdraw",
        })
    }

    /// Decisions with commas between, up to the bracket behind them.
    fn decisions(self, from: usize) -> Result<(Farthest, usize), Turn> {
        let mut far = Farthest { site: 0, at: 0 };
        let mut at = self.behind_spaces(from);
        if self.byte(at) == Some(b']') {
            return Ok((far, at));
        }
        for _ in 0..self.line.len() {
            let (next, to) = self.decision(at, far)?;
            far = next;
            at = self.behind_spaces(to);
            if self.byte(at) != Some(b',') {
                break;
            }
            at = at.saturating_add(1);
        }
        Ok((far, at))
    }

    /// The whole line.
    fn certificate(self) -> Result<usize, Turn> {
        let at = self.word(0, "{\"decisions\":[")?;
        let (far, at) = self.decisions(at)?;
        let at = self.word(at, "],\"sites\":")?;
        let (sites, at) = self.number(at, 1, 64, "the number of sites, 1 to 64")?;
        if far.site >= sites {
            return Err(Turn {
                at: far.at,
                wanted: "a site below the number behind \"sites\"",
            });
        }
        let at = self.word(at, "}")?;
        let at = self.behind_spaces(at);
        if at < self.line.len() {
            return Err(Turn {
                at,
                wanted: "the end of the line",
            });
        }
        Ok(at)
    }
}

/// The first place where the line leaves the compact text of a certificate. Where spaces are
/// passed over, those between the words of the text don't count.
pub(crate) fn turn_in(line: &[u8], skips: bool) -> Option<Turn> {
    match (Followed { line, skips }).certificate() {
        Ok(_) => None,
        Err(turn) => Some(turn),
    }
}
