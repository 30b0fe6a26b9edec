//! The decisions of a bundle, counted while it passes.

ghost use Rattle.std.specs.Prelude.{◌≡◌, ◌&&◌, ◌==◌};
ghost use Rattle.sgt_json.specs.Tally.{begins_decision, counted, no_counts, counts_of, more, next_line, passed};

/// How many transactions the certificate commits, refuses and withdraws, as far as it passed. A decision is known by
/// its front, `{"c`, `{"r` or `{"w` in line 2. A count stays at the greatest number that there is.
#[derive(Drop)]
pub struct Tally {
    pub committed: u64,
    pub refused: u64,
    pub withdrawn: u64,
    // The line, from 0; 2 for each behind line 2.
    line: u8,
    // The last byte, and the one before it.
    last: u8,
    before: u8,
}

fn more(count: u64) -> u64
    ensures { result ≡ more count }
{
    if count < u64::MAX { count + 1 } else { count }
}

fn next_line(line: u8, byte: u8) -> u8
    ensures { result ≡ next_line line byte }
{
    if byte == b'\n' && line < 2 {
        line + 1
    } else {
        line
    }
}

impl Tally {
    /// Nothing passed.
    pub fn new() -> Tally
        ensures { counts_of result ≡ no_counts }
    {
        Tally {
            committed: 0,
            refused: 0,
            withdrawn: 0,
            line: 0,
            last: 0,
            before: 0,
        }
    }

    // Whether this byte is the first letter of a decision.
    fn begins_decision(&self) -> bool
        ensures { result ≡ begins_decision (counts_of self.now) }
    {
        self.line == 1 && self.before == b'{' && self.last == b'"'
    }

    fn count(&mut self, byte: u8)
        ensures { counts_of self.new ≡ counted (counts_of self.old) byte }
    {
        let is_decision = self.begins_decision();
        if is_decision && byte == b'c' {
            self.committed = more(self.committed);
        }
        if is_decision && byte == b'r' {
            self.refused = more(self.refused);
        }
        if is_decision && byte == b'w' {
            self.withdrawn = more(self.withdrawn);
        }
        self.line = next_line(self.line, byte);
        self.before = self.last;
        self.last = byte;
    }

    /// These bytes passed.
    pub fn pass(&mut self, bytes: &[u8])
        ensures { counts_of self.new ≡ passed (counts_of self.old) bytes.now }
    {
        for byte in bytes {
            self.count(*byte);
        }
    }
}
