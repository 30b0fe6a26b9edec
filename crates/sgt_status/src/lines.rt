//! The lines of a text, counted as they pass.

ghost use Rattle.std.specs.Prelude.{◌≡◌, ◌≢◌, ◌+◌, ◌-◌, ◌^◌, min};

/// How many lines of a text passed, which is counted to 2^64 - 1.
#[derive(Clone, Copy, Debug, PartialEq, Eq)]
pub struct Lines {
    count: u64,
}

impl Lines {
    /// No line.
    pub fn new() -> Lines
        ensures { result.count ≡ 0 }
    {
        Lines { count: 0 }
    }

    /// How many passed.
    pub fn count(&self) -> u64
        ensures { result ≡ self.now.count }
    {
        self.count
    }

    /// This byte passed.
    pub fn pass(&mut self, byte: u8)
        ensures end { byte ≡ 10 → self.new.count ≡ min (self.old.count + 1) (2 ^ 64 - 1) }
        ensures other { byte ≢ 10 → self.new.count ≡ self.old.count }
    {
        if byte == b'\n' {
            self.count = self.count.saturating_add(1);
        }
    }
}
