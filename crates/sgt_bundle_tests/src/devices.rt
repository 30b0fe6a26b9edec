//! Readers and writers over those of std, which may fail.

use sgt_names::{FromRead, Sink, Source, ToWrite};
use std::io::{self, Read, Write};

/// A reader whose second call fails.
#[derive(Drop)]
struct Torn {
    left: &'static [u8],
    calls: u8,
}

impl Read for Torn {
    fn read(&mut self, buffer: &mut [u8]) -> io::Result<usize> {
        self.calls = self.calls.saturating_add(1);
        if self.calls == 2 {
            return Err(io::Error::from(io::ErrorKind::Other));
        }
        self.left.read(buffer)
    }
}

/// A writer that takes nothing.
#[derive(Drop)]
struct Shut;

impl Write for Shut {
    fn write(&mut self, _bytes: &[u8]) -> io::Result<usize> {
        Ok(0)
    }

    fn flush(&mut self) -> io::Result<()> {
        Ok(())
    }
}

/// What a read into two bytes answers, where a failure is told as 9, and the first byte of the buffer then.
fn two<R: Source>(source: &mut R) -> (usize, u8) {
    let mut buffer = [b'-'; 2];
    let answer = source.read(&mut buffer);
    (answer.unwrap_or(9), buffer[0])
}

/// What a write answers, where a failure is told as 9.
fn taken<W: Sink>(sink: &mut W, bytes: &[u8]) -> usize {
    sink.write(bytes).unwrap_or(9)
}

#[test]
fn readers_of_std(rt: HostRuntime) {
    let mut torn = FromRead::new(Torn {
        left: b"xyz",
        calls: 0,
    });
    assert_eq!(rt;
        [
            two(&mut torn),
            two(&mut torn),
            two(&mut torn),
            two(&mut torn)
        ],
        [(2, b'x'), (9, b'-'), (1, b'z'), (0, b'-')]
    );
}

#[test]
fn writers_of_std(rt: HostRuntime) {
    let mut vector = ToWrite::new(Vec::new(rt.alloc()));
    let mut shut = ToWrite::new(Shut);
    assert_eq!(rt;
        [
            taken(&mut vector, b"ab"),
            taken(&mut shut, b"ab"),
            taken(&mut shut, b"")
        ],
        [2, 9, 0]
    );
}
