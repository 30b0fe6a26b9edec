//! What is read of an input. Expected values are those of the format of a replay.

ghost use Rattle.std.specs.Prelude.{◌<◌};

use sgt_core::{Reading, read_input};
use sgt_names::MemSource;
use sgt_notation::NotationFault;
use std::alloc::{AllocError, Global};
use std::test::Fail;

/// What the input was read as.
fn shown(alloc: Global, reading: &Reading) -> Result<String, AllocError> {
    match reading {
        Reading::Readable(input) => {
            let sites = input.sites.as_slice().len();
            let events = input.events.as_slice().len();
            format!(in alloc; "{sites} sites {events} events")
        }
        Reading::Unreadable { line, fault } => {
            let number = if *fault == NotationFault::TooLong {
                2
            } else {
                1
            };
            format!(in alloc; "L{number} line {line}")
        }
    }
}

/// Whether the input, of which so many bytes are read at once, is read as this.
fn reads_as(alloc: Global, input: &[u8], per_read: usize, said: &str) -> Result<bool, Fail>
    requires { 0 < per_read }
{
    let mut source = MemSource::new(input, per_read, None);
    let reading = read_input(alloc, &mut source)?;
    let text = shown(alloc, &reading)?;
    Ok(text.as_str() == said)
}

const INPUTS: [(&str, &str); 17] = [
    ("", "L1 line 1"),
    ("\n", "L1 line 1"),
    ("b\n", "L1 line 1"),
    ("site 0", "L1 line 1"),
    ("site 0 \n", "L1 line 1"),
    ("site 1\n", "L1 line 1"),
    ("site 0 y=1 x=2\n", "L1 line 1"),
    ("site 0\n", "1 sites 0 events"),
    ("site 0\n\n", "L1 line 2"),
    ("site 0\nsite 2\n", "L1 line 2"),
    ("site 0 x=5\nb", "L1 line 2"),
    ("site 0 x=5\nb\nq\n", "L1 line 3"),
    ("site 0 x=5\nb\nq", "L1 line 3"),
    ("site 0\nb\nsite 1\n", "L1 line 3"),
    ("site 0 x=5\nb\nr1[1.q]\nv1\n", "1 sites 3 events"),
    (
        "site 0\nsite 1 x=1 y=2\nz\nd1[0.x]=3\ni1@0\n",
        "2 sites 3 events",
    ),
    ("site 0\nsite 1\nb\nw1[0.x]=05\nq\n", "L1 line 4"),
];

#[test]
fn inputs(rt: HostRuntime) -> Result<(), Fail> {
    for (input, said) in INPUTS {
        for per_read in [1usize, 65_536] {
            let as_said = reads_as(rt.alloc(), input.as_bytes(), per_read, said)?;
            assert!(rt; as_said, "{input:?} in pieces of {per_read}");
        }
    }
    Ok(())
}

/// A site, this line so often, and this end.
fn repeated(alloc: Global, line: &[u8], count: usize, end: &[u8]) -> Result<Vec<u8>, AllocError> {
    let mut text = Vec::from_slice(alloc, b"site 0\n")?;
    for _ in 0..count {
        text.extend_from_slice(line)?;
    }
    text.extend_from_slice(end)?;
    Ok(text)
}

// Lines about the greatest length, and many events.
const LONG: [(&[u8], usize, &[u8], &str); 5] = [
    (b"b", 1_048_576, b"\nq\n", "L1 line 2"),
    (b"b", 1_048_577, b"\nq\n", "L2 line 2"),
    (b"b", 1_048_577, b"", "L2 line 2"),
    (b"b", 1_048_576, b"", "L1 line 2"),
    (b"c4294967295\n", 200_000, b"", "1 sites 200000 events"),
];

#[test]
fn long_inputs(rt: HostRuntime) -> Result<(), Fail> {
    for (line, count, end, said) in LONG {
        let text = repeated(rt.alloc(), line, count, end)?;
        let as_said = reads_as(rt.alloc(), text.as_slice(), 65_536, said)?;
        assert!(rt; as_said, "{count} times");
    }
    Ok(())
}
