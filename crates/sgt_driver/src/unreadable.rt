//! Words on a history's line that can't be read.

use crate::devices::{LastWords, Steady};
use crate::front::Front;
use crate::host::Host;
use crate::streams::Streams;
use sgt_command_line::{Choice, NoChoice};
use sgt_history_words::{Asked, answered, unreadable};
use sgt_names::{Failed, Sink, ToWrite, write_all};
use std::io::Read;

/// What a history's transactions have to have for this choice, where it reads one.
pub(crate) fn asked_by(choice: &Result<Choice, NoChoice>) -> Option<Asked> {
    match choice {
        Ok(Choice::Check(wanted)) => Some(Asked {
            real_time: wanted.real_time,
            sessions: wanted.sessions,
        }),
        _ => None,
    }
}

/// A writer that remembers the front of what it took.
#[derive(Drop)]
pub struct Fronted<'a, W> {
    inner: &'a mut W,
    front: Front,
}

impl<'a, W: Sink> Fronted<'a, W> {
    /// The writer, which was given nothing.
    pub(crate) fn new(inner: &'a mut W) -> Fronted<'a, W> {
        Fronted {
            inner,
            front: Front::new(),
        }
    }

    /// The first bytes that it took.
    pub(crate) fn front(&self) -> &[u8] {
        self.front.bytes()
    }
}

impl<W: Sink> Sink for Fronted<'_, W> {
    ghost use Rattle.std.specs.Prelude.{None};

    ghost holds = { λ s. None };

    ghost failures = { λ s. W.failures s.inner.now };

    fn write(&mut self, bytes: &[u8]) -> Result<usize, Failed> {
        let taken = self.inner.write(bytes)?;
        self.front.pass(bytes.get(..taken).unwrap_or(&[]));
        Ok(taken)
    }
}

/// Tells standard error what is wrong with the history's line that the answer names, of which this is the front.
pub(crate) fn tell_unreadable<S: Streams, H, R: Read>(
    host: &Host<'_, S, H>,
    steady: &Steady<'_, S, R>,
    front: &[u8],
) {
    let (Some(asked), Some((unread, number))) = (host.asked, answered(front)) else {
        return;
    };
    let Some(line) = steady.line(number) else {
        return;
    };
    if let Ok(Some(words)) = unreadable(host.rt.alloc(), number, unread, line, asked) {
        let mut errors = ToWrite::new(LastWords::new(host.streams.errors(), host.hush));
        let _ = write_all(&mut errors, words.as_slice());
    }
}
