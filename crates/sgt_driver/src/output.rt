//! Where an answer goes.

ghost use Rattle.std.specs.Prelude.{◌≤◌, IfOk, length};

use crate::devices::{Hush, TRIES};
use crate::host::{Host, refuse_file};
use crate::streams::Streams;
use std::fs::File;
use std::io;
use std::io::Write;

/// Standard output, or a file in its place, which is made with its first byte, so that it stays as it is where there
/// is no answer. A write is begun again where a signal interrupted it; why a file can't be written is told at once.
#[derive(Drop)]
pub struct Output<'a, S> {
    rt: &'a HostRuntime,
    streams: &'a S,
    hush: &'a Hush,
    name: Option<&'a String>,
    file: Option<File>,
}

impl<'a, S: Streams> Output<'a, S> {
    /// The file of this name; with none, standard output.
    pub(crate) fn new<H>(host: &Host<'a, S, H>, name: Option<&'a String>) -> Output<'a, S> {
        Output {
            rt: host.rt,
            streams: host.streams,
            hush: host.hush,
            name,
            file: None,
        }
    }

    // Writes to the file of this name, which is made where it isn't there.
    fn put(&mut self, name: &str, bytes: &[u8]) -> io::Result<usize>
        ensures { IfOk result (λ n. n ≤ length bytes.now) }
    {
        if self.file.is_none() {
            self.file = Some(File::create(self.rt, name)?);
        }
        match &mut self.file {
            Some(file) => file.write(bytes),
            None => Err(io::Error::from(io::ErrorKind::Other)),
        }
    }

    // Writes once.
    fn try_once(&mut self, bytes: &[u8]) -> io::Result<usize>
        ensures { IfOk result (λ n. n ≤ length bytes.now) }
    {
        match self.name {
            Some(name) => self.put(name.as_str(), bytes),
            None => self.streams.output().write(bytes),
        }
    }

    // Tells why a write failed, if it isn't that its reader went away: last words would be one too many then.
    fn refuse(&self, why: &io::Error) {
        let name = match self.name {
            Some(name) => name.as_str(),
            None => "standard output",
        };
        refuse_file(self.streams, name, why);
        self.hush.set();
    }
}

impl<S: Streams> Write for Output<'_, S> {
    fn write(&mut self, bytes: &[u8]) -> io::Result<usize> {
        for _ in 0..TRIES {
            match self.try_once(bytes) {
                Err(e) if e.kind() == io::ErrorKind::Interrupted => {}
                Err(e) => {
                    self.refuse(&e);
                    return Err(e);
                }
                written => return written,
            }
        }
        Err(io::Error::from(io::ErrorKind::Interrupted))
    }

    fn flush(&mut self) -> io::Result<()> {
        match self.name {
            Some(_) => Ok(()),
            None => self.streams.output().flush(),
        }
    }
}
