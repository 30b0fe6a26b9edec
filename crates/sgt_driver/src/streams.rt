//! The standard streams.

use std::io::{Eprint, IsTerminal, Read, Stderr, Stdin, Stdout, Write};

/// Standard input, output and error.
pub trait Streams: Eprint {
    type Input: Read + Drop;

    type Output: Write + Drop;

    type Errors: Write + Drop;

    /// Standard input.
    fn input(&self) -> Self::Input;

    /// Standard output.
    fn output(&self) -> Self::Output;

    /// Standard error.
    fn errors(&self) -> Self::Errors;

    /// Whether what is read is typed at a terminal.
    fn is_typed(&self) -> bool;

    /// Whether the errors are shown on a terminal.
    fn is_shown(&self) -> bool;
}

impl Streams for HostRuntime {
    type Input = Stdin;

    type Output = Stdout;

    type Errors = Stderr;

    fn input(&self) -> Stdin {
        self.stdin()
    }

    fn output(&self) -> Stdout {
        self.stdout()
    }

    fn errors(&self) -> Stderr {
        self.stderr()
    }

    fn is_typed(&self) -> bool {
        self.stdin().is_terminal()
    }

    fn is_shown(&self) -> bool {
        self.stderr().is_terminal()
    }
}
