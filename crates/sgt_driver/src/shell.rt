//! Names of files as words of a shell.

use std::fmt;
use std::fmt::{Display, Formatter, Write};

/// The name of a file as a word that a shell reads as this name, and a program as no option: as it is, or between
/// quotes. One with control characters is quoted as bash, zsh and POSIX of 2024 read it, on one line.
#[derive(Clone, Copy)]
pub struct ShellWord<'a> {
    pub name: &'a str,
}

// Whether a shell reads the byte as itself wherever it stands.
fn is_plain(byte: u8) -> bool {
    byte.is_ascii_alphanumeric() || byte >= 128 || b"./_-+,:=@%".contains(&byte)
}

// Whether a terminal may read the character as a command.
fn is_control(letter: char) -> bool {
    letter.is_ascii_control() || (letter >= '\u{80}' && letter <= '\u{9f}')
}

// Writes the name between quotes.
fn write_quoted<W: Write>(name: &str, f: &mut Formatter<W>) -> fmt::Result {
    f.write_str("'")?;
    let mut is_first = true;
    for part in name.split('\'') {
        if !is_first {
            f.write_str("'\\''")?;
        }
        f.write_str(part)?;
        is_first = false;
    }
    f.write_str("'")
}

// Writes the name between quotes that take escapes.
fn write_escaped<W: Write>(name: &str, f: &mut Formatter<W>) -> fmt::Result {
    f.write_str("$'")?;
    for letter in name.chars() {
        match letter {
            '\\' => f.write_str("\\\\")?,
            '\'' => f.write_str("\\'")?,
            _ if is_control(letter) => write!(f, "\\u{:04x}", letter as u32)?,
            _ => f.write_char(letter)?,
        }
    }
    f.write_str("'")
}

impl Display for ShellWord<'_> {
    fn fmt<W: Write>(&self, f: &mut Formatter<W>) -> fmt::Result {
        if self.name.starts_with('-') {
            f.write_str("./")?;
        }
        if self.name.chars().any(is_control) {
            write_escaped(self.name, f)
        } else if self.name.bytes().all(is_plain) {
            f.write_str(self.name)
        } else {
            write_quoted(self.name, f)
        }
    }
}
