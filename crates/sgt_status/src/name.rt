//! The name of a file in a line that is told.

ghost use Rattle.std.specs.Prelude.{◌≡◌, ◌<◌, ◌↔◌, IsTrue, Some};
ghost use Rattle.std.specs.Char.{digit_char};
ghost use Rattle.std.specs.Fmt.{WritesOnOk};
ghost use Rattle.std.specs.Str.{chars};
ghost use Rattle.sgt_status.specs.Shown.{IsControl, shown, shown_letter};

use std::fmt;
use std::fmt::{Display, Formatter, Write};

/// The name of a file in a line that is told: each control character as `\x` and two hexadecimal digits, so that no
/// name makes a second line, or tells a terminal what to do.
#[derive(Clone, Copy)]
pub struct LineName<'a> {
    pub name: &'a str,
}

// Whether a terminal may read the character as a command.
fn is_control(letter: char) -> bool
    ensures { IsTrue result ↔ IsControl letter }
{
    letter < ' ' || (letter >= '\u{7f}' && letter <= '\u{9f}')
}

// A hexadecimal digit.
fn hexadecimal(digit: u32) -> char
    requires { digit < 16 }
    ensures { result ≡ digit_char digit }
{
    if digit < 10 {
        char::from(b'0' + digit as u8)
    } else {
        char::from(b'a' + (digit - 10) as u8)
    }
}

// Writes the character, which is a control character, by its number.
fn write_control<W: Write>(letter: char, f: &mut Formatter<W>) -> fmt::Result
    requires { IsControl letter }
    ensures { WritesOnOk W.write_str_gives f.old result (shown_letter letter) f.new }
{
    let number = letter as u32;
    f.write_str("\\x")?;
    f.write_char(hexadecimal(number / 16))?;
    f.write_char(hexadecimal(number % 16))
}

// Writes the character.
fn write_letter<W: Write>(letter: char, f: &mut Formatter<W>) -> fmt::Result
    ensures { WritesOnOk W.write_str_gives f.old result (shown_letter letter) f.new }
{
    if is_control(letter) {
        write_control(letter, f)
    } else {
        f.write_char(letter)
    }
}

// Writes the name.
fn write_name<W: Write>(name: &str, f: &mut Formatter<W>) -> fmt::Result
    ensures { WritesOnOk W.write_str_gives f.old result (shown (chars name.now)) f.new }
{
    for letter in name.chars() {
        write_letter(letter, f)?;
    }
    Ok(())
}

impl Display for LineName<'_> {
    ghost output = { λ name. Some (shown (chars name.name.now)) };

    fn fmt<W: Write>(&self, f: &mut Formatter<W>) -> fmt::Result {
        write_name(self.name, f)
    }
}
