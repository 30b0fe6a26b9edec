//! Words that stand in one line, whatever is put in.

ghost use Rattle.std.specs.Prelude.{◌≡◌, ◌≤◌, ◌<◌, All, IfOk};
ghost use Rattle.sgt_history_words.specs.OneLine.{IsOneLine, IsTold};

use itoa::Buffer;
use std::alloc::{AllocError, Global};

// How much is shown of what stands there.
const SHOWN: usize = 40;

/// Words with no control byte: such bytes are escaped as they are put in.
#[derive(Drop)]
pub(crate) struct OneLine {
    bytes: Vec<u8>,
    ghost one_line: { All (λ b. 32 ≤ b) bytes.items },
}

fn hexadecimal(digit: u8) -> u8
    requires { digit < 16 }
    ensures { 32 ≤ result }
{
    if digit < 10 {
        b'0' + digit
    } else {
        b'a' - 10 + digit
    }
}

// Whether it is shown by its number: a control, or what turns or hides text.
fn is_escaped(letter: char) -> bool {
    let code = letter as u32;
    letter.is_control()
        || (0x200b..=0x200f).contains(&code)
        || (0x2028..=0x202e).contains(&code)
        || (0x2060..=0x2069).contains(&code)
        || code == 0xfeff
}

impl OneLine {
    /// No words.
    pub(crate) fn new(alloc: Global) -> OneLine {
        OneLine {
            bytes: Vec::new(alloc),
        }
    }

    // The byte by its number.
    fn push_hexadecimal(&mut self, byte: u8) -> Result<(), AllocError> {
        self.bytes.push(hexadecimal(byte / 16))?;
        self.bytes.push(hexadecimal(byte % 16))?;
        Ok(())
    }

    /// One byte more, which may be of a longer character.
    pub(crate) fn push(&mut self, byte: u8) -> Result<(), AllocError> {
        if byte >= 32 {
            self.bytes.push(byte)?;
            return Ok(());
        }
        self.bytes.push(b'\\')?;
        self.bytes.push(b'x')?;
        self.push_hexadecimal(byte)
    }

    /// These words more.
    pub(crate) fn push_text(&mut self, text: &str) -> Result<(), AllocError> {
        for byte in text.bytes() {
            self.push(byte)?;
        }
        Ok(())
    }

    /// This number more.
    pub(crate) fn push_number(&mut self, number: u64) -> Result<(), AllocError> {
        let mut buffer = Buffer::new();
        self.push_text(buffer.format(number))
    }

    // A character by its number, of which there are 16 bits.
    fn push_code(&mut self, code: u32) -> Result<(), AllocError> {
        self.push_text("\\u")?;
        let [_, _, high, low] = code.to_be_bytes();
        self.push_hexadecimal(high)?;
        self.push_hexadecimal(low)
    }

    fn push_letter(&mut self, letter: char) -> Result<(), AllocError> {
        if is_escaped(letter) {
            return self.push_code(letter as u32);
        }
        let mut buffer = [0; 4];
        self.push_text(letter.encode_utf8(&mut buffer))
    }

    // The front of a text.
    fn push_front(&mut self, text: &str) -> Result<(), AllocError> {
        for (count, letter) in text.chars().enumerate() {
            if count >= SHOWN {
                return self.push_text("...");
            }
            self.push_letter(letter)?;
        }
        Ok(())
    }

    /// What stands there: its first 40 characters, with control characters escaped; so are bytes from 128 of what is
    /// no UTF-8.
    pub(crate) fn show(&mut self, bytes: &[u8]) -> Result<(), AllocError> {
        if let Ok(text) = std::str::from_utf8(bytes) {
            return self.push_front(text);
        }
        for (count, byte) in bytes.iter().enumerate() {
            if count >= SHOWN {
                return self.push_text("...");
            }
            if *byte < 127 {
                self.push(*byte)?;
            } else {
                self.push_text("\\x")?;
                self.push_hexadecimal(*byte)?;
            }
        }
        Ok(())
    }

    /// The words, behind the number of the line that they are on, and with an LF.
    pub(crate) fn on_line(&self, alloc: Global, number: u64) -> Result<Vec<u8>, AllocError>
        ensures { IfOk result (λ text. IsTold number text.items) }
    {
        let mut buffer = Buffer::new();
        let mut text = Vec::from_slice(alloc, b"sgt: line ")?;
        text.extend_from_slice(buffer.format(number).as_bytes())?;
        text.extend_from_slice(b": ")?;
        text.extend_from_slice(self.bytes.as_slice())?;
        text.push(b'\n')?;
        Ok(text)
    }
}
