//! The front of what was read or written, and its last two bytes.

// How much is kept: an answer on a line that can't be read is shorter, and line 1 of a bundle with the head of line 2.
const ROOM: usize = 64;

/// The first bytes that passed, and the last two.
#[derive(Drop)]
pub struct Front {
    bytes: [u8; ROOM],
    length: usize,
    last: (u8, u8),
}

impl Front {
    /// Nothing passed.
    pub(crate) fn new() -> Front {
        Front {
            bytes: [0; ROOM],
            length: 0,
            last: (0, 0),
        }
    }

    /// The first bytes.
    pub(crate) fn bytes(&self) -> &[u8] {
        self.bytes.get(..self.length).unwrap_or(&[])
    }

    /// The last two bytes; 0 stands for one that didn't pass.
    pub(crate) fn last(&self) -> (u8, u8) {
        self.last
    }

    // Keeps the bytes behind those that are kept, as far as there is room.
    fn keep(&mut self, bytes: &[u8]) {
        for byte in bytes {
            if self.length >= ROOM {
                return;
            }
            self.bytes[self.length] = *byte;
            self.length += 1;
        }
    }

    /// These bytes passed.
    pub(crate) fn pass(&mut self, bytes: &[u8]) {
        let Some((last, before)) = bytes.split_last() else {
            return;
        };
        let second = match before.last() {
            Some(byte) => *byte,
            None => self.last.1,
        };
        self.last = (second, *last);
        if self.length < ROOM {
            self.keep(bytes);
        }
    }
}
