// Text in a lent buffer. What has no room is left out, so that no caller has to show that there is room.
#![tactic(auto)]

pub mod dump;

ghost use Rattle.io.specs.Counts.{IsPrefixLen};

use std::fmt;
use std::fmt::Write;

// Writes a byte at a place, and returns the place behind it; without room for it, the place itself.
pub fn put_byte(out: &mut [u8], at: usize, byte: u8) -> usize {
    if at < out.len() {
        out[at] = byte;
        return at + 1;
    }
    at
}

// The text that a buffer has so far.
#[derive(Drop)]
struct Text<'a> {
    out: &'a mut [u8],
    length: usize,
}

impl fmt::Write for Text<'_> {
    fn write_str(&mut self, s: &str) -> fmt::Result {
        for byte in s.bytes() {
            self.length = put_byte(self.out, self.length, byte);
        }
        Ok(())
    }
}

// Writes a value as text to the buffer's start, and returns how many bytes that is.
pub fn put<D: fmt::Display + Drop>(out: &mut [u8], value: D) -> usize
    ensures { IsPrefixLen result out.new }
{
    let mut text = Text { out, length: 0 };
    text.write(value).unwrap_or(());
    let length = text.length;
    length.min(out.len())
}
