// The input of a command, read to its end.
#![tactic(auto)]

ghost use Rattle.std.specs.Prelude.{◌≡◌, ◌<◌, length, take};
ghost use Rattle.format.specs.Limits.{input_most};
ghost use Rattle.input.specs.Reading.{Within, Reads};

use std::io;
use std::io::Read;

// How many bytes were read in all, and how many the last read brought.
#[derive(Clone, Copy)]
pub struct Input {
    pub length: usize,
    pub last: usize,
}

// One read behind the first bytes, which stay as they are. It may bring a part of the input only, as from a pipe, and none at its end.
fn read_behind<R: Read>(reader: &mut R, buffer: &mut [u8], at: usize) -> io::Result<usize>
    requires { at < length buffer.old }
    ensures within { Within at (length buffer.old) result }
    ensures buffer_unchanged { take at buffer.new ≡ take at buffer.old }
{
    reader.read(&mut buffer[at..])
}

// Reads until a read brings nothing or the buffer is full. The buffer is longer than the most input that is answered for, so that
// a longer input is known as longer. A read brings as many bytes as it likes, so that no `for` says where the next one begins.
pub fn read_to_end<R: Read>(reader: &mut R, buffer: &mut [u8]) -> io::Result<Input>
    requires { input_most < length buffer.old }
    ensures { Reads buffer.old 0 buffer.new result }
{
    let mut at: usize = 0;
    let mut last: usize = 1;
    'reading: while at < buffer.len() {
        last = read_behind(reader, buffer, at)?;
        let ended = last == 0;
        if ended {
            return Ok(Input { length: at, last });
        }
        at += last;
    }
    Ok(Input { length: at, last })
}
