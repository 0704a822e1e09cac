// The audit command: what it prints for an input, and the reading and writing around that.
#![tactic(auto)]

ghost use Rattle.std.specs.Prelude.{◌≤◌, ◌<◌, length};
ghost use Rattle.format.specs.Limits.{input_most};
ghost use Rattle.output.specs.Text.{output_most, Printed};
ghost use Rattle.command.specs.Response.{Responds, TextWithin};

use format::{COMMAND_BLOCKS, INPUT_MOST, OBJECTS_MOST, answers, number_of};
use output::{FIRST_LINE, OBJECT_LINE};
use source::Opened;
use std::io;
use std::io::Read;

// The first line, and one for each of the most objects.
pub const OUTPUT_MOST: usize = FIRST_LINE + OBJECT_LINE * OBJECTS_MOST;

const LIST_WORDS: usize = 4 * COMMAND_BLOCKS;

// One byte more than is answered for, so that a longer input is known as longer.
const BUFFER: usize = INPUT_MOST + 1;

// Writes what the command prints for an input, and returns how many bytes that is.
pub fn report(input: &[u8], out: &mut [u8]) -> usize
    requires { output_most ≤ length out.old }
    ensures { Printed input.now out.old out.new result }
{
    let limits = format::the_limits();
    if limits.input_most < input.len() {
        output::put_first(out, answers::LENGTH_OUT_OF_RANGE, 0);
        return FIRST_LINE;
    }
    let mut list = [0u64; LIST_WORDS];
    match audit::audit(input, &mut list) {
        Ok(reply) => {
            let ledger = reply.ledger;
            output::put_first(out, answers::DONE, ledger.objects);
            output::put_objects(out, FIRST_LINE, ledger)
        }
        Err(refusal) => {
            output::put_first(out, number_of(refusal), 0);
            FIRST_LINE
        }
    }
}

// Reads the input to its end, and writes what is printed for it: so many bytes.
pub fn respond<R: Read>(reader: &mut R, buffer: &mut [u8], out: &mut [u8]) -> io::Result<usize>
    requires input_most_in_bounds { input_most < length buffer.old }
    requires output_most_in_bounds { output_most ≤ length out.old }
    ensures responds { Responds buffer.old buffer.new out.old out.new result }
    ensures text_within { TextWithin (length out.new) result }
{
    let input = input::read_to_end(reader, buffer)?;
    Ok(report(&buffer[..input.length], out))
}

// Answers on standard output. An input that can't be read is named on standard error.
fn run<R: Read + Drop>(rt: &HostRuntime, mut reader: R, name: &[u8]) {
    let mut buffer = [0u8; BUFFER];
    let mut out = [0u8; OUTPUT_MOST];
    match respond(&mut reader, &mut buffer, &mut out) {
        Ok(n) => source::print(rt, &out[..n]),
        Err(error) => source::fail(rt, name, error),
    }
}

// The command: audits the file that its one argument names, or standard input.
pub fn start(rt: &HostRuntime) {
    let mut path = [0u8; 4096];
    let source = source::open(rt, &mut path, "usage: h5audit [FILE]");
    let named = source.named;
    match source.opened {
        None => {}
        Some(Opened::Input) => run(rt, rt.stdin(), &path[..named]),
        Some(Opened::File(file)) => run(rt, file, &path[..named]),
    }
}
