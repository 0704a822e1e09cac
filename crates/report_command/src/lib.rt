// The command of the damage report: the reading and writing around its text.
#![tactic(auto)]

ghost use Rattle.std.specs.Prelude.{◌<◌, length};
ghost use Rattle.format.specs.Limits.{input_most};

use format::INPUT_MOST;
use report_text::TEXT_MOST;
use source::Opened;
use std::io::Read;

// One byte more than is answered for, so that a longer input is known as longer.
const BUFFER: usize = INPUT_MOST + 1;

// Reports on standard output. An input that can't be read is named on standard error.
fn answer<R: Read + Drop>(
    rt: &HostRuntime,
    mut reader: R,
    name: &[u8],
    buffer: &mut [u8],
    out: &mut [u8],
)
    requires { input_most < length buffer.old }
{
    match input::read_to_end(&mut reader, buffer) {
        Ok(input) => {
            let n = report_text::text(&buffer[..input.length], out);
            source::print(rt, &out[..n]);
        }
        Err(error) => source::fail(rt, name, error),
    }
}

fn run<R: Read + Drop>(rt: &HostRuntime, reader: R, name: &[u8]) {
    let mut buffer = [0u8; BUFFER];
    let mut out = [0u8; TEXT_MOST];
    answer(rt, reader, name, &mut buffer, &mut out);
}

// The command: reports on the file that its one argument names, or on standard input.
pub fn start(rt: &HostRuntime) {
    let mut path = [0u8; 4096];
    let source = source::open(rt, &mut path, "usage: h5report [FILE]");
    let named = source.named;
    match source.opened {
        None => {}
        Some(Opened::Input) => run(rt, rt.stdin(), &path[..named]),
        Some(Opened::File(file)) => run(rt, file, &path[..named]),
    }
}
