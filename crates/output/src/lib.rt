// The lines that the command prints, in ASCII: hexadecimal digits in lower case, and a line feed.
#![tactic(auto)]

ghost use Rattle.std.specs.Prelude.{◌≡◌, ◌+◌, ◌*◌, ◌≤◌, ◌<◌, length};
ghost use Rattle.format.specs.Bytes.{overwrite};
ghost use Rattle.format.specs.Limits.{objects_most};
ghost use Rattle.format.specs.Command.{digit, hex, object_lines};
ghost use Rattle.ledger.specs.Report.{counted_of};
ghost use Rattle.output.specs.Text.{first_line, object_line};

use ledger::report::Ledger;

// The bytes of a line: 8 and 8 digits, or 16, 8 and 8, and a line feed.
pub const FIRST_LINE: usize = 17;

pub const OBJECT_LINE: usize = 33;

fn ascii_digit(d: u64) -> u8
    requires { d < 16 }
    ensures { result ≡ digit d }
{
    if d < 10 {
        return 0x30 + d as u8;
    }
    0x57 + d as u8
}

// Writes the lowest digits of a number, the lowest one last. The library's `{:08x}` doesn't say what bytes it writes, since `LowerHex` has no
// clause: what is proved of the command's lines needs these.
pub fn put_hex(out: &mut [u8], at: usize, x: u64, digits: usize)
    requires { at + digits ≤ length out.old }
    ensures { out.new ≡ overwrite out.old at (hex digits x) }
{
    let mut rest = x;
    for i in (0..digits).rev() {
        out[at + i] = ascii_digit(rest % 16);
        rest /= 16;
    }
}

// Writes the first line.
pub fn put_first(out: &mut [u8], answer: u8, objects: usize)
    requires { 17 ≤ length out.old }
    ensures { out.new ≡ overwrite out.old 0 (first_line answer objects) }
{
    put_hex(out, 0, answer as u64, 8);
    put_hex(out, 8, objects as u64, 8);
    out[16] = b'\n';
}

// Writes the line of one object.
fn put_object(out: &mut [u8], at: usize, address: u64, stored: u32, links: u32)
    requires { at + 33 ≤ length out.old }
    ensures { out.new ≡ overwrite out.old at (object_line address stored links) }
{
    put_hex(out, at, address, 16);
    put_hex(out, at + 16, stored as u64, 8);
    put_hex(out, at + 24, links as u64, 8);
    out[at + 32] = b'\n';
}

// Writes the lines of all objects, and returns the place behind them.
pub fn put_objects(out: &mut [u8], at: usize, ledger: Ledger) -> usize
    requires objects_le_objects_most { ledger.objects ≤ objects_most }
    requires objects_in_bounds { at + 33 * ledger.objects ≤ length out.old }
    ensures value { result ≡ at + 33 * ledger.objects }
    ensures out_after { out.new ≡ overwrite out.old at (object_lines (counted_of ledger)) }
{
    let mut place = at;
    for i in 0..ledger.objects {
        put_object(
            out,
            place,
            ledger.addresses[i],
            ledger.stored[i],
            ledger.true_counts[i],
        );
        place += OBJECT_LINE;
    }
    place
}
