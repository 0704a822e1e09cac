// The attribute message, versions 1 to 3, as far as the audit reads it: whether its datatype is shared, and from where.
#![tactic(auto)]

ghost use Rattle.std.specs.Prelude.{not, ◌&&◌, ◌||◌, ◌≡◌, ◌+◌, ◌≤◌, eqb, leb, length};
ghost use Rattle.format.specs.Attribute.{name_start, read_shared_part, read_attribute};
ghost use Rattle.attribute.specs.Attribute.{address_result, attribute_result, Taken};

use datatype::shared_read;
use format::answers;
use walk::numbers::{u16_at, u64_at};

// Version 1 has no flags. In versions 2 and 3 only bit 0 is read.
fn flags_read(version: u8, flags: u8) -> bool
    ensures { result ≡ (eqb version 1 || leb flags 1) }
{
    if version == 1 {
        return true;
    }
    flags <= 1
}

// Bit 0 of the flags, where there are flags.
fn shares_type(version: u8, flags: u8) -> bool
    ensures { result ≡ (not (eqb version 1) && eqb flags 1) }
{
    if version != 1 {
        return flags == 1;
    }
    false
}

// Where the name begins: version 3 has a byte for its character set before it.
fn name_start(version: u8) -> usize
    ensures { result ≡ name_start version }
{
    if version == 3 {
        return 9;
    }
    8
}

// The bytes that a part takes whose size stands at `at`: version 1 pads it to a multiple of 8.
fn taken_at(body: &[u8], version: u8, at: usize) -> usize
    requires { at + 2 ≤ length body.now }
    ensures { Taken body.now version at result }
{
    let size = u16_at(body, at) as usize;
    let padded = version == 1;
    if padded {
        return (size + 7) / 8 * 8;
    }
    size
}

// Reads a shared part: the address of the datatype, or 10 or 3.
fn read_shared_part(part: &[u8]) -> Result<u64, u8>
    ensures { address_result result ≡ read_shared_part part.now }
{
    if part.len() < 10 {
        return Err(answers::HEADER_UNSOUND);
    }
    if !shared_read(part) {
        return Err(answers::NOT_READ);
    }
    Ok(u64_at(part, 2))
}

// Reads the message: the address that its datatype is shared from, none if the datatype stands in the message itself, or 3 or 10.
pub fn read(body: &[u8]) -> Result<Option<u64>, u8>
    ensures { attribute_result result ≡ read_attribute body.now }
{
    if body.len() < 8 {
        return Err(answers::HEADER_UNSOUND);
    }
    let version = body[0];
    if version < 1 {
        return Err(answers::NOT_READ);
    }
    if 3 < version {
        return Err(answers::NOT_READ);
    }
    let flags = body[1];
    if !flags_read(version, flags) {
        return Err(answers::NOT_READ);
    }
    let start = name_start(version) + taken_at(body, version, 2);
    let end = start + taken_at(body, version, 4) + taken_at(body, version, 6);
    if body.len() < end {
        return Err(answers::HEADER_UNSOUND);
    }
    if !shares_type(version, flags) {
        return Ok(None);
    }
    let stop = start + u16_at(body, 4) as usize;
    read_shared_part(&body[start..stop]).map(Some)
}
