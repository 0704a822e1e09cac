// The datatype message, versions 1 to 3, and the shared message that may stand in its place.
#![tactic(auto)]

ghost use Rattle.std.specs.Prelude.{◌≡◌, ◌^◌, ◌≤◌, ◌<◌, length};
ghost use Rattle.format.specs.Bytes.{◌implies◌};
ghost use Rattle.format.specs.Datatype.{class_read, has_bits, extent, read_datatype, shared_read, read_shared};
ghost use Rattle.walk.specs.Numbers.{Number};
ghost use Rattle.datatype.specs.Datatype.{type_result, bits_sound};

use format::answers;
use walk::numbers::{u16_at, u32_at, u64_at};

#[derive(Clone, Copy)]
pub enum Datatype {
    Own {
        class: u8,
        version: u8,
        bits: u32,
        size: u32,
    },
    Shared(u64),
}

fn class_read(class: u8) -> bool
    ensures { result ≡ class_read class }
{
    if class <= 1 {
        return true;
    }
    if class < 3 {
        return false;
    }
    class <= 5
}

// Whether the class has a bit offset and a precision.
fn has_bits(class: u8) -> bool
    ensures { result ≡ has_bits class }
{
    if class <= 1 {
        return true;
    }
    class == 4
}

// How many bytes of the body the class needs.
fn needed(class: u8) -> usize
    ensures { result ≡ extent class }
{
    if class == 1 {
        return 20;
    }
    if has_bits(class) {
        return 12;
    }
    8
}

// The class bits, three bytes behind the first.
fn class_bits(body: &[u8]) -> u32
    requires { 4 ≤ length body.now }
    ensures { Number body.now 1 3 result }
{
    let low = u16_at(body, 1) as u32;
    low + 65536 * u32::from(body[3])
}

// Whether the precision is 1 or more, and offset and precision fit the element's size.
fn bits_sound(body: &[u8], size: u64) -> bool
    requires in_bounds { 12 ≤ length body.now }
    requires size_bound { size < 2 ^ 32 }
    ensures { result ≡ bits_sound body.now size }
{
    let precision = u16_at(body, 10);
    if precision < 1 {
        return false;
    }
    u16_at(body, 8) + precision <= 8 * size
}

// Whether the bits are sound, for the classes that have them.
fn sound(body: &[u8], class: u8, size: u64) -> bool
    requires class_in_bounds { extent class ≤ length body.now }
    requires size_bound { size < 2 ^ 32 }
    ensures { result ≡ (has_bits class implies bits_sound body.now size) }
{
    if has_bits(class) {
        return bits_sound(body, size);
    }
    true
}

// Reads the message: the datatype, or 3 or 11.
pub fn read(body: &[u8]) -> Result<Datatype, u8>
    ensures { type_result result ≡ read_datatype body.now }
{
    if body.len() < 8 {
        return Err(answers::DATASET_UNSOUND);
    }
    let version = body[0] / 16;
    if version < 1 {
        return Err(answers::NOT_READ);
    }
    if 3 < version {
        return Err(answers::NOT_READ);
    }
    let class = body[0] % 16;
    if !class_read(class) {
        return Err(answers::NOT_READ);
    }
    let size = u32_at(body, 4);
    if size < 1 {
        return Err(answers::DATASET_UNSOUND);
    }
    if body.len() < needed(class) {
        return Err(answers::DATASET_UNSOUND);
    }
    if !sound(body, class, size) {
        return Err(answers::DATASET_UNSOUND);
    }
    Ok(Datatype::Own {
        class,
        version,
        bits: class_bits(body),
        size: size as u32,
    })
}

// Whether the shared message is one that is read: version 2, or version 3 with type 2.
pub fn shared_read(body: &[u8]) -> bool
    requires { 2 ≤ length body.now }
    ensures { result ≡ shared_read body.now }
{
    if body[0] == 2 {
        return true;
    }
    if body[0] != 3 {
        return false;
    }
    body[1] == 2
}

// Reads a shared message: the address of the datatype, or 3 or 11.
pub fn read_shared(body: &[u8]) -> Result<Datatype, u8>
    ensures { type_result result ≡ read_shared body.now }
{
    if body.len() < 8 {
        return Err(answers::DATASET_UNSOUND);
    }
    if !shared_read(body) {
        return Err(answers::NOT_READ);
    }
    if body.len() < 10 {
        return Err(answers::DATASET_UNSOUND);
    }
    Ok(Datatype::Shared(u64_at(body, 2)))
}
