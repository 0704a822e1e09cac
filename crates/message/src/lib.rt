// One message of an object header.
#![tactic(auto)]

ghost use Rattle.std.specs.Prelude.{◌≡◌, ◌+◌, ◌≤◌, ◌<◌, length, eqb, leb};
ghost use Rattle.format.specs.Bytes.{◌implies◌, in_range, u64};
ghost use Rattle.format.specs.Message.{treatment, allowed, is_shared};
ghost use Rattle.message.specs.Message.{treatment_of, MessageIs};

use format::answers;
use walk::numbers::{u16_at, u64_at};

// A message's body: where it begins in the image, its length, and the message's flags.
#[derive(Clone, Copy)]
pub struct Body {
    pub place: usize,
    pub size: usize,
    pub flags: u8,
}

// The bodies of a dataset's three messages: the dataspace, the datatype, the data layout.
#[derive(Clone, Copy)]
pub struct Bodies {
    pub space: Body,
    pub datatype: Body,
    pub layout: Body,
}

#[derive(Clone, Copy)]
pub enum Treatment {
    SteppedOver,
    IsRead,
    NotRead,
}

#[tactic(auto, unfolding(format::specs::Message::treatment))]
fn treatment_of(kind: u64) -> Treatment
    ensures { treatment_of result ≡ treatment kind }
{
    match kind {
        0x0000 | 0x0004..=0x0005 | 0x000c..=0x000e | 0x0012 => Treatment::SteppedOver,
        0x0001 | 0x0003 | 0x0008 | 0x0010..=0x0011 => Treatment::IsRead,
        _ => Treatment::NotRead,
    }
}

// Whether the type is stepped over or read; any other gives 3.
fn type_allowed(kind: u64) -> bool
    ensures { result ≡ allowed (treatment kind) }
{
    !matches!(treatment_of(kind), Treatment::NotRead)
}

// The shared flag is allowed on a datatype only.
fn flags_allowed(kind: u64, flags: u8) -> bool
    ensures { result ≡ (is_shared flags implies eqb kind 0x0003) }
{
    if flags / 2 % 2 != 1 {
        return true;
    }
    kind == 0x0003
}

// A continuation and a symbol table have two fields of 8 bytes.
fn fields_there(kind: u64, size: usize) -> bool
    ensures { result ≡ (in_range 0x0010 0x0011 kind implies leb 16 size) }
{
    if kind < 0x0010 {
        return true;
    }
    if 0x0011 < kind {
        return true;
    }
    16 <= size
}

// A continuation has a length of 8 or more, in the second field of its body.
fn continuation_sound(image: &[u8], kind: u64, body: usize) -> bool
    requires { kind ≡ 0x0010 → body + 16 ≤ length image.now }
    ensures { result ≡ (eqb kind 0x0010 implies leb 8 (u64 image.now (body + 8))) }
{
    if kind != 0x0010 {
        return true;
    }
    8 <= u64_at(image, body + 8)
}

// What stands in a message's head: its type, the length of its body and its flags.
#[derive(Clone, Copy)]
pub struct MessageRead {
    pub kind: u64,
    pub size: usize,
    pub flags: u8,
}

// The message at `at`, in a block whose messages end at `end`.
pub fn message(image: &[u8], at: usize, end: usize) -> Result<MessageRead, u8>
    requires at_lt_end { at < end }
    requires end_in_bounds { end ≤ length image.now }
    ensures { MessageIs image.now at end result }
{
    if end - at < 8 {
        return Err(answers::HEADER_UNSOUND);
    }
    let kind = u16_at(image, at);
    if !type_allowed(kind) {
        return Err(answers::NOT_READ);
    }
    let size = u16_at(image, at + 2) as usize;
    if size % 8 != 0 {
        return Err(answers::HEADER_UNSOUND);
    }
    if end - at - 8 < size {
        return Err(answers::HEADER_UNSOUND);
    }
    let flags = image[at + 4];
    if !flags_allowed(kind, flags) {
        return Err(answers::NOT_READ);
    }
    if !fields_there(kind, size) {
        return Err(answers::HEADER_UNSOUND);
    }
    if !continuation_sound(image, kind, at + 8) {
        return Err(answers::HEADER_UNSOUND);
    }
    Ok(MessageRead { kind, size, flags })
}
