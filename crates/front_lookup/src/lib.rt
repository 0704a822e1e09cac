// Path lookup on byte slices.
#![tactic(auto)]

ghost use Rattle.std.specs.Prelude.{◌≡◌, ◌*◌, ◌/◌, ◌≤◌, length, ◌<◌, ◌^◌};
ghost use Rattle.format.specs.Limits.{blocks_most};
ghost use Rattle.format.specs.Front.{CReply, c_lookup};
ghost use Rattle.front_lookup.specs.With.{LooksUpWith};
ghost use Rattle.walk.specs.Lent.{work_words};

use front::{FEW_BLOCKS, FEW_WORDS, SMALL_IMAGE};
use walk::blocks::{WORK_WORDS, work_words};

// The words of the reply: block count, kind, address.
const REPLY_WORDS: usize = 3;

// The lookup with room for so many blocks in a list. `blocks` is zeros at the end.
// C lends the slices one by one. A value of them would need a clause in each contract that the same slices are lent still: no plainer than these parameters.
fn lookup_with(
    image: &[u8],
    path: &[u8],
    list: &mut [u64],
    blocks: &mut [u8],
    reply: &mut [u8],
    room: usize,
) -> u32
    requires room_in_bounds { work_words room ≤ length list.old }
    requires room_in_bounds_2 { 4 * room ≤ length blocks.old / 8 }
    requires in_bounds { 3 ≤ length reply.old / 8 }
    ensures { LooksUpWith image.now path.now (length blocks.old) (length reply.old) room
        (record { number = result; list = blocks.new; reply = reply.new }) }
{
    let n = work_words(room);
    match lookup::lookup::lookup_in(image, path, &mut list[..n]) {
        Ok(r) => {
            let kind = r.kind as u64;
            let words = [0u64, kind, r.address];
            words::clear_from(blocks, 0);
            words::spill(&words, reply);
            0
        }
        Err(refusal) => front::refuse(blocks, reply, refusal),
    }
}

// The lookup with a list of so many words. A list of another length has a frame of its own.
fn lookup_sized<const WORDS: usize>(
    image: &[u8],
    path: &[u8],
    blocks: &mut [u8],
    reply: &mut [u8],
    room: usize,
) -> u32
    requires words { work_words room ≤ WORDS }
    requires words_fit { WORDS < 2 ^ 60 }
    requires room_in_bounds { 4 * room ≤ length blocks.old / 8 }
    requires in_bounds { 3 ≤ length reply.old / 8 }
    ensures { LooksUpWith image.now path.now (length blocks.old) (length reply.old) room
        (record { number = result; list = blocks.new; reply = reply.new }) }
{
    let mut list = [0u64; WORDS];
    lookup_with(image, path, &mut list, blocks, reply, room)
}

// Whether room for few blocks is tried first: for a small image, and for a path without a name, which reads one header, however long
// the image is.
fn few_first(image: usize, path: usize) -> bool {
    if path < 2 {
        return true;
    }
    image <= SMALL_IMAGE
}

// The lookup with room for so many blocks, in the smaller list that has it. Some are first tried with room for few blocks.
// One function for the five calls would be lent this one as a closure, and would have to say what its first try leaves: no plainer.
fn lookup_in(image: &[u8], path: &[u8], blocks: &mut [u8], reply: &mut [u8], room: usize) -> u32
    requires room_le_blocks_most { room ≤ blocks_most }
    requires room_in_bounds { 4 * room ≤ length blocks.old / 8 }
    requires in_bounds { 3 ≤ length reply.old / 8 }
    ensures { LooksUpWith image.now path.now (length blocks.old) (length reply.old) room
        (record { number = result; list = blocks.new; reply = reply.new }) }
{
    if room <= FEW_BLOCKS {
        return lookup_sized::<FEW_WORDS>(image, path, blocks, reply, room);
    }
    if few_first(image.len(), path.len()) {
        let number = lookup_in(image, path, blocks, reply, front::few_room(image.len()));
        let decided = number != front::NO_ROOM;
        if decided {
            return number;
        }
    }
    lookup_sized::<WORK_WORDS>(image, path, blocks, reply, room)
}

// The lookup of a path. `blocks` is only lent, and is zeros at the end; `reply` gets the other fields; the number is returned.
pub fn lookup_bytes(image: &[u8], path: &[u8], blocks: &mut [u8], reply: &mut [u8]) -> u32
    ensures { ◌≡◌ {A = CReply} (record { number = result; list = blocks.new; reply = reply.new })
        (c_lookup image.now path.now (length blocks.old) (length reply.old)) }
{
    if reply.len() / 8 < REPLY_WORDS {
        front::clear_both(blocks, reply);
        return front::NO_ROOM;
    }
    let room = walk::blocks::room(blocks.len() / 8);
    lookup_in(image, path, blocks, reply, room)
}
