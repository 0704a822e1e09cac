// Mending on byte slices.
#![tactic(auto)]

ghost use Rattle.std.specs.Prelude.{◌≡◌, ◌*◌, ◌/◌, ◌≤◌, min, length, replicate, ◌<◌, ◌^◌};
ghost use Rattle.format.specs.Limits.{objects_most, blocks_most};
ghost use Rattle.format.specs.Walk.{answer_of, met_of};
ghost use Rattle.format.specs.Front.{padded_bytes, refusal_words, CMend, c_mend};
ghost use Rattle.front_mend.specs.With.{MendsWith};
ghost use Rattle.walk.specs.Lent.{work_words};

use format::{OBJECTS_MOST, Refusal};
use front::{FEW_BLOCKS, FEW_WORDS, SMALL_IMAGE};
use walk::blocks::{WORK_WORDS, work_words};

// The words of the reply: block count, entries, writes.
const REPLY_WORDS: usize = 3;

// The words of the log that are lent: no more than the entries of all objects take.
fn log_room(words: usize) -> usize
    ensures { result ≡ min words (2 * objects_most) }
{
    words.min(2 * OBJECTS_MOST)
}

// Zeros for the three slices.
fn clear_all(blocks: &mut [u8], log: &mut [u8], reply: &mut [u8])
    ensures blocks_after { blocks.new ≡ replicate (length blocks.old) 0 }
    ensures log_after { log.new ≡ replicate (length log.old) 0 }
    ensures reply_after { reply.new ≡ replicate (length reply.old) 0 }
{
    front::clear_both(blocks, reply);
    words::clear_from(log, 0);
}

// The reply to a refusal, with zeros for the log.
fn refuse(blocks: &mut [u8], log: &mut [u8], reply: &mut [u8], refusal: Refusal) -> u32
    requires { 8 ≤ length reply.old }
    ensures value { result ≡ answer_of refusal }
    ensures blocks_after { blocks.new ≡ replicate (length blocks.old) 0 }
    ensures log_after { log.new ≡ replicate (length log.old) 0 }
    ensures reply_after { reply.new ≡ padded_bytes (length reply.old) (refusal_words (answer_of refusal) (met_of refusal)) }
{
    words::clear_from(log, 0);
    front::refuse(blocks, reply, refusal)
}

// The mending with room for so many blocks in a list.
// C lends the slices one by one. A value of them would need a clause in each contract that the same slices are lent still: no plainer than these parameters.
fn mend_with(
    image: &mut [u8],
    list: &mut [u64],
    blocks: &mut [u8],
    log: &mut [u8],
    reply: &mut [u8],
    limit: u64,
    room: usize,
) -> u32
    requires room_in_bounds { work_words room ≤ length list.old }
    requires room_in_bounds_2 { 4 * room ≤ length blocks.old / 8 }
    requires in_bounds { 3 ≤ length reply.old / 8 }
    ensures { MendsWith image.old (length blocks.old) (length log.old) (length reply.old) limit room
        (record { number = result; list = blocks.new; log = log.new; reply = reply.new; image = image.new }) }
{
    let mut entries = [0u64; 2 * OBJECTS_MOST];
    let m = log_room(log.len() / 8);
    let n = work_words(room);
    match mend::mend_in(image, &mut list[..n], &mut entries[..m], limit) {
        Ok(r) => {
            let used = 4 * r.block_count;
            let logged = 2 * r.entries;
            let words = [r.block_count as u64, r.entries as u64, r.writes as u64];
            words::spill(&list[..used], blocks);
            words::spill(&entries[..logged], log);
            words::spill(&words, reply);
            0
        }
        Err(refusal) => refuse(blocks, log, reply, refusal),
    }
}

// The mending with a list of so many words. A list of another length has a frame of its own.
// C lends the slices one by one. A value of them would need a clause in each contract that the same slices are lent still: no plainer than these parameters.
fn mend_sized<const WORDS: usize>(
    image: &mut [u8],
    blocks: &mut [u8],
    log: &mut [u8],
    reply: &mut [u8],
    limit: u64,
    room: usize,
) -> u32
    requires words { work_words room ≤ WORDS }
    requires words_fit { WORDS < 2 ^ 60 }
    requires room_in_bounds { 4 * room ≤ length blocks.old / 8 }
    requires in_bounds { 3 ≤ length reply.old / 8 }
    ensures { MendsWith image.old (length blocks.old) (length log.old) (length reply.old) limit room
        (record { number = result; list = blocks.new; log = log.new; reply = reply.new; image = image.new }) }
{
    let mut list = [0u64; WORDS];
    mend_with(image, &mut list, blocks, log, reply, limit, room)
}

// The mending with room for so many blocks, in the smaller list that has it. A small image is first tried with room for few blocks;
// a mending for which they aren't room leaves the image as it was.
// One function for the five calls would be lent this one as a closure, and would have to say what its first try leaves: no plainer.
// C lends the slices one by one. A value of them would need a clause in each contract that the same slices are lent still: no plainer than these parameters.
fn mend_in(
    image: &mut [u8],
    blocks: &mut [u8],
    log: &mut [u8],
    reply: &mut [u8],
    limit: u64,
    room: usize,
) -> u32
    requires room_le_blocks_most { room ≤ blocks_most }
    requires room_in_bounds { 4 * room ≤ length blocks.old / 8 }
    requires in_bounds { 3 ≤ length reply.old / 8 }
    ensures { MendsWith image.old (length blocks.old) (length log.old) (length reply.old) limit room
        (record { number = result; list = blocks.new; log = log.new; reply = reply.new; image = image.new }) }
{
    if room <= FEW_BLOCKS {
        return mend_sized::<FEW_WORDS>(image, blocks, log, reply, limit, room);
    }
    if image.len() <= SMALL_IMAGE {
        let few = front::few_room(image.len());
        let number = mend_in(image, blocks, log, reply, limit, few);
        if number != front::NO_ROOM {
            return number;
        }
    }
    mend_sized::<WORK_WORDS>(image, blocks, log, reply, limit, room)
}

// The mending of an image. `blocks` gets the block list, `log` the undo log, `reply` the other fields; the number is returned.
// No more than `limit` counts are written.
pub fn mend_bytes(
    image: &mut [u8],
    blocks: &mut [u8],
    log: &mut [u8],
    reply: &mut [u8],
    limit: u64,
) -> u32
    ensures { ◌≡◌ {A = CMend}
        (record { number = result; list = blocks.new; log = log.new; reply = reply.new; image = image.new })
        (c_mend image.old (length blocks.old) (length log.old) (length reply.old) limit) }
{
    if reply.len() / 8 < REPLY_WORDS {
        clear_all(blocks, log, reply);
        return front::NO_ROOM;
    }
    let room = walk::blocks::room(blocks.len() / 8);
    mend_in(image, blocks, log, reply, limit, room)
}
