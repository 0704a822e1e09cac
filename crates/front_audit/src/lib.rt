// The audit on byte slices.
#![tactic(auto)]

ghost use Rattle.std.specs.Prelude.{◌≡◌, [], ◌∷◌, ◌+◌, ◌*◌, ◌/◌, ◌≤◌, length, ◌<◌, ◌^◌};
ghost use Rattle.format.specs.Bytes.{overwrite};
ghost use Rattle.format.specs.Limits.{objects_most, blocks_most};
ghost use Rattle.format.specs.Front.{word_bytes, padded_bytes, object_words, CReply, c_audit};
ghost use Rattle.ledger.specs.Report.{counted_places};
ghost use Rattle.audit.specs.Audit.{EmptyTable};
ghost use Rattle.front_audit.specs.Room.{Roomy};
ghost use Rattle.front_audit.specs.With.{AuditsWith};
ghost use Rattle.ledger.specs.Index.{index_words};
ghost use Rattle.walk.specs.Lent.{work_words};

use format::OBJECTS_MOST;
use front::{FEW_BLOCKS, FEW_WORDS, SMALL_IMAGE};
use ledger::search::{INDEX_WORDS, TABLE_WORDS};
use walk::blocks::{WORK_WORDS, work_words};

// Writes the words of one object.
fn put_object(reply: &mut [u8], at: usize, address: u64, stored: u32, true_count: u32)
    requires { at + 24 ≤ length reply.old }
    ensures { reply.new ≡ overwrite reply.old at (word_bytes (address ∷ stored ∷ true_count ∷ [])) }
{
    words::put_word(reply, at, address);
    words::put_word(reply, at + 8, stored as u64);
    words::put_word(reply, at + 16, true_count as u64);
}

// The reply of an audit that is done: block count, objects, the words of each object, and zeros behind them.
fn write_reply(
    reply: &mut [u8],
    block_count: usize,
    addresses: &[u64],
    stored: &[u32],
    true_counts: &[u32],
)
    requires { Roomy (length reply.old) (length addresses.now) addresses.now stored.now true_counts.now }
    ensures { reply.new ≡ padded_bytes (length reply.old)
        (block_count ∷ length addresses.now ∷ object_words (counted_places (length addresses.now) addresses.now stored.now true_counts.now)) }
{
    let objects = addresses.len();
    words::put_word(reply, 0, block_count as u64);
    words::put_word(reply, 8, objects as u64);
    for i in 0..objects {
        put_object(reply, 16 + 24 * i, addresses[i], stored[i], true_counts[i]);
    }
    words::clear_from(reply, 16 + 24 * objects);
}

// The audit with room for so many blocks in a list, and with the table of objects in another.
// C lends the slices one by one. A value of them would need a clause in each contract that the same slices are lent still: no plainer than these parameters.
fn audit_with(
    image: &[u8],
    list: &mut [u64],
    addresses: &mut [u64],
    blocks: &mut [u8],
    reply: &mut [u8],
    room: usize,
) -> u32
    requires room_in_bounds { work_words room ≤ length list.old }
    requires empty_table { EmptyTable addresses.old }
    requires room_in_bounds_2 { 4 * room ≤ length blocks.old / 8 }
    requires objects_most_in_bounds { 2 + 3 * objects_most ≤ length reply.old / 8 }
    ensures { AuditsWith image.now (length blocks.old) (length reply.old) room
        (record { number = result; list = blocks.new; reply = reply.new }) }
{
    let mut stored = [0u32; OBJECTS_MOST];
    let mut true_counts = [0u32; OBJECTS_MOST];
    let n = work_words(room);
    match audit::audit_into(
        image,
        &mut list[..n],
        addresses,
        &mut stored,
        &mut true_counts,
    ) {
        Ok(r) => {
            let used = 4 * r.block_count;
            words::spill(&list[..used], blocks);
            let found = &addresses[..r.objects];
            write_reply(reply, r.block_count, found, &stored, &true_counts);
            0
        }
        Err(refusal) => front::refuse(blocks, reply, refusal),
    }
}

// The audit with a list and a table of so many words. A list of another length has a frame of its own. A small file is audited as quickly without
// guesses, and the shorter table stays in the processor's nearest memory.
fn audit_sized<const WORDS: usize, const TABLE: usize>(
    image: &[u8],
    blocks: &mut [u8],
    reply: &mut [u8],
    room: usize,
) -> u32
    requires words { work_words room ≤ WORDS }
    requires words_fit { WORDS < 2 ^ 60 }
    requires table_fits { TABLE < 2 ^ 60 }
    requires table { index_words ≤ TABLE }
    requires room_in_bounds { 4 * room ≤ length blocks.old / 8 }
    requires objects_most_in_bounds { 2 + 3 * objects_most ≤ length reply.old / 8 }
    ensures { AuditsWith image.now (length blocks.old) (length reply.old) room
        (record { number = result; list = blocks.new; reply = reply.new }) }
{
    let mut list = [0u64; WORDS];
    let mut addresses = [0u64; TABLE];
    audit_with(image, &mut list, &mut addresses, blocks, reply, room)
}

// The audit with room for so many blocks, in the smaller list that has it. A small image is first tried with room for few blocks.
// One function for the five calls would be lent this one as a closure, and would have to say what its first try leaves: no plainer.
fn audit_in(image: &[u8], blocks: &mut [u8], reply: &mut [u8], room: usize) -> u32
    requires room_le_blocks_most { room ≤ blocks_most }
    requires room_in_bounds { 4 * room ≤ length blocks.old / 8 }
    requires objects_most_in_bounds { 2 + 3 * objects_most ≤ length reply.old / 8 }
    ensures { AuditsWith image.now (length blocks.old) (length reply.old) room
        (record { number = result; list = blocks.new; reply = reply.new }) }
{
    if room <= FEW_BLOCKS {
        return audit_sized::<FEW_WORDS, INDEX_WORDS>(image, blocks, reply, room);
    }
    if image.len() <= SMALL_IMAGE {
        let number = audit_in(image, blocks, reply, front::few_room(image.len()));
        if number != front::NO_ROOM {
            return number;
        }
    }
    audit_sized::<WORK_WORDS, TABLE_WORDS>(image, blocks, reply, room)
}

// The audit of an image. `blocks` gets the block list, `reply` the other fields; the number is returned.
pub fn audit_bytes(image: &[u8], blocks: &mut [u8], reply: &mut [u8]) -> u32
    ensures { ◌≡◌ {A = CReply} (record { number = result; list = blocks.new; reply = reply.new })
        (c_audit image.now (length blocks.old) (length reply.old)) }
{
    let limits = format::the_limits();
    if reply.len() / 8 < 2 + 3 * limits.objects_most {
        front::clear_both(blocks, reply);
        return front::NO_ROOM;
    }
    let room = walk::blocks::room(blocks.len() / 8);
    audit_in(image, blocks, reply, room)
}
