// The description of a dataset on byte slices.
#![tactic(auto)]

ghost use Rattle.std.specs.Prelude.{◌≡◌, [], ◌+◌, ◌*◌, ◌/◌, ◌≤◌, length, ◌<◌, ◌^◌, Ok};
ghost use Rattle.format.specs.Bytes.{overwrite};
ghost use Rattle.format.specs.Limits.{rank_most, blocks_most};
ghost use Rattle.format.specs.Front.{word_bytes, padded_bytes, description_words, CReply, c_describe};
ghost use Rattle.describe.specs.Describe.{reply_of};
ghost use Rattle.front_describe.specs.With.{DescribesWith};
ghost use Rattle.walk.specs.Lent.{work_words};

use describe::Description;
use front::{FEW_BLOCKS, FEW_WORDS, SMALL_IMAGE};
use walk::blocks::{WORK_WORDS, work_words};

// Writes words one after the other.
fn put_words(reply: &mut [u8], at: usize, words: &[u64])
    requires { at + 8 * length words.now ≤ length reply.old }
    ensures { reply.new ≡ overwrite reply.old at (word_bytes words.now) }
{
    for (i, word) in words.iter().enumerate() {
        words::put_word(reply, at + 8 * i, *word);
    }
}

// The reply of a description that is done: block count, rank, sizes, maxima, the other fields, and zeros behind them.
fn write_description(reply: &mut [u8], d: Description)
    requires { 592 ≤ length reply.old }
    ensures { reply.new ≡ padded_bytes (length reply.old) (description_words (reply_of [] (Ok d))) }
{
    let sizes = d.sizes;
    let maxima = d.maxima;
    let first = [d.block_count as u64, d.rank as u64];
    let last = [
        d.class as u64,
        d.version as u64,
        d.bits as u64,
        d.size as u64,
        d.shared,
        d.layout_class as u64,
        d.data_address,
        d.data_size,
    ];
    put_words(reply, 0, &first);
    put_words(reply, 16, &sizes);
    put_words(reply, 272, &maxima);
    put_words(reply, 528, &last);
    words::clear_from(reply, 592);
}

// The description with room for so many blocks in a list.
// C lends the slices one by one. A value of them would need a clause in each contract that the same slices are lent still: no plainer than these parameters.
fn describe_with(
    image: &[u8],
    path: &[u8],
    list: &mut [u64],
    blocks: &mut [u8],
    reply: &mut [u8],
    room: usize,
) -> u32
    requires room_in_bounds { work_words room ≤ length list.old }
    requires room_in_bounds_2 { 4 * room ≤ length blocks.old / 8 }
    requires rank_most_in_bounds { 10 + 2 * rank_most ≤ length reply.old / 8 }
    ensures { DescribesWith image.now path.now (length blocks.old) (length reply.old) room
        (record { number = result; list = blocks.new; reply = reply.new }) }
{
    let n = work_words(room);
    match describe::describe_in(image, path, &mut list[..n]) {
        Ok(r) => {
            let used = 4 * r.block_count;
            words::spill(&list[..used], blocks);
            write_description(reply, r);
            0
        }
        Err(refusal) => front::refuse(blocks, reply, refusal),
    }
}

// The description with a list of so many words. A list of another length has a frame of its own.
fn describe_sized<const WORDS: usize>(
    image: &[u8],
    path: &[u8],
    blocks: &mut [u8],
    reply: &mut [u8],
    room: usize,
) -> u32
    requires words { work_words room ≤ WORDS }
    requires words_fit { WORDS < 2 ^ 60 }
    requires room_in_bounds { 4 * room ≤ length blocks.old / 8 }
    requires rank_most_in_bounds { 10 + 2 * rank_most ≤ length reply.old / 8 }
    ensures { DescribesWith image.now path.now (length blocks.old) (length reply.old) room
        (record { number = result; list = blocks.new; reply = reply.new }) }
{
    let mut list = [0u64; WORDS];
    describe_with(image, path, &mut list, blocks, reply, room)
}

// The description with room for so many blocks, in the smaller list that has it. A small image is first tried with room for few blocks.
// One function for the five calls would be lent this one as a closure, and would have to say what its first try leaves: no plainer.
fn describe_in(image: &[u8], path: &[u8], blocks: &mut [u8], reply: &mut [u8], room: usize) -> u32
    requires room_le_blocks_most { room ≤ blocks_most }
    requires room_in_bounds { 4 * room ≤ length blocks.old / 8 }
    requires rank_most_in_bounds { 10 + 2 * rank_most ≤ length reply.old / 8 }
    ensures { DescribesWith image.now path.now (length blocks.old) (length reply.old) room
        (record { number = result; list = blocks.new; reply = reply.new }) }
{
    if room <= FEW_BLOCKS {
        return describe_sized::<FEW_WORDS>(image, path, blocks, reply, room);
    }
    if image.len() <= SMALL_IMAGE {
        let number = describe_in(image, path, blocks, reply, front::few_room(image.len()));
        if number != front::NO_ROOM {
            return number;
        }
    }
    describe_sized::<WORK_WORDS>(image, path, blocks, reply, room)
}

// The description of what a path leads to. `blocks` gets the block list, `reply` the other fields; the number is returned.
pub fn describe_bytes(image: &[u8], path: &[u8], blocks: &mut [u8], reply: &mut [u8]) -> u32
    ensures { ◌≡◌ {A = CReply} (record { number = result; list = blocks.new; reply = reply.new })
        (c_describe image.now path.now (length blocks.old) (length reply.old)) }
{
    let limits = format::the_limits();
    if reply.len() / 8 < 10 + 2 * limits.rank_most {
        front::clear_both(blocks, reply);
        return front::NO_ROOM;
    }
    let room = walk::blocks::room(blocks.len() / 8);
    describe_in(image, path, blocks, reply, room)
}
