// What the calls share: the answer for want of room, the room that is tried first, zeros, and the reply to a refusal.
#![tactic(auto)]

ghost use Rattle.std.specs.Prelude.{◌≡◌, ◌≤◌, length, replicate};
ghost use Rattle.format.specs.Walk.{answer_of, met_of};
ghost use Rattle.format.specs.Front.{padded_bytes, refusal_words};
ghost use Rattle.front.specs.Few.{few_blocks};

use format::{Refusal, answers, met_of, number_of};

// The answer for want of room: to a reply that is too short it is given before the image is read.
pub const NO_ROOM: u32 = 13;

// A working list for all blocks takes longer to clear than a small file to read, and more stack. So an image of at most so many
// bytes is first read with a list for few blocks.
pub const SMALL_IMAGE: usize = 16384;

pub const FEW_BLOCKS: usize = 64;

pub const FEW_WORDS: usize = 5 * FEW_BLOCKS + 128;

// The room that an image of so many bytes is tried with first: few blocks, and no more than it has bytes. A function that calls itself
// with this room keeps a frame of its own for each list: of a room that is known the compiler would make one function with both.
pub fn few_room(image: usize) -> usize
    ensures { result ≤ few_blocks }
{
    if image < FEW_BLOCKS {
        return image;
    }
    FEW_BLOCKS
}

// Zeros for both slices.
pub fn clear_both(blocks: &mut [u8], reply: &mut [u8])
    ensures blocks_after { blocks.new ≡ replicate (length blocks.old) 0 }
    ensures reply_after { reply.new ≡ replicate (length reply.old) 0 }
{
    words::clear_from(blocks, 0);
    words::clear_from(reply, 0);
}

// The reply to a refusal: zeros, but with 6 the block met in the first word.
pub fn refuse(blocks: &mut [u8], reply: &mut [u8], refusal: Refusal) -> u32
    requires { 8 ≤ length reply.old }
    ensures value { result ≡ answer_of refusal }
    ensures blocks_after { blocks.new ≡ replicate (length blocks.old) 0 }
    ensures reply_after { reply.new ≡ padded_bytes (length reply.old) (refusal_words (answer_of refusal) (met_of refusal)) }
{
    let number = number_of(refusal);
    let without_block = number != answers::OVERLAP;
    if without_block {
        clear_both(blocks, reply);
        return number as u32;
    }
    let words = [met_of(refusal)];
    words::clear_from(blocks, 0);
    words::spill(&words, reply);
    number as u32
}
