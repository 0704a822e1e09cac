// A mend that is taken back at once: the image is then the old one, whatever lists are lent.
#![tactic(auto)]

ghost use Rattle.std.specs.Prelude.{◌≡◌, length};
ghost use Rattle.format.specs.Front.{c_mend};
ghost use Rattle.restored.specs.Restored.{Restored};

use walk::numbers::u64_at;

// Where the number of entries stands in a mend's reply: behind the block count.
const ENTRIES_AT: usize = 8;

// Mends the image and, where that is done, undoes it with the log and the entries that the mend gave. The mend's number is returned.
pub fn mend_and_undo(
    image: &mut [u8],
    blocks: &mut [u8],
    log: &mut [u8],
    reply: &mut [u8],
    limit: u64,
) -> u32
    ensures image_unchanged { image.new ≡ image.old }
    ensures restored { Restored
        (c_mend image.old (length blocks.old) (length log.old) (length reply.old) limit)
        (length reply.old) result blocks.new log.new reply.new }
{
    let number = front_mend::mend_bytes(image, blocks, log, reply, limit);
    if number != 0 {
        return number;
    }
    let entries = u64_at(reply, ENTRIES_AT);
    front_undo::undo_bytes(image, log, reply, entries, entries)
}
