// The number of the object that a block was walked for.
ghost use Rattle.std.specs.Prelude.{◌≡◌, List};
ghost use Rattle.format.specs.Blocks.{Block, no_object, owner_after, last_owner, block_words};

use crate::kinds;
use crate::numbers::UNDEFINED_ADDRESS;

// In place of an object's number, the superblock's.
const NO_OBJECT: u64 = UNDEFINED_ADDRESS;

// The number of the last object of the blocks whose words these are; the superblock's where there is no block.
pub fn last_owner(blocks: &[u64]) -> u64
    ensures { (bs : List Block) → blocks.now ≡ block_words no_object bs → result ≡ last_owner no_object bs }
{
    blocks.last().copied().unwrap_or(NO_OBJECT)
}

// The number for a block of a kind behind a block of the object `last`: a header is the next object's, and any other block is
// of the same object.
pub fn owner_after(last: u64, kind: u8) -> u64
    ensures { result ≡ owner_after last kind }
{
    if kind == kinds::SUPERBLOCK {
        return NO_OBJECT;
    }
    if kind != kinds::HEADER {
        return last;
    }
    if last == NO_OBJECT {
        return 0;
    }
    last + 1
}
