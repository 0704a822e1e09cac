// How many blocks a walk has entered, found in its list. A refusal doesn't say: the list is filled with the undefined address
// before the walk, and no block has that address.
ghost use Rattle.std.specs.Prelude.{◌≡◌, length, replicate};
ghost use Rattle.format.specs.Bytes.{undefined_address};
ghost use Rattle.damaged_block.specs.Entered.{Leading};

use walk::blocks;
use walk::numbers::UNDEFINED_ADDRESS;

// Sets every word to the undefined address.
pub fn fill_undefined(list: &mut [u64])
    ensures { list.new ≡ replicate (length list.old) undefined_address }
{
    list.fill(UNDEFINED_ADDRESS);
}

// How many blocks stand before the first four whose address is undefined.
pub fn count_entered(list: &[u64]) -> usize
    ensures { Leading list.now result }
{
    let room = blocks::places(list.len());
    for count in 0..room {
        if list[4 * count] == UNDEFINED_ADDRESS {
            return count;
        }
    }
    room
}
