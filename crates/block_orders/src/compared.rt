// Blocks entered one after another.
ghost use Rattle.std.specs.Prelude.{ℕ, ◌+◌, ◌^◌, ◌<◌, ◌≤◌, length};
ghost use Rattle.walk.specs.Lent.{places_of};

use block_index::index::NewBlock;
use walk::blocks::{Blocks, Bounds, places};
use walk::kinds;

// How many blocks were entered, and with how many others one of them was compared at most.
#[derive(Clone, Copy)]
pub struct Compared {
    pub entered: usize,
    pub most: usize,
}

// The contract of `compare` bounds the highest number from above alone: that it is the highest is said here.
fn larger(a: usize, b: usize) -> usize
    ensures { (a ≤ result) × (b ≤ result) × ((n : ℕ) → a ≤ n → b ≤ n → result ≤ n) }
{
    a.max(b)
}

// Enters blocks of `size` bytes at these addresses into a working list, up to the first that can't be entered.
pub fn compare(work: &mut [u64], addresses: &[u64], size: u64, end_of_file: u64) -> Compared
    ensures { (m : ℕ) → places_of (length work.old) < 2 ^ m → result.most ≤ m + 10 }
{
    let bounds = Bounds {
        end_of_file,
        room: places(work.len()),
    };
    let mut blocks = Blocks {
        words: work,
        count: 0,
    };
    let mut most: usize = 0;
    for at in addresses {
        let at = *at;
        if end_of_file < at || end_of_file - at < size {
            break;
        }
        let found = blocks.list().find(NewBlock { at, size });
        if blocks.enter(bounds, kinds::DATA, at, size).is_err() {
            break;
        }
        most = larger(most, found.tests);
    }
    Compared {
        entered: blocks.count,
        most,
    }
}
