// The first block entered that a refused block meets. Only for a refused block are more blocks compared than in the search.
ghost use Rattle.std.specs.Prelude.{true, ◌≡◌, ℕ, ◌+◌, ◌^◌, ◌<◌};
ghost use Rattle.block_index.specs.Index.{Indexed};
ghost use Rattle.block_index.specs.Search.{Sorted, Placed, FoundIn, LeastMet, FirstMet};

use crate::index::{BlockList, Found, NewBlock, first_run, second_run};
use crate::search::Run;

// The least number of a run's blocks that begin before `end`, from the place on, and of `least`.
fn least_met(blocks: &[u64], run: Run, place: usize, end: u64, least: usize) -> usize
    requires { Sorted blocks.now run }
    ensures { (a n : ℕ) → a + n ≡ end → Placed blocks.now run a place → LeastMet blocks.now run a n least result }
{
    let mut low = least;
    for k in place..run.count {
        let b = run.first + blocks[run.base + k] as usize;
        if end <= blocks[4 * b] {
            return low;
        }
        if b < low {
            low = b;
        }
    }
    low
}

impl BlockList<'_> {
    // The number of the first block entered that a new one meets, where it meets one.
    pub fn first_met(self, found: Found, new: NewBlock) -> usize
        requires indexed { Indexed self.words.now self.count }
        requires size_bound { new.at + new.size < 2 ^ 64 }
        requires found_in { FoundIn self.words.now self.count new.at new.size found }
        requires met_value { found.met ≡ true }
        ensures { FirstMet self.entry.words.now self.entry.count new.at new.size result }
    {
        let blocks = self.words;
        let end = new.at + new.size;
        let run = first_run(blocks.len(), self.count);
        let last = second_run(blocks.len(), self.count);
        let low = least_met(blocks, run, found.first, end, self.count);
        least_met(blocks, last, found.second, end, low)
    }
}
