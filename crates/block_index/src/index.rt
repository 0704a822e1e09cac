// The index of a block list. The numbers of the blocks stand in two runs: the last blocks have one of their own, and when it is full
// it is merged into the other, so that no order of addresses makes entering slow.
ghost use Rattle.std.specs.Prelude.{◌≡◌, ◌+◌, ◌^◌, ◌<◌};
ghost use Rattle.block_index.specs.Index.{Indexed, places_for};
ghost use Rattle.block_index.specs.Search.{FoundIn, first_run, second_run};

use crate::search::{Run, meets, place_in};

// The blocks that the second run has when it is merged into the first.
pub const RUN_MOST: usize = 64;

// How many blocks so many words have a place for.
pub fn places_for(words: usize) -> usize
    ensures { result ≡ places_for words }
{
    if words < 2 * RUN_MOST {
        return 0;
    }
    (words - 2 * RUN_MOST) / 5
}

pub fn first_run(words: usize, count: usize) -> Run
    ensures { result ≡ first_run words count }
{
    Run {
        base: 4 * places_for(words),
        first: 0,
        count: count / RUN_MOST * RUN_MOST,
    }
}

pub fn second_run(words: usize, count: usize) -> Run
    ensures { result ≡ second_run words count }
{
    Run {
        base: 5 * places_for(words),
        first: count / RUN_MOST * RUN_MOST,
        count: count % RUN_MOST,
    }
}

// Whether a block is met, the places of the address in the first run and in the second, and how many blocks were compared.
#[derive(Clone, Copy)]
pub struct Found {
    pub met: bool,
    pub first: usize,
    pub second: usize,
    pub tests: usize,
}

// The blocks of a list: its words, and how many blocks are indexed in it.
#[derive(Clone, Copy)]
pub struct BlockList<'a> {
    pub words: &'a [u64],
    pub count: usize,
}

// The `size` bytes at `at`, which are to be a block.
#[derive(Clone, Copy)]
pub struct NewBlock {
    pub at: u64,
    pub size: u64,
}

impl BlockList<'_> {
    // Searches for the bytes of a new block.
    pub fn find(self, new: NewBlock) -> Found
        requires indexed { Indexed self.words.now self.count }
        requires size_bound { new.at + new.size < 2 ^ 64 }
        ensures { FoundIn self.entry.words.now self.entry.count new.at new.size result }
    {
        let blocks = self.words;
        let end = new.at + new.size;
        let run = first_run(blocks.len(), self.count);
        let last = second_run(blocks.len(), self.count);
        let first = place_in(blocks, run, new.at);
        let second = place_in(blocks, last, new.at);
        let mut met = meets(blocks, run, first.place, end);
        if !met {
            met = meets(blocks, last, second.place, end);
        }
        Found {
            met,
            first: first.place,
            second: second.place,
            tests: first.tests + second.tests,
        }
    }
}
