// The place of an address among the blocks of one run.
ghost use Rattle.std.specs.Prelude.{true, false, ◌≡◌, ℕ, ◌+◌, ◌^◌, ◌≤◌, ◌<◌};
ghost use Rattle.block_index.specs.Index.{Meets, Apart};
ghost use Rattle.block_index.specs.Search.{Sorted, Placed};

use ordering::halving;
use ordering::halving::Place;

// The numbers of `count` blocks in the order of their addresses, from the word `base` on, counted from the block `first`.
#[derive(Clone, Copy)]
pub struct Run {
    pub base: usize,
    pub first: usize,
    pub count: usize,
}

// How many blocks of a run end at an address or before it.
fn halve(blocks: &[u64], run: Run, at: u64) -> Place
    requires { Sorted blocks.now run }
    ensures placed { Placed blocks.now run at result.place }
    ensures by_index { (m : ℕ) → run.count < 2 ^ m → result.tests ≤ m }
{
    halving::halve(run.count, |k| {
        let block = run.first + blocks[run.base + k] as usize;
        blocks[4 * block] + blocks[4 * block + 1] <= at
    })
}

// Finds the place. Most blocks lie behind those entered before: so the last one is compared first. Where it doesn't end before, one in
// the run is in the place, which is to be compared too.
pub fn place_in(blocks: &[u64], run: Run, at: u64) -> Place
    requires { Sorted blocks.now run }
    ensures placed { Placed blocks.now run at result.place }
    ensures by_index { (m : ℕ) → run.count < 2 ^ m → result.tests ≤ m + 2 }
{
    let count = run.count;
    if count == 0 {
        return Place { place: 0, tests: 0 };
    }
    let b = run.first + blocks[run.base + (count - 1)] as usize;
    let before = blocks[4 * b] + blocks[4 * b + 1] <= at;
    if before {
        return Place {
            place: count,
            tests: 1,
        };
    }
    let found = halve(blocks, run, at);
    Place {
        place: found.place,
        tests: found.tests + 2,
    }
}

// Whether a block of a run is met by the bytes from an address up to `end`. Those before the place end before it, and of the others
// the first begins first: it decides.
pub fn meets(blocks: &[u64], run: Run, place: usize, end: u64) -> bool
    requires { Sorted blocks.now run }
    ensures by_index { (a n : ℕ) → a + n ≡ end → Placed blocks.now run a place → result ≡ true →
        (b : ℕ) × (b < run.count) × Meets blocks.now (run.first + b) a n }
    ensures by_index_2 { (a n : ℕ) → a + n ≡ end → Placed blocks.now run a place → result ≡ false →
        (b : ℕ) → b < run.count → Apart blocks.now (run.first + b) a n }
{
    if run.count <= place {
        return false;
    }
    let b = run.first + blocks[run.base + place] as usize;
    blocks[4 * b] < end
}
