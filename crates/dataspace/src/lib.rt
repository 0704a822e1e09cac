// The dataspace message, version 1. A reader sees the body alone.
#![tactic(auto)]

ghost use Rattle.std.specs.Prelude.{◌≡◌, ◌+◌, ◌*◌, ◌≤◌, eqb, length, drop};
ghost use Rattle.format.specs.Limits.{rank_most};
ghost use Rattle.format.specs.Bytes.{to_words, contains, padded};
ghost use Rattle.format.specs.Dataspace.{product, all_at_most};
ghost use Rattle.dataspace.specs.Dataspace.{SpaceRead, Sizes};

use format::answers;
use walk::numbers::u64_at;

// The rank, and whether maxima are stored. The sizes and maxima themselves stay in the message's body.
#[derive(Clone, Copy)]
pub struct Dimensions {
    pub rank: usize,
    pub maxima_stored: bool,
}

// Whether no size is above the maximum in its place: `rank` words at `sizes`, and as many at `maxima`.
fn at_most(body: &[u8], sizes: usize, maxima: usize, rank: usize) -> bool
    requires rank_in_bounds { sizes + 8 * rank ≤ length body.now }
    requires rank_in_bounds_2 { maxima + 8 * rank ≤ length body.now }
    ensures { result ≡ all_at_most (to_words rank (drop sizes body.now)) (to_words rank (drop maxima body.now)) }
{
    for i in 0..rank {
        let size = u64_at(body, sizes + 8 * i);
        let maximum = u64_at(body, maxima + 8 * i);
        if maximum < size {
            return false;
        }
    }
    true
}

// Reads the message: what it says of the dimensions, or 3 or 11.
pub fn read(body: &[u8]) -> Result<Dimensions, u8>
    ensures { SpaceRead body.now result }
{
    let limits = format::the_limits();
    if body.len() < 8 {
        return Err(answers::DATASET_UNSOUND);
    }
    if body[0] != 1 {
        return Err(answers::NOT_READ);
    }
    let rank = usize::from(body[1]);
    if limits.rank_most < rank {
        return Err(answers::DATASET_UNSOUND);
    }
    let flags = body[2];
    if 1 < flags {
        return Err(answers::NOT_READ);
    }
    let maxima = 8 + 8 * rank;
    if body.len() < maxima {
        return Err(answers::DATASET_UNSOUND);
    }
    if flags != 1 {
        return Ok(Dimensions {
            rank,
            maxima_stored: false,
        });
    }
    if body.len() < maxima + 8 * rank {
        return Err(answers::DATASET_UNSOUND);
    }
    if !at_most(body, 8, maxima, rank) {
        return Err(answers::DATASET_UNSOUND);
    }
    Ok(Dimensions {
        rank,
        maxima_stored: true,
    })
}

// The `rank` words at `from`, and zeros behind them.
pub fn words(body: &[u8], from: usize, rank: usize) -> [u64; format::RANK_MOST]
    requires rank_in_bounds { from + 8 * rank ≤ length body.now }
    requires rank_le_rank_most { rank ≤ rank_most }
    ensures { result ≡ padded rank_most (to_words rank (drop from body.now)) }
{
    let mut words = [0; format::RANK_MOST];
    for i in 0..rank {
        words[i] = u64_at(body, from + 8 * i);
    }
    words
}

// Whether one of the sizes is 0.
fn has_zero(body: &[u8], rank: usize) -> bool
    requires { 8 + 8 * rank ≤ length body.now }
    ensures { result ≡ contains 0 (to_words rank (drop 8 body.now)) }
{
    for i in 0..rank {
        if u64_at(body, 8 + 8 * i) == 0 {
            return true;
        }
    }
    false
}

// Whether the sizes, none of them 0, and the element size multiply to `stored`. The product so far is never above `stored`.
fn multiplies_to(body: &[u8], rank: usize, element_size: u64, stored: u64) -> bool
    requires { Sizes body.now rank }
    ensures { result ≡ eqb (product (to_words rank (drop 8 body.now)) * element_size) stored }
{
    if stored < element_size {
        return false;
    }
    let mut so_far = element_size;
    for i in 0..rank {
        let size = u64_at(body, 8 + 8 * i);
        if stored / size < so_far {
            return false;
        }
        so_far *= size;
    }
    so_far == stored
}

// Whether the elements, each of `element_size` bytes, take `stored` bytes.
pub fn fills(body: &[u8], rank: usize, element_size: u64, stored: u64) -> bool
    requires { 8 + 8 * rank ≤ length body.now }
    ensures { result ≡ eqb (product (to_words rank (drop 8 body.now)) * element_size) stored }
{
    if has_zero(body, rank) {
        return stored == 0;
    }
    multiplies_to(body, rank, element_size, stored)
}
