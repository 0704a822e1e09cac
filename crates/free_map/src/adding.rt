// A free block added to the map. It has 16 bytes or more, so that it takes the end of its first cell and the start of its last one.
ghost use Rattle.std.specs.Prelude.{false, List, [], ◌∷◌, ◌++◌, ◌≡◌, ℕ, ◌+◌, ◌*◌, ◌≤◌, ◌<◌, ◌^◌, length, get_or, set};
ghost use Rattle.format.specs.Blocks.{Block, block, overlaps_any};
ghost use Rattle.free_map.specs.FreeMap.{free_start, free_end, MapOf};
ghost use Rattle.free_map.specs.Cells.{joined_cell, Filled};

use crate::{free_end, free_start};

// The number of a cell with so many free bytes at its start and at its end.
fn joined(start: u8, end: u8) -> u8
    requires start_bound { start ≤ 16 }
    requires end_bound { end ≤ 16 }
    ensures { result ≡ joined_cell start end }
{
    if 16 <= start + end {
        return 16;
    }
    if end == 0 {
        return start;
    }
    33 + (end - 1) * 15 + start
}

// Makes the last `n` bytes of a cell free.
fn free_at_end(map: &mut [u8], c: usize, n: u8)
    requires c_in_bounds { c < length map.old }
    requires n_bound { n ≤ 16 }
    ensures { map.new ≡ set map.old c (joined_cell (free_start (get_or map.old c 0)) n) }
{
    map[c] = joined(free_start(map[c]), n);
}

// Makes its first `n` bytes free.
fn free_at_start(map: &mut [u8], c: usize, n: u8)
    requires c_in_bounds { c < length map.old }
    requires n_bound { n ≤ 16 }
    ensures { map.new ≡ set map.old c (joined_cell n (free_end (get_or map.old c 0))) }
{
    map[c] = joined(n, free_end(map[c]));
}

// Makes the cells from `from` up to `end` free.
fn free_whole(map: &mut [u8], from: usize, end: usize)
    requires from_le_end { from ≤ end }
    requires end_in_bounds { end ≤ length map.old }
    ensures { Filled map.old from end map.new }
{
    map[from..end].fill(16);
}

// Makes the `size` bytes at `off` free, none of which is.
pub fn add(map: &mut [u8], off: usize, size: usize)
    requires le_size { 16 ≤ size }
    requires size_bound { off + size < 2 ^ 64 }
    requires size_bound_2 { off + size ≤ 16 * length map.old }
    ensures map_len_unchanged { length map.new ≡ length map.old }
    ensures by_index { (seg : List ℕ) (bs : List Block) → MapOf map.old seg bs → off + size ≤ length seg →
        overlaps_any bs off size ≡ false → MapOf map.new seg (bs ++ (block off size ∷ [])) }
{
    let first = off / 16;
    let end = off + size;
    let last = end / 16;
    free_at_end(map, first, 16 - (off % 16) as u8);
    free_whole(map, first + 1, last);
    let rest = (end % 16) as u8;
    let whole = rest == 0;
    if whole {
        return;
    }
    free_at_start(map, last, rest);
}
