// The map of a segment's free bytes: one byte for each 16 bytes of the segment, a cell.
#![tactic(auto)]

pub mod adding;

ghost use Rattle.std.specs.Prelude.{List, ◌≡◌, ℕ, ◌+◌, ◌≤◌, ◌<◌, ◌^◌, length, get_or};
ghost use Rattle.format.specs.Blocks.{Block, overlaps_any};
ghost use Rattle.free_map.specs.FreeMap.{free_start, free_end, MapOf};
ghost use Rattle.free_map.specs.Cells.{cell_meets};

// The number of a cell; 0 for one behind the map.
pub fn cell(map: &[u8], c: usize) -> u8
    ensures { result ≡ get_or map.now c 0 }
{
    if c < map.len() {
        return map[c];
    }
    0
}

// How many bytes at the start of a cell are free.
pub fn free_start(v: u8) -> u8
    ensures { result ≡ free_start v }
{
    if v < 17 {
        return v;
    }
    if v < 33 {
        return v - 17;
    }
    (v - 33) % 15
}

// How many at its end.
pub fn free_end(v: u8) -> u8
    ensures { result ≡ free_end v }
{
    if v < 33 {
        return 0;
    }
    (v - 33) / 15 + 1
}

// Whether one of the bytes of a cell from `from` up to `end` is free.
fn cell_meets(v: u8, from: usize, end: usize) -> bool
    requires { end ≤ 16 }
    ensures { result ≡ cell_meets v from end }
{
    if v == 0 {
        return false;
    }
    if from < free_start(v) as usize {
        return true;
    }
    16 < end + free_end(v) as usize
}

// Whether one of the `size` bytes at `off` is free.
pub fn meets(map: &[u8], off: usize, size: usize) -> bool
    requires size_nonzero { 0 < size }
    requires size_bound { off + size < 2 ^ 64 }
    ensures { (seg : List ℕ) (bs : List Block) → MapOf map.now seg bs → off + size ≤ length seg → result ≡ overlaps_any bs off size }
{
    let last = off + size - 1;
    let last_cell = last / 16;
    let mut from = off % 16;
    for c in off / 16..last_cell {
        if cell_meets(cell(map, c), from, 16) {
            return true;
        }
        from = 0;
    }
    cell_meets(cell(map, last_cell), from, last % 16 + 1)
}
