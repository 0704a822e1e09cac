// Which bytes of a segment are free: by its map or, where the map has no cells, by the list itself.
ghost use Rattle.std.specs.Prelude.{◌≡◌, ◌+◌, ◌≤◌, ◌<◌, length};
ghost use Rattle.format.specs.Blocks.{overlaps_any};
ghost use Rattle.free_list.specs.FreeBlocks.{chain, Chained, Held};

use free_map::meets;
use walk::numbers::u64_at;

// The first `count` free blocks of a segment, whose list begins at `head`.
#[derive(Clone, Copy)]
pub struct FreeBlocks<'a> {
    pub segment: &'a [u8],
    pub head: u64,
    pub count: usize,
}

// Whether one of the free blocks shares a byte with the `size` bytes at `off`, by following the list.
pub fn overlaps_free(free: FreeBlocks<'_>, off: u64, size: u64) -> bool
    requires chained { Chained free.count free.segment.now free.head }
    requires size_in_bounds { off + size ≤ length free.segment.now }
    ensures { result ≡ overlaps_any (chain free.entry.count free.entry.segment.now free.entry.head) off size }
{
    let segment = free.segment;
    let end = off + size;
    let mut at = free.head;
    for _i in 0..free.count {
        let place = at as usize;
        let own = u64_at(segment, place + 8);
        if at < end && (off < at || off - at < own) {
            return true;
        }
        at = u64_at(segment, place);
    }
    false
}

// The same, by the map where there is one.
pub fn meets_free(free: FreeBlocks<'_>, map: &[u8], off: usize, size: usize) -> bool
    requires held { Held free.segment.now map.now free.head free.count }
    requires size_nonzero { 0 < size }
    requires size_in_bounds { off + size ≤ length free.segment.now }
    ensures { result ≡ overlaps_any (chain free.entry.count free.entry.segment.now free.entry.head) off size }
{
    if map.len() == 0 {
        return overlaps_free(free, off as u64, size as u64);
    }
    meets(map, off, size)
}
