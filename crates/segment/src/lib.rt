// A heap's data segment, looked over once: its free list with a map of its free bytes, and where its strings end.
#![tactic(auto)]

ghost use Rattle.std.specs.Prelude.{List, ◌*◌, ◌≤◌, ◌<◌, length};
ghost use Rattle.format.specs.Blocks.{Block};
ghost use Rattle.free_map.specs.FreeMap.{MapOf};
ghost use Rattle.string_ends.specs.Ends.{Marked};
ghost use Rattle.free_list.specs.FreeBlocks.{Sized};
ghost use Rattle.segment.specs.Segment.{SegmentIs};

use free_list::free_list;
use nul::last_nul;

// The number of a segment's free blocks, and of its bytes up to the last NUL, with it.
#[derive(Clone, Copy)]
pub struct Segment {
    pub free: usize,
    pub ended: usize,
}

// Marks the cells of a map, if there is one.
fn mark(segment: &[u8], map: &mut [u8])
    requires { 0 < length map.old → length segment.now ≤ 16 * length map.old }
    ensures { (bs : List Block) → MapOf map.old segment.now bs → MapOf map.new segment.now bs ×
        Marked map.new segment.now bs }
{
    if map.len() == 0 {
        return;
    }
    string_ends::mark(segment, map);
}

// Follows the free list from `head` on; there is nothing where it is unsound. The map is lent for the free bytes: of no cells where there is no list, or
// where the segment is too long for a map.
pub fn read(segment: &[u8], map: &mut [u8], head: u64) -> Option<Segment>
    requires { Sized map.old segment.now }
    ensures { SegmentIs segment.now map.new head result }
{
    let free = free_list(segment, map, head)?;
    mark(segment, map);
    Some(Segment {
        free,
        ended: last_nul(segment),
    })
}
