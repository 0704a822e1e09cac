// The free list of a heap's data segment: a chain of blocks, each with the offset of the next one.
#![tactic(auto)]

pub mod search;
pub mod span;

ghost use Rattle.std.specs.Prelude.{◌*◌, ◌≤◌, ◌<◌, length};
ghost use Rattle.free_list.specs.FreeBlocks.{chain, Sized, Held, BlockAdded, ListRead};
ghost use Rattle.free_list.specs.Spanned.{Spanned};

use crate::search::FreeBlocks;
use crate::span::{Span, meets_block, widened};
use free_map::adding::add;
use walk::numbers::{UNDEFINED_ADDRESS, u64_at};

// Whether the free block at `at` lies in the segment and shares no byte with the blocks met before it. It is then added to a map that has cells.
fn add_block(met: FreeBlocks<'_>, map: &mut [u8], span: Span, at: u64) -> bool
    requires segment_len_bound { 0 < length map.old → length met.segment.now ≤ 16 * length map.old }
    requires held { Held met.segment.now map.old met.head met.count }
    requires spanned { Spanned span.low span.high (chain met.count met.segment.now met.head) }
    ensures { BlockAdded met.entry.segment.now map.old met.entry.head met.entry.count at map.new result }
{
    let segment = met.segment;
    if segment.len() < 16 {
        return false;
    }
    let last = (segment.len() - 16) as u64;
    if last < at {
        return false;
    }
    let off = at as usize;
    let size = u64_at(segment, off + 8);
    if size < 16 {
        return false;
    }
    if segment.len() as u64 - at < size {
        return false;
    }
    if meets_block(met, map, span, off, size as usize) {
        return false;
    }
    if map.len() == 0 {
        return true;
    }
    add(map, off, size as usize);
    true
}

// Follows the list to its end and adds its blocks to the map, which has none: the number of its blocks, or nothing where it is unsound. A list that comes
// back to a block is refused. Without cells in the map a list takes the square of its length, unless it rises or falls.
pub fn free_list(segment: &[u8], map: &mut [u8], head: u64) -> Option<usize>
    requires { Sized map.old segment.now }
    ensures { ListRead segment.now map.old head map.new result }
{
    if head == 1 || head == UNDEFINED_ADDRESS {
        return Some(0);
    }
    let mut at = head;
    let mut span = Span {
        low: segment.len(),
        high: 0,
    };
    for count in 0..segment.len() {
        let met = FreeBlocks {
            segment,
            head,
            count,
        };
        if !add_block(met, map, span, at) {
            return None;
        }
        let off = at as usize;
        span = widened(span, off, u64_at(segment, off + 8) as usize);
        let next = u64_at(segment, off);
        if next == 1 {
            return Some(count + 1);
        }
        at = next;
    }
    None
}
