// The map of a heap's free bytes in three sizes: no file pays for a longer map than its heap needs. Without a free list, and for a segment that is
// too long for a map, it has no cells.
ghost use Rattle.std.specs.Prelude.{◌||◌, ◌≡◌, ◌+◌, ◌/◌, ◌^◌, ◌≤◌, ◌<◌, eqb};
ghost use Rattle.format.specs.Bytes.{undefined_address};
ghost use Rattle.heap.specs.Header.{SegmentInside};
ghost use Rattle.walk.specs.Entered.{SameWords};
ghost use Rattle.group.specs.Group.{Settings, Ready, ContentsAre};

use crate::contents::{Contents, Reading, read_with};
use format::Refusal;
use visit::Visitor;
use walk::blocks::Blocks;
use walk::numbers::UNDEFINED_ADDRESS;

// So many cells of 16 bytes: for segments below 2 KiB, for those below 128 KiB, and for those below 1 MiB.
const FEW_CELLS: usize = 128;

const MANY_CELLS: usize = 8192;

const MOST_CELLS: usize = 65536;

// Whether there is no free list.
fn no_list(head: u64) -> bool
    ensures { result ≡ (eqb head 1 || eqb head undefined_address) }
{
    head == 1 || head == UNDEFINED_ADDRESS
}

// A map of no cells.
fn read_plain<V: Visitor>(
    reading: &Reading<'_>,
    blocks: &mut Blocks<'_>,
    visitor: &mut V,
    contents: Contents,
) -> Result<(), Refusal>
    requires settings { Settings reading.now.image.now reading.now.bounds.end_of_file reading.now.bounds.room reading.now.leaf_k
        reading.now.internal_k }
    requires ready { Ready blocks.old.words.now reading.now.bounds.end_of_file reading.now.bounds.room blocks.old.count (V.links visitor.old) }
    requires visitor { V.Ready visitor.old }
    requires segment_inside { SegmentInside reading.now.image.now reading.now.bounds.end_of_file contents.heap }
    ensures read { ContentsAre reading.now.image.now blocks.old.words.now (V.visit visitor.old) reading.now.bounds.end_of_file
        reading.now.bounds.room reading.now.leaf_k reading.now.internal_k contents.tree contents.heap blocks.old.count (V.found visitor.old)
        blocks.new.words.now blocks.new.count (V.links visitor.new) (V.found visitor.new) result }
    ensures visitor { V.Ready visitor.new }
    ensures kept { SameWords blocks.old blocks.new }
    ensures same { V.Same visitor.old visitor.new }
{
    read_with(reading, blocks, visitor, &mut [], contents)
}

// A map of so many cells, as many of them as the segment has.
fn read_mapped<V: Visitor, const CELLS: usize>(
    reading: &Reading<'_>,
    blocks: &mut Blocks<'_>,
    visitor: &mut V,
    contents: Contents,
) -> Result<(), Refusal>
    requires settings { Settings reading.now.image.now reading.now.bounds.end_of_file reading.now.bounds.room reading.now.leaf_k
        reading.now.internal_k }
    requires ready { Ready blocks.old.words.now reading.now.bounds.end_of_file reading.now.bounds.room blocks.old.count (V.links visitor.old) }
    requires visitor { V.Ready visitor.old }
    requires segment_inside { SegmentInside reading.now.image.now reading.now.bounds.end_of_file contents.heap }
    requires size_bound { contents.heap.size / 16 + 1 ≤ CELLS }
    requires cells_bound { CELLS < 2 ^ 63 }
    ensures read { ContentsAre reading.now.image.now blocks.old.words.now (V.visit visitor.old) reading.now.bounds.end_of_file
        reading.now.bounds.room reading.now.leaf_k reading.now.internal_k contents.tree contents.heap blocks.old.count (V.found visitor.old)
        blocks.new.words.now blocks.new.count (V.links visitor.new) (V.found visitor.new) result }
    ensures visitor { V.Ready visitor.new }
    ensures kept { SameWords blocks.old blocks.new }
    ensures same { V.Same visitor.old visitor.new }
{
    let mut map = [0u8; CELLS];
    let cells = contents.heap.size / 16 + 1;
    read_with(reading, blocks, visitor, &mut map[..cells], contents)
}

// The contents of a group with an entered heap, with a map that is as long as the segment asks for. A list is followed for each name in a segment that
// is too long.
pub fn read_in<V: Visitor>(
    reading: &Reading<'_>,
    blocks: &mut Blocks<'_>,
    visitor: &mut V,
    contents: Contents,
) -> Result<(), Refusal>
    requires settings { Settings reading.now.image.now reading.now.bounds.end_of_file reading.now.bounds.room reading.now.leaf_k
        reading.now.internal_k }
    requires ready { Ready blocks.old.words.now reading.now.bounds.end_of_file reading.now.bounds.room blocks.old.count (V.links visitor.old) }
    requires visitor { V.Ready visitor.old }
    requires segment_inside { SegmentInside reading.now.image.now reading.now.bounds.end_of_file contents.heap }
    ensures read { ContentsAre reading.now.image.now blocks.old.words.now (V.visit visitor.old) reading.now.bounds.end_of_file
        reading.now.bounds.room reading.now.leaf_k reading.now.internal_k contents.tree contents.heap blocks.old.count (V.found visitor.old)
        blocks.new.words.now blocks.new.count (V.links visitor.new) (V.found visitor.new) result }
    ensures visitor { V.Ready visitor.new }
    ensures kept { SameWords blocks.old blocks.new }
    ensures same { V.Same visitor.old visitor.new }
{
    let heap = contents.heap;
    if no_list(heap.head) {
        return read_plain(reading, blocks, visitor, contents);
    }
    if heap.size / 16 < FEW_CELLS {
        return read_mapped::<V, FEW_CELLS>(reading, blocks, visitor, contents);
    }
    if heap.size / 16 < MANY_CELLS {
        return read_mapped::<V, MANY_CELLS>(reading, blocks, visitor, contents);
    }
    if heap.size / 16 < MOST_CELLS {
        return read_mapped::<V, MOST_CELLS>(reading, blocks, visitor, contents);
    }
    read_plain(reading, blocks, visitor, contents)
}
