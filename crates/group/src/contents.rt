// What stands behind a group's heap header: the segment with its free list, then the tree.
ghost use Rattle.heap.specs.Header.{SegmentInside, segment_of};
ghost use Rattle.free_list.specs.FreeBlocks.{Sized};
ghost use Rattle.walk.specs.Entered.{SameWords};
ghost use Rattle.group.specs.Group.{Settings, Ready, ContentsAre};

use format::{Refusal, answers};
use heap::header::Heap;
use names::Strings;
use range::Name;
use symbol::entry::Group;
use tree;
use visit::Visitor;
use walk::blocks::{Blocks, Bounds};

// What every group of an image is read with: the image, what blocks keep to, and the superblock's two K.
#[derive(Clone, Copy)]
pub struct Reading<'a> {
    pub image: &'a [u8],
    pub bounds: Bounds,
    pub leaf_k: u64,
    pub internal_k: u64,
}

// What stands behind a heap header that was entered: the address of the tree, and the heap.
#[derive(Clone, Copy)]
pub struct Contents {
    pub tree: u64,
    pub heap: Heap,
}

// The tree at this address with an entered heap. The map is lent for the heap's free bytes.
pub fn read_with<V: Visitor>(
    reading: &Reading<'_>,
    blocks: &mut Blocks<'_>,
    visitor: &mut V,
    map: &mut [u8],
    contents: Contents,
) -> Result<(), Refusal>
    requires settings { Settings reading.now.image.now reading.now.bounds.end_of_file reading.now.bounds.room reading.now.leaf_k
        reading.now.internal_k }
    requires ready { Ready blocks.old.words.now reading.now.bounds.end_of_file reading.now.bounds.room blocks.old.count (V.links visitor.old) }
    requires visitor { V.Ready visitor.old }
    requires segment_inside { SegmentInside reading.now.image.now reading.now.bounds.end_of_file contents.heap }
    requires sized { Sized map.old (segment_of reading.now.image.now contents.heap) }
    ensures read { ContentsAre reading.now.image.now blocks.old.words.now (V.visit visitor.old) reading.now.bounds.end_of_file
        reading.now.bounds.room reading.now.leaf_k reading.now.internal_k contents.tree contents.heap blocks.old.count (V.found visitor.old)
        blocks.new.words.now blocks.new.count (V.links visitor.new) (V.found visitor.new) result }
    ensures visitor { V.Ready visitor.new }
    ensures kept { SameWords blocks.old blocks.new }
    ensures same { V.Same visitor.old visitor.new }
{
    let heap = contents.heap;
    let start = heap.segment;
    let end = start + heap.size;
    let image = reading.image;
    let segment = &image[start..end];
    let unsound = Refusal::Fault(answers::HEAP_UNSOUND, start);
    let known = segment::read(segment, map, heap.head).ok_or(unsound)?;
    let group = Group {
        image,
        strings: Strings {
            segment,
            map,
            head: heap.head,
            free: known.free,
            ended: known.ended,
        },
        bounds: reading.bounds,
        leaf_k: reading.leaf_k,
        internal_k: reading.internal_k,
    };
    let first = Name {
        at: 0,
        size: 0,
        first: 0,
        second: 0,
    };
    tree::tree(&group, blocks, visitor, contents.tree, first)?;
    Ok(())
}
