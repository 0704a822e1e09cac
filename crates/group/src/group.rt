// A whole group: its heap, then its tree.
ghost use Rattle.walk.specs.Entered.{SameWords};
ghost use Rattle.group.specs.Group.{Settings, Ready, GroupIs};

use crate::contents::{Contents, Reading};
use crate::maps;
use format::Refusal;
use heap::header;
use visit::Visitor;
use walk::blocks::Blocks;

// The group with the tree and the heap at these addresses. What is done at an entry is the visitor's.
pub fn read<V: Visitor>(
    reading: &Reading<'_>,
    blocks: &mut Blocks<'_>,
    visitor: &mut V,
    tree: u64,
    heap: u64,
) -> Result<(), Refusal>
    requires settings { Settings reading.now.image.now reading.now.bounds.end_of_file reading.now.bounds.room reading.now.leaf_k
        reading.now.internal_k }
    requires ready { Ready blocks.old.words.now reading.now.bounds.end_of_file reading.now.bounds.room blocks.old.count (V.links visitor.old) }
    requires visitor { V.Ready visitor.old }
    ensures read { GroupIs reading.now.image.now blocks.old.words.now (V.visit visitor.old) reading.now.bounds.end_of_file
        reading.now.bounds.room reading.now.leaf_k reading.now.internal_k tree heap blocks.old.count (V.found visitor.old)
        blocks.new.words.now blocks.new.count (V.links visitor.new) (V.found visitor.new) result }
    ensures visitor { V.Ready visitor.new }
    ensures kept { SameWords blocks.old blocks.new }
    ensures same { V.Same visitor.old visitor.new }
{
    let heap = header::open(reading.image, blocks, reading.bounds, heap)?;
    maps::read_in(reading, blocks, visitor, Contents { tree, heap })
}
