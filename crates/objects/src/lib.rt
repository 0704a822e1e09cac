// All objects of the audit, in order of discovery.
#![tactic(auto)]

ghost use Rattle.format.specs.Limits.{objects_most};
ghost use Rattle.format.specs.Audit.{objects_walk};
ghost use Rattle.walk.specs.Entered.{SameWords};
ghost use Rattle.sharing.specs.Lent.{SameFound};
ghost use Rattle.superblock.specs.Superblock.{superblock_of};
ghost use Rattle.object.specs.Object.{Opened, ListedWith, WalkedWith};

use format::Refusal;
use sharing::Found;
use superblock::File;
use walk::blocks::Blocks;

// Walks each object of the table once, and those that are found on the way, from the first one on. The table grows while it is walked, so that no
// range has its places.
pub fn read(
    file: File<'_>,
    blocks: &mut Blocks<'_>,
    found: &mut Found<'_, '_>,
) -> Result<(), Refusal>
    requires opened { Opened file.image.now file.superblock file.room }
    requires listed { ListedWith file blocks.old found.old 0 }
    ensures walked { WalkedWith file.entry blocks.old found.old (objects_walk (superblock_of file.entry.superblock) objects_most 0) blocks.new found.new result }
    ensures kept { SameWords blocks.old blocks.new }
    ensures kept_found { SameFound found.old found.new }
{
    let mut i: usize = 0;
    while i < found.objects.count {
        let at = found.objects.addresses[i];
        object::object::read(file, blocks, found, i, at)?;
        i += 1;
    }
    Ok(())
}
