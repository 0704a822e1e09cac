// All components of a path, from the root on.
#![tactic(auto)]

ghost use Rattle.std.specs.Prelude.{◌≤◌, length};
ghost use Rattle.walk.specs.Lent.{Lent, places_of};
ghost use Rattle.superblock.specs.Superblock.{superblock_of};
ghost use Rattle.object.specs.Object.{Opened, Bounded};
ghost use Rattle.path.specs.Form.{components_of};
ghost use Rattle.component.specs.Component.{EndsAs};
ghost use Rattle.follow.specs.Follow.{target_run};

use component::Target;
use format::Refusal;
use superblock::{File, Superblock};
use walk::blocks;

// Looks up one component after the other. A component begins where the one before it ends, so that no range has their places.
fn follow(file: File<'_>, path: &[u8], list: &mut [u64]) -> Result<Target, Refusal>
    requires opened { Opened file.image.now file.superblock file.room }
    requires lent { Lent list.old 0 file.room }
    requires in_bounds { 1 ≤ length path.now }
    ensures { EndsAs result (target_run file.entry.image.now (superblock_of file.entry.superblock) file.entry.room (components_of path.now) file.entry.superblock.root) }
{
    let mut at = file.superblock.root;
    if path.len() == 1 {
        return Ok(Target::Object(at));
    }
    let mut from: usize = 1;
    while from <= path.len() {
        let end = path::component_end(path, from);
        let last = end == path.len();
        let target = component::component(file, &path[from..end], list, at, last)?;
        match target {
            Target::Symbolic => return Ok(Target::Symbolic),
            Target::Object(address) => {
                at = address;
                from = end + 1;
            }
        }
    }
    Ok(Target::Object(at))
}

// Where a path leads in an opened image, with the whole list lent for the blocks of each component.
pub fn find_object(
    image: &[u8],
    path: &[u8],
    list: &mut [u64],
    superblock: Superblock,
) -> Result<Target, Refusal>
    requires bounded { Bounded image.now superblock }
    requires in_bounds { 1 ≤ length path.now }
    ensures { EndsAs result (target_run image.now (superblock_of superblock) (places_of (length list.old))
        (components_of path.now) superblock.root) }
{
    let file = File {
        image,
        superblock,
        room: blocks::places(list.len()),
    };
    follow(file, path, list)
}
