// One component of a path, looked up in the object at an address, on a block list of its own.
#![tactic(auto)]

ghost use Rattle.std.specs.Prelude.{◌≡◌};
ghost use Rattle.format.specs.Lookup.{target_walk};
ghost use Rattle.visit.specs.Visit.{link_of};
ghost use Rattle.walk.specs.Lent.{Lent};
ghost use Rattle.walk.specs.Entered.{SameWords};
ghost use Rattle.group.specs.Group.{Ready};
ghost use Rattle.object.specs.Object.{Opened};
ghost use Rattle.component.specs.Component.{target_of, FoundIs, ComponentIs};

use format::{NO_PLACE, Refusal, answers};
use image::header;
use kind::HeaderRead;
use superblock::File;
use visit::{Link, Wanted};
use walk::blocks::Blocks;

// Where a component leads.
#[derive(Clone, Copy)]
pub enum Target {
    Object(u64),
    Symbolic,
}

// Where the entries of a sound group lead.
fn target_of(link: Link, last: bool) -> Result<Target, Refusal>
    ensures { target_of result ≡ target_walk last (link_of link) }
{
    match link {
        Link::Absent => Err(Refusal::Fault(answers::NAME_ABSENT, NO_PLACE)),
        Link::Hard(header) => Ok(Target::Object(header)),
        Link::Symbolic if last => Ok(Target::Symbolic),
        Link::Symbolic => Err(Refusal::Fault(answers::SYMBOLIC_BEFORE_LAST, NO_PLACE)),
    }
}

// A component of a path: its name, and whether it is the last one.
#[derive(Clone, Copy)]
struct PathPart<'a> {
    name: &'a [u8],
    last: bool,
}

// The component in the group with the tree and the heap at these addresses.
fn find(
    file: File<'_>,
    part: PathPart<'_>,
    blocks: &mut Blocks<'_>,
    tree: u64,
    heap: u64,
) -> Result<Target, Refusal>
    requires opened { Opened file.image.now file.superblock file.room }
    requires ready { Ready blocks.old.words.now file.superblock.end_of_file file.room blocks.old.count 0 }
    ensures found { FoundIs file.entry.image.now part.entry.name.now blocks.old.words.now file.entry.superblock file.entry.room tree heap
        blocks.old.count part.entry.last result }
    ensures kept { SameWords blocks.old blocks.new }
{
    let reading = group::contents::Reading {
        image: file.image,
        bounds: file.bounds(),
        leaf_k: file.superblock.leaf_k,
        internal_k: file.superblock.internal_k,
    };
    let mut wanted = Wanted {
        name: part.name,
        link: Link::Absent,
    };
    group::group::read(&reading, blocks, &mut wanted, tree, heap)?;
    target_of(wanted.link, part.last)
}

// The component, the last one or not, in the object at `at`.
pub fn component(
    file: File<'_>,
    name: &[u8],
    list: &mut [u64],
    at: u64,
    last: bool,
) -> Result<Target, Refusal>
    requires opened { Opened file.image.now file.superblock file.room }
    requires lent { Lent list.old 0 file.room }
    ensures { ComponentIs file.entry.image.now name.now file.entry.superblock file.entry.room at last result }
{
    let mut blocks = Blocks {
        words: list,
        count: 0,
    };
    superblock::enter_superblock(file.superblock, &mut blocks, file.room)?;
    let header = header::read(file.image, &mut blocks, file.bounds(), at)?;
    match header {
        HeaderRead::Group { tree, heap } => find(
            file,
            PathPart { name, last },
            &mut blocks,
            tree,
            heap,
        ),
        HeaderRead::Dataset(_) => Err(Refusal::Fault(answers::NOT_A_GROUP, NO_PLACE)),
        HeaderRead::Committed => Err(Refusal::Fault(answers::NOT_A_GROUP, NO_PLACE)),
    }
}
