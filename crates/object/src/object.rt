// One object of the audit: its header, then what stands behind it.
ghost use Rattle.std.specs.Prelude.{◌<◌, ◌≡◌, length};
ghost use Rattle.format.specs.Limits.{objects_most};
ghost use Rattle.format.specs.Header.{group as group_object};
ghost use Rattle.format.specs.Object.{content_walk, object_walk};
ghost use Rattle.walk.specs.Entered.{SameWords};
ghost use Rattle.sharing.specs.Lent.{SameFound};
ghost use Rattle.superblock.specs.Superblock.{superblock_of};
ghost use Rattle.object.specs.Object.{Opened, dataset_of, DatasetInside, KnownAt, ListedWith, WalkedWith};

use continuations::Reading;
use dataset::dataset::{head_of, read_parts, read_storage};
use format::{Refusal, answers};
use image::header;
use kind::HeaderRead;
use message::Bodies;
use sharing::Found;
use superblock::File;
use walk::blocks::Blocks;

// A group: its hard links are counted.
fn read_group(
    file: File<'_>,
    blocks: &mut Blocks<'_>,
    found: &mut Found<'_, '_>,
    tree: u64,
    heap: u64,
) -> Result<(), Refusal>
    requires opened { Opened file.image.now file.superblock file.room }
    requires listed { ListedWith file blocks.old found.old 0 }
    ensures walked { WalkedWith file.entry blocks.old found.old (content_walk (superblock_of file.entry.superblock) (group_object tree heap))
        blocks.new found.new result }
    ensures kept { SameWords blocks.old blocks.new }
    ensures kept_found { SameFound found.old found.new }
{
    let reading = group::contents::Reading {
        image: file.image,
        bounds: file.bounds(),
        leaf_k: file.superblock.leaf_k,
        internal_k: file.superblock.internal_k,
    };
    group::group::read(&reading, blocks, found.objects, tree, heap)
}

// A dataset: what its datatype shares is discovered where that message is read, before the layout.
fn read_dataset(
    file: File<'_>,
    blocks: &mut Blocks<'_>,
    found: &mut Found<'_, '_>,
    bodies: Bodies,
) -> Result<(), Refusal>
    requires listed { ListedWith file blocks.old found.old 1 }
    requires bodies_inside { DatasetInside file bodies }
    ensures walked { WalkedWith file.entry blocks.old found.old (content_walk (superblock_of file.entry.superblock) (dataset_of file.entry bodies))
        blocks.new found.new result }
    ensures kept { SameWords blocks.old blocks.new }
    ensures kept_found { SameFound found.old found.new }
{
    let parts = read_parts(file.image, bodies)?;
    found
        .share_type(parts.datatype)
        .map_err(|answer| Refusal::Fault(answer, head_of(bodies.datatype)))?;
    read_storage(file.image, blocks, file.bounds(), bodies, parts)?;
    Ok(())
}

// The object at the place `i` of the table is no committed datatype: 10 if it was shared, at its header.
fn known(found: &mut Found<'_, '_>, i: usize, at: usize) -> Result<(), Refusal>
    requires { i < length found.old.marks.now }
    ensures known { KnownAt found.old i at found.new result }
    ensures objects { found.new.objects ≡ found.old.objects }
    ensures kept_found { SameFound found.old found.new }
{
    if !found.not_committed(i) {
        return Err(Refusal::Fault(answers::HEADER_UNSOUND, at));
    }
    Ok(())
}

// The object at the place `i` of the table, whose header stands at `at`.
pub fn read(
    file: File<'_>,
    blocks: &mut Blocks<'_>,
    found: &mut Found<'_, '_>,
    i: usize,
    at: u64,
) -> Result<(), Refusal>
    requires opened { Opened file.image.now file.superblock file.room }
    requires listed { ListedWith file blocks.old found.old 0 }
    requires i_lt_objects_most { i < objects_most }
    ensures walked { WalkedWith file.entry blocks.old found.old (object_walk (superblock_of file.entry.superblock) i at) blocks.new found.new result }
    ensures kept { SameWords blocks.old blocks.new }
    ensures kept_found { SameFound found.old found.new }
{
    let reading = Reading {
        image: file.image,
        bounds: file.bounds(),
    };
    let header = header::read_with(reading, blocks, found, at)?;
    let start = at as usize;
    match header {
        HeaderRead::Committed => Ok(()),
        HeaderRead::Dataset(bodies) => {
            known(found, i, start)?;
            read_dataset(file, blocks, found, bodies)
        }
        HeaderRead::Group { tree, heap } => {
            known(found, i, start)?;
            read_group(file, blocks, found, tree, heap)
        }
    }
}
