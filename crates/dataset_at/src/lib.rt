// The dataset at an address, walked on a block list of its own.
#![tactic(auto)]

ghost use Rattle.std.specs.Prelude.{◌≤◌, [], length};
ghost use Rattle.format.specs.Limits.{blocks_most};
ghost use Rattle.format.specs.Dataset.{dataset_walk};
ghost use Rattle.format.specs.Describe.{describe_walk};
ghost use Rattle.walk.specs.Lent.{Lent, blocks_of};
ghost use Rattle.walk.specs.Entered.{SameWords};
ghost use Rattle.message.specs.Message.{message_of};
ghost use Rattle.superblock.specs.Superblock.{superblock_of};
ghost use Rattle.dataset.specs.Dataset.{BodiesInside};
ghost use Rattle.object.specs.Object.{Opened};
ghost use Rattle.dataset_at.specs.Reader.{dataset_at_walk, ReaderIs};

use dataset::dataset::Dataset;
use format::{NO_PLACE, Refusal, answers};
use image::header;
use kind::HeaderRead;
use message::{Bodies, Body};
use superblock::Superblock;
use walk::blocks::{Blocks, Bounds};

// What the messages of a dataset say, with the body of its dataspace message and the number of blocks entered.
#[derive(Clone, Copy)]
pub struct DatasetAt {
    pub dataset: Dataset,
    pub space: Body,
    pub count: usize,
}

// A dataset with these messages.
fn read_messages(
    image: &[u8],
    blocks: &mut Blocks<'_>,
    bounds: Bounds,
    bodies: Bodies,
) -> Result<DatasetAt, Refusal>
    requires lent { Lent blocks.old.words.now blocks.old.count bounds.room }
    requires bodies_inside { BodiesInside image.now bodies.space bodies.datatype bodies.layout }
    ensures read { ReaderIs image.now bounds.end_of_file bounds.room (dataset_walk (message_of image.now 0x0001 bodies.space)
        (message_of image.now 0x0003 bodies.datatype) (message_of image.now 0x0008 bodies.layout))
        (blocks_of blocks.old.count blocks.old.words.now) blocks.old.words.now blocks.new.words.now result }
    ensures kept { SameWords blocks.old blocks.new }
{
    let dataset = dataset::dataset::read(image, blocks, bounds, bodies)?;
    Ok(DatasetAt {
        dataset,
        space: bodies.space,
        count: blocks.count,
    })
}

// The object whose header stands at `at`: 20 where it isn't a dataset.
fn read_object(
    image: &[u8],
    blocks: &mut Blocks<'_>,
    bounds: Bounds,
    at: u64,
) -> Result<DatasetAt, Refusal>
    requires lent { Lent blocks.old.words.now blocks.old.count bounds.room }
    requires room_le_blocks_most { bounds.room ≤ blocks_most }
    requires end_of_file_in_bounds { bounds.end_of_file ≤ length image.now }
    ensures read { ReaderIs image.now bounds.end_of_file bounds.room (describe_walk at)
        (blocks_of blocks.old.count blocks.old.words.now) blocks.old.words.now blocks.new.words.now result }
    ensures kept { SameWords blocks.old blocks.new }
{
    let header = header::read(image, blocks, bounds, at)?;
    match header {
        HeaderRead::Committed => Err(Refusal::Fault(answers::NOT_A_DATASET, NO_PLACE)),
        HeaderRead::Group { .. } => Err(Refusal::Fault(answers::NOT_A_DATASET, NO_PLACE)),
        HeaderRead::Dataset(bodies) => read_messages(image, blocks, bounds, bodies),
    }
}

// The dataset at `at`, on a list that begins anew with the superblock.
pub fn dataset_at(
    image: &[u8],
    list: &mut [u64],
    superblock: Superblock,
    room: usize,
    at: u64,
) -> Result<DatasetAt, Refusal>
    requires opened { Opened image.now superblock room }
    requires lent { Lent list.old 0 room }
    ensures { ReaderIs image.now superblock.end_of_file room (dataset_at_walk (superblock_of superblock) at) [] list.old
        list.new result }
{
    let mut blocks = Blocks {
        words: list,
        count: 0,
    };
    superblock::enter_superblock(superblock, &mut blocks, room)?;
    let bounds = Bounds {
        end_of_file: superblock.end_of_file,
        room,
    };
    read_object(image, &mut blocks, bounds, at)
}
