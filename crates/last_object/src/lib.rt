// The kind of the object that a path leads to, by its header, read on a block list of its own.
#![tactic(auto)]

ghost use Rattle.walk.specs.Lent.{Lent};
ghost use Rattle.object.specs.Object.{Opened};
ghost use Rattle.last_object.specs.Last.{KindIs};

use format::Refusal;
use image::header;
use kind::HeaderRead;
use superblock::Superblock;
use walk::blocks::{Blocks, Bounds};

// The numbers of document 01 for the kinds of objects. They stay numbers, as the reply has them in C too.
const GROUP: u8 = 1;

const DATASET: u8 = 2;

const COMMITTED_DATATYPE: u8 = 3;

// The number of the kind of the object whose header stands at `at`.
pub fn kind_at(
    image: &[u8],
    list: &mut [u64],
    superblock: Superblock,
    room: usize,
    at: u64,
) -> Result<u8, Refusal>
    requires opened { Opened image.now superblock room }
    requires lent { Lent list.old 0 room }
    ensures { KindIs image.now superblock room at result }
{
    let mut blocks = Blocks {
        words: list,
        count: 0,
    };
    superblock::enter_superblock(superblock, &mut blocks, room)?;
    let bounds = Bounds {
        end_of_file: superblock.end_of_file,
        room,
    };
    let header = header::read(image, &mut blocks, bounds, at)?;
    match header {
        HeaderRead::Group { .. } => Ok(GROUP),
        HeaderRead::Dataset(_) => Ok(DATASET),
        HeaderRead::Committed => Ok(COMMITTED_DATATYPE),
    }
}
