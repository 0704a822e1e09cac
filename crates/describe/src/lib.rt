// The description of the dataset that a path leads to.
#![tactic(auto)]

mod fields;

ghost use Rattle.std.specs.Prelude.{◌≡◌, List, [], ℕ, ◌≤◌, length, Ok, IfOk};
ghost use Rattle.walk.specs.Lent.{places_of, handed};
ghost use Rattle.format.specs.Blocks.{Block, block_list, room_of};
ghost use Rattle.format.specs.Walk.{fault, no_place, done, refused as refused_run, run};
ghost use Rattle.format.specs.Lookup.{follow as follow_run};
ghost use Rattle.format.specs.Describe.{describe_walk};
ghost use Rattle.format.specs.Answers.{describe_end, describe as describe_reply};
ghost use Rattle.superblock.specs.Superblock.{superblock_of};
ghost use Rattle.path.specs.Form.{components_of};
ghost use Rattle.dataset.specs.Dataset.{body_of, dataset_of};
ghost use Rattle.object.specs.Object.{Bounded};
ghost use Rattle.dataset_at.specs.Reader.{dataset_at_walk, Readable};
ghost use Rattle.describe.specs.Describe.{reply_of, blocks_described};

use component::Target;
use dataset::dataset::Dataset;
use dataset_at::dataset_at;
use follow;
use format::{NO_PLACE, RANK_MOST, Refusal, answers};
use message::Body;
use superblock::Superblock;
use walk::blocks;
use walk::blocks::WORK_WORDS;

// The number of blocks entered, and the dataset's fields.
#[derive(Drop)]
pub struct Description {
    pub block_count: usize,
    pub rank: usize,
    pub sizes: [u64; RANK_MOST],
    pub maxima: [u64; RANK_MOST],
    pub class: u8,
    pub version: u8,
    pub bits: u32,
    pub size: u32,
    pub shared: u64,
    pub layout_class: u8,
    pub data_address: u64,
    pub data_size: u64,
}

// The description of a dataset whose messages were read, with so many blocks entered.
fn described(image: &[u8], space: Body, dataset: Dataset, count: usize) -> Description
    requires { Readable image.now space dataset }
    ensures { (lent : ℕ) (bs : List Block) → length bs ≡ count → reply_of (block_list lent bs) (Ok result) ≡ describe_end lent
        (done (dataset_of (body_of image.now space) dataset) bs) }
{
    let rank = dataset.dimensions.rank;
    let sizes = fields::words_in(image, space, 8, rank);
    let maxima = fields::maxima_in(image, space, dataset);
    let types = fields::type_fields(dataset.datatype);
    let layouts = fields::layout_fields(dataset.layout);
    Description {
        block_count: count,
        rank,
        sizes,
        maxima,
        class: types.class,
        version: types.version,
        bits: types.bits,
        size: types.size,
        shared: types.shared,
        layout_class: layouts.class,
        data_address: layouts.address,
        data_size: layouts.size,
    }
}

// The description of the object at `at`. The list begins anew, and has the dataset's blocks at its head.
fn describe_object(
    image: &[u8],
    list: &mut [u64],
    superblock: Superblock,
    at: u64,
) -> Result<Description, Refusal>
    requires { Bounded image.now superblock }
    ensures block_count_bound { IfOk result (λ d. d.block_count ≤ places_of (length list.old)) }
    ensures by_index { (lent : ℕ) → reply_of (handed lent (blocks_described result) list.new) result ≡ describe_end lent
        (run image.now superblock.end_of_file (places_of (length list.old)) (dataset_at_walk (superblock_of superblock) at) []) }
{
    let room = blocks::places(list.len());
    let read = dataset_at(image, list, superblock, room, at)?;
    Ok(described(image, read.space, read.dataset, read.count))
}

// The description of what a path of a right form leads to in an opened image.
fn describe_path(
    image: &[u8],
    path: &[u8],
    list: &mut [u64],
    superblock: Superblock,
) -> Result<Description, Refusal>
    requires bounded { Bounded image.now superblock }
    requires in_bounds { 1 ≤ length path.now }
    ensures block_count_bound { IfOk result (λ d. d.block_count ≤ places_of (length list.old)) }
    ensures by_index { (lent : ℕ) → reply_of (handed lent (blocks_described result) list.new) result ≡ describe_end lent
        (follow_run image.now (superblock_of superblock) (places_of (length list.old)) describe_walk (refused_run (fault 20 no_place) [])
        (components_of path.now) superblock.root) }
{
    match follow::find_object(image, path, list, superblock)? {
        Target::Symbolic => Err(Refusal::Fault(answers::NOT_A_DATASET, NO_PLACE)),
        Target::Object(address) => describe_object(image, list, superblock, address),
    }
}

// The description of the dataset that a path leads to, in a working list, which has its blocks at its head.
pub fn describe_in(image: &[u8], path: &[u8], list: &mut [u64]) -> Result<Description, Refusal>
    ensures block_count_bound { IfOk result (λ d. d.block_count ≤ places_of (length list.old)) }
    ensures by_index { (lent : ℕ) → room_of lent ≡ places_of (length list.old) → reply_of (handed lent (blocks_described result) list.new) result ≡
        describe_reply image.now path.now lent }
{
    if !path::is_sound(path) {
        return Err(Refusal::Fault(answers::BAD_PATH, NO_PLACE));
    }
    let superblock = superblock::open(image).map_err(|answer| Refusal::Fault(answer, 0))?;
    describe_path(image, path, list, superblock)
}

// The description of the dataset that a path leads to. The list is lent for the blocks, four words a block, and is all zeros with a refusal.
// One function for such calls would take this one as a closure, and a trait for the count of its blocks: no plainer than these lines.
pub fn describe(image: &[u8], path: &[u8], list: &mut [u64]) -> Result<Description, Refusal>
    ensures { reply_of list.new result ≡ describe_reply image.now path.now (length list.old) }
{
    let mut work = [0u64; WORK_WORDS];
    let n = blocks::work_words(blocks::room(list.len()));
    match describe_in(image, path, &mut work[..n]) {
        Ok(description) => {
            blocks::hand_over(list, &work, description.block_count);
            Ok(description)
        }
        Err(refusal) => {
            blocks::clear_from(list, 0);
            Err(refusal)
        }
    }
}
