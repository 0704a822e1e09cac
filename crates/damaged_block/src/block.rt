// The damaged block: the one in which a fault was met, or the one that can't be entered.
ghost use Rattle.std.specs.Prelude.{◌≡◌, ◌+◌, ◌*◌, ◌≤◌, List, length};
ghost use Rattle.format.specs.Blocks as definitions;
ghost use Rattle.format.specs.Blocks.{Block, no_object, block_words};
ghost use Rattle.format.specs.Report as reports;
ghost use Rattle.damaged_block.specs.Block.{listed_of, four_at};

use format::{IMAGE_LEAST, Refusal, answers};
use walk::kinds;
use walk::numbers::UNDEFINED_ADDRESS;
use walk::owner::{last_owner, owner_after};

// A block as the list has it.
#[derive(Clone, Copy)]
pub struct ListedBlock {
    pub address: u64,
    pub size: u64,
    pub kind: u64,
    pub object: u64,
}

// Where there is no block to name.
pub fn no_block() -> ListedBlock
    ensures { listed_of result ≡ reports.no_block }
{
    ListedBlock {
        address: 0,
        size: 0,
        kind: 0,
        object: 0,
    }
}

// The superblock of an image that can't be opened, as much of it as every image has. With 1 that isn't there either.
pub fn superblock_head(answer: u8) -> ListedBlock
    ensures { listed_of result ≡ reports.unopened_block answer }
{
    let short = answer == answers::LENGTH_OUT_OF_RANGE;
    if short {
        return no_block();
    }
    ListedBlock {
        address: 0,
        size: IMAGE_LEAST as u64,
        kind: kinds::SUPERBLOCK as u64,
        object: UNDEFINED_ADDRESS,
    }
}

// Whether the byte `place` lies in the `size` bytes at `at`.
fn holds_byte(at: u64, size: u64, place: u64) -> bool
    ensures { result ≡ reports.holds_byte (definitions.block at size) place }
{
    at <= place && place - at < size
}

// Block number `i` of the list.
fn listed(list: &[u64], i: usize) -> ListedBlock
    requires { 4 * i + 4 ≤ length list.now }
    ensures { listed_of result ≡ four_at list.now i }
{
    ListedBlock {
        address: list[4 * i],
        size: list[4 * i + 1],
        kind: list[4 * i + 2],
        object: list[4 * i + 3],
    }
}

// The block in which the byte `place` lies, of the blocks whose words these are.
fn holding(list: &[u64], place: u64) -> ListedBlock
    ensures { (bs : List Block) → list.now ≡ block_words no_object bs → listed_of result ≡ reports.holding no_object bs place }
{
    let count = list.len() / 4;
    for i in 0..count {
        if holds_byte(list[4 * i], list[4 * i + 1], place) {
            return listed(list, i);
        }
    }
    no_block()
}

// A block that can't be entered behind the others is of the object whose walk wants it.
fn refused_block(list: &[u64], kind: u8, at: u64, size: u64) -> ListedBlock
    ensures { (bs : List Block) → list.now ≡ block_words no_object bs → listed_of result ≡ reports.listed_block at size kind
        (definitions.owner_after (definitions.last_owner no_object bs) kind) }
{
    ListedBlock {
        address: at,
        size,
        kind: kind as u64,
        object: owner_after(last_owner(list), kind),
    }
}

// The damaged block of a refusal, behind the blocks entered, whose words the list is.
pub fn damaged(list: &[u64], refusal: Refusal) -> ListedBlock
    ensures { (bs : List Block) → list.now ≡ block_words no_object bs → listed_of result ≡ reports.damaged bs refusal }
{
    match refusal {
        Refusal::Fault(_, at) => holding(list, at as u64),
        Refusal::NotEntered {
            number: _,
            kind,
            at,
            size,
            met: _,
        } => refused_block(list, kind, at, size),
    }
}

// The place of the fault, or the address of the block that can't be entered.
pub fn damage_place(refusal: Refusal) -> u64
    ensures { result ≡ reports.damage_place refusal }
{
    match refusal {
        Refusal::Fault(_, at) => at as u64,
        Refusal::NotEntered {
            number: _,
            kind: _,
            at,
            size: _,
            met: _,
        } => at,
    }
}
