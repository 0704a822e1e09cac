// The superblock, versions 0 and 1.
#![tactic(auto)]

ghost use Rattle.std.specs.Prelude.{◌≡◌, List, [], ℕ, ◌≤◌, ◌<◌, length};
ghost use Rattle.format.specs.Superblock.{open_image, versions_read, sizes_read, addresses_read};
ghost use Rattle.format.specs.Superblock.{superblock_read, superblock_sound, superblock_fields, superblock_walk};
ghost use Rattle.format.specs.Walk.{run};
ghost use Rattle.walk.specs.Lent.{Lent, Walked, entry_end};
ghost use Rattle.walk.specs.Entered.{with_count, SameWords};
ghost use Rattle.superblock.specs.Superblock.{Shifted, superblock_of, opening_of, FieldsBounded};

use format::{Refusal, answers};
use walk::blocks::{Blocks, Bounds};
use walk::kinds;
use walk::numbers::{UNDEFINED_ADDRESS, u16_at, u32_at, u64_at};

// The signature's eight bytes as a number, the lowest first: 89 48 44 46 0d 0a 1a 0a.
const SIGNATURE: u64 = 0x0a1a0a0d46444889;

#[derive(Clone, Copy)]
pub struct Superblock {
    pub size: u64,
    pub leaf_k: u64,
    pub internal_k: u64,
    pub end_of_file: u64,
    pub root: u64,
}

// An image that was opened: its bytes, its superblock, and the room for blocks in a list.
#[derive(Clone, Copy)]
pub struct File<'a> {
    pub image: &'a [u8],
    pub superblock: Superblock,
    pub room: usize,
}

impl File<'_> {
    // What its blocks keep to.
    pub fn bounds(self) -> Bounds
        ensures { result ≡ record { end_of_file = self.entry.superblock.end_of_file; room = self.entry.room } }
    {
        Bounds {
            end_of_file: self.superblock.end_of_file,
            room: self.room,
        }
    }
}

// How far the fields behind byte 23 are moved: by 4 in version 1.
fn version_shift(image: &[u8]) -> usize
    requires { 96 ≤ length image.now }
    ensures { Shifted image.now result }
{
    if image[8] == 1 {
        return 4;
    }
    0
}

fn versions_read(image: &[u8]) -> bool
    requires { 96 ≤ length image.now }
    ensures { result ≡ versions_read image.now }
{
    if 1 < image[8] {
        return false;
    }
    if image[9] != 0 {
        return false;
    }
    if image[10] != 0 {
        return false;
    }
    image[12] == 0
}

fn sizes_read(image: &[u8]) -> bool
    requires { 96 ≤ length image.now }
    ensures { result ≡ sizes_read image.now }
{
    if image[13] != 8 {
        return false;
    }
    image[14] == 8
}

fn addresses_read(image: &[u8], shift: usize) -> bool
    requires { Shifted image.now shift }
    ensures { result ≡ addresses_read image.now }
{
    if u64_at(image, 24 + shift) != 0 {
        return false;
    }
    if u64_at(image, 32 + shift) != UNDEFINED_ADDRESS {
        return false;
    }
    u64_at(image, 48 + shift) == UNDEFINED_ADDRESS
}

fn superblock_read(image: &[u8], shift: usize) -> bool
    requires { Shifted image.now shift }
    ensures { result ≡ superblock_read image.now }
{
    if !versions_read(image) {
        return false;
    }
    if !sizes_read(image) {
        return false;
    }
    addresses_read(image, shift)
}

fn superblock_sound(image: &[u8], shift: usize) -> bool
    requires { Shifted image.now shift }
    ensures { result ≡ superblock_sound image.now }
{
    if image.len() < 96 + shift {
        return false;
    }
    if u16_at(image, 16) < 1 {
        return false;
    }
    if u16_at(image, 18) < 1 {
        return false;
    }
    if 1 < u32_at(image, 72 + shift) {
        return false;
    }
    u64_at(image, 40 + shift) <= image.len() as u64
}

fn superblock_fields(image: &[u8], shift: usize) -> Superblock
    requires { Shifted image.now shift }
    ensures result_value { superblock_of result ≡ superblock_fields image.now }
    ensures leaf_k_bound { (result.leaf_k < 65536) × (result.internal_k < 65536) }
{
    Superblock {
        size: (96 + shift) as u64,
        leaf_k: u16_at(image, 16),
        internal_k: u16_at(image, 18),
        end_of_file: u64_at(image, 40 + shift),
        root: u64_at(image, 64 + shift),
    }
}

// Reads the superblock: 1, 2, 3 and 4 in this order, or its fields.
pub fn open(image: &[u8]) -> Result<Superblock, u8>
    ensures result_value { opening_of result ≡ open_image image.now }
    ensures fields_bounded { FieldsBounded image.now result }
{
    let limits = format::the_limits();
    if image.len() < limits.image_least {
        return Err(answers::LENGTH_OUT_OF_RANGE);
    }
    if limits.image_most < image.len() {
        return Err(answers::LENGTH_OUT_OF_RANGE);
    }
    if u64_at(image, 0) != SIGNATURE {
        return Err(answers::NO_SIGNATURE);
    }
    let shift = version_shift(image);
    if !superblock_read(image, shift) {
        return Err(answers::NOT_READ);
    }
    if !superblock_sound(image, shift) {
        return Err(answers::SUPERBLOCK_UNSOUND);
    }
    Ok(superblock_fields(image, shift))
}

// Enters the superblock as the first block of a list. No byte of the image is read for it, so that the run is the same on
// every image.
pub fn enter_superblock(
    superblock: Superblock,
    blocks: &mut Blocks<'_>,
    room: usize,
) -> Result<(), Refusal>
    requires lent { Lent blocks.old.words.now 0 room }
    requires empty { blocks.old.count ≡ 0 }
    ensures walked { (im : List ℕ) → Walked blocks.old.words.now blocks.new.words.now (entry_end (with_count result blocks.new.count))
        (run im superblock.end_of_file room (superblock_walk (superblock_of superblock)) []) }
    ensures kept { SameWords blocks.old blocks.new }
{
    let bounds = Bounds {
        end_of_file: superblock.end_of_file,
        room,
    };
    blocks.enter(bounds, kinds::SUPERBLOCK, 0, superblock.size)
}
