// The strings of a heap's data segment: names, link values and keys. By how many bytes the segment has up to its last NUL a string ends in the segment
// or doesn't, and none is read only to know that.
#![tactic(auto)]

ghost use Rattle.std.specs.Prelude.{◌≡◌, List, ◌+◌, ◌≤◌, ◌<◌, length, drop};
ghost use Rattle.format.specs.Blocks.{Block};
ghost use Rattle.format.specs.Bytes.{part, contains};
ghost use Rattle.format.specs.Names.{before_nul, fault_number, key_text, name_text, value_text};
ghost use Rattle.nul.specs.Nul.{LastNul};
ghost use Rattle.free_list.specs.FreeBlocks.{chain, Held};
ghost use Rattle.string_ends.specs.Ends.{ends_outside, Marked};
ghost use Rattle.heap.specs.Segment.{heap_with};
ghost use Rattle.names.specs.Texts.{fault_of, TextRead, CheckedAs};
ghost use Rattle.names.specs.Sizes.{Plain, Slashless, name_size};

use format::answers;
use free_list::search::{FreeBlocks, meets_free, overlaps_free};
use nul::nul_within;
use order::{contains, contains_at};
use string_ends::ends_outside;

// The strings of a heap: its data segment, the map of the free bytes, where the free list begins and how many blocks it has, and how many bytes the
// segment has up to its last NUL.
#[derive(Clone, Copy)]
pub struct Strings<'a> {
    pub segment: &'a [u8],
    pub map: &'a [u8],
    pub head: u64,
    pub free: usize,
    pub ended: usize,
}

// What can be wrong with a string, in this order.
#[derive(Clone, Copy)]
pub enum NameFault {
    Outside,
    NoNul,
    BadForm,
    InFreeBlock,
}

// The answer to a fault of a string.
impl From<NameFault> for u8 {
    ghost from_gives = { λ f n. n ≡ fault_number (fault_of f) };

    fn from(fault: NameFault) -> u8 {
        match fault {
            NameFault::Outside | NameFault::NoNul | NameFault::BadForm | NameFault::InFreeBlock =>
                answers::HEAP_UNSOUND,
        }
    }
}

// A key: any string that ends in a NUL inside the segment.
pub fn key(segment: &[u8], ended: usize, off: u64) -> Result<(), NameFault>
    requires { LastNul segment.now ended }
    ensures { (free : List Block) → CheckedAs result (key_text (heap_with segment.now free) off) }
{
    if segment.len() as u64 <= off {
        return Err(NameFault::Outside);
    }
    if ended as u64 <= off {
        return Err(NameFault::NoNul);
    }
    Ok(())
}

// How many bytes a name has, where the string has so many, at most as many as a name may have, and no '/'; none if it is empty or ".".
fn size_unless_dot(segment: &[u8], off: usize, n: usize) -> Option<usize>
    requires segment_in_bounds { off + before_nul (drop off segment.now) < length segment.now }
    requires slashless { Slashless segment.now off n }
    ensures { result ≡ name_size segment.now off }
{
    if n == 0 {
        return None;
    }
    if n == 1 && segment[off] == b'.' {
        return None;
    }
    Some(n)
}

// How many bytes a name has, the first `passed` of which are known to be neither NUL nor '/'. One byte more than a name may have is looked at: a longer
// string has no other fault.
fn size_behind(segment: &[u8], off: usize, passed: usize) -> Option<usize>
    requires segment_in_bounds { off + before_nul (drop off segment.now) < length segment.now }
    requires passed_bound { passed ≤ 16 }
    requires plain { Plain segment.now off passed }
    ensures { result ≡ name_size segment.now off }
{
    let limits = format::the_limits();
    let from = off + passed;
    let end = nul_within(segment, from, limits.name_most + 1 - passed);
    if limits.name_most < end - off {
        return None;
    }
    if contains(b'/', &segment[from..end]) {
        return None;
    }
    size_unless_dot(segment, off, end - off)
}

// Eight if the string at `off` has so many bytes, else none.
fn eight_passed(segment: &[u8], off: usize) -> usize
    requires { off + 8 ≤ length segment.now }
    ensures { before_nul (drop off segment.now) ≡ result + before_nul (drop (off + result) segment.now) }
{
    if contains_at::<8>(0, segment, off) {
        return 0;
    }
    8
}

// How many bytes the string at `off` has, which ends in the segment: eight at once, if it has so many, then byte by byte.
fn string_size(segment: &[u8], off: usize) -> usize
    requires segment_in_bounds { off + before_nul (drop off segment.now) < length segment.now }
    requires off_in_bounds { off + 8 ≤ length segment.now }
    ensures { result ≡ before_nul (drop off segment.now) }
{
    let left = segment.len() - off;
    for k in eight_passed(segment, off)..left {
        if segment[off + k] == 0 {
            return k;
        }
    }
    left
}

// Whether one of the first `n` of sixteen bytes is a '/'.
fn has_slash(segment: &[u8], off: usize, n: usize) -> bool
    requires off_in_bounds { off + 16 ≤ length segment.now }
    requires n_bound { n ≤ 16 }
    ensures { result ≡ contains 0x2f (part segment.now off n) }
{
    if !contains_at::<16>(b'/', segment, off) {
        return false;
    }
    let end = off + n;
    contains(b'/', &segment[off..end])
}

// How many bytes the name at `off` has; none if the string there is no name: 1 to 255 bytes, no '/', and not ".". Most names end within 16 bytes.
#[inline(always)]
fn name_size(segment: &[u8], off: usize) -> Option<usize>
    requires { off + before_nul (drop off segment.now) < length segment.now }
    ensures { result ≡ name_size segment.now off }
{
    if segment.len() - off < 16 {
        return size_behind(segment, off, 0);
    }
    if !contains_at::<16>(0, segment, off) {
        if contains_at::<16>(b'/', segment, off) {
            return None;
        }
        return size_behind(segment, off, 16);
    }
    let n = string_size(segment, off);
    if has_slash(segment, off, n) {
        return None;
    }
    size_unless_dot(segment, off, n)
}

// A name of a group: how many bytes it has, without its NUL.
#[inline(always)]
pub fn name(strings: Strings<'_>, off: u64) -> Result<usize, NameFault>
    requires last_nul { LastNul strings.segment.now strings.ended }
    requires held { Held strings.segment.now strings.map.now strings.head strings.free }
    ensures { TextRead strings.entry.segment.now off result
        (name_text (heap_with strings.entry.segment.now (chain strings.entry.free strings.entry.segment.now strings.entry.head)) off) }
{
    let segment = strings.segment;
    key(segment, strings.ended, off)?;
    let start = off as usize;
    let size = name_size(segment, start).ok_or(NameFault::BadForm)?;
    let free = FreeBlocks {
        segment,
        head: strings.head,
        count: strings.free,
    };
    if free.count != 0 && meets_free(free, strings.map, start, size + 1) {
        return Err(NameFault::InFreeBlock);
    }
    Ok(size)
}

// Whether the string at `off`, which ends in the segment, has no byte in a free block, its NUL included.
fn outside_free(strings: Strings<'_>, off: usize) -> bool
    requires segment_in_bounds { off + before_nul (drop off strings.segment.now) < length strings.segment.now }
    requires held { Held strings.segment.now strings.map.now strings.head strings.free }
    requires marked { Marked strings.map.now strings.segment.now (chain strings.free strings.segment.now strings.head) }
    ensures { result ≡ ends_outside strings.entry.segment.now (chain strings.entry.free strings.entry.segment.now strings.entry.head) off }
{
    let segment = strings.segment;
    let map = strings.map;
    if map.len() != 0 {
        return ends_outside(segment, map, off);
    }
    let end = nul_within(segment, off, segment.len() - off);
    let free = FreeBlocks {
        segment,
        head: strings.head,
        count: strings.free,
    };
    !overlaps_free(free, off as u64, (end - off + 1) as u64)
}

// The value of a symbolic link.
#[inline(always)]
pub fn value(strings: Strings<'_>, off: u64) -> Result<(), NameFault>
    requires last_nul { LastNul strings.segment.now strings.ended }
    requires held { Held strings.segment.now strings.map.now strings.head strings.free }
    requires marked { Marked strings.map.now strings.segment.now (chain strings.free strings.segment.now strings.head) }
    ensures { CheckedAs result (value_text (heap_with strings.entry.segment.now (chain strings.entry.free strings.entry.segment.now strings.entry.head)) off) }
{
    key(strings.segment, strings.ended, off)?;
    if strings.free != 0 && !outside_free(strings, off as usize) {
        return Err(NameFault::InFreeBlock);
    }
    Ok(())
}
