// Which strings of a segment end outside its free blocks: found once for all cells of the map, so that a string of any length is judged
// by the bytes of one cell.
#![tactic(auto)]

ghost use Rattle.std.specs.Prelude.{List, ◌≡◌, ◌*◌, ◌/◌, ◌≤◌, ◌<◌, length};
ghost use Rattle.format.specs.Blocks.{Block};
ghost use Rattle.free_map.specs.FreeMap.{MapOf};
ghost use Rattle.string_ends.specs.Ends.{ends_outside, marked, Marked};
ghost use Rattle.string_ends.specs.Cells.{CellOf, Remarked};

use free_map::{cell, free_end, free_start};
use order::contains_at;

// The number of a marked cell without a free byte, and of a cell whose bytes are all free.
const MARKED: u8 = 17;

const FREE: u8 = 16;

// Whether a cell of this number is marked.
fn is_marked(v: u8) -> bool
    ensures { result ≡ marked v }
{
    if v < 17 {
        return false;
    }
    v < 33
}

// The number of a cell, marked or not; one with a free byte at its end stays.
fn remarked(v: u8, ends: bool) -> u8
    ensures { Remarked v ends result }
{
    if 33 <= v {
        return v;
    }
    let start = free_start(v);
    if start == 16 {
        return v;
    }
    if ends {
        return start + 17;
    }
    start
}

// Whether the string at `off` ends outside the free blocks, by the number of its cell. Up to the cell's end the first NUL or free byte decides,
// else the mark.
fn ends_in_cell(segment: &[u8], v: u8, off: usize) -> bool
    ensures { (bs : List Block) → CellOf segment.now bs (off / 16) v → result ≡ ends_outside segment.now bs off }
{
    if off % 16 < free_start(v) as usize {
        return false;
    }
    let start = off - off % 16;
    let end = 16 - free_end(v) as usize;
    for k in off % 16..end {
        if segment.len() <= start + k {
            return false;
        }
        if segment[start + k] == 0 {
            return true;
        }
    }
    is_marked(v)
}

// The same of the string at the start of cell `c`. Of a cell that has no NUL, sixteen bytes are looked at at once.
fn ends_at(segment: &[u8], v: u8, c: usize) -> bool
    ensures { (bs : List Block) → CellOf segment.now bs c v → result ≡ ends_outside segment.now bs (16 * c) }
{
    let whole = segment.len() / 16;
    if whole < c {
        return false;
    }
    if whole == c {
        return ends_in_cell(segment, v, 16 * c);
    }
    if 0 < free_start(v) {
        return false;
    }
    if contains_at::<16>(0, segment, 16 * c) {
        return ends_in_cell(segment, v, 16 * c);
    }
    is_marked(v)
}

// Whether the string at `off` ends in a NUL inside the segment, with no byte of it, its NUL included, in a free block. In a marked cell without a
// free byte every string does, whichever byte decides.
pub fn ends_outside(segment: &[u8], map: &[u8], off: usize) -> bool
    requires { off < length segment.now }
    ensures { (bs : List Block) → MapOf map.now segment.now bs → Marked map.now segment.now bs →
        0 < length map.now → result ≡ ends_outside segment.now bs off }
{
    let v = cell(map, off / 16);
    if v == MARKED {
        return true;
    }
    ends_in_cell(segment, v, off)
}

// The number `w` of the cell before cell `c`, marked or not, by the number `v` of cell `c`. Where there is no string to mark, and where one that
// ends outside goes on in cell `c` without a free byte, no byte of the segment is looked at.
fn number_before(segment: &[u8], w: u8, v: u8, c: usize) -> u8
    ensures { (bs : List Block) → CellOf segment.now bs c v → Remarked w (ends_outside segment.now bs (16 * c)) result }
{
    if w == FREE {
        return FREE;
    }
    if v == MARKED {
        return remarked(w, true);
    }
    remarked(w, ends_at(segment, v, c))
}

// Marks the cells behind which a string begins that ends outside the free blocks, from the last cell on. The number of the cell marked last is
// kept in `v`, and not read again.
pub fn mark(segment: &[u8], map: &mut [u8])
    requires { length segment.now ≤ 16 * length map.old }
    ensures { (bs : List Block) → MapOf map.old segment.now bs → MapOf map.new segment.now bs ×
        Marked map.new segment.now bs }
{
    let mut v: u8 = 0;
    for c in (0..map.len()).rev() {
        v = number_before(segment, map[c], v, c + 1);
        map[c] = v;
    }
}
