// The NULs of a segment: where a string ends, and the last one.
#![tactic(auto)]

ghost use Rattle.std.specs.Prelude.{◌≤◌, length};
ghost use Rattle.nul.specs.Nul.{NulWithin, NoneFrom, LastNul};

use order::contains_at;

// Where the first NUL from `off` on stands, if it is among the next `most` bytes; else how far these reach in the segment. Byte by byte.
fn nul_near(segment: &[u8], off: usize, most: usize) -> usize
    requires { off ≤ length segment.now }
    ensures { NulWithin segment.now off most result }
{
    for i in off..segment.len() {
        if most <= i - off {
            return i;
        }
        if segment[i] == 0 {
            return i;
        }
    }
    segment.len()
}

// The same, sixteen bytes at a time. The place is what the search gives: chunks of the slice would be counted beside it.
pub fn nul_within(segment: &[u8], off: usize, most: usize) -> usize
    requires { off ≤ length segment.now }
    ensures { NulWithin segment.now off most result }
{
    let mut i = off;
    while 16 <= segment.len() - i {
        let left = most - (i - off);
        if left < 16 {
            return nul_near(segment, i, left);
        }
        if contains_at::<16>(0, segment, i) {
            return nul_near(segment, i, left);
        }
        i += 16;
    }
    nul_near(segment, i, most - (i - off))
}

// How many bytes the segment has up to its last NUL, with it, where no byte from `end` on is one; 0 if it has none. Byte by byte.
fn last_near(segment: &[u8], end: usize) -> usize
    requires end_in_bounds { end ≤ length segment.now }
    requires none_from { NoneFrom segment.now end }
    ensures { LastNul segment.now result }
{
    for i in (0..end).rev() {
        if segment[i] == 0 {
            return i + 1;
        }
    }
    0
}

// The same of the whole segment, sixteen bytes at a time from its end; here too the place is the answer.
pub fn last_nul(segment: &[u8]) -> usize
    ensures { LastNul segment.now result }
{
    let mut end = segment.len();
    while 16 <= end {
        if contains_at::<16>(0, segment, end - 16) {
            return last_near(segment, end);
        }
        end -= 16;
    }
    last_near(segment, end)
}
