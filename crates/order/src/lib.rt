// Strings compared bytewise, and searched for a byte. The loops over sixteen and eight bytes have no way out, so that they are compiled to vector
// instructions. Which of two strings is below: sixteen bytes at a time, then eight or four as one number.
#![tactic(auto)]

ghost use Rattle.std.specs.Prelude.{◌≡◌, ◌+◌, ◌≤◌, ◌<◌, min, length, get_or, drop};
ghost use Rattle.format.specs.Bytes.{part, same_bytes, contains};
ghost use Rattle.format.specs.Names.{below};
ghost use Rattle.order.specs.Same.{SameStart};
ghost use Rattle.order.specs.BigEndian.{BigEndian, first_number};

// Whether the 16 bytes at `at` are the same in both. `==` of two slices leaves at the first four bytes that differ, and isn't compiled to one
// comparison of vectors.
fn same_16(a: &[u8], b: &[u8], at: usize) -> bool
    requires { (at + 16 ≤ length a.now) × (at + 16 ≤ length b.now) }
    ensures { result ≡ same_bytes (part a.now at 16) (part b.now at 16) }
{
    let mut differ: u8 = 0;
    for k in 0..16 {
        if a[at + k] != b[at + k] {
            differ = 1;
        }
    }
    differ == 0
}

// So many bytes that both begin with, in whole sixteens. Their number is the answer: chunks of both would be counted beside it.
fn same_start(a: &[u8], b: &[u8]) -> usize
    ensures { SameStart a.now b.now result }
{
    let mut i = 0;
    while 16 <= a.len() - i {
        if b.len() - i < 16 {
            return i;
        }
        if !same_16(a, b, i) {
            return i;
        }
        i += 16;
    }
    i
}

// The big-endian number of the 4 bytes at `at`. Big-endian numbers of one width are ordered as their bytes are.
fn four_at(s: &[u8], at: usize) -> u64
    requires { at + 4 ≤ length s.now }
    ensures { BigEndian s.now at 4 result }
{
    u64::from(u32::from_be_bytes(s[at..at + 4].try_into().unwrap()))
}

// The same of 8 bytes.
fn eight_at(s: &[u8], at: usize) -> u64
    requires { at + 8 ≤ length s.now }
    ensures { BigEndian s.now at 8 result }
{
    u64::from_be_bytes(s[at..at + 8].try_into().unwrap())
}

// The byte behind the first `k` of `size` bytes at `at`; 0 if it isn't there.
fn byte_or_zero(s: &[u8], at: usize, size: usize, k: usize) -> u64
    requires { at + size ≤ length s.now }
    ensures { (result ≡ get_or (part s.now at size) k 0) × (result < 256) }
{
    if k < size {
        return s[at + k] as u64;
    }
    0
}

// The number of the first eight of `size` bytes at `at`, byte by byte.
fn first_number_slow(s: &[u8], at: usize, size: usize) -> u64
    requires { at + size ≤ length s.now }
    ensures { result ≡ first_number 8 (part s.now at size) }
{
    let mut x: u64 = 0;
    for k in 0..8 {
        x = 256 * x + byte_or_zero(s, at, size, k);
    }
    x
}

// The number of the first eight of `size` bytes at `at`, with zeros for those that aren't there. Where two strings have different ones, these decide
// which is below. Eight bytes are read at once, and those behind the string are shifted out.
pub fn first_number(s: &[u8], at: usize, size: usize) -> u64
    requires { at + size ≤ length s.now }
    ensures { result ≡ first_number 8 (part s.now at size) }
{
    if s.len() - at < 8 {
        return first_number_slow(s, at, size);
    }
    if size == 0 {
        return 0;
    }
    let x = eight_at(s, at);
    if 8 <= size {
        return x;
    }
    let left = 64 - 8 * size;
    (x >> left) << left
}

// The number of the next eight bytes.
pub fn second_number(s: &[u8], at: usize, size: usize) -> u64
    requires { at + size ≤ length s.now }
    ensures { result ≡ first_number 8 (drop 8 (part s.now at size)) }
{
    if size <= 8 {
        return 0;
    }
    first_number(s, at + 8, size - 8)
}

// Whether the first is below the second, where one of them is a beginning of the other.
fn shorter(a: &[u8], b: &[u8]) -> bool
    requires { SameStart a.now b.now (min (length a.now) (length b.now)) }
    ensures { result ≡ below a.now b.now }
{
    a.len() < b.len()
}

// Whether the first is below the second, byte by byte; `end` is the lesser length.
fn below_bytes(a: &[u8], b: &[u8], end: usize) -> bool
    requires { end ≡ min (length a.now) (length b.now) }
    ensures { result ≡ below a.now b.now }
{
    for i in 0..end {
        if a[i] != b[i] {
            return a[i] < b[i];
        }
    }
    shorter(a, b)
}

// The same for fewer than 8 bytes: the first four, and then the last four, of which those that were compared are the same.
fn below_short(a: &[u8], b: &[u8], end: usize) -> bool
    requires end_value { end ≡ min (length a.now) (length b.now) }
    requires end_bound { end < 8 }
    ensures { result ≡ below a.now b.now }
{
    if end < 4 {
        return below_bytes(a, b, end);
    }
    let first_a = four_at(a, 0);
    let first_b = four_at(b, 0);
    if first_a != first_b {
        return first_a < first_b;
    }
    let last_a = four_at(a, end - 4);
    let last_b = four_at(b, end - 4);
    if last_a != last_b {
        return last_a < last_b;
    }
    shorter(a, b)
}

// The same for 8 bytes or more, the first `from` of which are the same: eight at a time, and then the last eight, of which those that were compared are
// the same. Chunks of both would leave a rest to be compared byte by byte.
fn below_long(a: &[u8], b: &[u8], from: usize, end: usize) -> bool
    requires end_value { end ≡ min (length a.now) (length b.now) }
    requires le_end { 8 ≤ end }
    requires same_start { SameStart a.now b.now from }
    ensures { result ≡ below a.now b.now }
{
    let mut i = from;
    while 8 <= end - i {
        let next_a = eight_at(a, i);
        let next_b = eight_at(b, i);
        if next_a != next_b {
            return next_a < next_b;
        }
        i += 8;
    }
    let last_a = eight_at(a, end - 8);
    let last_b = eight_at(b, end - 8);
    if last_a != last_b {
        return last_a < last_b;
    }
    shorter(a, b)
}

// Whether the first is strictly below the second. A beginning is below the whole. Sixteens are passed only where there are two or more. `<` of two slices
// compares byte by byte.
pub fn below(a: &[u8], b: &[u8]) -> bool
    ensures { result ≡ below a.now b.now }
{
    let end = a.len().min(b.len());
    if end < 8 {
        return below_short(a, b, end);
    }
    if end < 32 {
        return below_long(a, b, 0, end);
    }
    below_long(a, b, same_start(a, b), end)
}

// Whether both hold the same bytes.
pub fn same(a: &[u8], b: &[u8]) -> bool
    ensures { result ≡ same_bytes a.now b.now }
{
    a == b
}

// Whether `x` is one of the N bytes at `at`. The library's search of so few bytes is a call where it has several callers; this loop is one comparison of
// vectors.
pub fn contains_at<const N: usize>(x: u8, s: &[u8], at: usize) -> bool
    requires { at + N ≤ length s.now }
    ensures { result ≡ contains x (part s.now at N) }
{
    let mut found: u8 = 0;
    for k in 0..N {
        if x == s[at + k] {
            found = 1;
        }
    }
    found == 1
}

// Whether `x` is one of the bytes: sixteen at a time, and the last sixteen in any case, so that none is left. For 16 to 60 bytes the library's search
// of the whole slice takes twice as long.
pub fn contains(x: u8, s: &[u8]) -> bool
    ensures { result ≡ contains x s.now }
{
    if s.len() < 16 {
        return s.iter().any(|y| *y == x);
    }
    let last = s.len() - 16;
    let mut i = 0;
    while i < last {
        if contains_at::<16>(x, s, i) {
            return true;
        }
        i += 16;
    }
    contains_at::<16>(x, s, last)
}
