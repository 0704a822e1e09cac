// The keys that bound a name: of all nodes above it the highest key before it and the lowest behind it.
#![tactic(auto)]

ghost use Rattle.std.specs.Prelude.{◌≡◌, Some};
ghost use Rattle.format.specs.Names.{below as is_below};
ghost use Rattle.range.specs.Range.{NameInside, RangeInside, name_in, at_most, Floor, HigherOf, LowerOf, Narrowed};

use order::below;

// A string of the segment: its offset, its length, and the numbers of its first eight bytes and of the next eight, by which most strings are
// compared.
#[derive(Clone, Copy)]
pub struct Name {
    pub at: usize,
    pub size: usize,
    pub first: u64,
    pub second: u64,
}

// A name is above the low key and not above the high one. Nothing bounds the names of a root, so that a range is an Option of these.
#[derive(Clone, Copy)]
pub struct Keys {
    pub low: Name,
    pub high: Name,
}

// Whether a name is below another, by their bytes.
fn bytes_below(segment: &[u8], a: Name, b: Name) -> bool
    requires name_inside { NameInside segment.now a }
    requires name_inside_2 { NameInside segment.now b }
    ensures { result ≡ is_below (name_in segment.now a) (name_in segment.now b) }
{
    let a_at = a.at;
    let a_end = a_at + a.size;
    let b_at = b.at;
    let b_end = b_at + b.size;
    below(&segment[a_at..a_end], &segment[b_at..b_end])
}

// Whether a name is below another.
pub fn name_below(segment: &[u8], a: Name, b: Name) -> bool
    requires name_inside { NameInside segment.now a }
    requires name_inside_2 { NameInside segment.now b }
    ensures { result ≡ is_below (name_in segment.now a) (name_in segment.now b) }
{
    if a.first != b.first {
        return a.first < b.first;
    }
    if a.second != b.second {
        return a.second < b.second;
    }
    bytes_below(segment, a, b)
}

// Whether a name isn't above the high key.
pub fn at_most(segment: &[u8], range: Option<Keys>, name: Name) -> bool
    requires range_inside { RangeInside segment.now range }
    requires name_inside { NameInside segment.now name }
    ensures { result ≡ at_most segment.now range (name_in segment.now name) }
{
    match range {
        Some(keys) => !name_below(segment, keys.high, name),
        None => true,
    }
}

// The higher of two keys.
fn higher(segment: &[u8], a: Name, b: Name) -> Name
    requires name_inside { NameInside segment.now a }
    requires name_inside_2 { NameInside segment.now b }
    ensures { HigherOf segment.now a b result }
{
    if bytes_below(segment, a, b) {
        return b;
    }
    a
}

// The lower of two keys.
fn lower(segment: &[u8], a: Name, b: Name) -> Name
    requires name_inside { NameInside segment.now a }
    requires name_inside_2 { NameInside segment.now b }
    ensures { LowerOf segment.now a b result }
{
    if bytes_below(segment, b, a) {
        return b;
    }
    a
}

// The string that the next name has to be above: the last name or the low key, whichever is higher. So a name is compared twice, and not
// three times.
pub fn floor(segment: &[u8], range: Option<Keys>, last: Name) -> Name
    requires range_inside { RangeInside segment.now range }
    requires name_inside { NameInside segment.now last }
    ensures { Floor segment.now range (name_in segment.now last) result }
{
    match range {
        Some(keys) => higher(segment, last, keys.low),
        None => last,
    }
}

// The range between two keys of a node inside the range of the node.
pub fn narrowed(segment: &[u8], range: Option<Keys>, low: Name, high: Name) -> Keys
    requires range_inside { RangeInside segment.now range }
    requires name_inside { NameInside segment.now low }
    requires name_inside_2 { NameInside segment.now high }
    ensures { Narrowed segment.now range low high (Some result) }
{
    match range {
        Some(outer) => Keys {
            low: higher(segment, outer.low, low),
            high: lower(segment, outer.high, high),
        },
        None => Keys { low, high },
    }
}
