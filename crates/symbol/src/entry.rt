// The entries of a symbol table node.
ghost use Rattle.std.specs.Prelude.{ℕ, ◌+◌, ◌*◌, ◌^◌, ◌≤◌, ◌<◌, length};
ghost use Rattle.free_list.specs.FreeBlocks.{chain};
ghost use Rattle.segment.specs.Segment.{Known};
ghost use Rattle.range.specs.Range.{name_in, Floor};
ghost use Rattle.symbol.specs.Entry.{ValueIs, Ready, NameSound, Between, EntryIs, EntriesAre};
ghost use Rattle.symbol.specs.declared.entry.NameRange.{NameRange};

use format::{Refusal, answers};
use names::Strings;
use range::{Keys, Name};
use visit::{Entry, Visitor};
use walk::blocks::Bounds;
use walk::numbers::{u32_at, u64_at};

// What stays the same over the whole descent: the image, the strings of the group's heap, what blocks keep to, and the superblock's two K.
#[derive(Clone, Copy)]
pub struct Group<'a> {
    pub image: &'a [u8],
    pub strings: Strings<'a>,
    pub bounds: Bounds,
    pub leaf_k: u64,
    pub internal_k: u64,
}

// Where the next name has to be: between the keys above it in the tree, and above the last name.
#[derive(Clone, Copy)]
pub struct NameRange {
    pub keys: Option<Keys>,
    pub last: Name,
}

// A symbolic link's value, at the heap offset in the first 4 scratch bytes; a hard link has none.
#[inline(always)]
fn check_value(group: &Group<'_>, kind: u64, at: usize) -> Result<(), u8>
    requires at_in_bounds { at + 40 ≤ length group.now.image.now }
    requires known { Known group.now.strings.segment.now group.now.strings.map.now group.now.strings.head group.now.strings.free
        group.now.strings.ended }
    ensures { ValueIs group.now.image.now group.now.strings.segment.now
        (chain group.now.strings.free group.now.strings.segment.now group.now.strings.head) kind at result }
{
    if kind != 2 {
        return Ok(());
    }
    let off = u32_at(group.image, at + 24);
    names::value(group.strings, off).map_err(u8::from)
}

// An entry whose name is sound and in its place: its type, its value, and the visit.
fn named_entry<V: Visitor>(
    group: &Group<'_>,
    visitor: &mut V,
    at: usize,
    name: Name,
) -> Result<Name, Refusal>
    requires at_in_bounds { at + 40 ≤ length group.now.image.now }
    requires known { Known group.now.strings.segment.now group.now.strings.map.now group.now.strings.head group.now.strings.free
        group.now.strings.ended }
    requires name_sound { NameSound group.now.image.now group.now.strings.segment.now group.now at name }
    requires ready { V.Ready visitor.old }
    requires links_bound { V.links visitor.old + 1 < 2 ^ 32 }
    ensures read { (range : NameRange) → Between group.now.strings.segment.now range name →
        EntryIs group.now.image.now group.now.strings.segment.now (V.visit visitor.old) group.now range at (V.found visitor.old)
        (V.found visitor.new) result }
    ensures ready { V.Ready visitor.new }
    ensures links { V.links visitor.new ≤ V.links visitor.old + 1 }
    ensures same { V.Same visitor.old visitor.new }
{
    let kind = u32_at(group.image, at + 16);
    let unknown = 2 < kind;
    if unknown {
        return Err(Refusal::Fault(answers::NODE_UNSOUND, at));
    }
    check_value(group, kind, at).map_err(|answer| Refusal::Fault(answer, at))?;
    let end = name.at + name.size;
    let segment = group.strings.segment;
    let entry = Entry {
        name: &segment[name.at..end],
        kind,
        header: u64_at(group.image, at + 8),
    };
    visitor
        .visit(entry)
        .ok_or(Refusal::Fault(answers::TOO_MANY_OBJECTS, at))?;
    Ok(name)
}

// The entry at `at`: its name, the place of this among names and keys, and what follows it. The name has to be above `floor`, which stands for the
// last name and the keys before it.
fn one_entry<V: Visitor>(
    group: &Group<'_>,
    visitor: &mut V,
    range: &NameRange,
    at: usize,
    floor: Name,
) -> Result<Name, Refusal>
    requires at_in_bounds { at + 40 ≤ length group.now.image.now }
    requires strings { Ready group.now.strings.segment.now group.now.strings.map.now group.now range.now }
    requires floor { Floor group.now.strings.segment.now range.now.keys (name_in group.now.strings.segment.now range.now.last) floor }
    requires ready { V.Ready visitor.old }
    requires links_bound { V.links visitor.old + 1 < 2 ^ 32 }
    ensures read { EntryIs group.now.image.now group.now.strings.segment.now (V.visit visitor.old) group.now range.now at (V.found visitor.old)
        (V.found visitor.new) result }
    ensures ready { V.Ready visitor.new }
    ensures links { V.links visitor.new ≤ V.links visitor.old + 1 }
    ensures same { V.Same visitor.old visitor.new }
{
    let segment = group.strings.segment;
    let off = u64_at(group.image, at);
    let size = names::name(group.strings, off).map_err(|f| Refusal::Fault(u8::from(f), at))?;
    let start = off as usize;
    let name = Name {
        at: start,
        size,
        first: order::first_number(segment, start, size),
        second: order::second_number(segment, start, size),
    };
    let below = range::name_below(segment, floor, name);
    if !below || !range::at_most(segment, range.keys, name) {
        return Err(Refusal::Fault(answers::NODE_UNSOUND, at));
    }
    named_entry(group, visitor, at, name)
}

// `n` entries, one after the other; the first stands at `from`. What is returned is the last name.
pub fn entries<V: Visitor>(
    group: &Group<'_>,
    visitor: &mut V,
    range: &NameRange,
    from: usize,
    n: usize,
) -> Result<Name, Refusal>
    requires n_in_bounds { from + 40 * n ≤ length group.now.image.now }
    requires strings { Ready group.now.strings.segment.now group.now.strings.map.now group.now range.now }
    requires ready { V.Ready visitor.old }
    requires links_bound { V.links visitor.old + n < 2 ^ 32 }
    ensures read { EntriesAre group.now.image.now group.now.strings.segment.now (V.visit visitor.old) group.now range.now from n (V.found visitor.old)
        (V.found visitor.new) result }
    ensures ready { V.Ready visitor.new }
    ensures links { V.links visitor.new ≤ V.links visitor.old + n }
    ensures same { V.Same visitor.old visitor.new }
{
    let keys = range.keys;
    let mut last = range.last;
    let mut floor = range::floor(group.strings.segment, keys, last);
    for i in 0..n {
        last = one_entry(
            group,
            visitor,
            &NameRange { keys, last },
            from + 40 * i,
            floor,
        )?;
        floor = last;
    }
    Ok(last)
}
