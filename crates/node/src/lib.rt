// A node of the tree.
#![tactic(auto)]

ghost use Rattle.std.specs.Prelude.{◌≤◌, ◌<◌, length};
ghost use Rattle.walk.specs.Lent.{Lent};
ghost use Rattle.walk.specs.Entered.{SameWords};
ghost use Rattle.nul.specs.Nul.{LastNul};
ghost use Rattle.node.specs.Node.{NodeIs, BranchIs};

use format::{Refusal, answers};
use symbol::entry::Group;
use walk::blocks::Blocks;
use walk::kinds;
use walk::numbers::{u16_at, u32_at};

// The signature TREE as a number, the lowest byte first.
const TREE: u64 = 0x45455254;

// The type of a node in the tree of a group.
const GROUP: u8 = 0;

// The entries that a node below the root has at least.
const FEWEST: usize = 1;

// A node that was read.
#[derive(Clone, Copy)]
pub struct NodeRead {
    pub level: u8,
    pub entries: usize,
}

// The node at `at`: entered, its signature, type, level and number of entries.
pub fn read_node(group: &Group<'_>, blocks: &mut Blocks<'_>, at: u64) -> Result<NodeRead, Refusal>
    requires lent { Lent blocks.old.words.now blocks.old.count group.now.bounds.room }
    requires end_of_file_in_bounds { group.now.bounds.end_of_file ≤ length group.now.image.now }
    requires internal_k_bound { group.now.internal_k < 65536 }
    ensures read { NodeIs group.now.image.now blocks.old.words.now group.now blocks.old.count at blocks.new.words.now blocks.new.count result }
    ensures kept { SameWords blocks.old blocks.new }
{
    let image = group.image;
    let k = group.internal_k;
    blocks.enter(group.bounds, kinds::TREE, at, 32 + 32 * k)?;
    let start = at as usize;
    if u32_at(image, start) != TREE {
        return Err(Refusal::Fault(answers::WRONG_SIGNATURE, start));
    }
    if image[start + 4] != GROUP {
        return Err(Refusal::Fault(answers::NODE_UNSOUND, start));
    }
    let limits = format::the_limits();
    let level = image[start + 5];
    if limits.level_most < level {
        return Err(Refusal::Fault(answers::NODE_UNSOUND, start));
    }
    let entries = u16_at(image, start + 6);
    if 2 * k < entries {
        return Err(Refusal::Fault(answers::NODE_UNSOUND, start));
    }
    Ok(NodeRead {
        level,
        entries: entries as usize,
    })
}

// The entries of a node below the root, or of a root that isn't empty: of this level, with an entry or more, all keys sound.
#[inline(always)]
pub fn read_branch(
    group: &Group<'_>,
    blocks: &mut Blocks<'_>,
    level: u64,
    at: u64,
) -> Result<usize, Refusal>
    requires lent { Lent blocks.old.words.now blocks.old.count group.now.bounds.room }
    requires end_of_file_in_bounds { group.now.bounds.end_of_file ≤ length group.now.image.now }
    requires internal_k_bound { group.now.internal_k < 65536 }
    requires last_nul { LastNul group.now.strings.segment.now group.now.strings.ended }
    ensures read { BranchIs group.now.image.now group.now.strings.segment.now blocks.old.words.now group.now blocks.old.count level at
        blocks.new.words.now blocks.new.count result }
    ensures kept { SameWords blocks.old blocks.new }
{
    let node = read_node(group, blocks, at)?;
    let start = at as usize;
    let own = node.level;
    if own as u64 != level {
        return Err(Refusal::Fault(answers::NODE_UNSOUND, start));
    }
    let entries = node.entries;
    if entries < FEWEST {
        return Err(Refusal::Fault(answers::NODE_UNSOUND, start));
    }
    let strings = group.strings;
    key::check_keys(
        group.image,
        strings.segment,
        strings.ended,
        start + 24,
        entries + 1,
    )?;
    Ok(entries)
}
