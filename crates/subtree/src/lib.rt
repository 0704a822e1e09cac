// What hangs below a node of a group's tree: a symbol table node, or a node with its children.
#![tactic(auto)]

ghost use Rattle.std.specs.Prelude.{◌+◌, Some};
ghost use Rattle.range.specs.Range.{RangeInside};
ghost use Rattle.key.specs.Key.{KeyAt};
ghost use Rattle.walk.specs.Entered.{SameWords};
ghost use Rattle.symbol_node.specs.Tree.{Descending};
ghost use Rattle.subtree.specs.Subtree.{ChildRange, SubtreeIs};

use format::Refusal;
use key::key_at;
use range::{Keys, Name};
use symbol::entry::{Group, NameRange};
use symbol_node;
use visit::Visitor;
use walk::blocks::Blocks;
use walk::numbers::u64_at;

// The range of a child: between the key at `at` and the one behind the child's address.
#[inline(always)]
fn child_range(group: &Group<'_>, range: Option<Keys>, at: usize) -> Keys
    requires range_inside { RangeInside group.now.strings.segment.now range }
    requires key_at { KeyAt group.now.image.now group.now.strings.segment.now at }
    requires key_at_2 { KeyAt group.now.image.now group.now.strings.segment.now (at + 16) }
    ensures { ChildRange group.now.image.now group.now.strings.segment.now range at (Some result) }
{
    let image = group.image;
    let segment = group.strings.segment;
    let low = key_at(image, segment, at);
    let high = key_at(image, segment, at + 16);
    range::narrowed(segment, range, low, high)
}

// The top of a subtree: its height, 0 for a symbol table node, and its address.
#[derive(Clone, Copy)]
pub struct Top {
    pub height: u64,
    pub at: u64,
}

// What hangs below a node: at height 0 a symbol table node, at any other height a node of a level one lower. What is returned is the last name.
pub fn subtree<V: Visitor>(
    group: &Group<'_>,
    blocks: &mut Blocks<'_>,
    visitor: &mut V,
    range: &NameRange,
    top: Top,
) -> Result<Name, Refusal>
    requires descending { Descending group.now.image.now group.now.strings.segment.now group.now.strings.map.now blocks.old.words.now group.now
        range.now blocks.old.count (V.links visitor.old) }
    requires ready { V.Ready visitor.old }
    ensures read { SubtreeIs group.now.image.now group.now.strings.segment.now blocks.old.words.now (V.visit visitor.old) group.now range.now top
        blocks.old.count (V.found visitor.old) blocks.new.words.now blocks.new.count (V.links visitor.new) (V.found visitor.new) result }
    ensures ready { V.Ready visitor.new }
    ensures kept { SameWords blocks.old blocks.new }
    ensures same { V.Same visitor.old visitor.new }
{
    if top.height == 0 {
        return symbol_node::symbol_node(group, blocks, visitor, range, top.at);
    }
    let entries = node::read_branch(group, blocks, top.height - 1, top.at)?;
    let from = top.at as usize + 24;
    let mut last = range.last;
    for i in 0..entries {
        let here = from + 16 * i;
        let inner = child_range(group, range.keys, here);
        let next = NameRange {
            keys: Some(inner),
            last,
        };
        let child = Top {
            height: top.height - 1,
            at: u64_at(group.image, here + 8),
        };
        last = subtree(group, blocks, visitor, &next, child)?;
    }
    Ok(last)
}
