// The whole tree of a group, from its root.
#![tactic(auto)]

ghost use Rattle.std.specs.Prelude.{◌+◌};
ghost use Rattle.walk.specs.Entered.{SameWords};
ghost use Rattle.symbol_node.specs.Tree.{Fixed, Sound};
ghost use Rattle.tree.specs.Tree.{HeightAt, TreeIs};

use format::{Refusal, answers};
use range::Name;
use subtree::{Top, subtree};
use symbol::entry::{Group, NameRange};
use visit::Visitor;
use walk::blocks::Blocks;
use walk::numbers::u16_at;

// The height of a root with entries; 0 for an empty one, and where it doesn't lie inside the image: then reading it answers.
fn root_height(image: &[u8], at: u64) -> u64
    ensures { HeightAt image.now at result }
{
    let place = at as usize;
    if image.len() < 32 || image.len() - 32 < place {
        return 0;
    }
    if u16_at(image, place + 6) == 0 {
        return 0;
    }
    let level = image[place + 5];
    level as u64 + 1
}

// The whole tree, from its root. A root with entries is a subtree of its own level; an empty one has level 0. `last` is the name that all names have to
// be above; what is returned is the last name.
pub fn tree<V: Visitor>(
    group: &Group<'_>,
    blocks: &mut Blocks<'_>,
    visitor: &mut V,
    at: u64,
    last: Name,
) -> Result<Name, Refusal>
    requires fixed { Fixed group.now.image.now group.now.strings.segment.now group.now.strings.map.now group.now }
    requires sound { Sound group.now.strings.segment.now blocks.old.words.now group.now blocks.old.count (V.links visitor.old) last }
    requires ready { V.Ready visitor.old }
    ensures read { TreeIs group.now.image.now group.now.strings.segment.now blocks.old.words.now (V.visit visitor.old) group.now at last
        blocks.old.count (V.found visitor.old) blocks.new.words.now blocks.new.count (V.links visitor.new) (V.found visitor.new) result }
    ensures ready { V.Ready visitor.new }
    ensures kept { SameWords blocks.old blocks.new }
    ensures same { V.Same visitor.old visitor.new }
{
    let height = root_height(group.image, at);
    if height != 0 {
        let whole = NameRange { keys: None, last };
        return subtree(group, blocks, visitor, &whole, Top { height, at });
    }
    let root = node::read_node(group, blocks, at)?;
    let inner = root.level != 0;
    if inner {
        return Err(Refusal::Fault(answers::NODE_UNSOUND, at as usize));
    }
    Ok(last)
}
