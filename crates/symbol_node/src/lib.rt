// A symbol table node.
#![tactic(auto)]

ghost use Rattle.std.specs.Prelude.{◌*◌, ◌+◌};
ghost use Rattle.walk.specs.Entered.{SameWords};
ghost use Rattle.symbol_node.specs.Tree.{Descending, SymbolsAre};

use format::{Refusal, answers};
use range::Name;
use symbol::entry;
use symbol::entry::{Group, NameRange};
use visit::Visitor;
use walk::blocks::Blocks;
use walk::kinds;
use walk::numbers::{u16_at, u32_at};

// The signature SNOD as a number, the lowest byte first.
const SNOD: u64 = 0x444f4e53;

// The version of a symbol table node.
const VERSION: u8 = 1;

// The node at `at` is entered, and its entries are read. What is returned is the last name.
pub fn symbol_node<V: Visitor>(
    group: &Group<'_>,
    blocks: &mut Blocks<'_>,
    visitor: &mut V,
    range: &NameRange,
    at: u64,
) -> Result<Name, Refusal>
    requires descending { Descending group.now.image.now group.now.strings.segment.now group.now.strings.map.now blocks.old.words.now group.now
        range.now blocks.old.count (V.links visitor.old) }
    requires ready { V.Ready visitor.old }
    ensures read { SymbolsAre group.now.image.now group.now.strings.segment.now blocks.old.words.now (V.visit visitor.old) group.now range.now at
        blocks.old.count (V.found visitor.old) blocks.new.words.now blocks.new.count (V.links visitor.new) (V.found visitor.new) result }
    ensures ready { V.Ready visitor.new }
    ensures kept { SameWords blocks.old blocks.new }
    ensures same { V.Same visitor.old visitor.new }
{
    let image = group.image;
    let k = group.leaf_k;
    blocks.enter(group.bounds, kinds::SYMBOL_NODE, at, 8 + 80 * k)?;
    let start = at as usize;
    if u32_at(image, start) != SNOD {
        return Err(Refusal::Fault(answers::WRONG_SIGNATURE, start));
    }
    if image[start + 4] != VERSION {
        return Err(Refusal::Fault(answers::WRONG_SIGNATURE, start));
    }
    let n = u16_at(image, start + 6);
    if n < 1 || 2 * k < n {
        return Err(Refusal::Fault(answers::NODE_UNSOUND, start));
    }
    entry::entries(group, visitor, range, start + 8, n as usize)
}
