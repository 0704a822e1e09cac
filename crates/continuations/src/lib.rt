// The continuations of a header. They are a queue: each is entered when its turn comes and read whole before the next. The
// header's blocks stand one after the other in the block list, so that a cursor over their messages finds the next one.
#![tactic(auto)]

ghost use Rattle.std.specs.Prelude.{List, ℕ, ◌+◌, ◌*◌, ◌≤◌, ◌<◌, length, OnOk};
ghost use Rattle.format.specs.Limits.{blocks_most};
ghost use Rattle.format.specs.Message.{Message};
ghost use Rattle.format.specs.Header.{continuations};
ghost use Rattle.tally.specs.Tally.{Tallied, HasTally};
ghost use Rattle.walk.specs.Entered.{SameWords};
ghost use Rattle.scan.specs.Scan.{with_tally};
ghost use Rattle.continuations.specs.Lending.{Lending, entered_in};
ghost use Rattle.continuations.specs.Continuations.{with_blocks, Waiting, Ready, Sought, BlockRead, GatheredIs};

use format::Refusal;
use scan;
use scan::Span;
use sharing::MessageVisitor;
use tally::Tally;
use walk::blocks::{Blocks, Bounds};
use walk::kinds;
use walk::numbers::{u16_at, u64_at};

// What stays the same while a header is read: the file, and what a block keeps to.
#[derive(Clone, Copy)]
pub struct Reading<'a> {
    pub image: &'a [u8],
    pub bounds: Bounds,
}

// A place among the messages of the block of this number in the list; the block's messages end at `end`.
#[derive(Clone, Copy)]
pub struct Cursor {
    pub block: usize,
    pub at: usize,
    pub end: usize,
}

// A continuation that a message names.
#[derive(Clone, Copy)]
struct Named {
    address: u64,
    size: u64,
}

// The next continuation message from the cursor on, in its own block or in one behind it. There is one if `at` is then below
// `end`.
fn seek(image: &[u8], blocks: &Blocks<'_>, cursor: Cursor) -> Cursor
    requires count_in_bounds { 4 * blocks.now.count ≤ length blocks.now.words.now }
    requires ready { Ready image.now blocks.now.words.now blocks.now.count cursor }
    ensures { (waiting : List Message) → Waiting image.now blocks.now.words.now blocks.now.count cursor waiting → Sought image.now
        blocks.now.words.now blocks.now.count result waiting }
{
    let end = cursor.end;
    let from = cursor.at;
    let at = scan::next_continuation(image, Span { from, end });
    if at < end {
        return Cursor { at, ..cursor };
    }
    for block in cursor.block + 1..blocks.count {
        let from = blocks.words[4 * block] as usize;
        let end = from + blocks.words[4 * block + 1] as usize;
        let at = scan::next_continuation(image, Span { from, end });
        if at < end {
            return Cursor { block, at, end };
        }
    }
    Cursor { at: end, ..cursor }
}

// Enters the continuation that was named, and counts its messages behind those of the tally.
fn read_block<V: MessageVisitor>(
    reading: Reading<'_>,
    blocks: &mut Blocks<'_>,
    found: &mut V,
    named: Named,
    tally: &mut Tally,
) -> Result<(), Refusal>
    requires lending { Lending reading.image.now blocks.old.words.now reading blocks.old.count }
    requires counting { V.Counting found.old reading.bounds.end_of_file (entered_in blocks.old) 16 }
    ensures read { BlockRead V.visit reading.entry.image.now blocks.old.words.now reading.entry blocks.old.count named.address
        named.size (V.state found.old) tally.old blocks.new.words.now (V.state found.new)
        (with_blocks (with_tally result tally.new) blocks.new.count) }
    ensures counting_on { OnOk result (V.Counting found.new reading.entry.bounds.end_of_file (entered_in blocks.new) 16) }
    ensures kept { SameWords blocks.old blocks.new }
    ensures same { V.Same found.old found.new }
{
    blocks.enter(
        reading.bounds,
        kinds::CONTINUATION,
        named.address,
        named.size,
    )?;
    let from = named.address as usize;
    let end = from + named.size as usize;
    scan::scan_block(reading.image, found, Span { from, end }, tally)
}

// Enters and reads the continuations that the messages from the cursor on name, and those that these name in turn: their
// messages are counted behind those of the tally. The queue grows while it is read, so that no range has its places.
pub fn follow<V: MessageVisitor>(
    reading: Reading<'_>,
    blocks: &mut Blocks<'_>,
    found: &mut V,
    cursor: Cursor,
    tally: &mut Tally,
) -> Result<(), Refusal>
    requires lending { Lending reading.image.now blocks.old.words.now reading blocks.old.count }
    requires counting { V.Counting found.old reading.bounds.end_of_file (entered_in blocks.old) 16 }
    requires ready { Ready reading.image.now blocks.old.words.now blocks.old.count cursor }
    requires has_tally { HasTally reading.image.now tally.old }
    ensures by_index { (fuel : ℕ) (waiting sofar : List Message) → blocks_most < blocks.old.count + fuel →
        Waiting reading.entry.image.now blocks.old.words.now blocks.old.count cursor waiting → Tallied reading.entry.image.now sofar tally.old →
        GatheredIs reading.entry.image.now reading.entry blocks.old.words.now blocks.old.count
        (continuations V.visit fuel waiting (record { all = sofar; found = V.state found.old })) blocks.new.words.now
        (V.state found.new) (with_blocks (with_tally result tally.new) blocks.new.count) }
    ensures counting_on { OnOk result (V.Counting found.new reading.entry.bounds.end_of_file (entered_in blocks.new) 16) }
    ensures kept { SameWords blocks.old blocks.new }
    ensures same { V.Same found.old found.new }
{
    let image = reading.image;
    let mut c = seek(image, blocks, cursor);
    while c.at < c.end {
        let at = c.at;
        let address = u64_at(image, at + 8);
        let size = u64_at(image, at + 16);
        read_block(reading, blocks, found, Named { address, size }, tally)?;
        let next = at + 8 + u16_at(image, at + 2) as usize;
        c = seek(image, blocks, Cursor { at: next, ..c });
    }
    Ok(())
}
