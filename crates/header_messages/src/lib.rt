// All messages of an object header, version 1, over its blocks.
#![tactic(auto)]

ghost use Rattle.std.specs.Prelude.{◌+◌, ◌≤◌, ◌<◌, length, OnOk};
ghost use Rattle.format.specs.Bytes.{part};
ghost use Rattle.format.specs.Walk.{header_block, shown};
ghost use Rattle.format.specs.Header.{header_contents, header_messages};
ghost use Rattle.walk.specs.Entered.{SameWords};
ghost use Rattle.continuations.specs.Lending.{Lending, entered_in};
ghost use Rattle.continuations.specs.Continuations.{with_blocks, GatheredIs};

use continuations;
use continuations::{Cursor, Reading};
use format::{Refusal, answers};
use scan;
use scan::Span;
use sharing::MessageVisitor;
use tally::Tally;
use walk::blocks::Blocks;
use walk::numbers::{u16_at, u32_at};
use walk::{blocks, kinds};

// What stands in a header block of 16 and so many bytes more at `at`, which was entered as the last.
fn contents<V: MessageVisitor>(
    reading: Reading<'_>,
    blocks: &mut Blocks<'_>,
    found: &mut V,
    at: usize,
    size: usize,
) -> Result<Tally, Refusal>
    requires lending { Lending reading.image.now blocks.old.words.now reading blocks.old.count }
    requires counting { V.Counting found.old reading.bounds.end_of_file (entered_in blocks.old) (16 + size) }
    requires count_nonzero { 0 < blocks.old.count }
    requires size_in_bounds { at + (16 + size) ≤ length reading.image.now }
    ensures gathered_is { GatheredIs reading.entry.image.now reading.entry blocks.old.words.now blocks.old.count
        (header_contents V.visit at (V.state found.old) (shown header_block (part reading.entry.image.now at (16 + size))))
        blocks.new.words.now (V.state found.new) (with_blocks result blocks.new.count) }
    ensures counting_on { OnOk result (V.Counting found.new reading.entry.bounds.end_of_file (entered_in blocks.new) 16) }
    ensures kept { SameWords blocks.old blocks.new }
    ensures same { V.Same found.old found.new }
{
    let image = reading.image;
    if image[at] != 1 {
        return Err(Refusal::Fault(answers::NOT_READ, at));
    }
    let from = at + 16;
    let end = from + size;
    let mut tally = tally::empty();
    scan::scan_block(image, found, Span { from, end }, &mut tally)?;
    let block = blocks.count - 1;
    let cursor = Cursor {
        block,
        at: from,
        end,
    };
    continuations::follow(reading, blocks, found, cursor, &mut tally)?;
    if u16_at(image, at + 2) != tally.total as u64 {
        return Err(Refusal::Fault(answers::HEADER_UNSOUND, at));
    }
    Ok(tally)
}

// All messages of the header at `at`: its block is entered before its version is looked at.
pub fn messages<V: MessageVisitor>(
    reading: Reading<'_>,
    blocks: &mut Blocks<'_>,
    found: &mut V,
    at: u64,
) -> Result<Tally, Refusal>
    requires lending { Lending reading.image.now blocks.old.words.now reading blocks.old.count }
    requires counting { V.Counting found.old reading.bounds.end_of_file (entered_in blocks.old) 0 }
    ensures gathered_is { GatheredIs reading.entry.image.now reading.entry blocks.old.words.now blocks.old.count
        (header_messages V.visit at (V.state found.old)) blocks.new.words.now (V.state found.new)
        (with_blocks result blocks.new.count) }
    ensures counting_on { OnOk result (V.Counting found.new reading.entry.bounds.end_of_file (entered_in blocks.new) 16) }
    ensures kept { SameWords blocks.old blocks.new }
    ensures same { V.Same found.old found.new }
{
    let end_of_file = reading.bounds.end_of_file;
    if end_of_file < 16 || end_of_file - 16 < at {
        return Err(blocks::not_entered(answers::OUTSIDE, kinds::HEADER, at, 16, 0));
    }
    let start = at as usize;
    let size = u32_at(reading.image, start + 8);
    blocks.enter(reading.bounds, kinds::HEADER, at, 16 + size)?;
    contents(reading, blocks, found, start, size as usize)
}
