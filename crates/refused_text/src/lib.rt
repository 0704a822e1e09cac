// The lines of a file that the audit refuses.
#![tactic(auto)]

use answer_text::{AnswerWords, KindName};
use damaged_block::block::ListedBlock;
use format::answers;
use std::fmt;
use text_line::dump::Rows;
use walk::kinds;

// The line of an answer.
#[derive(Clone, Copy)]
pub struct Answer {
    pub number: u8,
}

impl fmt::Display for Answer {
    fn fmt<W: fmt::Write>(&self, f: &mut fmt::Formatter<W>) -> fmt::Result {
        let number = self.number;
        let words = AnswerWords(number);
        writeln!(f, "answer {number}: {words}")
    }
}

// The line of the damaged block. The superblock is of no object.
#[derive(Clone, Copy)]
struct Block {
    block: ListedBlock,
}

impl fmt::Display for Block {
    fn fmt<W: fmt::Write>(&self, f: &mut fmt::Formatter<W>) -> fmt::Result {
        let name = KindName(self.block.kind);
        let address = self.block.address;
        let size = self.block.size;
        write!(f, "{name} at {address:016x}, {size} bytes")?;
        if self.block.kind != kinds::SUPERBLOCK as u64 {
            let object = self.block.object;
            write!(f, ", object {object}")?;
        }
        f.write_char('\n')
    }
}

// What the report says of a fault behind its answer.
#[derive(Clone, Copy)]
pub struct Damage {
    pub block: ListedBlock,
    pub place: u64,
    pub met: u64,
    pub block_count: usize,
}

// All lines of a refused image.
#[derive(Clone, Copy)]
pub struct Refused<'a> {
    pub image: &'a [u8],
    pub answer: u8,
    pub damage: Damage,
}

impl fmt::Display for Refused<'_> {
    fn fmt<W: fmt::Write>(&self, f: &mut fmt::Formatter<W>) -> fmt::Result {
        let line = Answer {
            number: self.answer,
        };
        write!(f, "{line}")?;
        // An image of such a length has no block to name.
        if self.answer == answers::LENGTH_OUT_OF_RANGE {
            return Ok(());
        }
        let block = Block {
            block: self.damage.block,
        };
        let place = self.damage.place;
        writeln!(f, "{block}place {place:016x}")?;
        // The block that is met has a line with the answer 6 alone.
        if self.answer == answers::OVERLAP {
            let met = self.damage.met;
            writeln!(f, "meets the block at {met:016x}")?;
        }
        let rows = Rows {
            image: self.image,
            place,
        };
        let count = self.damage.block_count;
        let blocks = if count == 1 { "block" } else { "blocks" };
        writeln!(f, "{rows}{count} {blocks} entered before")
    }
}
